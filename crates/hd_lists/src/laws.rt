//! What holds of targets.
ghost use Rattle.std.specs.Prelude.{◌≡◌, Some, []};
ghost use Rattle.hd_lists.specs.Asking.{IsProper, target_text};
ghost use Rattle.httparse.specs.Grammar.{ReadsRequest};
ghost use Rattle.hd_lists.specs.Requests.{head_of, request_text};
ghost use Rattle.hd_lists.specs.Hearing.{heard_in};
ghost use Rattle.hd_lists.specs.Lists.{list_called, word_of};
ghost use Rattle.hd_lists.specs.Questions.{map_question};
ghost use Rattle.hd_lists.specs.declared.question.Heard.TheVariants.{Asked};

use crate::list::Listing;
use crate::question::Question;

/// *What is asked is heard*: the target by which a question is asked is heard as that question.
pub fn what_is_asked_is_heard(question: &Question<&[u8]>)
    requires { IsProper (map_question (λ n. n.now) question.now) }
    ensures { heard_in (target_text (map_question (λ n. n.now) question.now))
        ≡ Asked (map_question (λ n. n.now) question.now) }
{
    let _ = question;
}

/// The request by which a question is asked reads as one head, and nothing is after it. Its target is heard
/// as the question.
pub fn requests_are_heard(question: &Question<&[u8]>)
    requires { IsProper (map_question (λ n. n.now) question.now) }
    ensures read { ReadsRequest (request_text (map_question (λ n. n.now) question.now))
        (head_of (map_question (λ n. n.now) question.now)) [] }
    ensures heard { heard_in (head_of (map_question (λ n. n.now) question.now)).target
        ≡ Asked (map_question (λ n. n.now) question.now) }
{
    what_is_asked_is_heard(question);
}

/// Each list is called by its word, and no other list by the same.
pub fn each_list_is_called(list: Listing)
    ensures { list_called (word_of list) ≡ Some list }
{
    let _ = list;
}
