//! The names that a message may give, looked up.
ghost use Rattle.std.specs.Prelude.{◌≡◌, ◌<◌, IfSome};
ghost use Rattle.std.specs.Option.{option_copied};
ghost use Rattle.hd_catalogue.specs.Contents.{branch_number, copy_number, facts_of};
ghost use Rattle.hd_exchange.specs.Names.{if_given, if_same, title_asked};

use hd_catalogue::Catalogue;
use hd_rules::{BranchNo, CopyNo, TitleNo};
use std::alloc::Allocator;

/// The copy that a message names, if it names one; nothing where there is no such copy.
pub(crate) fn copy_if_given<A: Allocator + Copy>(
    catalogue: &Catalogue<A>,
    name: Option<&[u8]>,
) -> Option<Option<CopyNo>>
    ensures copy { result ≡ if_given (copy_number catalogue.now) (option_copied name.entry) }
    ensures known { IfSome result (λ found. IfSome found (λ copy. copy < (facts_of catalogue.now).copies)) }
{
    match name {
        Some(name) => Some(Some(catalogue.copy(name)?)),
        None => Some(None),
    }
}

/// The branch that a message names, if it names one; nothing where there is no such branch.
pub(crate) fn branch_if_given<A: Allocator + Copy>(
    catalogue: &Catalogue<A>,
    name: Option<&[u8]>,
) -> Option<Option<BranchNo>>
    ensures branch { result ≡ if_given (branch_number catalogue.now) (option_copied name.entry) }
    ensures known { IfSome result (λ found.
        IfSome found (λ branch. branch < (facts_of catalogue.now).branches)) }
{
    match name {
        Some(name) => Some(Some(catalogue.branch(name)?)),
        None => Some(None),
    }
}

/// The title that a message names by AJ, by a copy, or by both where they agree.
pub(crate) fn title_of<A: Allocator + Copy>(
    catalogue: &Catalogue<A>,
    name: Option<&[u8]>,
    copy: &Option<CopyNo>,
) -> Option<TitleNo>
    requires { IfSome copy.now (λ copy. copy < (facts_of catalogue.now).copies) }
    ensures title { result ≡ title_asked catalogue.now (option_copied name.entry) copy.now }
    ensures known { IfSome result (λ title. title < (facts_of catalogue.now).titles) }
{
    match (name, copy) {
        (None, None) => None,
        (None, Some(copy)) => Some(catalogue.title_of(*copy)),
        (Some(name), None) => catalogue.title(name),
        (Some(name), Some(copy)) => if_same(catalogue.title(name)?, catalogue.title_of(*copy)),
    }
}

/// A title, where it is the copy's.
fn if_same(title: TitleNo, of_copy: TitleNo) -> Option<TitleNo>
    ensures { result ≡ if_same (Some title) of_copy }
{
    if title == of_copy { Some(title) } else { None }
}
