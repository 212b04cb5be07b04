//! Why the catalogue refuses a line.
ghost use Rattle.std.specs.Prelude.{◌≡◌, ◌&&◌, ◌||◌, Some, is_none, is_some, not, option_map};
ghost use Rattle.hd_rules.specs.declared.limits.TheConstants.{MOST_LOAN_DAYS, MOST_RENEWALS};
ghost use Rattle.hd_catalogue.specs.Lines.{are_names, branch_cause, copy_cause, line_cause};
ghost use Rattle.hd_catalogue.specs.Lines.{patron_cause, terminal_cause, title_cause, title_values};
ghost use Rattle.hd_catalogue.specs.Lines.{values_cause};
ghost use Rattle.hd_catalogue.specs.Text.{as_one, as_three, as_two, is_number_to, is_priority};
ghost use Rattle.hd_diagnosis.specs.Known.{contents, version_of};
ghost use Rattle.hd_diagnosis.specs.Names.{cause_of_name};

use crate::defined::Defined;
use crate::known::Known;
use hd_catalogue::{Cause, Values, is_letter, is_long, is_name, number};
use hd_rules::{
    MOST_BRANCHES, MOST_COPIES, MOST_LOAN_DAYS, MOST_LOANS, MOST_PATRONS, MOST_RENEWALS,
    MOST_TERMINALS, MOST_TITLES,
};

/// Why a name can't be defined.
fn name_cause(names: &Defined, name: &[u8], known: bool, most: usize) -> Option<Cause>
    ensures { result ≡ cause_of_name names.now name.now known most }
{
    if names.line_of(name).is_some() {
        Some(Cause::Double)
    } else if !known {
        Some(Cause::Unknown)
    } else if names.count() >= most {
        Some(Cause::Limit)
    } else {
        None
    }
}

/// Whether three values are names.
#[tactic(auto, unfolding(hd_catalogue::specs::Lines::are_names))]
fn are_names(a: &[u8], b: &[u8], c: &[u8]) -> bool
    ensures { result ≡ are_names a.now b.now c.now }
{
    is_name(a) && is_name(b) && is_name(c)
}

/// Whether these bytes are a priority.
fn is_priority(value: &[u8]) -> bool
    ensures { result ≡ is_priority value.now }
{
    is_letter(b'L', value) || is_letter(b'N', value)
}

/// Whether these bytes write a number that is at most `most`.
fn is_number(most: u32, value: &[u8]) -> bool
    ensures { result ≡ is_number_to most value.now }
{
    number(most, value).is_some()
}

/// The values of a title's line: name, loan days, renewals and priority, which is `N` in version 1.
fn title_values<'a>(
    has_priorities: bool,
    values: Values<'a>,
) -> Option<(&'a [u8], &'a [u8], &'a [u8], &'a [u8])>
    ensures { option_map (λ v. (v.0.now, v.1.now, v.2.now, v.3.now)) result
        ≡ title_values (version_of has_priorities) values.entry }
{
    if has_priorities {
        return values.four();
    }
    let (name, days, renewals) = values.three()?;
    Some((name, days, renewals, b"N".as_slice()))
}

impl Known {
    /// Why the catalogue refuses a line after the first, where just these names are defined before it.
    #[tactic(auto, unfolding(hd_catalogue::specs::Lines::line_cause))]
    pub(crate) fn cause_of(&self, line: &[u8]) -> Option<Cause>
        ensures { result ≡ line_cause (contents self.now) line.now }
    {
        self.values_cause(is_long(line), Values::of(line))
    }

    /// Why the catalogue refuses a line with these values.
    fn values_cause(&self, long: bool, values: Values<'_>) -> Option<Cause>
        ensures { result ≡ values_cause long (contents self.now) values.entry }
    {
        let mut values = values;
        let Some(kind) = values.take() else {
            return Some(Cause::Kind);
        };
        if is_letter(b'B', kind) {
            self.branch_cause(long, values)
        } else if is_letter(b'S', kind) {
            self.terminal_cause(long, values)
        } else if is_letter(b'P', kind) {
            self.patron_cause(long, values)
        } else if is_letter(b'T', kind) {
            self.title_cause(long, values)
        } else if is_letter(b'C', kind) {
            self.copy_cause(long, values)
        } else {
            Some(Cause::Kind)
        }
    }

    /// Why a branch's line is refused.
    #[tactic(auto, using(crate::proofs::NameLemmas::names_defined))]
    fn branch_cause(&self, long: bool, values: Values<'_>) -> Option<Cause>
        ensures { result ≡ branch_cause long (contents self.now) (as_one values.entry) }
    {
        let Some(name) = values.one() else {
            return Some(Cause::Fields);
        };
        if long || !is_name(name) {
            return Some(Cause::Text);
        }
        name_cause(&self.branches, name, true, MOST_BRANCHES as usize)
    }

    /// Why a terminal's line is refused.
    #[tactic(auto, using(crate::proofs::NameLemmas::names_defined))]
    fn terminal_cause(&self, long: bool, values: Values<'_>) -> Option<Cause>
        ensures { result ≡ terminal_cause long (contents self.now) (as_three values.entry) }
    {
        let Some((name, password, branch)) = values.three() else {
            return Some(Cause::Fields);
        };
        if long || !are_names(name, password, branch) {
            return Some(Cause::Text);
        }
        let known = self.branches.line_of(branch).is_some();
        name_cause(&self.terminals, name, known, MOST_TERMINALS as usize)
    }

    /// Why a patron's line is refused.
    #[tactic(auto, using(crate::proofs::NameLemmas::names_defined))]
    fn patron_cause(&self, long: bool, values: Values<'_>) -> Option<Cause>
        ensures { result ≡ patron_cause long (contents self.now) (as_two values.entry) }
    {
        let Some((name, loans)) = values.two() else {
            return Some(Cause::Fields);
        };
        if long || !is_name(name) {
            return Some(Cause::Text);
        }
        if !is_number(MOST_LOANS, loans) {
            return Some(Cause::Number);
        }
        name_cause(&self.patrons, name, true, MOST_PATRONS as usize)
    }

    /// Why a title's line is refused.
    #[tactic(auto, using(crate::proofs::NameLemmas::names_defined))]
    fn title_cause(&self, long: bool, values: Values<'_>) -> Option<Cause>
        ensures { result ≡ title_cause long (contents self.now)
            (title_values (version_of self.now.has_priorities) values.entry) }
    {
        let Some((name, days, renewals, priority)) = title_values(self.has_priorities, values)
        else {
            return Some(Cause::Fields);
        };
        if long || !is_name(name) || !is_priority(priority) {
            return Some(Cause::Text);
        }
        if !is_number(MOST_LOAN_DAYS, days) || !is_number(MOST_RENEWALS, renewals) {
            return Some(Cause::Number);
        }
        name_cause(&self.titles, name, true, MOST_TITLES as usize)
    }

    /// Why a copy's line is refused.
    #[tactic(auto, using(crate::proofs::NameLemmas::names_defined))]
    fn copy_cause(&self, long: bool, values: Values<'_>) -> Option<Cause>
        ensures { result ≡ copy_cause long (contents self.now) (as_three values.entry) }
    {
        let Some((name, title, home)) = values.three() else {
            return Some(Cause::Fields);
        };
        if long || !are_names(name, title, home) {
            return Some(Cause::Text);
        }
        let known = self.titles.line_of(title).is_some() && self.branches.line_of(home).is_some();
        name_cause(&self.copies, name, known, MOST_COPIES as usize)
    }
}
