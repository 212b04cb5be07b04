//! The lines of each kind.
ghost use Rattle.std.specs.Prelude.{◌≡◌, ◌<◌, ◌≤◌, ◌&&◌, ◌||◌, IfErr, IfSome, None, OnOk, Some, is_none};
ghost use Rattle.std.specs.Prelude.{is_some, length, not, option_map, true};
ghost use Rattle.hd_catalogue.specs.Names.{number_of};
ghost use Rattle.hd_rules.specs.declared.limits.TheConstants.{MOST_LOANS, MOST_LOAN_DAYS, MOST_RENEWALS};
ghost use Rattle.hd_catalogue.specs.Text.{as_one, as_three, as_two, is_number_to};
ghost use Rattle.hd_catalogue.specs.Lines.{are_known, are_names, branch_cause, copy_cause, copy_facts};
ghost use Rattle.hd_catalogue.specs.Lines.{name_cause, patron_cause, patron_facts, terminal_cause};
ghost use Rattle.hd_catalogue.specs.Lines.{title_cause, title_facts, title_values, with_branch};
ghost use Rattle.hd_catalogue.specs.Lines.{with_copy_line};
ghost use Rattle.hd_catalogue.specs.Lines.{with_patron, with_terminal, with_title};
ghost use Rattle.hd_catalogue.specs.Reading.{Reads};

use crate::catalogue::Catalogue;
use crate::cause::Cause;
use crate::facts::{BranchFacts, CopyFacts, PatronFacts, TitleFacts, Version};
use crate::names::Names;
use crate::terminal::TerminalFacts;
use crate::text::{is_local, is_name, is_priority, number};
use crate::values::Values;
use hd_rules::{
    BranchNo, MOST_BRANCHES, MOST_COPIES, MOST_LOAN_DAYS, MOST_LOANS, MOST_PATRONS, MOST_RENEWALS,
    MOST_TERMINALS, MOST_TITLES,
};
use std::alloc::Allocator;

/// Checks that a name is new, that what its line names is known, and that there is room for one more.
fn check_name<F: Drop, A: Allocator + Copy>(
    names: &Names<F, A>,
    name: &[u8],
    known: bool,
    most: usize,
) -> Result<(), Cause>
    ensures new { OnOk result (number_of names.now name.now ≡ None) }
    ensures known { OnOk result (known ≡ true) }
    ensures room { OnOk result (length names.now < most) }
    ensures passes { OnOk result (name_cause names.now name.now known most ≡ None) }
    ensures refused { IfErr result (λ cause. name_cause names.now name.now known most ≡ Some cause) }
{
    if names.number_of(name).is_some() {
        return Err(Cause::Double);
    }
    if !known {
        return Err(Cause::Unknown);
    }
    if names.count() >= most {
        return Err(Cause::Limit);
    }
    Ok(())
}

/// Whether three values are names.
#[tactic(auto, unfolding(crate::specs::Lines::are_names))]
fn are_names(a: &[u8], b: &[u8], c: &[u8]) -> bool
    ensures { result ≡ are_names a.now b.now c.now }
{
    is_name(a) && is_name(b) && is_name(c)
}

/// What a patron's line says, if its number is one.
fn patron_facts(loans: &[u8]) -> Option<PatronFacts>
    ensures facts { IfSome result (λ facts. facts ≡ patron_facts loans.now) }
    ensures limit { IfSome result (λ facts. facts.loan_limit ≤ MOST_LOANS) }
    ensures none { is_none result ≡ not (is_number_to MOST_LOANS loans.now) }
{
    let loan_limit = number(MOST_LOANS, loans)?;
    Some(PatronFacts { loan_limit })
}

/// The values of a title's line: name, loan days, renewals and priority, which is `N` in version 1.
fn title_values(version: Version, values: Values<'_>) -> Option<(&[u8], &[u8], &[u8], &[u8])>
    ensures { option_map (λ v. (v.0.now, v.1.now, v.2.now, v.3.now)) result
        ≡ title_values version values.entry }
{
    match version {
        Version::One => {
            let (name, days, renewals) = values.three()?;
            Some((name, days, renewals, b"N".as_slice()))
        }
        Version::Two => values.four(),
    }
}

/// What a title's line says, if its numbers are numbers.
fn title_facts(days: &[u8], renewals: &[u8], priority: &[u8]) -> Option<TitleFacts>
    ensures facts { IfSome result (λ facts. facts ≡ title_facts days.now renewals.now priority.now) }
    ensures days { IfSome result (λ facts. facts.loan_days ≤ MOST_LOAN_DAYS) }
    ensures renewals { IfSome result (λ facts. facts.renewals ≤ MOST_RENEWALS) }
    ensures none { is_none result
        ≡ (not (is_number_to MOST_LOAN_DAYS days.now) || not (is_number_to MOST_RENEWALS renewals.now)) }
{
    let loan_days = number(MOST_LOAN_DAYS, days)?;
    let renewals = number(MOST_RENEWALS, renewals)?;
    Some(TitleFacts {
        loan_days,
        renewals,
        local_priority: is_local(priority),
    })
}

impl<A: Allocator + Copy> Catalogue<A> {
    /// The branch of a name.
    #[tactic(auto, unfolding(crate::specs::Contents::branch_number, crate::specs::Contents::facts_of))]
    fn known_branch(&self, name: &[u8]) -> Option<BranchNo>
        ensures number { result ≡ number_of self.now.branches name.now }
        ensures in_range { IfSome result (λ branch. branch < length self.now.branches) }
    {
        self.branch(name)
    }

    /// What a copy's line says, if its title and its branch are known.
    #[tactic(auto, unfolding(crate::specs::Contents::title_number, crate::specs::Contents::facts_of))]
    fn copy_facts(&self, title: &[u8], home: &[u8]) -> Option<CopyFacts>
        ensures facts { IfSome result (λ facts. facts ≡ copy_facts self.now title.now home.now) }
        ensures title { IfSome result (λ facts. facts.title < length self.now.titles) }
        ensures home { IfSome result (λ facts. facts.home < length self.now.branches) }
        ensures some { is_some result ≡ are_known self.now title.now home.now }
    {
        let title = self.title(title)?;
        let home = self.known_branch(home)?;
        Some(CopyFacts { title, home })
    }

    /// Reads the values of a branch's line.
    pub(crate) fn read_branch(
        &mut self,
        alloc: A,
        long: bool,
        values: Values<'_>,
    ) -> Result<(), Cause>
        ensures { Reads (branch_cause long self.old (as_one values.entry))
            (with_branch self.old (as_one values.entry)) self.new result }
    {
        let Some(name) = values.one() else {
            return Err(Cause::Fields);
        };
        if long || !is_name(name) {
            return Err(Cause::Text);
        }
        check_name(&self.branches, name, true, MOST_BRANCHES as usize)?;
        if self.branches.define(alloc, name, BranchFacts {}).is_err() {
            return Err(Cause::Memory);
        }
        Ok(())
    }

    /// Reads the values of a terminal's line.
    pub(crate) fn read_terminal(
        &mut self,
        alloc: A,
        long: bool,
        values: Values<'_>,
    ) -> Result<(), Cause>
        ensures { Reads (terminal_cause long self.old (as_three values.entry))
            (with_terminal self.old (as_three values.entry)) self.new result }
    {
        let Some((name, password, branch)) = values.three() else {
            return Err(Cause::Fields);
        };
        if long || !are_names(name, password, branch) {
            return Err(Cause::Text);
        }
        let branch = self.known_branch(branch);
        check_name(
            &self.terminals,
            name,
            branch.is_some(),
            MOST_TERMINALS as usize,
        )?;
        let Ok(password) = Vec::from_slice(alloc, password) else {
            return Err(Cause::Memory);
        };
        let facts = TerminalFacts::new(password, branch.unwrap());
        if self.terminals.define(alloc, name, facts).is_err() {
            return Err(Cause::Memory);
        }
        Ok(())
    }

    /// Reads the values of a patron's line.
    pub(crate) fn read_patron(
        &mut self,
        alloc: A,
        long: bool,
        values: Values<'_>,
    ) -> Result<(), Cause>
        ensures { Reads (patron_cause long self.old (as_two values.entry))
            (with_patron self.old (as_two values.entry)) self.new result }
    {
        let Some((name, loans)) = values.two() else {
            return Err(Cause::Fields);
        };
        if long || !is_name(name) {
            return Err(Cause::Text);
        }
        let Some(facts) = patron_facts(loans) else {
            return Err(Cause::Number);
        };
        check_name(&self.patrons, name, true, MOST_PATRONS as usize)?;
        if self.patrons.define(alloc, name, facts).is_err() {
            return Err(Cause::Memory);
        }
        Ok(())
    }

    /// Reads the values of a title's line.
    pub(crate) fn read_title(
        &mut self,
        alloc: A,
        long: bool,
        values: Values<'_>,
    ) -> Result<(), Cause>
        ensures { Reads (title_cause long self.old (title_values self.old.settings.version values.entry))
            (with_title self.old (title_values self.old.settings.version values.entry)) self.new result }
    {
        let Some((name, days, renewals, priority)) = title_values(self.settings.version, values)
        else {
            return Err(Cause::Fields);
        };
        if long || !is_name(name) || !is_priority(priority) {
            return Err(Cause::Text);
        }
        let Some(facts) = title_facts(days, renewals, priority) else {
            return Err(Cause::Number);
        };
        check_name(&self.titles, name, true, MOST_TITLES as usize)?;
        if self.titles.define(alloc, name, facts).is_err() {
            return Err(Cause::Memory);
        }
        Ok(())
    }

    /// Reads the values of a copy's line.
    pub(crate) fn read_copy(
        &mut self,
        alloc: A,
        long: bool,
        values: Values<'_>,
    ) -> Result<(), Cause>
        ensures { Reads (copy_cause long self.old (as_three values.entry))
            (with_copy_line self.old (as_three values.entry)) self.new result }
    {
        let Some((name, title, home)) = values.three() else {
            return Err(Cause::Fields);
        };
        if long || !are_names(name, title, home) {
            return Err(Cause::Text);
        }
        let facts = self.copy_facts(title, home);
        check_name(&self.copies, name, facts.is_some(), MOST_COPIES as usize)?;
        if self.copies.define(alloc, name, facts.unwrap()).is_err() {
            return Err(Cause::Memory);
        }
        Ok(())
    }
}
