// Why a pair of laws is implied or refuted, by the files that stand.
ghost use Rattle.std.specs.Prelude.{◌≡◌, List, length, OnOk, IfOk, IfErr};
ghost use Rattle.etp_theory.specs.Trees.{Equation};
ghost use Rattle.etp_theory.specs.LawNumbers.{IsLaw};
ghost use Rattle.etp_theory.specs.Reach.{Reach, Covers};
ghost use Rattle.etp_laws.specs.Listing.{IsTheList};
ghost use Rattle.etp_closure.specs.Answers.{Says};
ghost use Rattle.etp_chain.specs.Evidence.{IsPath, IsCover};
ghost use Rattle.etp_ledger.specs.Files.{facts_of};
ghost use Rattle.etp_ledger.specs.Asking.{Means};
ghost use Rattle.etp_ledger.specs.Evidence.{answer_shown, IsEvidence};
ghost use Rattle.etp_ledger.specs.Refusals.{IsWhyRefused};

use crate::ledger::Ledger;
use crate::refusal::LedgerRefusal;
use etp_chain::{Cover, Facts, Path, why_implied, why_refuted};
use etp_closure::{Answer, Fact};
use std::alloc::{AllocError, Global};

/// What shows the answer to a pair: the path of one that is implied, or the refuting pair and the two
/// paths of one that is refuted. Files count from 0.
#[derive(Drop)]
pub enum Why {
    Implied(Path),
    Refuted(Cover),
    Unsettled,
}

impl Facts for Ledger {
    ghost said = { λ ledger. facts_of ledger.files };

    fn count(&self) -> u32 {
        Ledger::count(self)
    }

    fn fact(&self, at: u32) -> Option<&Fact> {
        match self.file(at) {
            None => None,
            Some((_, _, fact)) => Some(fact),
        }
    }
}

impl Ledger {
    /// What shows the answer to a pair of laws: a shortest path, with the least law at each step and
    /// the earliest file for each edge; or the earliest file that refutes the pair, with the least laws.
    pub fn why(&self, alloc: Global, e: u32, f: u32) -> Result<Why, LedgerRefusal>
        ensures listed { OnOk result (IsLaw (length self.now.closure.duals) e
            × IsLaw (length self.now.closure.duals) f) }
        ensures shows { IfOk result (λ why.
            IsEvidence self.now.closure.duals (facts_of self.now.files) e f why) }
        ensures says { IfOk result (λ why.
            Says self.now.closure.duals (facts_of self.now.files) e f (answer_shown why)) }
        ensures means { IfOk result (λ why. (laws : List Equation) → IsTheList self.now.order laws
            → Means laws e f (answer_shown why)) }
        ensures err { IfErr result (λ r. IsWhyRefused (length self.now.closure.duals) e f r) }
    {
        match self.ask(e, f) {
            Ok(Answer::Implied) => Ok(Why::Implied(self.path(alloc, e, f)?)),
            Ok(Answer::Refuted) => Ok(Why::Refuted(self.cover(alloc, e, f)?)),
            Ok(Answer::Unsettled) => Ok(Why::Unsettled),
            Err(refusal) => Err(refusal),
        }
    }

    // The path of a pair that is reached.
    fn path(&self, alloc: Global, e: u32, f: u32) -> Result<Path, AllocError>
        requires e_in { IsLaw (length self.now.closure.duals) e }
        requires f_in { IsLaw (length self.now.closure.duals) f }
        requires reached { Reach self.now.closure.duals (facts_of self.now.files) e f }
        ensures { IfOk result (λ path.
            IsPath self.now.closure.duals (facts_of self.now.files) f e path) }
    {
        let closure = self.closure();
        match why_implied(alloc, self, closure.duals(), e, f)? {
            Some(path) => Ok(path),
            None => unreachable!(),
        }
    }

    // The refuting pair of a pair that is covered, and its paths.
    fn cover(&self, alloc: Global, e: u32, f: u32) -> Result<Cover, AllocError>
        requires e_in { IsLaw (length self.now.closure.duals) e }
        requires f_in { IsLaw (length self.now.closure.duals) f }
        requires covered { Covers self.now.closure.duals (facts_of self.now.files) e f }
        ensures { IfOk result (λ cover.
            IsCover self.now.closure.duals (facts_of self.now.files) e f cover) }
    {
        let closure = self.closure();
        match why_refuted(alloc, self, closure.duals(), e, f)? {
            Some(cover) => Ok(cover),
            None => unreachable!(),
        }
    }
}
