ghost use Rattle.std.specs.Prelude.{◌≡◌, ◌<◌, ◌≤◌, ◌++◌, ◌∷◌, List, [], IfOk, IfErr, IfSome, OnOk, OnErr, IsTrue, ◌↔◌, MatchOption, Some, length, slice_get};
ghost use Rattle.etp_theory.specs.Trees.{Equation};
ghost use Rattle.etp_theory.specs.LawNumbers.{IsLaw};
ghost use Rattle.etp_laws.specs.Listing.{IsTheList};
ghost use Rattle.etp_laws.specs.LawLists.{AreDuals};
ghost use Rattle.etp_closure.specs.Closures.{StandsFor};
ghost use Rattle.etp_closure.specs.Answers.{Says};
ghost use Rattle.etp_closure.specs.Facts.{fact_of};
ghost use Rattle.etp_finite_body.specs.FiniteBodies.{finite_body_of};
ghost use Rattle.etp_finite_check.specs.FiniteChecks.{fact_said, IsListedBody, HasContent};
ghost use Rattle.etp_finite.specs.Files.{facts_of};
ghost use Rattle.etp_finite.specs.Accepting.{IsAccepted, AreAccepted};
ghost use Rattle.etp_finite.specs.Withdrawing.{IsWithdrawn};
ghost use Rattle.etp_finite.specs.Refusals.{IsFileRefused, IsWithdrawalRefused, IsQuestionRefused};
ghost use Rattle.etp_finite.specs.Asking.{Means, ClosureMeans};
ghost use Rattle.etp_finite.specs.Ledgers.{IsUnchanged};

use crate::facts::{add_all, find, store};
use crate::kept::{Files, Kept};
use etp_closure::{Answer, Closure, Fact};
use etp_finite_body::FiniteBody;
use etp_finite_check::{FiniteRefusal, check_finite};
use etp_laws::Laws;
use etp_proof::Label;
use indexmap::IndexMap;
use std::alloc::{AllocError, Global};
use std::marker::Model;

/// The files about finite magmas that stand, by their names and in the order in which they were
/// accepted, and the closure of what they say. The laws are those of at most four operations.
#[derive(Drop)]
pub struct FiniteLedger {
    files: Files,
    closure: Closure,
}

impl Model for FiniteLedger {
    ghost use Rattle.std.specs.Coded.{codes};
    ghost use Rattle.etp_finite.specs.Coding.{coded_tree};
    ghost use Rattle.etp_finite.specs.Ledgers.{Entries, IsLedger};
    ghost use Rattle.etp_finite.specs.Kept.{files_of};

    ghost Value = { Entries };

    ghost coded = { Prim.hlevel (codes, coded_tree) };

    ghost view = { λ l. record { files = files_of l.files.entries; closure = l.closure } };

    ghost invariant = { λ l. IsLedger (files_of l.files.entries) l.closure };
}

impl FiniteLedger {
    /// A ledger over the list of laws, without files.
    pub fn start(alloc: Global, laws: &Laws) -> Result<FiniteLedger, AllocError>
        requires { laws.now.order ≡ 4 }
        ensures files { IfOk result (λ ledger. ledger.files ≡ []) }
        ensures duals { IfOk result (λ ledger. ledger.closure.duals ≡ laws.now.duals) }
        ensures size { IfOk result (λ ledger. length ledger.closure.duals
            ≡ length laws.now.equations) }
    {
        let order = laws.order();
        prove!(order == 4);
        Ok(FiniteLedger {
            files: IndexMap::new(alloc),
            closure: Closure::start(alloc, laws.duals())?,
        })
    }

    /// Takes a file, which then stands last.
    pub fn accept(
        &mut self,
        laws: &Laws,
        name: Label,
        body: FiniteBody,
    ) -> Result<(), FiniteRefusal>
        requires order { laws.now.order ≡ 4 }
        requires few { length self.old.files < 4294967295 }
        requires listed { IsListedBody laws.now.equations (finite_body_of body) }
        requires content { HasContent (finite_body_of body) }
        ensures duals { self.new.closure.duals ≡ self.old.closure.duals }
        ensures ok { OnOk result (IsAccepted laws.now.equations self.old.files name
            (finite_body_of body)) }
        ensures files { OnOk result (self.new.files
            ≡ self.old.files ++ record { name = name; body = finite_body_of body } ∷ []) }
        ensures err { IfErr result (IsFileRefused laws.now self.old.files name
            (finite_body_of body)) }
        ensures unchanged { OnErr result (IsUnchanged self.old self.new) }
    {
        let order = laws.order();
        prove!(order == 4);
        if find(&self.files, name.as_slice()).is_some() {
            return Err(FiniteRefusal::NameTaken);
        }
        let alloc = *self.files.allocator();
        let fact = check_finite(alloc, laws, &body)?;
        let key = Vec::from_slice(alloc, name.as_slice())?;
        store(&mut self.files, &mut self.closure, key, Kept { body, fact })?;
        Ok(())
    }

    /// Takes the file of a name out; the others keep their order.
    pub fn withdraw(&mut self, name: &[u8]) -> Result<(), FiniteRefusal>
        ensures duals { self.new.closure.duals ≡ self.old.closure.duals }
        ensures ok { OnOk result (IsWithdrawn self.old.files name.now self.new.files) }
        ensures err { IfErr result (IsWithdrawalRefused self.old.files name.now) }
        ensures unchanged { OnErr result (self.new ≡ self.old) }
    {
        if find(&self.files, name).is_none() {
            return Err(FiniteRefusal::NoSuchName);
        }
        self.files.shift_remove(name);
        self.closure.clear();
        add_all(&mut self.closure, &self.files);
        Ok(())
    }

    /// What the files that stand say of a pair of laws: `Implied` where the second holds in every
    /// finite magma of the first, `Refuted` where it fails in some.
    pub fn ask(&self, e: u32, f: u32) -> Result<Answer, FiniteRefusal>
        ensures listed { OnOk result (IsLaw (length self.now.closure.duals) e
            × IsLaw (length self.now.closure.duals) f) }
        ensures says { IfOk result (Says self.now.closure.duals (facts_of self.now.files) e f) }
        ensures means { IfOk result (λ answer. (laws : List Equation) → IsTheList 4 laws
            → Means laws e f answer) }
        ensures err { IfErr result (IsQuestionRefused (length self.now.closure.duals) e f) }
    {
        let size = self.closure.size();
        if !is_law(size, e) {
            return Err(FiniteRefusal::UnknownLaw { number: e });
        }
        if !is_law(size, f) {
            return Err(FiniteRefusal::UnknownLaw { number: f });
        }
        Ok(self.closure.answer(e, f))
    }

    /// How many files stand.
    pub fn count(&self) -> u32
        ensures value { result ≡ length self.now.files }
        ensures accepted { (laws : List Equation) → IsTheList 4 laws
            → AreAccepted laws self.now.files }
    {
        self.files.len() as u32
    }

    /// The name, the body and the fact of the file at a place, counted from 0; None exactly where
    /// the place isn't below the count.
    pub fn file(&self, at: u32) -> Option<(&[u8], &FiniteBody, &Fact)>
        ensures file { MatchOption result (length self.now.files ≤ at)
            (λ shown. slice_get self.now.files at
            ≡ Some (record { name = shown.0.now; body = finite_body_of shown.1.now })) }
        ensures fact { IfSome result (λ shown. fact_of shown.2.now
            ≡ fact_said (finite_body_of shown.1.now)) }
        ensures accepted { (laws : List Equation) → IsTheList 4 laws
            → AreAccepted laws self.now.files }
    {
        match self.files.get_index(at as usize) {
            None => None,
            Some((name, kept)) => Some((name.as_slice(), &kept.body, &kept.fact)),
        }
    }

    /// The closure of what the files that stand say.
    pub fn closure(&self) -> &Closure
        ensures value { result.now ≡ self.now.closure }
        ensures stands { StandsFor self.now.closure (facts_of self.now.files) }
        ensures duals { (laws : List Equation) → IsTheList 4 laws
            → AreDuals laws self.now.closure.duals }
        ensures means { ClosureMeans self.now.closure }
    {
        &self.closure
    }
}

fn is_law(count: u32, number: u32) -> bool
    ensures { IsTrue result ↔ IsLaw count number }
{
    1 <= number && number <= count
}
