ghost use Rattle.std.specs.Prelude.{◌≡◌, ◌<◌, ◌≤◌, ◌++◌, ◌∷◌, List, [], IfOk, IfErr, IfSome, OnOk, OnErr, IsTrue, ◌↔◌, MatchOption, Some, length, position, slice_get};
ghost use Rattle.etp_theory.specs.Trees.{Equation};
ghost use Rattle.etp_laws.specs.Listing.{IsTheList};
ghost use Rattle.etp_laws.specs.LawLists.{AreDuals};
ghost use Rattle.etp_theory.specs.LawNumbers.{IsLaw};
ghost use Rattle.etp_closure.specs.Closures.{StandsFor};
ghost use Rattle.etp_closure.specs.Answers.{Says};
ghost use Rattle.etp_closure.specs.Facts.{fact_of};
ghost use Rattle.etp_items.specs.Bodies.{body_of};
ghost use Rattle.etp_check.specs.Checks.{fact_said, IsListedBody, HasContent};
ghost use Rattle.etp_ledger.specs.Files.{facts_of, is_named};
ghost use Rattle.etp_ledger.specs.Accepting.{IsAccepted, AreAccepted, IsValidFor};
ghost use Rattle.etp_ledger.specs.Withdrawing.{IsWithdrawn};
ghost use Rattle.etp_ledger.specs.Refusals.{IsFileRefused, IsWithdrawalRefused, IsQuestionRefused};
ghost use Rattle.etp_ledger.specs.Asking.{Means, ClosureMeans};
ghost use Rattle.etp_ledger.specs.Ledgers.{IsUnchanged};

use crate::citing::{find, first_citing, goals_cited};
use crate::facts::{add_all, store};
use crate::kept::{Files, Kept};
use crate::refusal::LedgerRefusal;
use etp_check::check;
use etp_closure::{Answer, Closure, Fact};
use etp_items::Body;
use etp_laws::Laws;
use etp_proof::Label as Name;
use indexmap::IndexMap;
use std::alloc::{AllocError, Global};
use std::marker::Model;

/// The files that stand, by their names and in the order in which they were accepted, and the
/// closure of what they say.
#[derive(Drop)]
pub struct Ledger {
    order: u8,
    files: Files,
    closure: Closure,
}

impl Model for Ledger {
    ghost use Rattle.std.specs.Coded.{codes};
    ghost use Rattle.etp_ledger.specs.Coding.{coded_tree};
    ghost use Rattle.etp_ledger.specs.Ledgers.{Entries, IsLedger};
    ghost use Rattle.etp_ledger.specs.Kept.{files_of};

    ghost Value = { Entries };

    ghost coded = { Prim.hlevel (codes, coded_tree) };

    ghost view = { λ l. record { order = l.order; files = files_of l.files.entries; closure = l.closure } };

    ghost invariant = { λ l. IsLedger l.order (files_of l.files.entries) l.closure };
}

impl Ledger {
    /// A ledger over a list of laws, without files.
    pub fn start(alloc: Global, laws: &Laws) -> Result<Ledger, AllocError>
        ensures order { IfOk result (λ ledger. ledger.order ≡ laws.now.order) }
        ensures files { IfOk result (λ ledger. ledger.files ≡ []) }
        ensures duals { IfOk result (λ ledger. ledger.closure.duals ≡ laws.now.duals) }
        ensures size { IfOk result (λ ledger. length ledger.closure.duals ≡ length laws.now.equations) }
    {
        Ok(Ledger {
            order: laws.order(),
            files: IndexMap::new(alloc),
            closure: Closure::start(alloc, laws.duals())?,
        })
    }

    /// Takes a file, which then stands last. It needs the laws over which the ledger was started.
    pub fn accept(&mut self, laws: &Laws, name: Name, body: Body) -> Result<(), LedgerRefusal>
        requires laws { length laws.now.equations ≡ length self.old.closure.duals }
        requires few { length self.old.files < 4294967295 }
        requires listed { IsListedBody laws.now.equations (body_of body) }
        requires content { HasContent (body_of body) }
        ensures order { self.new.order ≡ self.old.order }
        ensures duals { self.new.closure.duals ≡ self.old.closure.duals }
        ensures ok { OnOk result (IsAccepted laws.now.equations self.old.files name (body_of body)) }
        ensures files { OnOk result (self.new.files ≡ self.old.files ++ record { name = name; body = body_of body } ∷ []) }
        ensures err { IfErr result (λ r. IsFileRefused laws.now self.old.files name (body_of body) r) }
        ensures unchanged { OnErr result (IsUnchanged self.old self.new) }
    {
        let order = laws.order();
        prove!(order == self.order);
        if find(&self.files, name.as_slice()).is_some() {
            return Err(LedgerRefusal::NameTaken);
        }
        let alloc = *self.files.allocator();
        let cited = goals_cited(alloc, &self.files, &body)?;
        let fact = match check(alloc, laws, &body, cited.as_slice()) {
            Ok(fact) => fact,
            Err(refusal) => return Err(LedgerRefusal::of(refusal)),
        };
        let key = Vec::from_slice(alloc, name.as_slice())?;
        store(&mut self.files, &mut self.closure, key, Kept { body, fact })?;
        Ok(())
    }

    /// Takes the file of a name out; the others keep their order.
    pub fn withdraw(&mut self, name: &[u8]) -> Result<(), LedgerRefusal>
        ensures order { self.new.order ≡ self.old.order }
        ensures duals { self.new.closure.duals ≡ self.old.closure.duals }
        ensures ok { OnOk result (IsWithdrawn self.old.files name.now self.new.files) }
        ensures err { IfErr result (λ r. IsWithdrawalRefused self.old.files name.now r) }
        ensures unchanged { OnErr result (self.new ≡ self.old) }
    {
        if find(&self.files, name).is_none() {
            return Err(LedgerRefusal::NoSuchName);
        }
        if let Some(by) = first_citing(&self.files, name) {
            return Err(LedgerRefusal::Cited { by });
        }
        self.files.shift_remove(name);
        self.closure.clear();
        add_all(&mut self.closure, &self.files);
        Ok(())
    }

    /// What the files that stand say of a pair of laws.
    pub fn ask(&self, e: u32, f: u32) -> Result<Answer, LedgerRefusal>
        ensures listed { OnOk result (IsLaw (length self.now.closure.duals) e × IsLaw (length self.now.closure.duals) f) }
        ensures says { IfOk result (λ answer. Says self.now.closure.duals (facts_of self.now.files) e f answer) }
        ensures means { IfOk result (λ answer. (laws : List Equation) → IsTheList self.now.order laws → Means laws e f answer) }
        ensures err { IfErr result (λ r. IsQuestionRefused (length self.now.closure.duals) e f r) }
    {
        let size = self.closure.size();
        if !is_law(size, e) {
            return Err(LedgerRefusal::UnknownLaw { number: e });
        }
        if !is_law(size, f) {
            return Err(LedgerRefusal::UnknownLaw { number: f });
        }
        Ok(self.closure.answer(e, f))
    }

    /// How many files stand.
    pub fn count(&self) -> u32
        ensures value { result ≡ length self.now.files }
        ensures accepted { (laws : List Equation) → IsTheList self.now.order laws → AreAccepted laws self.now.files }
    {
        self.files.len() as u32
    }

    /// The name, the body and the fact of the file at a place, counted from 0; None exactly where
    /// the place isn't below the count.
    pub fn file(&self, at: u32) -> Option<(&[u8], &Body, &Fact)>
        ensures file { MatchOption result (length self.now.files ≤ at) (λ shown. slice_get self.now.files at ≡ Some (record { name = shown.0.now; body = body_of shown.1.now })) }
        ensures fact { IfSome result (λ shown. fact_of shown.2.now ≡ fact_said (body_of shown.1.now)) }
        ensures valid { IfSome result (λ shown. IsValidFor self.now.order self.now.files (body_of shown.1.now)) }
        ensures accepted { (laws : List Equation) → IsTheList self.now.order laws → AreAccepted laws self.now.files }
    {
        match self.files.get_index(at as usize) {
            None => None,
            Some((name, kept)) => Some((name.as_slice(), &kept.body, &kept.fact)),
        }
    }

    /// The place of the file of a name, counted from 0; None exactly where the name doesn't stand.
    pub fn place(&self, name: &[u8]) -> Option<u32>
        ensures { result ≡ position (is_named name.now) self.now.files }
    {
        match self.files.get_index_of(name) {
            None => None,
            Some(place) => Some(place as u32),
        }
    }

    /// The closure of what the files that stand say.
    pub fn closure(&self) -> &Closure
        ensures value { result.now ≡ self.now.closure }
        ensures stands { StandsFor self.now.closure (facts_of self.now.files) }
        ensures duals { (laws : List Equation) → IsTheList self.now.order laws → AreDuals laws self.now.closure.duals }
        ensures means { ClosureMeans self.now.order self.now.closure }
    {
        &self.closure
    }
}

fn is_law(count: u32, number: u32) -> bool
    ensures { IsTrue result ↔ IsLaw count number }
{
    1 <= number && number <= count
}
