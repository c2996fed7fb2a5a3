ghost use Rattle.std.specs.Prelude.{◌≡◌, ◌<◌, ◌^◌, ◌++◌, ◌∷◌, [], ℕ, List, IfOk, OnOk, OnErr, IfSome, Some, length, slice_get, ◌&&◌};
ghost use Rattle.std.specs.Option.{option_copied};
ghost use Rattle.etp_theory.specs.LawNumbers.{IsLaw};
ghost use Rattle.etp_theory.specs.Reach.{Fact};
ghost use Rattle.etp_bits.specs.Bits.{bit};
ghost use Rattle.etp_closure.specs.Closures.{StandsFor};
ghost use Rattle.etp_closure.specs.Answers.{answer_of, Says};
ghost use Rattle.etp_report.specs.Reports.{are_equivalent, class_with, classes_with, IsInOne};
ghost use Rattle.etp_report.specs.Candidates.{implies_one, candidate_slot, IsSlot, AreCandidates, IsClassOfLeast};

use etp_bits::{Matrix, Numbers};
use etp_closure::Closure;
use std::alloc::{AllocError, Global};
use std::marker::Model;

/// The classes of equivalent laws, by their least laws.
#[derive(Drop)]
pub struct Classes {
    lists: Vec<Numbers>,
}

impl Model for Classes {
    ghost use Rattle.std.specs.Prelude.{ℕ, List, length, ◌<◌, ◌^◌};

    ghost Value = { List (List ℕ) };

    ghost view = { λ c. c.lists.items };

    ghost invariant = { λ c. length c.lists.items < 2 ^ 32 };
}

impl Classes {
    /// No classes. It takes no memory; the allocator serves later growth.
    pub fn empty(alloc: Global) -> Classes
        ensures { result ≡ [] }
    {
        Classes {
            lists: Vec::new(alloc),
        }
    }

    /// How many classes there are.
    pub fn len(&self) -> u32
        ensures { result ≡ length self.now }
    {
        self.lists.len() as u32
    }

    /// The class at a place counted from 0; None where the place isn't below the length.
    pub fn get(&self, at: u32) -> Option<&Numbers>
        ensures { option_copied result ≡ slice_get self.now at }
    {
        self.lists.get(at as usize)
    }

    /// All classes.
    pub fn as_slice(&self) -> &[Numbers]
        ensures { result.now ≡ self.now }
    {
        self.lists.as_slice()
    }

    /// Appends a class.
    pub fn push(&mut self, class: Numbers) -> Result<(), AllocError>
        requires { length self.old < 4294967295 }
        ensures ok { OnOk result (self.new ≡ self.old ++ class ∷ []) }
        ensures err { OnErr result (self.new ≡ self.old) }
    {
        self.lists.push(class)?;
        Ok(())
    }
}

fn are_equivalent(closure: &Closure, e: u32, f: u32) -> bool
    requires e_in { IsLaw (length closure.now.duals) e }
    requires f_in { IsLaw (length closure.now.duals) f }
    ensures { result ≡ are_equivalent (answer_of closure.now) e f }
{
    closure.implied(e, f) && closure.implied(f, e)
}

/// Lists the laws that imply this law and are implied by it.
pub fn class_of(alloc: Global, closure: &Closure, e: u32) -> Result<Numbers, AllocError>
    requires { IsLaw (length closure.now.duals) e }
    ensures class { IfOk result (λ class.
        class ≡ class_with (answer_of closure.now) (length closure.now.duals) e) }
    ensures says { OnOk result ((facts : List Fact) → StandsFor closure.now facts → (e f : ℕ)
        → Says closure.now.duals facts e f (answer_of closure.now e f)) }
{
    let mut class = Numbers::empty(alloc);
    for place in 0..closure.size() {
        if are_equivalent(closure, e, place + 1) {
            class.push(place + 1)?;
        }
    }
    Ok(class)
}

// Whether a law implies itself and one law in all.
fn implies_one_law(closure: &Closure, e: u32) -> bool
    requires { IsLaw (length closure.now.duals) e }
    ensures { result ≡ implies_one closure.now e }
{
    closure.implied(e, e) && closure.row_counts(e).implied == 1
}

// The slot of a law that may imply another law, or None for a law that is alone in its class.
fn candidate_slot(closure: &Closure, e: u32) -> Option<u32>
    requires { IsLaw (length closure.now.duals) e }
    ensures value { result ≡ candidate_slot closure.now e }
    ensures slot { IfSome result (IsSlot closure.now.reached) }
{
    if implies_one_law(closure, e) {
        return None;
    }
    closure.slot(e)
}

// The laws that may imply another law, rising, and the slot of each at its place.
#[derive(Drop)]
struct Candidates {
    laws: Numbers,
    slots: Numbers,
}

fn find_candidates(alloc: Global, closure: &Closure) -> Result<Candidates, AllocError>
    ensures { IfOk result (λ found. AreCandidates closure.now found.laws found.slots) }
{
    let mut laws = Numbers::empty(alloc);
    let mut slots = Numbers::empty(alloc);
    for place in 0..closure.size() {
        match candidate_slot(closure, place + 1) {
            Some(slot) => {
                laws.push(place + 1)?;
                slots.push(slot)?;
            }
            None => {}
        }
    }
    Ok(Candidates { laws, slots })
}

// Whether the laws of two slots are equivalent.
fn reach_each_other(reached: &Matrix, slot: u32, other: u32) -> bool
    requires slot_in { IsSlot reached.now slot }
    requires other_in { IsSlot reached.now other }
    ensures { result ≡ (bit reached.now slot other && bit reached.now other slot) }
{
    reached.get(slot, other) && reached.get(other, slot)
}

// The class of a law that may imply another, or None where a smaller law is in it.
fn class_of_candidate(
    alloc: Global,
    closure: &Closure,
    candidates: &Candidates,
    e: u32,
    slot: u32,
) -> Result<Option<Numbers>, AllocError>
    requires e_in { IsLaw (length closure.now.duals) e }
    requires slot_of_e { candidate_slot closure.now e ≡ Some slot }
    requires slot_in { IsSlot closure.now.reached slot }
    requires few { length closure.now.duals < 2 ^ 32 }
    requires found { AreCandidates closure.now candidates.now.laws candidates.now.slots }
    ensures { IfOk result (IsClassOfLeast closure.now e) }
{
    let reached = closure.reached();
    let laws = candidates.laws.as_slice();
    let slots = candidates.slots.as_slice();
    let mut class = Numbers::empty(alloc);
    for place in 0..laws.len() {
        if reach_each_other(reached, slot, slots[place]) {
            if laws[place] < e {
                return Ok(None);
            }
            class.push(laws[place])?;
        }
    }
    Ok(Some(class))
}

// The class of a law, or None where a smaller law is in it.
fn class_of_least(
    alloc: Global,
    closure: &Closure,
    candidates: &Candidates,
    e: u32,
) -> Result<Option<Numbers>, AllocError>
    requires e_in { IsLaw (length closure.now.duals) e }
    requires few { length closure.now.duals < 2 ^ 32 }
    requires found { AreCandidates closure.now candidates.now.laws candidates.now.slots }
    ensures { IfOk result (IsClassOfLeast closure.now e) }
{
    match candidate_slot(closure, e) {
        Some(slot) => class_of_candidate(alloc, closure, candidates, e, slot),
        None => {
            let mut class = Numbers::empty(alloc);
            class.push(e)?;
            Ok(Some(class))
        }
    }
}

/// Lists the classes of all laws. A law that implies no other is found by one count of its row's
/// bits; any other is compared with the laws that may imply another, by bits of their rows, until a
/// smaller law of its class is found.
pub fn classes_of(alloc: Global, closure: &Closure) -> Result<Classes, AllocError>
    ensures classes { IfOk result (λ classes.
        classes ≡ classes_with (answer_of closure.now) (length closure.now.duals)) }
    ensures in_one { IfOk result (λ classes. (facts : List Fact) → StandsFor closure.now facts
        → (law : ℕ) → IsLaw (length closure.now.duals) law → IsInOne classes law) }
    ensures says { OnOk result ((facts : List Fact) → StandsFor closure.now facts → (e f : ℕ)
        → Says closure.now.duals facts e f (answer_of closure.now e f)) }
{
    let candidates = find_candidates(alloc, closure)?;
    let mut classes = Classes::empty(alloc);
    for place in 0..closure.size() {
        let class = class_of_least(alloc, closure, &candidates, place + 1)?;
        match class {
            Some(class) => classes.push(class)?,
            None => {}
        }
    }
    Ok(classes)
}
