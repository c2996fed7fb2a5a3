ghost use Rattle.std.specs.Prelude.{◌≡◌, ℕ, ◌+◌, ◌<◌, ◌↔◌, All, OnOk, OnErr, IfOk, IfSome, IsSome, Some, None, List, [], ◌∷◌, ◌++◌, length, not, ◌&&◌, ◌||◌};
ghost use Rattle.std.specs.List.{list_any};
ghost use Rattle.etp_theory.specs.Reach.{Fact as FactOf, implies, refutes};
ghost use Rattle.etp_bits.specs.Bits.{SameSizes};
ghost use Rattle.etp_bits.specs.Counts.{count_below};
ghost use Rattle.etp_theory.specs.LawNumbers.{IsLaw, IsOwnInverse, dual_number};
ghost use Rattle.etp_closure.specs.Closures.{IsKept, slot_of, is_reached, is_covered, SameAnswers, StandsFor, IsReserved, KeepsSlots};
ghost use Rattle.etp_closure.specs.Answers.{answer_of, Says};
ghost use Rattle.etp_closure.specs.Tables.{Links, image_of};

use crate::facts::{Answer, RowCounts};
use crate::slots::{forget, keep_or_leave, kept_slot, slot_at};
use crate::tables::{
    grow_all, link_covered, link_reached, look_up, mark_joined, mark_uncovered, reach_themselves,
};
use etp_bits::Matrix;
use std::alloc::{AllocError, Global};
use std::marker::Model;

/// Reached and covered pairs of laws, kept for the laws of the facts that were added.
#[derive(Drop)]
pub struct Closure {
    duals: Vec<u32>,
    slots: Vec<u32>,
    laws: Vec<u32>,
    reached: Matrix,
    covered: Matrix,
    marks: Matrix,
    // What is reached, with the law that is reached as the row.
    reaching: Matrix,
    // Whether some pair may be covered.
    has_covered: bool,
}

impl Model for Closure {
    ghost use Rattle.etp_closure.specs.Closures.{Known};
    ghost use Rattle.etp_closure.specs.Tables.{IsClosure};

    ghost Value = { Known };

    ghost view = { λ c. record {
      duals = c.duals.items;
      slots = c.slots.items;
      reached = c.reached;
      covered = c.covered;
    } };

    ghost invariant = { λ c. IsClosure c.duals.items c.slots.items c.laws.items c.reached c.covered
        c.marks c.reaching c.has_covered };
}

impl Closure {
    /// A closure for as many laws as the list has, which names the dual of each law. No law is kept.
    pub fn start(alloc: Global, duals: &[u32]) -> Result<Closure, AllocError>
        requires { IsOwnInverse duals.now }
        ensures duals { IfOk result (λ closure. closure.duals ≡ duals.now) }
        ensures none_kept { IfOk result (λ closure. (law : ℕ) → slot_of closure.slots law ≡ None) }
        ensures stands { IfOk result (λ closure. StandsFor closure []) }
    {
        let slots = vec![in alloc; 0u32; duals.len()]?;
        Ok(Closure {
            duals: Vec::from_slice(alloc, duals)?,
            slots,
            laws: Vec::new(alloc),
            reached: Matrix::start(alloc, 0, 0)?,
            covered: Matrix::start(alloc, 0, 0)?,
            marks: Matrix::start(alloc, 4, 0)?,
            reaching: Matrix::start(alloc, 0, 0)?,
            has_covered: false,
        })
    }

    /// The number of each law's dual, from law 1 on.
    pub fn duals(&self) -> &[u32]
        ensures value { result.now ≡ self.now.duals }
        ensures own_inverse { IsOwnInverse self.now.duals }
        ensures kept { (law : ℕ) → IsKept self.now.slots law → IsLaw (length self.now.duals) law }
    {
        &self.duals
    }

    /// How many laws there are.
    pub fn size(&self) -> u32
        ensures { result ≡ length self.now.duals }
    {
        self.duals.len() as u32
    }

    /// The row and the column of a law in both matrices, or None where the law isn't kept.
    pub fn slot(&self, law: u32) -> Option<u32>
        requires { IsLaw (length self.now.duals) law }
        ensures value { result ≡ slot_of self.now.slots law }
        ensures own { (other : ℕ) → IsSome result → slot_of self.now.slots other ≡ result → other ≡ law }
        ensures in_reached { IfSome result (λ slot.
            (slot < self.now.reached.rows) × (slot < self.now.reached.columns)) }
        ensures in_covered { IfSome result (λ slot.
            (slot < self.now.covered.rows) × (slot < self.now.covered.columns)) }
    {
        slot_at(&self.slots, law)
    }

    /// Whether the second law is reached from the first.
    pub fn implied(&self, e: u32, f: u32) -> bool
        requires e_in { IsLaw (length self.now.duals) e }
        requires f_in { IsLaw (length self.now.duals) f }
        ensures { result ≡ is_reached self.now e f }
    {
        look_up(&self.reached, &self.slots, e, f, e == f)
    }

    /// Whether some refuting pair covers the two laws.
    pub fn refuted(&self, e: u32, f: u32) -> bool
        requires e_in { IsLaw (length self.now.duals) e }
        requires f_in { IsLaw (length self.now.duals) f }
        ensures { result ≡ is_covered self.now e f }
    {
        look_up(&self.covered, &self.slots, e, f, false)
    }

    /// The answer to a pair of laws.
    pub fn answer(&self, e: u32, f: u32) -> Answer
        requires e_in { IsLaw (length self.now.duals) e }
        requires f_in { IsLaw (length self.now.duals) f }
        ensures value { result ≡ answer_of self.now e f }
        ensures says { (facts : List FactOf) → StandsFor self.now facts → Says self.now.duals facts e f result }
    {
        if self.implied(e, f) {
            Answer::Implied
        } else if self.refuted(e, f) {
            Answer::Refuted
        } else {
            Answer::Unsettled
        }
    }

    /// The reached pairs of the kept laws, by their slots.
    pub fn reached(&self) -> &Matrix
        ensures { result.now ≡ self.now.reached }
    {
        &self.reached
    }

    /// The covered pairs of the kept laws, by their slots.
    pub fn covered(&self) -> &Matrix
        ensures { result.now ≡ self.now.covered }
    {
        &self.covered
    }

    /// How many laws, of all, have each answer as the second of a pair with this law.
    pub fn row_counts(&self, e: u32) -> RowCounts
        requires { IsLaw (length self.now.duals) e }
        ensures implied { result.implied ≡ count_below (λ place. is_reached self.now e (place + 1))
            (length self.now.duals) }
        ensures refuted { result.refuted ≡ count_below
            (λ place. is_covered self.now e (place + 1) && not (is_reached self.now e (place + 1)))
            (length self.now.duals) }
    {
        match slot_at(&self.slots, e) {
            None => RowCounts {
                implied: 1,
                refuted: 0,
            },
            Some(slot) => RowCounts {
                implied: self.reached.count_row(slot),
                refuted: self.covered.count_without(slot, &self.reached, slot),
            },
        }
    }

    /// Keeps the laws of two lists and their duals, besides those kept before.
    pub fn reserve(&mut self, first: &[u32], second: &[u32]) -> Result<(), AllocError>
        requires first_in { All (IsLaw (length self.old.duals)) first.now }
        requires second_in { All (IsLaw (length self.old.duals)) second.now }
        ensures duals { self.new.duals ≡ self.old.duals }
        ensures kept { OnOk result ((law : ℕ) → IsKept self.new.slots law
            ↔ IsReserved self.old.duals self.old.slots first.now second.now law) }
        ensures slots { KeepsSlots self.old.slots self.new.slots }
        ensures answers { SameAnswers self.old self.new }
        ensures stands { (facts : List FactOf) → StandsFor self.old facts → StandsFor self.new facts }
        ensures err { OnErr result (self.new.slots ≡ self.old.slots) }
        ensures err_reached { OnErr result (SameSizes self.old.reached self.new.reached) }
        ensures err_covered { OnErr result (SameSizes self.old.covered self.new.covered) }
    {
        let before = self.laws.len();
        keep_or_leave(&mut self.slots, &mut self.laws, &self.duals, first, second)?;
        let count = self.laws.len() as u32;
        if grow_all(
            &mut self.reached,
            &mut self.reaching,
            &mut self.covered,
            &mut self.marks,
            before as u32,
            count,
        )
        .is_err()
        {
            forget(&mut self.slots, &mut self.laws, before);
            return Err(AllocError);
        }
        reach_themselves(&mut self.reached, before as u32, count);
        reach_themselves(&mut self.reaching, before as u32, count);
        Ok(())
    }

    /// Adds the fact that one law implies another.
    pub fn add_implication(&mut self, hypothesis: u32, goal: u32)
        requires hypothesis_kept { IsKept self.old.slots hypothesis }
        requires goal_kept { IsKept self.old.slots goal }
        ensures duals { self.new.duals ≡ self.old.duals }
        ensures slots { self.new.slots ≡ self.old.slots }
        ensures stands { (facts : List FactOf) → StandsFor self.old facts
            → StandsFor self.new (facts ++ implies hypothesis goal ∷ []) }
    {
        self.add_edge(hypothesis, goal);
        let dual_hypothesis = self.dual_of(hypothesis);
        let dual_goal = self.dual_of(goal);
        self.add_edge(dual_hypothesis, dual_goal);
    }

    /// Adds the fact that no law of the first list implies a law of the second.
    pub fn add_refutation(&mut self, holds: &[u32], fails: &[u32])
        requires holds_kept { All (IsKept self.old.slots) holds.now }
        requires fails_kept { All (IsKept self.old.slots) fails.now }
        ensures duals { self.new.duals ≡ self.old.duals }
        ensures slots { self.new.slots ≡ self.old.slots }
        ensures stands { (facts : List FactOf) → StandsFor self.old facts
            → StandsFor self.new (facts ++ refutes holds.now fails.now ∷ []) }
    {
        self.add_pairs(holds, fails, false);
        self.add_pairs(holds, fails, true);
    }

    /// Forgets all facts. The same laws stay kept.
    pub fn clear(&mut self)
        ensures duals { self.new.duals ≡ self.old.duals }
        ensures slots { self.new.slots ≡ self.old.slots }
        ensures stands { StandsFor self.new [] }
    {
        let count = self.laws.len() as u32;
        self.reached.clear();
        self.reaching.clear();
        self.covered.clear();
        self.has_covered = false;
        reach_themselves(&mut self.reached, 0, count);
        reach_themselves(&mut self.reaching, 0, count);
    }

    // The dual of a law that is kept, which is kept too.
    fn dual_of(&self, law: u32) -> u32
        requires { IsKept self.now.slots law }
        ensures value { result ≡ dual_number self.now.duals law }
        ensures kept { IsKept self.now.slots result }
    {
        self.duals[law as usize - 1]
    }

    // Adds an edge between two laws.
    fn add_edge(&mut self, from: u32, to: u32)
        requires from_kept { IsKept self.old.slots from }
        requires to_kept { IsKept self.old.slots to }
        ensures duals { self.new.duals ≡ self.old.duals }
        ensures slots { self.new.slots ≡ self.old.slots }
        ensures links { Links (is_reached self.old) (is_covered self.old) (is_reached self.new)
            (is_covered self.new) from to }
    {
        let row = kept_slot(&self.slots, from);
        let column = kept_slot(&self.slots, to);
        if !self.reached.get(row, column) {
            link_reached(
                &mut self.reached,
                &mut self.reaching,
                &mut self.marks,
                row,
                column,
            );
            link_covered(
                &mut self.covered,
                &mut self.marks,
                self.has_covered,
                row,
                column,
            );
        }
    }

    // Covers what each law of the first list reaches against what reaches a law of the second,
    // or so for their duals.
    fn add_pairs(&mut self, holds: &[u32], fails: &[u32], dual: bool)
        requires holds_kept { All (IsKept self.old.slots) holds.now }
        requires fails_kept { All (IsKept self.old.slots) fails.now }
        ensures duals { self.new.duals ≡ self.old.duals }
        ensures slots { self.new.slots ≡ self.old.slots }
        ensures reached { self.new.reached ≡ self.old.reached }
        ensures covered { (x y : ℕ) → is_covered self.new x y
            ≡ (is_covered self.old x y || (list_any
            (λ law. is_reached self.old (image_of self.old.duals dual law) x) holds.now
            && list_any (λ law. is_reached self.old y (image_of self.old.duals dual law))
            fails.now)) }
    {
        self.marks.clear();
        mark_joined(
            &mut self.marks,
            &self.reaching,
            &self.slots,
            &self.duals,
            dual,
            fails,
        );
        mark_uncovered(
            &mut self.marks,
            &self.reached,
            &self.covered,
            &self.slots,
            &self.duals,
            dual,
            holds,
        );
        self.covered.join_marked(&self.marks, 0, 1);
        self.has_covered = true;
    }
}
