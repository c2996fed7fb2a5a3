ghost use Rattle.std.specs.Prelude.{◌≡◌, ◌⊎◌, ◌≤◌, ◌+◌, IfOk, IfSome, MatchOption, IsTrue, false, All, length, map, max};
ghost use Rattle.std.specs.Option.{option_copied, option_map};
ghost use Rattle.etp_theory.specs.Trees.{Equation, bound, law_ops};
ghost use Rattle.etp_term.specs.Terms.{tree_of};
ghost use Rattle.etp_term.specs.Laws.{equation_of};
ghost use Rattle.etp_laws.specs.Listing.{Listed, IsTheList};
ghost use Rattle.etp_theory.specs.LawNumbers.{IsOwnInverse, law_numbered, dual_number};
ghost use Rattle.etp_laws.specs.LawLists.{HasVariables, HasNumber, IsTrivial, IsDualOf, AreDuals};
ghost use Rattle.etp_laws.specs.NumberAnswers.{IsNumberAnswer};
ghost use Rattle.etp_laws.specs.Places;

use crate::listing::listed_upto;
use crate::parts::Orientation;
use crate::places::number_of;
use etp_term::{Law, Term};
use sqlite_items::Items;
use std::alloc::{AllocError, Global};
use std::marker::Model;

/// The number of a law, or why it has none.
#[derive(Clone, Copy, Debug)]
pub enum Numbered {
    /// The number of the law of the list that is the same.
    Is(u32),
    /// Both sides are equal and aren't a lone variable.
    Trivial,
    /// The operations of both sides together, which are more than the list's order; of each side at
    /// most 65536 are counted.
    TooManyOps(u32),
}

/// The listed laws of at most four, or at most five, operations, in order and numbered from 1.
#[derive(Drop)]
pub struct Laws {
    order: u8,
    laws: Items<Law>,
    duals: Items<u32>,
}

impl Model for Laws {
    ghost use Rattle.std.specs.Prelude.{◌≡◌, ◌≤◌, map};
    ghost use Rattle.etp_laws.specs.LawLists.{LawList, coded_law_list};
    ghost use Rattle.etp_laws.specs.Enumeration.{laws_upto};
    ghost use Rattle.etp_laws.specs.Places.{dual_numbers};
    ghost use Rattle.etp_term.specs.Laws.{equation_of};

    ghost Value = { LawList };

    ghost coded = { coded_law_list };

    ghost view = { λ l. record { order = l.order; equations = map equation_of l.laws; duals = l.duals } };

    ghost invariant = { λ l. (4 ≤ l.order) × (l.order ≤ 5)
        × ∥ map equation_of l.laws ≡ laws_upto l.order ∥₁
        × ∥ l.duals ≡ dual_numbers (map equation_of l.laws) ∥₁ };
}

impl Laws {
    /// The listed laws of at most four operations.
    pub fn build(alloc: Global) -> Result<Laws, AllocError>
        ensures order { IfOk result (λ laws. laws.order ≡ 4) }
        ensures list { IfOk result (λ laws. IsTheList 4 laws.equations) }
    {
        Laws::build_to(alloc, 4)
    }

    /// The listed laws of at most `order` operations.
    pub fn build_to(alloc: Global, order: u8) -> Result<Laws, AllocError>
        requires { (order ≡ 4) ⊎ (order ≡ 5) }
        ensures order { IfOk result (λ laws. laws.order ≡ order) }
        ensures list { IfOk result (λ laws. IsTheList order laws.equations) }
    {
        let laws = listed_upto(alloc, order)?;
        let duals = dual_numbers(alloc, laws.as_slice())?;
        Ok(Laws { order, laws, duals })
    }

    /// The greatest number of operations of a law of the list.
    pub fn order(&self) -> u8
        ensures order { result ≡ self.now.order }
        ensures known { (result ≡ 4) ⊎ (result ≡ 5) }
        ensures list { IsTheList self.now.order self.now.equations }
    {
        self.order
    }

    /// How many laws the list has.
    pub fn count(&self) -> u32
        ensures len { result ≡ length self.now.equations }
        ensures four { self.now.order ≡ 4 → result ≡ 4694 }
        ensures five { self.now.order ≡ 5 → result ≡ 62576 }
        ensures list { IsTheList self.now.order self.now.equations }
    {
        self.laws.len() as u32
    }

    /// Law n; None exactly where n is 0 or above the count.
    pub fn law(&self, n: u32) -> Option<&Law>
        ensures entry { option_map equation_of (option_copied result) ≡ law_numbered self.now.equations n }
        ensures list { IsTheList self.now.order self.now.equations }
    {
        let laws = &self.laws;
        if n == 0 {
            return None;
        }
        laws.get(n as usize - 1)
    }

    /// How many variables law n has; they are 0 to that number less one. None exactly where n is 0
    /// or above the count.
    pub fn variables(&self, n: u32) -> Option<u8>
        ensures exact { MatchOption result (law_numbered self.now.equations n ≡ None)
            (λ m. (e : Equation) × (law_numbered self.now.equations n ≡ Some e)
            × HasVariables e m) }
        ensures few { IfSome result (λ m. m ≤ self.now.order + 2) }
    {
        let _order = self.order();
        match self.law(n) {
            None => None,
            Some(law) => Some(variables_of(law)),
        }
    }

    /// The number of a law.
    pub fn number(&self, law: &Law) -> Numbered
        ensures { IsNumberAnswer self.now (equation_of law.now) result }
    {
        let ops = law.left.ops() + law.right.ops();
        if ops > self.order as u32 {
            return Numbered::TooManyOps(ops);
        }
        if is_trivial(law) {
            return Numbered::Trivial;
        }
        Numbered::Is(number_of(&law.left, &law.right, Orientation::AsWritten))
    }

    /// The number of the dual of law n; None exactly where n is 0 or above the count.
    pub fn dual(&self, n: u32) -> Option<u32>
        ensures exact { MatchOption result (law_numbered self.now.equations n ≡ None)
            (λ m. IsDualOf self.now.equations n m) }
        ensures list { IfSome result (λ m. m ≡ dual_number self.now.duals n) }
    {
        let duals = &self.duals;
        if n == 0 {
            return None;
        }
        match duals.get(n as usize - 1) {
            None => None,
            Some(m) => Some(*m),
        }
    }

    /// The numbers of all duals: place i holds that of law i + 1.
    pub fn duals(&self) -> &[u32]
        ensures value { result.now ≡ self.now.duals }
        ensures exact { AreDuals self.now.equations self.now.duals }
        ensures inverse { IsOwnInverse self.now.duals }
    {
        self.duals.as_slice()
    }
}

/// The numbers of the laws' duals.
fn dual_numbers(alloc: Global, laws: &[Law]) -> Result<Items<u32>, AllocError>
    requires { All (λ e. law_ops e ≤ 5) (map equation_of laws.now) }
    ensures { IfOk result (λ duals. duals ≡ Places.dual_numbers (map equation_of laws.now)) }
{
    let mut duals = Items::from_vec(Vec::with_capacity(alloc, laws.len())?);
    for law in laws {
        duals.push(number_of(&law.left, &law.right, Orientation::Mirrored))?;
    }
    Ok(duals)
}

/// Whether both sides are equal and aren't a lone variable.
fn is_trivial(law: &Law) -> bool
    ensures yes { IsTrue result → IsTrivial (equation_of law.now) }
    ensures no { result ≡ false → HasNumber (equation_of law.now) }
{
    match (&law.left, &law.right) {
        (Term::Op(_, _), Term::Op(_, _)) => law.left.same_term(&law.right),
        _ => false,
    }
}

/// One above the greatest variable of the term.
fn bound_of(term: &Term) -> u32
    ensures value { result ≡ bound (tree_of term.now) }
    ensures small { result ≤ 256 }
{
    match term {
        Term::Var(v) => *v as u32 + 1,
        Term::Op(l, r) => bound_of(l.get()).max(bound_of(r.get())),
    }
}

/// How many variables a listed law has.
fn variables_of(law: &Law) -> u8
    requires listed { Listed (equation_of law.now) }
    requires small { law_ops (equation_of law.now) ≤ 5 }
    ensures exact { HasVariables (equation_of law.now) result }
    ensures few { result ≤ law_ops (equation_of law.now) + 2 }
{
    bound_of(&law.left).max(bound_of(&law.right)) as u8
}
