// A closure that keeps every law, and facts added to it.
ghost use Rattle.std.specs.Prelude.{◌≡◌, ◌++◌, [], ℕ, ◌↔◌, All, IfOk, Contains, List, map, length};
ghost use Rattle.etp_theory.specs.Reach.{Fact};
ghost use Rattle.etp_theory.specs.LawNumbers.{IsLaw};
ghost use Rattle.etp_closure.specs.Closures.{StandsFor};
ghost use Rattle.etp_bench.specs.Filling.{IsFull, IsBetweenLaws, fact_of};

use crate::draws::Implication;
use etp_closure::Closure;
use etp_laws::Laws;
use std::alloc::{AllocError, Global};

/// A closure of the list's laws that keeps every law and knows no fact.
pub fn full_closure(alloc: Global, laws: &Laws) -> Result<Closure, AllocError>
    ensures laws { IfOk result (λ closure. length closure.duals ≡ length laws.now.equations) }
    ensures full { IfOk result IsFull }
    ensures stands { IfOk result (λ closure. StandsFor closure []) }
{
    let mut closure = Closure::start(alloc, laws.duals())?;
    let every = every_law(alloc, laws.count())?;
    closure.reserve(&every, &[])?;
    Ok(closure)
}

// The numbers from 1 to the count.
fn every_law(alloc: Global, count: u32) -> Result<Vec<u32>, AllocError>
    ensures within { IfOk result (λ every. All (IsLaw count) every.items) }
    ensures all { IfOk result (λ every. (law : ℕ) → IsLaw count law → Contains every.items law) }
{
    let mut every = Vec::with_capacity(alloc, count as usize)?;
    for place in 0..count {
        every.push(place + 1)?;
    }
    Ok(every)
}

/// Adds each implication.
pub fn add_implications(closure: &mut Closure, implications: &[Implication])
    requires full { IsFull closure.old }
    requires implications_in { All (IsBetweenLaws (length closure.old.duals)) implications.now }
    ensures duals { closure.new.duals ≡ closure.old.duals }
    ensures slots { closure.new.slots ≡ closure.old.slots }
    ensures stands { (facts : List Fact) → StandsFor closure.old facts → StandsFor closure.new (facts ++ map fact_of implications.now) }
{
    for implication in implications {
        closure.add_implication(implication.hypothesis, implication.goal);
    }
}

/// Adds as many refutations as are asked for: `laws` laws of the lists hold in each, and the
/// `laws` next ones fail.
pub fn add_refutations(closure: &mut Closure, lists: &[u32], count: u16, laws: usize)
    requires full { IsFull closure.old }
    requires lists_in { All (IsLaw (length closure.old.duals)) lists.now }
    ensures duals { closure.new.duals ≡ closure.old.duals }
    ensures slots { closure.new.slots ≡ closure.old.slots }
{
    let mut rest = lists;
    for _ in 0..count {
        let (holds, after) = rest.split_at(laws.min(rest.len()));
        let (fails, after) = after.split_at(laws.min(after.len()));
        closure.add_refutation(holds, fails);
        rest = after;
    }
}
