// The first refuting pair whose laws are found by two searches.
ghost use Rattle.std.specs.Prelude.{◌≡◌, ℕ, ◌+◌, ◌<◌, ◌↔◌, IsTrue, All, Bool, true, false, List, length, slice_get, MatchOption, IfSome, Some, Contains};
ghost use Rattle.etp_theory.specs.Reach.{Fact as FactOf, refutes};
ghost use Rattle.etp_theory.specs.LawNumbers.{IsLaw, IsOwnInverse};
ghost use Rattle.etp_closure.specs.Facts.{fact_of};
ghost use Rattle.etp_closure.specs.Tables.{image_of};
ghost use Rattle.etp_chain.specs.Evidence.{NamesLaws, GivesPair, IsLeastPair, IsFirstPair, HasNoPairBefore, turn_of};
ghost use Rattle.etp_chain.specs.Searches.{IsFound, IsLeastFound};

use crate::facts::Facts;
use etp_closure::Fact;

// A law that holds and a law that fails by a file, or by its dual.
#[derive(Clone, Copy)]
pub(crate) struct Pair {
    pub(crate) file: u32,
    pub(crate) dual: bool,
    pub(crate) holds: u32,
    pub(crate) fails: u32,
}

// The first refuting pair whose laws are found.
pub(crate) fn first_pair<L: Facts>(
    facts: &L,
    duals: &[u32],
    before: &[usize],
    after: &[usize],
) -> Option<Pair>
    requires own_inverse { IsOwnInverse duals.now }
    requires facts_in { (fact : FactOf) → Contains (L.said facts.now) fact → NamesLaws (length duals.now) fact }
    requires before_size { length before.now ≡ length duals.now + 1 }
    requires after_size { length after.now ≡ length duals.now + 1 }
    ensures { MatchOption result ((file : ℕ) (dual : Bool) (e f : ℕ) → GivesPair duals.now (L.said facts.now) file dual e f → IsFound before.now e → ¬ IsFound after.now f)
        (λ pair. IsFirstPair duals.now (L.said facts.now) (IsFound before.now) (IsFound after.now) pair.file pair.dual pair.holds pair.fails) }
{
    for file in 0..facts.count() {
        if let Some(fact) = facts.fact(file) {
            if let Some(pair) = pair_of_fact(file, fact, duals, before, after) {
                return Some(pair);
            }
        }
    }
    None
}

// The pair of a file, plain before dual, where no file before has one.
fn pair_of_fact(
    file: u32,
    fact: &Fact,
    duals: &[u32],
    before: &[usize],
    after: &[usize],
) -> Option<Pair>
    requires own_inverse { IsOwnInverse duals.now }
    requires fact_in { NamesLaws (length duals.now) (fact_of fact.now) }
    requires before_size { length before.now ≡ length duals.now + 1 }
    requires after_size { length after.now ≡ length duals.now + 1 }
    ensures { (facts : List FactOf) → slice_get facts file ≡ Some (fact_of fact.now) → HasNoPairBefore duals.now facts (IsFound before.now) (IsFound after.now) (turn_of file false)
        → MatchOption result (HasNoPairBefore duals.now facts (IsFound before.now) (IsFound after.now) (turn_of file true + 1))
        (λ pair. IsFirstPair duals.now facts (IsFound before.now) (IsFound after.now) pair.file pair.dual pair.holds pair.fails) }
{
    match fact {
        Fact::Implies { .. } => None,
        Fact::Refutes { holds, fails } => {
            let holds = holds.as_slice();
            let fails = fails.as_slice();
            match least_pair(holds, fails, duals, false, before, after) {
                Some((holds, fails)) => Some(Pair {
                    file,
                    dual: false,
                    holds,
                    fails,
                }),
                None => match least_pair(holds, fails, duals, true, before, after) {
                    Some((holds, fails)) => Some(Pair {
                        file,
                        dual: true,
                        holds,
                        fails,
                    }),
                    None => None,
                },
            }
        }
    }
}

// The least laws that are found, of two lists or of the duals of two lists.
fn least_pair(
    holds: &[u32],
    fails: &[u32],
    duals: &[u32],
    dual: bool,
    before: &[usize],
    after: &[usize],
) -> Option<(u32, u32)>
    requires own_inverse { IsOwnInverse duals.now }
    requires holds_in { All (IsLaw (length duals.now)) holds.now }
    requires fails_in { All (IsLaw (length duals.now)) fails.now }
    requires before_size { length before.now ≡ length duals.now + 1 }
    requires after_size { length after.now ≡ length duals.now + 1 }
    ensures { (facts : List FactOf) (file : ℕ) → slice_get facts file ≡ Some (refutes holds.now fails.now)
        → MatchOption result ((e f : ℕ) → GivesPair duals.now facts file dual e f → IsFound before.now e → ¬ IsFound after.now f)
        (λ pair. IsLeastPair duals.now facts (IsFound before.now) (IsFound after.now) file dual pair.0 pair.1) }
{
    match least_found(holds, duals, dual, before) {
        None => None,
        Some(hold) => match least_found(fails, duals, dual, after) {
            None => None,
            Some(fail) => Some((hold, fail)),
        },
    }
}

// The least law that is found, of a list or of the duals of a list.
fn least_found(laws: &[u32], duals: &[u32], dual: bool, found: &[usize]) -> Option<u32>
    requires own_inverse { IsOwnInverse duals.now }
    requires laws_in { All (IsLaw (length duals.now)) laws.now }
    requires size { length found.now ≡ length duals.now + 1 }
    ensures { MatchOption result (All (λ law. ¬ IsFound found.now (image_of duals.now dual law)) laws.now) (λ least. IsLeastFound duals.now dual found.now laws.now least) }
{
    let mut least: Option<u32> = None;
    for law in laws {
        let law = image(duals, dual, *law);
        if found[law as usize] > 0 && is_below(law, least) {
            least = Some(law);
        }
    }
    least
}

// The law itself, or its dual.
fn image(duals: &[u32], dual: bool, law: u32) -> u32
    requires own_inverse { IsOwnInverse duals.now }
    requires law_in { IsLaw (length duals.now) law }
    ensures value { result ≡ image_of duals.now dual law }
    ensures law { IsLaw (length duals.now) result }
{
    if dual { duals[law as usize - 1] } else { law }
}

// Whether a law is below another, or there is no other.
fn is_below(law: u32, other: Option<u32>) -> bool
    ensures { IsTrue result ↔ IfSome other (λ other. law < other) }
{
    match other {
        None => true,
        Some(other) => law < other,
    }
}
