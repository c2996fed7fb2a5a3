// The run of a completion.
ghost use Rattle.std.specs.Prelude.{◌≡◌, ◌≤◌, IsSome, IfOk};
ghost use Rattle.etp_theory.specs.LawNumbers.{law_numbered};
ghost use Rattle.etp_theory.specs.RightFacts.{Implies, Refutes};
ghost use Rattle.etp_complete.specs.Answers.{IsAnswer};
ghost use Rattle.etp_complete.specs.Derived.{HasDerivedRules, IsValidSystem, IfDone, IfJoined};
ghost use Rattle.etp_complete.specs.Rounds.{problem};

use crate::answer::Completed;
use crate::asking::Question;
use crate::rounds::{Round, first_round, next_round};
use etp_laws::Laws;
use etp_term::NoMemory;
use std::alloc::Global;

/// Completes law `from` under the weight: while the law or an overlap of the rules has two normal
/// forms, one more rule is made of them (Knuth and Bendix 1970). In the end law `target` is looked
/// at.
pub fn complete(
    alloc: Global,
    laws: &Laws,
    from: u32,
    target: u32,
    weight: [u32; 3],
) -> Result<Completed, NoMemory>
    requires order { laws.now.order ≡ 4 }
    requires from { IsSome (law_numbered laws.now.equations from) }
    requires proper { 2 ≤ from }
    requires target { IsSome (law_numbered laws.now.equations target) }
    ensures answer { IfOk result (IsAnswer (record {
      laws = laws.now.equations;
      from = from;
      target = target;
      weight = weight;
    })) }
    ensures valid { IfOk result (λ c. IfDone c (IsValidSystem laws.now.equations)) }
    ensures apart { IfOk result (λ c. IfDone c (λ _. Refutes laws.now.equations from target)) }
    ensures joined { IfOk result (λ c. IfJoined c (Implies laws.now.equations from target)) }
    ensures derived { IfOk result (HasDerivedRules laws.now.equations from) }
{
    let _order = laws.order();
    let asked = Question {
        from,
        target,
        weight,
    };
    run(alloc, laws, asked)
}

/// Round after round, until one ends the run.
fn run(alloc: Global, laws: &Laws, asked: Question) -> Result<Completed, NoMemory>
    requires order { laws.now.order ≡ 4 }
    requires from { IsSome (law_numbered laws.now.equations asked.from) }
    requires proper { 2 ≤ asked.from }
    requires target { IsSome (law_numbered laws.now.equations asked.target) }
    ensures { IfOk result (IsAnswer (problem laws.now.equations asked)) }
{
    let mut system = match first_round(alloc, laws, asked)? {
        Round::Ended(end) => return Ok(end),
        Round::Grown(system) => system,
    };
    for _made in 0..64u32 {
        match next_round(alloc, laws, asked, &system)? {
            Round::Ended(end) => return Ok(end),
            Round::Grown(grown) => system = grown,
        }
    }
    unreachable!()
}
