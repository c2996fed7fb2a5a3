ghost use Rattle.std.specs.Prelude.{◌≡◌, ℕ, List};
ghost use Rattle.etp_theory.specs.Reach.{Fact};
ghost use Rattle.etp_closure.specs.Closures.{StandsFor};
ghost use Rattle.etp_closure.specs.Answers.{answer_of, Says};
ghost use Rattle.etp_closure.specs.declared.facts.Answer.TheVariants.{Implied, Refuted, Unsettled};
ghost use Rattle.etp_report.specs.Pairs.{pairs_answered};

use etp_closure::Closure;

/// How many ordered pairs of laws have each answer, a law with itself included.
#[derive(Clone, Copy, Debug, PartialEq, Eq)]
pub struct Counts {
    pub implied: u64,
    pub refuted: u64,
    pub unsettled: u64,
}

/// Counts the answers to all ordered pairs of laws.
pub fn count_answers(closure: &Closure) -> Counts
    ensures implied { result.implied ≡ pairs_answered closure.now Implied }
    ensures refuted { result.refuted ≡ pairs_answered closure.now Refuted }
    ensures unsettled { result.unsettled ≡ pairs_answered closure.now Unsettled }
    ensures says { (facts : List Fact) → StandsFor closure.now facts → (e f : ℕ) → Says closure.now.duals facts e f (answer_of closure.now e f) }
{
    let size = closure.size();
    let mut implied: u64 = 0;
    let mut refuted: u64 = 0;
    for place in 0..size {
        let row = closure.row_counts(place + 1);
        implied += row.implied as u64;
        refuted += row.refuted as u64;
    }
    let pairs = size as u64 * size as u64;
    Counts {
        implied,
        refuted,
        unsettled: pairs - implied - refuted,
    }
}
