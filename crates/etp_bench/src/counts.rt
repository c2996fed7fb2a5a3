// How many pairs of laws have each answer.
ghost use Rattle.std.specs.Prelude.{◌≡◌, ◌+◌, ◌*◌, not, ◌&&◌, length};
ghost use Rattle.etp_closure.specs.Closures.{is_reached, is_covered};
ghost use Rattle.etp_bench.specs.Filling.{count_pairs};

use etp_closure::Closure;
use std::fmt;

/// How many pairs of all laws are implied, refuted and open.
#[derive(Clone, Copy)]
pub struct AnswerCounts {
    implied: u64,
    refuted: u64,
    open: u64,
}

/// The counts of each answer over all pairs of laws.
pub fn totals(closure: &Closure) -> AnswerCounts
    ensures implied { result.implied ≡ count_pairs (is_reached closure.now) (length closure.now.duals) (length closure.now.duals) }
    ensures refuted { result.refuted ≡ count_pairs (λ e f. is_covered closure.now e f && not (is_reached closure.now e f)) (length closure.now.duals) (length closure.now.duals) }
    ensures all { result.implied + result.refuted + result.«open» ≡ length closure.now.duals * length closure.now.duals }
{
    let mut implied = 0;
    let mut refuted = 0;
    for place in 0..closure.size() {
        let counts = closure.row_counts(place + 1);
        implied += counts.implied as u64;
        refuted += counts.refuted as u64;
    }
    let pairs = closure.size() as u64 * closure.size() as u64;
    AnswerCounts {
        implied,
        refuted,
        open: pairs - implied - refuted,
    }
}

impl fmt::Display for AnswerCounts {
    fn fmt<W: fmt::Write>(&self, f: &mut fmt::Formatter<W>) -> fmt::Result {
        let AnswerCounts {
            implied,
            refuted,
            open,
        } = self;
        write!(f, "implied {implied} refuted {refuted} open {open}")
    }
}
