ghost use Rattle.std.specs.Prelude.{◌≡◌, ℕ, List, IfOk, OnOk, length};
ghost use Rattle.etp_theory.specs.LawNumbers.{IsLaw};
ghost use Rattle.etp_theory.specs.Reach.{Fact};
ghost use Rattle.etp_closure.specs.Closures.{StandsFor};
ghost use Rattle.etp_closure.specs.Answers.{answer_of, Says};
ghost use Rattle.etp_closure.specs.declared.facts.Answer.TheVariants.{Implied, Refuted};
ghost use Rattle.etp_report.specs.Reports.{row_with};

use etp_bits::Numbers;
use etp_closure::{Answer, Closure};
use std::alloc::{AllocError, Global};

/// The laws that a law implies, and those that it is known not to imply, both rising.
#[derive(Drop)]
pub struct Row {
    pub implied: Numbers,
    pub refuted: Numbers,
}

/// Lists the laws by the answer to their pair with this law as its first.
pub fn row_of(alloc: Global, closure: &Closure, e: u32) -> Result<Row, AllocError>
    requires { IsLaw (length closure.now.duals) e }
    ensures implied { IfOk result (λ row. row.implied
        ≡ row_with (answer_of closure.now) (length closure.now.duals) Implied e) }
    ensures refuted { IfOk result (λ row. row.refuted
        ≡ row_with (answer_of closure.now) (length closure.now.duals) Refuted e) }
    ensures says { OnOk result ((facts : List Fact) → StandsFor closure.now facts → (e f : ℕ)
        → Says closure.now.duals facts e f (answer_of closure.now e f)) }
{
    let mut implied = Numbers::empty(alloc);
    let mut refuted = Numbers::empty(alloc);
    for place in 0..closure.size() {
        match closure.answer(e, place + 1) {
            Answer::Implied => implied.push(place + 1)?,
            Answer::Refuted => refuted.push(place + 1)?,
            Answer::Unsettled => {}
        }
    }
    Ok(Row { implied, refuted })
}
