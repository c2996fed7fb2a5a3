ghost use Rattle.std.specs.Prelude.{◌≡◌, ◌≤◌, ℕ, All, IsSome, Some, IfErr, OnOk, slice_get, take};
ghost use Rattle.etp_theory.specs.Trees.{Equation, law_ops};
ghost use Rattle.etp_theory.specs.LawNumbers.{law_numbered};
ghost use Rattle.etp_theory.specs.Reach.{refutes};
ghost use Rattle.etp_theory.specs.RightFacts.{IsRightFact};
ghost use Rattle.etp_term.specs.Laws.{equation_of};
ghost use Rattle.etp_laws.specs.Listing.{Listed};
ghost use Rattle.etp_table.specs.Judgements.{LawHolds, LawFails, IsJudged, IsHoldsRefused, IsFailsRefused, IsFirstOffence, IsFirstRefused};

use crate::compiled::variables_of;
use crate::point::Verdict;
use crate::refusal::TableRefusal;
use crate::table::{LOOKED_AT, OpTable};
use etp_laws::Laws;
use etp_term::Law;

impl OpTable {
    /// Whether each law of `holds` holds in the table, with few enough assignments to look at all,
    /// and each law of `fails` fails at one that is looked at; else the first that doesn't. Then no
    /// law of `holds` derives one of `fails`.
    pub fn judge(&self, laws: &Laws, holds: &[u32], fails: &[u32]) -> Result<(), TableRefusal>
        requires holds { All (λ n. IsSome (law_numbered laws.now.equations n)) holds.now }
        requires fails { All (λ n. IsSome (law_numbered laws.now.equations n)) fails.now }
        ensures judged { OnOk result (IsJudged laws.now.equations self.now holds.now fails.now) }
        ensures right { OnOk result (IsRightFact laws.now.equations (refutes holds.now fails.now)) }
        ensures err { IfErr result (λ r. IsFirstOffence laws.now.equations self.now holds.now fails.now r) }
    {
        let _size = self.size();
        self.judge_holding(laws, holds)?;
        self.judge_failing(laws, fails)?;
        Ok(())
    }

    // The first law that doesn't hold, or has too many assignments.
    fn judge_holding(&self, laws: &Laws, holds: &[u32]) -> Result<(), TableRefusal>
        requires { All (λ n. IsSome (law_numbered laws.now.equations n)) holds.now }
        ensures ok { OnOk result (All (LawHolds laws.now.equations self.now) holds.now) }
        ensures err { IfErr result (λ r. IsFirstRefused laws.now.equations
            (LawHolds laws.now.equations self.now) (λ n e. IsHoldsRefused self.now n e r)
            holds.now) }
    {
        for number in holds {
            self.judge_held(laws, *number)?;
        }
        Ok(())
    }

    // The first law that doesn't fail.
    fn judge_failing(&self, laws: &Laws, fails: &[u32]) -> Result<(), TableRefusal>
        requires { All (λ n. IsSome (law_numbered laws.now.equations n)) fails.now }
        ensures ok { OnOk result (All (LawFails laws.now.equations self.now) fails.now) }
        ensures err { IfErr result (λ r. IsFirstRefused laws.now.equations
            (LawFails laws.now.equations self.now) (λ n e. IsFailsRefused self.now n e r)
            fails.now) }
    {
        for number in fails {
            self.judge_failed(laws, *number)?;
        }
        Ok(())
    }

    // A law that is to hold.
    fn judge_held(&self, laws: &Laws, number: u32) -> Result<(), TableRefusal>
        requires { IsSome (law_numbered laws.now.equations number) }
        ensures ok { OnOk result (LawHolds laws.now.equations self.now number) }
        ensures err { IfErr result (λ r. (e : Equation)
            × (law_numbered laws.now.equations number ≡ Some e)
            × IsHoldsRefused self.now number e r) }
    {
        let law = listed(laws, number);
        let variables = variables_of(law);
        if self.assignments(variables) > LOOKED_AT {
            return Err(TableRefusal::TooManyAssignments {
                law: number,
                size: self.size(),
                variables,
            });
        }
        match self.first_failure(law) {
            Verdict::Holds { looked_at: _ } => Ok(()),
            Verdict::Fails { point, left, right } => Err(TableRefusal::HoldsFails {
                law: number,
                point,
                left,
                right,
            }),
        }
    }

    // A law that is to fail.
    fn judge_failed(&self, laws: &Laws, number: u32) -> Result<(), TableRefusal>
        requires { IsSome (law_numbered laws.now.equations number) }
        ensures ok { OnOk result (LawFails laws.now.equations self.now number) }
        ensures err { IfErr result (λ r. (e : Equation)
            × (law_numbered laws.now.equations number ≡ Some e)
            × IsFailsRefused self.now number e r) }
    {
        match self.first_failure(listed(laws, number)) {
            Verdict::Holds { looked_at } => Err(TableRefusal::FailsHolds {
                law: number,
                looked_at,
            }),
            Verdict::Fails {
                point: _,
                left: _,
                right: _,
            } => Ok(()),
        }
    }
}

// The law of a listed number.
pub(crate) fn listed(laws: &Laws, number: u32) -> &Law
    requires { IsSome (law_numbered laws.now.equations number) }
    ensures law { law_numbered laws.now.equations number ≡ Some (equation_of result.now) }
    ensures listed { Listed (equation_of result.now) }
    ensures small { law_ops (equation_of result.now) ≤ 5 }
{
    let _order = laws.order();
    match laws.law(number) {
        Some(law) => law,
        None => unreachable!(),
    }
}
