ghost use Rattle.std.specs.Prelude.{◌≡◌, ◌≤◌, All, Some, IsSome, IfNone, IfSome, IfErr, OnOk};
ghost use Rattle.etp_theory.specs.Trees.{bound};
ghost use Rattle.etp_theory.specs.LawNumbers.{law_numbered};
ghost use Rattle.etp_theory.specs.Reach.{refutes};
ghost use Rattle.etp_theory.specs.RightFacts.{IsRightFact};
ghost use Rattle.etp_term.specs.Terms.{tree_of};
ghost use Rattle.etp_term.specs.Laws.{equation_of};
ghost use Rattle.etp_matrix.specs.Linears.{magma_of};
ghost use Rattle.etp_matrix.specs.Judgements.{LawHolds, LawFails, LawFailsBy, IsJudged, IsFirstOffence, IsHoldsOffence, IsFailsOffence};

use crate::matrix_linear::MatrixLinear;
use crate::parts::MatrixFailure;
use crate::refusal::MatrixRefusal;
use etp_laws::Laws;
use etp_term::Law;

impl MatrixLinear {
    /// Whether each law of `holds` holds and each law of `fails` fails; law by law, `holds` first.
    pub fn judge(&self, laws: &Laws, holds: &[u32], fails: &[u32]) -> Result<(), MatrixRefusal>
        requires holds { All (λ n. IsSome (law_numbered laws.now.equations n)) holds.now }
        requires fails { All (λ n. IsSome (law_numbered laws.now.equations n)) fails.now }
        ensures ok { OnOk result (IsJudged laws.now.equations (magma_of self.now) holds.now fails.now) }
        ensures means { OnOk result (IsRightFact laws.now.equations (refutes holds.now fails.now)) }
        ensures err { IfErr result (λ r. IsFirstOffence laws.now.equations (magma_of self.now) holds.now fails.now r) }
    {
        self.check_holds(laws, holds)?;
        self.check_fails(laws, fails)?;
        Ok(())
    }

    /// Whether each of these laws holds.
    fn check_holds(&self, laws: &Laws, holds: &[u32]) -> Result<(), MatrixRefusal>
        requires { All (λ n. IsSome (law_numbered laws.now.equations n)) holds.now }
        ensures ok { OnOk result (All (LawHolds laws.now.equations (magma_of self.now)) holds.now) }
        ensures err { IfErr result (λ r. IsHoldsOffence laws.now.equations (magma_of self.now) holds.now r) }
    {
        for number in holds {
            match self.first_failure_of(laws, *number) {
                None => {}
                Some(failure) => {
                    return Err(MatrixRefusal::HoldsFails {
                        law: *number,
                        failure,
                    });
                }
            }
        }
        Ok(())
    }

    /// Whether each of these laws fails.
    fn check_fails(&self, laws: &Laws, fails: &[u32]) -> Result<(), MatrixRefusal>
        requires { All (λ n. IsSome (law_numbered laws.now.equations n)) fails.now }
        ensures ok { OnOk result (All (LawFails laws.now.equations (magma_of self.now)) fails.now) }
        ensures err { IfErr result (λ r. IsFailsOffence laws.now.equations (magma_of self.now) fails.now r) }
    {
        for number in fails {
            match self.first_failure_of(laws, *number) {
                None => return Err(MatrixRefusal::FailsHolds { law: *number }),
                Some(_) => {}
            }
        }
        Ok(())
    }

    /// The first failure of the law of a listed number.
    fn first_failure_of(&self, laws: &Laws, number: u32) -> Option<MatrixFailure>
        requires { IsSome (law_numbered laws.now.equations number) }
        ensures none { IfNone result (LawHolds laws.now.equations (magma_of self.now) number) }
        ensures some { IfSome result (LawFailsBy laws.now.equations (magma_of self.now) number) }
    {
        self.first_failure(listed(laws, number))
    }
}

/// The law of a listed number.
fn listed(laws: &Laws, number: u32) -> &Law
    requires { IsSome (law_numbered laws.now.equations number) }
    ensures law { law_numbered laws.now.equations number ≡ Some (equation_of result.now) }
    ensures left_variables { bound (tree_of result.now.left) ≤ 8 }
    ensures right_variables { bound (tree_of result.now.right) ≤ 8 }
{
    let _order = laws.order();
    match laws.law(number) {
        Some(law) => law,
        None => unreachable!(),
    }
}
