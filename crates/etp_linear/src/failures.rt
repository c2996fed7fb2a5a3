ghost use Rattle.std.specs.Prelude.{◌≡◌, ◌≤◌, ◌↔◌, IsNone, IfSome, MatchOption};
ghost use Rattle.etp_theory.specs.Trees.{ops, bound};
ghost use Rattle.etp_theory.specs.Magmas.{Holds};
ghost use Rattle.etp_term.specs.Terms.{tree_of};
ghost use Rattle.etp_term.specs.Laws.{equation_of};
ghost use Rattle.etp_linear.specs.Magmas.{inside, times};
ghost use Rattle.etp_linear.specs.Linears.{magma_of};
ghost use Rattle.etp_linear.specs.Failures.{IsFirstFailure};
ghost use Rattle.etp_linear.specs.Walks.{CanTake, taken, AreOne, IsFirstDifference};

use crate::linear::Linear;
use crate::parts::{Form, LinearFailure, Ring};
use etp_term::Law;

impl Linear {
    /// The first assignment at which a law fails, all zero or one variable 1 and all others 0. Only
    /// the coefficients of both sides are looked at.
    pub fn first_failure(&self, law: &Law) -> Option<LinearFailure>
        requires left_ops { ops (tree_of law.now.left) ≤ 5 }
        requires right_ops { ops (tree_of law.now.right) ≤ 5 }
        requires left_variables { bound (tree_of law.now.left) ≤ 8 }
        requires right_variables { bound (tree_of law.now.right) ≤ 8 }
        ensures none { IsNone result ↔ Holds (inside (magma_of self.now).ring)
            (times (magma_of self.now)) (tree_of law.now.left) (tree_of law.now.right) }
        ensures some { IfSome result (λ failure. IsFirstFailure (magma_of self.now) (equation_of law.now) failure) }
    {
        let left = self.form_of(&law.left);
        let right = self.form_of(&law.right);
        match first_difference(&left, &right) {
            None => None,
            Some(variable) => Some(LinearFailure {
                variable,
                left: left.value_at(self.ring, variable),
                right: right.value_at(self.ring, variable),
            }),
        }
    }
}

impl Form {
    /// The form's value where all variables are zero, or the given one is 1 and all others are zero.
    fn value_at(&self, ring: Ring, variable: Option<u8>) -> i128
        requires { CanTake ring self.now variable }
        ensures { result ≡ taken ring self.now variable }
    {
        match variable {
            None => self.constant,
            Some(v) => ring.plus(self.coefficients[v as usize], self.constant),
        }
    }
}

/// Where two forms differ first: in their constants, else in the least variable's coefficient.
fn first_difference(left: &Form, right: &Form) -> Option<Option<u8>>
    ensures { MatchOption result (AreOne left.now right.now) (λ place. IsFirstDifference left.now right.now place) }
{
    if left.constant != right.constant {
        return Some(None);
    }
    for v in 0..8 {
        if left.coefficients[v as usize] != right.coefficients[v as usize] {
            return Some(Some(v));
        }
    }
    None
}
