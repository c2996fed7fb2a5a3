ghost use Rattle.std.specs.Prelude.{◌≡◌, ◌≤◌, ◌↔◌, IsNone, IfSome, MatchOption};
ghost use Rattle.etp_theory.specs.Trees.{bound};
ghost use Rattle.etp_theory.specs.Magmas.{Holds};
ghost use Rattle.etp_term.specs.Terms.{tree_of};
ghost use Rattle.etp_term.specs.Laws.{equation_of};
ghost use Rattle.etp_matrix.specs.Magmas.{inside, times};
ghost use Rattle.etp_matrix.specs.Linears.{magma_of};
ghost use Rattle.etp_matrix.specs.Failures.{IsFirstFailure};
ghost use Rattle.etp_matrix.specs.Walks.{AreSame, IsFirstColumn, AreAllSame, IsFirstDifference};

use crate::matrix_linear::MatrixLinear;
use crate::parts::{Columns, Matrices, MatrixFailure};
use crate::vectors::sum;
use etp_term::Law;

impl MatrixLinear {
    /// The first assignment at which a law fails, all zero or one variable a unit vector and all others
    /// zero. Only the coefficients of both sides are looked at.
    pub fn first_failure(&self, law: &Law) -> Option<MatrixFailure>
        requires left_variables { bound (tree_of law.now.left) ≤ 8 }
        requires right_variables { bound (tree_of law.now.right) ≤ 8 }
        ensures none { IsNone result ↔ Holds (inside (magma_of self.now))
            (times (magma_of self.now)) (tree_of law.now.left) (tree_of law.now.right) }
        ensures some { IfSome result (λ failure. IsFirstFailure (magma_of self.now) (equation_of law.now) failure) }
    {
        let mut left = [[[0; 4]; 4]; 8];
        let mut left_constant = [0; 4];
        self.write_form(&law.left, &mut left, &mut left_constant);
        let mut right = [[[0; 4]; 4]; 8];
        let mut right_constant = [0; 4];
        self.write_form(&law.right, &mut right, &mut right_constant);
        if left_constant != right_constant {
            return Some(MatrixFailure {
                at: None,
                left: left_constant,
                right: right_constant,
            });
        }
        match first_difference(&left, &right, self.size) {
            None => None,
            Some((v, k)) => Some(MatrixFailure {
                at: Some((v, k)),
                left: sum(&left[v as usize][k as usize], &left_constant, self.modulus),
                right: sum(
                    &right[v as usize][k as usize],
                    &right_constant,
                    self.modulus,
                ),
            }),
        }
    }
}

/// The least column of the least variable in which two forms differ.
fn first_difference(left: &Matrices, right: &Matrices, size: u8) -> Option<(u8, u8)>
    requires { size ≤ 4 }
    ensures { MatchOption result (AreAllSame size left.now right.now)
        (λ at. IsFirstDifference size left.now right.now at) }
{
    for v in 0..8 {
        match first_column(&left[v as usize], &right[v as usize], size) {
            None => {}
            Some(k) => return Some((v, k)),
        }
    }
    None
}

/// The first column below the size in which two matrices differ.
fn first_column(left: &Columns, right: &Columns, size: u8) -> Option<u8>
    requires { size ≤ 4 }
    ensures { MatchOption result (AreSame size left.now right.now) (λ k. IsFirstColumn size left.now right.now k) }
{
    for k in 0..size {
        if left[k as usize] != right[k as usize] {
            return Some(k);
        }
    }
    None
}
