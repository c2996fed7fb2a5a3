ghost use Rattle.std.specs.Prelude.{◌≤◌, ℕ};
ghost use Rattle.etp_theory.specs.Trees.{bound};
ghost use Rattle.etp_term.specs.Terms.{tree_of};
ghost use Rattle.etp_matrix.specs.Linears.{magma_of};
ghost use Rattle.etp_matrix.specs.Walks.{form, HasNumbers, CanGain, Gains, IsVector, AreVectors, Extends, wide_column};

use crate::matrix_linear::MatrixLinear;
use crate::parts::{Columns, Matrices, Vector};
use crate::vectors::{apply, columns_of_rows, identity, product, sum, sum_of_matrices};
use etp_term::Term;

impl MatrixLinear {
    /// Writes the linear form of a term: the matrix of each variable in its value, and the constant.
    pub(crate) fn write_form(&self, term: &Term, matrices: &mut Matrices, constant: &mut Vector)
        requires { bound (tree_of term.now) ≤ 8 }
        ensures { HasNumbers (magma_of self.now) (tree_of term.now) (form matrices.new constant.new) }
    {
        *matrices = [[[0; 4]; 4]; 8];
        *constant = [0; 4];
        self.gain(term, &identity(self.modulus), matrices, constant);
    }

    /// Adds the factor times the term's form. The factor is handed down to each place of a variable.
    fn gain(&self, term: &Term, factor: &Columns, matrices: &mut Matrices, constant: &mut Vector)
        requires { CanGain self.now (tree_of term.now) factor.now (form matrices.old constant.old) }
        ensures { Gains self.now (tree_of term.now) factor.now (form matrices.old constant.old)
            (form matrices.new constant.new) }
    {
        match term {
            Term::Var(v) => {
                let at = *v as usize;
                matrices[at] = sum_of_matrices(&matrices[at], factor, self.modulus);
            }
            Term::Op(l, r) => {
                let added = apply(factor, &self.c, self.modulus);
                *constant = sum(constant, &added, self.modulus);
                let to_left = self.extended(factor, &self.a);
                self.gain(l.get(), &to_left, matrices, constant);
                let to_right = self.extended(factor, &self.b);
                self.gain(r.get(), &to_right, matrices, constant);
            }
        }
    }

    /// The factor times a matrix that is given row by row.
    fn extended(&self, factor: &Columns, matrix: &[u32; 16]) -> Columns
        requires factor { AreVectors self.now.modulus factor.now }
        requires matrix { (k : ℕ) → IsVector self.now.modulus 4 (wide_column self.now.size matrix.now k) }
        ensures { Extends self.now factor.now matrix.now result }
    {
        product(factor, &columns_of_rows(matrix, self.size), self.modulus)
    }
}
