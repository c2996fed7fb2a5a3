ghost use Rattle.std.specs.Prelude.{◌≡◌, ◌≤◌};
ghost use Rattle.etp_theory.specs.Trees.{ops, bound};
ghost use Rattle.etp_term.specs.Terms.{tree_of};
ghost use Rattle.etp_linear.specs.Linears.{magma_of};
ghost use Rattle.etp_linear.specs.Values.{IsFormOf, HasNumbers};
ghost use Rattle.etp_linear.specs.Walks.{CanGain, Gains};

use crate::linear::Linear;
use crate::parts::Form;
use etp_term::Term;

impl Linear {
    /// The linear form of a term: the coefficient of each variable in its value, and the constant.
    pub fn form_of(&self, term: &Term) -> Form
        requires few { ops (tree_of term.now) ≤ 5 }
        requires variables { bound (tree_of term.now) ≤ 8 }
        ensures value { IsFormOf (magma_of self.now) (tree_of term.now) result }
        ensures numbers { HasNumbers (magma_of self.now) (tree_of term.now) result }
    {
        let mut form = Form {
            coefficients: [0; 8],
            constant: 0,
        };
        self.gain(term, self.ring.one(), &mut form);
        form
    }

    /// Adds so much times the term's form. The factor is handed down to each place of a variable.
    fn gain(&self, term: &Term, factor: i128, form: &mut Form)
        requires { CanGain (magma_of self.now) (tree_of term.now) factor form.old }
        ensures { Gains (magma_of self.now) (tree_of term.now) factor form.old form.new }
    {
        match term {
            Term::Var(v) => {
                let at = *v as usize;
                form.coefficients[at] = self.ring.plus(form.coefficients[at], factor);
            }
            Term::Op(l, r) => {
                let added = self.ring.times(factor, self.c as i128);
                form.constant = self.ring.plus(form.constant, added);
                let to_left = self.ring.times(factor, self.a as i128);
                self.gain(l.get(), to_left, form);
                let to_right = self.ring.times(factor, self.b as i128);
                self.gain(r.get(), to_right, form);
            }
        }
    }
}
