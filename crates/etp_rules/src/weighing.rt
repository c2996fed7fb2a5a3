// The weight of a term.
ghost use Rattle.std.specs.Prelude.{◌≡◌, ◌≤◌};
ghost use Rattle.etp_theory.specs.Trees.{ops};
ghost use Rattle.etp_theory.specs.Weights.{coefficient, constant};
ghost use Rattle.etp_term.specs.Terms.{tree_of};
ghost use Rattle.etp_rules.specs.Weighing.{weight_of, IsSmall, IsFormFor};

use etp_term::Term;

/// How a linear weight weighs an operation: so much times its left part, so much times its right
/// part, and so much more.
#[derive(Clone, Copy)]
pub struct Weights {
    pub on_left: u32,
    pub on_right: u32,
    pub added: u32,
}

/// The weight of a term: a coefficient for each of the variables 0 to 63, and a constant.
#[derive(Clone, Copy)]
pub struct WeightForm {
    pub coefficients: [u128; 64],
    pub constant: u128,
}

impl Weights {
    /// How often the weight counts the variable.
    pub(crate) fn coefficient(self, term: &Term, variable: u8) -> u128
        requires small { IsSmall self }
        requires few { ops (tree_of term.now) ≤ 12 }
        ensures { result ≡ coefficient (weight_of self) (tree_of term.now) variable }
    {
        match term {
            Term::Var(v) => { if *v == variable { 1 } else { 0 } }
            Term::Op(l, r) => {
                let left = self.coefficient(l.get(), variable);
                let right = self.coefficient(r.get(), variable);
                self.on_left as u128 * left + self.on_right as u128 * right
            }
        }
    }

    /// The part of the weight that no variable changes.
    pub(crate) fn constant(self, term: &Term) -> u128
        requires small { IsSmall self }
        requires few { ops (tree_of term.now) ≤ 12 }
        ensures { result ≡ constant (weight_of self) (tree_of term.now) }
    {
        match term {
            Term::Var(_) => 0,
            Term::Op(l, r) => {
                let left = self.constant(l.get());
                let right = self.constant(r.get());
                self.on_left as u128 * left + self.on_right as u128 * right + self.added as u128
            }
        }
    }

    /// The whole weight of a term.
    pub(crate) fn form(self, term: &Term) -> WeightForm
        requires small { IsSmall self }
        requires few { ops (tree_of term.now) ≤ 12 }
        ensures { IsFormFor (weight_of self) (tree_of term.now) result }
    {
        let mut coefficients = [0u128; 64];
        for variable in 0..64u8 {
            coefficients[variable as usize] = self.coefficient(term, variable);
        }
        WeightForm {
            coefficients,
            constant: self.constant(term),
        }
    }
}
