ghost use Rattle.std.specs.Prelude.{◌≡◌, ◌∷◌, ◌++◌, [], None, IfOk, OnOk, OnErr, map};
ghost use Rattle.std.specs.Option.{option_copied, option_map};
ghost use Rattle.etp_theory.specs.Substitutions.{apply, total};
ghost use Rattle.etp_term.specs.Terms.{tree_of};
ghost use Rattle.etp_match.specs.Bindings.{value_of, entry_of, partial_of};

use etp_term::{NoMemory, Term};
use sqlite_items::Boxed;
use std::alloc::Global;
use std::marker::Model;

/// A variable and the term that stands for it.
#[derive(Drop)]
pub(crate) struct Binding {
    pub variable: u8,
    pub value: Term,
}

/// A finite partial map from variables to terms.
#[derive(Drop)]
pub struct Subst {
    bindings: Vec<Binding>,
}

impl Model for Subst {
    ghost use Rattle.std.specs.Prelude.{List};
    ghost use Rattle.std.specs.Coded.{codes};
    ghost use Rattle.etp_term.specs.contracts.term.Term as term;
    ghost use Rattle.etp_match.specs.declared.subst.Binding.{Binding};

    ghost Value = { List Binding };

    ghost coded = { Prim.hlevel (codes, term.the_row.coded) };

    ghost view = { λ s. s.bindings.items };
}

impl Subst {
    /// The map without values.
    pub fn empty(alloc: Global) -> Result<Subst, NoMemory>
        ensures { IfOk result (λ s. s ≡ []) }
    {
        Ok(Subst {
            bindings: Vec::with_capacity(alloc, 8)?,
        })
    }

    /// The value of the variable, where it has one.
    pub fn get(&self, variable: u8) -> Option<&Term>
        ensures { option_map tree_of (option_copied result) ≡ (partial_of self.now).value variable }
    {
        value_in(self.bindings.as_slice(), variable)
    }

    /// The term with each variable replaced that has a value; a variable without one stays.
    pub fn apply(&self, alloc: Global, term: &Term) -> Result<Term, NoMemory>
        ensures { IfOk result (λ t.
            tree_of t ≡ apply (total (partial_of self.now)) (tree_of term.now)) }
    {
        match term {
            Term::Var(v) => match self.get(*v) {
                Some(value) => value.copy(alloc),
                None => Ok(Term::Var(*v)),
            },
            Term::Op(l, r) => {
                let left = self.apply(alloc, l.get())?;
                let right = self.apply(alloc, r.get())?;
                Ok(Term::Op(Boxed::new(alloc, left)?, Boxed::new(alloc, right)?))
            }
        }
    }

    /// Gives a value to a variable that has none.
    pub fn bind(&mut self, variable: u8, value: Term) -> Result<(), NoMemory>
        requires { (partial_of self.old).value variable ≡ None }
        ensures ok { OnOk result (self.new ≡ self.old ++ (record { variable = variable; value = value }) ∷ []) }
        ensures err { OnErr result (self.new ≡ self.old) }
    {
        self.bindings.push(Binding { variable, value })?;
        Ok(())
    }

    /// All values, in order.
    pub(crate) fn as_slice(&self) -> &[Binding]
        ensures { result.now ≡ self.now }
    {
        self.bindings.as_slice()
    }

    /// Appends values of further variables.
    pub(crate) fn append(&mut self, values: Vec<Binding>) -> Result<(), NoMemory>
        ensures ok { OnOk result (self.new ≡ self.old ++ values.items) }
        ensures err { OnErr result (self.new ≡ self.old) }
    {
        let mut values = values;
        self.bindings.append(&mut values)?;
        Ok(())
    }
}

fn value_in(bindings: &[Binding], variable: u8) -> Option<&Term>
    ensures { option_map tree_of (option_copied result)
        ≡ value_of (map entry_of bindings.now) variable }
{
    match bindings {
        [] => None,
        [first, rest @ ..] => {
            if first.variable == variable {
                Some(&first.value)
            } else {
                value_in(rest, variable)
            }
        }
    }
}
