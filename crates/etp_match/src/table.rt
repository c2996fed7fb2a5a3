ghost use Rattle.std.specs.Prelude.{◌≡◌, ◌∷◌, ◌++◌, [], ℕ, IsTrue, IfOk, None, false, length, take, drop, ◌≤◌};
ghost use Rattle.std.specs.Option.{option_copied, option_map};
ghost use Rattle.etp_term.specs.Terms.{tree_of};
ghost use Rattle.etp_match.specs.Bindings.{partial_of, HaveSameValues};
ghost use Rattle.etp_match.specs.Matching.{IsExtendedTo, NoneMatches};

use crate::subst::{Binding, Subst};
use etp_term::{NoMemory, Term};
use sqlite_items::at;
use std::alloc::Global;
use std::marker::Model;

/// A variable and the borrowed term that stands for it.
#[derive(Clone, Copy)]
struct Bound<'t> {
    variable: u8,
    value: &'t Term,
}

/// A finite partial map from variables to terms that it borrows, to match with. It takes memory for
/// all variables when it is made and none to match; to clear it costs what its values cost at most.
#[derive(Drop)]
pub struct Bindings<'t> {
    /// What is bound, in order; there is room for all variables.
    bound: Vec<Bound<'t>>,
    /// For each variable that is bound, its place in that order; for the others, anything.
    places: Vec<u8>,
}

impl<'t> Model for Bindings<'t> {
    ghost use Rattle.std.specs.Prelude.{List, map, vec_capacity, ◌≤◌};
    ghost use Rattle.std.specs.Coded.{codes};
    ghost use Rattle.etp_term.specs.contracts.term.Term as term;
    ghost use Rattle.etp_match.specs.declared.subst.Binding.{Binding};

    ghost Value = { List Binding };

    ghost coded = { Prim.hlevel (codes, term.the_row.coded) };

    ghost use Rattle.etp_match.specs.Indexes.{binding_of, IsIndex};

    ghost view = { λ b. map binding_of b.bound.items };

    ghost invariant = { λ b. IsIndex b.bound.items b.places.items × (256 ≤ vec_capacity b.bound) };
}

impl<'t> Bindings<'t> {
    /// The map without values, with room for the values of all variables.
    pub fn empty(alloc: Global) -> Result<Bindings<'t>, NoMemory>
        ensures { IfOk result (λ b. b ≡ []) }
    {
        let bound = Vec::with_capacity(alloc, 256)?;
        let places = vec![in alloc; 0; 256]?;
        Ok(Bindings { bound, places })
    }

    /// The values of a substitution.
    pub(crate) fn of(alloc: Global, subst: &'t Subst) -> Result<Bindings<'t>, NoMemory>
        ensures { IfOk result (λ b. HaveSameValues b subst.now) }
    {
        let mut bindings = Bindings::empty(alloc)?;
        for binding in subst.as_slice() {
            bindings.bind_first(binding);
        }
        Ok(bindings)
    }

    /// The value of the variable, where it has one.
    pub fn get(&self, variable: u8) -> Option<&'t Term>
        ensures { option_map tree_of (option_copied result) ≡ (partial_of self.now).value variable }
    {
        let place = self.places[variable as usize];
        match at(self.bound.as_slice(), place as usize) {
            Some(bound) => {
                if bound.variable == variable {
                    Some(bound.value)
                } else {
                    None
                }
            }
            None => None,
        }
    }

    /// How many variables have a value.
    pub(crate) fn len(&self) -> usize
        ensures { result ≡ length self.now }
    {
        self.bound.len()
    }

    /// Copies of the values from a place on.
    pub(crate) fn copied_from(&self, alloc: Global, start: usize) -> Result<Vec<Binding>, NoMemory>
        requires { start ≤ length self.now }
        ensures { IfOk result (λ copies. copies.items ≡ drop start self.now) }
    {
        let mut copies = Vec::new(alloc);
        for bound in &self.bound.as_slice()[start..] {
            let value = bound.value.copy(alloc)?;
            copies.push(Binding {
                variable: bound.variable,
                value,
            })?;
        }
        Ok(copies)
    }

    /// Gives a value to a variable that has none.
    pub fn bind(&mut self, variable: u8, value: &'t Term)
        requires { (partial_of self.old).value variable ≡ None }
        ensures { self.new ≡ self.old ++ (record { variable = variable; value = value.now }) ∷ [] }
    {
        self.places[variable as usize] = self.bound.len() as u8;
        self.bound.push_reserved(Bound { variable, value });
    }

    /// Gives the variable this value, where it has none.
    fn bind_first(&mut self, binding: &'t Binding)
        ensures { HaveSameValues self.new (self.old ++ binding.now ∷ []) }
    {
        match self.get(binding.variable) {
            Some(_) => {}
            None => self.bind(binding.variable, &binding.value),
        }
    }

    /// Keeps the first values alone.
    fn truncate(&mut self, len: usize)
        ensures { self.new ≡ take len self.old }
    {
        self.bound.truncate(len);
    }

    /// Takes all values away.
    pub fn clear(&mut self)
        ensures { self.new ≡ [] }
    {
        self.bound.clear();
    }

    /// Whether some extension of the map takes the pattern to the term. The map is then extended by
    /// the values of the pattern's new variables, behind those that it had; else it is as before.
    pub fn matches(&mut self, pattern: &Term, term: &'t Term) -> bool
        ensures yes { IsTrue result
            → IsExtendedTo (tree_of pattern.now) (tree_of term.now) (partial_of self.old)
            (partial_of self.new) }
        ensures order { IsTrue result → take (length self.old) self.new ≡ self.old }
        ensures no { result ≡ false
            → NoneMatches (tree_of pattern.now) (tree_of term.now) (partial_of self.old) }
        ensures unchanged { result ≡ false → self.new ≡ self.old }
    {
        let before = self.len();
        let fits = self.extend(pattern, term);
        if !fits {
            self.truncate(before);
        }
        fits
    }

    /// Gives values to the pattern's new variables from left to right, up to the first misfit.
    fn extend(&mut self, pattern: &Term, term: &'t Term) -> bool
        ensures yes { IsTrue result
            → IsExtendedTo (tree_of pattern.now) (tree_of term.now) (partial_of self.old)
            (partial_of self.new) }
        ensures no { result ≡ false
            → NoneMatches (tree_of pattern.now) (tree_of term.now) (partial_of self.old) }
        ensures order { take (length self.old) self.new ≡ self.old }
    {
        match pattern {
            Term::Var(v) => match self.get(*v) {
                Some(value) => value.same_term(term),
                None => {
                    self.bind(*v, term);
                    true
                }
            },
            Term::Op(a, b) => match term {
                Term::Var(_) => false,
                Term::Op(c, d) => self.extend(a.get(), c.get()) && self.extend(b.get(), d.get()),
            },
        }
    }
}
