ghost use Rattle.std.specs.Prelude.{◌≡◌, ◌∷◌, [], Some, None, OnOk, OnErr, IfOk, MatchOption, MatchResult, Result, IsTrue, ◌↔◌, map};
ghost use Rattle.std.specs.Option.{option_map};
ghost use Rattle.etp_theory.specs.Trees.{Tree};
ghost use Rattle.etp_term.specs.Terms.{tree_of};
ghost use Rattle.etp_text.specs.Machine.{start, placed, closed, divided, end_from, begin_from, atom_from, step, stand_of, state_of, side_in, Takes};
ghost use Rattle.etp_text.specs.Refusals.{as_variable};

use crate::refusal::TextRefusal;
use crate::token::Token;
use etp_term::Term;
use sqlite_items::Boxed;
use std::alloc::{AllocError, Global};
use std::marker::Model;
use std::mem;

/// What a text is read as.
#[derive(Clone, Copy)]
pub(crate) enum Grammar {
    /// A term, in which `=` has no place.
    Terms,
    /// A law, two terms with `=` between them.
    Laws,
}

/// What stands of a side: an atom is wanted, maybe behind a part and an operator; or an atom
/// stands; or two with an operator between.
#[derive(Drop)]
pub(crate) enum Part {
    Wanted(Option<Boxed<Term>>),
    Atom(Term),
    Pair(Term),
}

/// What stands before each open parenthesis.
#[derive(Drop)]
pub(crate) struct Parentheses {
    parts: Vec<Option<Boxed<Term>>>,
}

impl Model for Parentheses {
    ghost use Rattle.std.specs.Prelude.{List, Option, reverse};
    ghost use Rattle.std.specs.Coded.{codes};
    ghost use Rattle.etp_term.specs.contracts.term.Term as coded_term;
    ghost use Rattle.etp_term.specs.declared.term.Term.{Term};

    ghost Value = { List (Option Term) };

    ghost coded = { Prim.hlevel (codes, coded_term.the_row.coded) };

    ghost view = { λ p. reverse p.parts.items };
}

impl Parentheses {
    fn none(alloc: Global) -> Parentheses
        ensures { result ≡ [] }
    {
        Parentheses {
            parts: Vec::new(alloc),
        }
    }

    fn push(&mut self, part: Option<Boxed<Term>>) -> Result<(), AllocError>
        ensures { OnOk result (self.new ≡ part ∷ self.old) }
    {
        self.parts.push(part)?;
        Ok(())
    }

    fn pop(&mut self) -> Option<Option<Boxed<Term>>>
        ensures { MatchOption result (self.old ≡ []) (λ part. self.old ≡ part ∷ self.new) }
    {
        self.parts.pop()
    }

    fn is_empty(&self) -> bool
        ensures { IsTrue result ↔ (self.now ≡ []) }
    {
        self.parts.is_empty()
    }
}

/// What has been read of a text up to some place.
#[derive(Drop)]
pub(crate) struct Reading {
    /// The left side of a law whose `=` has been read.
    pub left: Option<Term>,
    /// What stands before each parenthesis that is open.
    pub opened: Parentheses,
    /// What stands of the innermost side.
    pub part: Part,
}

impl Reading {
    pub(crate) fn start(alloc: Global) -> Reading
        ensures { state_of result ≡ start }
    {
        Reading {
            left: None,
            opened: Parentheses::none(alloc),
            part: Part::Wanted(None),
        }
    }

    /// Goes past one more token, whose place is `at`.
    pub(crate) fn advance(
        &mut self,
        alloc: Global,
        grammar: Grammar,
        token: Token,
        at: u32,
    ) -> Result<(), TextRefusal>
        ensures { Takes (step grammar (state_of self.old) token)
            (step grammar (state_of self.old) (as_variable token)) token at
            (state_of self.new) result }
    {
        match mem::replace(&mut self.part, Part::Wanted(None)) {
            Part::Wanted(before) => self.begin(alloc, before, token, at),
            Part::Atom(side) => self.behind_atom(alloc, grammar, side, token, at),
            Part::Pair(side) => self.end(alloc, grammar, side, token, at),
        }
    }

    /// Goes past a token where an atom is wanted.
    fn begin(
        &mut self,
        alloc: Global,
        before: Option<Boxed<Term>>,
        token: Token,
        at: u32,
    ) -> Result<(), TextRefusal>
        ensures { let s = option_map tree_of self.old.left in let b = option_map tree_of before in
            let p = map (option_map tree_of) self.old.opened in
            Takes (begin_from s p b token) (begin_from s p b (as_variable token)) token at
            (state_of self.new) result }
    {
        match token {
            Token::Variable(v) => self.part = placed(alloc, before, Term::Var(v))?,
            Token::Opening => {
                self.opened.push(before)?;
                self.part = Part::Wanted(None);
            }
            Token::Unknown => return Err(TextRefusal::Variable { at }),
            _ => return Err(TextRefusal::Syntax { at }),
        }
        Ok(())
    }

    /// Goes past a token behind an atom.
    fn behind_atom(
        &mut self,
        alloc: Global,
        grammar: Grammar,
        side: Term,
        token: Token,
        at: u32,
    ) -> Result<(), TextRefusal>
        ensures { let s = option_map tree_of self.old.left in
            let p = map (option_map tree_of) self.old.opened in
            Takes (atom_from grammar s p (tree_of side) token)
            (atom_from grammar s p (tree_of side) (as_variable token)) token at
            (state_of self.new) result }
    {
        match token {
            Token::Operator => {
                self.part = Part::Wanted(Some(Boxed::new(alloc, side)?));
                Ok(())
            }
            _ => self.end(alloc, grammar, side, token, at),
        }
    }

    /// Goes past a token that ends a part.
    fn end(
        &mut self,
        alloc: Global,
        grammar: Grammar,
        side: Term,
        token: Token,
        at: u32,
    ) -> Result<(), TextRefusal>
        ensures { let s = option_map tree_of self.old.left in
            let p = map (option_map tree_of) self.old.opened in
            Takes (end_from grammar s p (tree_of side) token)
            (end_from grammar s p (tree_of side) (as_variable token)) token at
            (state_of self.new) result }
    {
        match token {
            Token::Closing => self.close(alloc, side, at),
            Token::Equals => self.divide(grammar, side, at),
            _ => Err(TextRefusal::Syntax { at }),
        }
    }

    /// Goes past a closing parenthesis.
    fn close(&mut self, alloc: Global, side: Term, at: u32) -> Result<(), TextRefusal>
        ensures { let next = closed (option_map tree_of self.old.left)
            (map (option_map tree_of) self.old.opened) (tree_of side) in
            Takes next next Token.Closing at (state_of self.new) result }
    {
        let Some(before) = self.opened.pop() else {
            return Err(TextRefusal::Syntax { at });
        };
        self.part = placed(alloc, before, side)?;
        Ok(())
    }

    /// Goes past the sign between the sides of a law.
    fn divide(&mut self, grammar: Grammar, side: Term, at: u32) -> Result<(), TextRefusal>
        ensures { let next = divided grammar (option_map tree_of self.old.left)
            (map (option_map tree_of) self.old.opened) (tree_of side) in
            Takes next next Token.Equals at (state_of self.new) result }
    {
        match grammar {
            Grammar::Laws if self.left.is_none() && self.opened.is_empty() => {
                self.left = Some(side);
                self.part = Part::Wanted(None);
                Ok(())
            }
            _ => Err(TextRefusal::Syntax { at }),
        }
    }

    /// The side that stands whole; the text ends at `at`.
    pub(crate) fn into_side(self, at: u32) -> Result<Term, TextRefusal>
        ensures { MatchResult result (λ t.
            side_in (map (option_map tree_of) self.opened) (stand_of self.part) ≡ Some (tree_of t))
            (λ e. (e ≡ TextRefusal.Syntax at)
            × (side_in (map (option_map tree_of) self.opened) (stand_of self.part) ≡ None)) }
    {
        let Reading {
            left: _left,
            opened,
            part,
        } = self;
        if !opened.is_empty() {
            return Err(TextRefusal::Syntax { at });
        }
        match part {
            Part::Atom(side) => Ok(side),
            Part::Pair(side) => Ok(side),
            Part::Wanted(_before) => Err(TextRefusal::Syntax { at }),
        }
    }
}

/// An atom where one was wanted.
fn placed(alloc: Global, before: Option<Boxed<Term>>, atom: Term) -> Result<Part, AllocError>
    ensures { IfOk result (λ part.
        stand_of part ≡ placed (option_map tree_of before) (tree_of atom)) }
{
    match before {
        None => Ok(Part::Atom(atom)),
        Some(left) => Ok(Part::Pair(Term::Op(left, Boxed::new(alloc, atom)?))),
    }
}
