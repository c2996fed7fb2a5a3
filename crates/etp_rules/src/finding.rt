// The strategy's step, with its rule and its position.
ghost use Rattle.std.specs.Prelude.{◌≡◌, ◌≤◌, ◌+◌, ◌∷◌, ◌<◌, ◌^◌, IfOk, IfSome, length, reverse};
ghost use Rattle.etp_theory.specs.Substitutions.{apply};
ghost use Rattle.etp_theory.specs.Strategy.{matcher, fired, fired_root};
ghost use Rattle.etp_term.specs.Terms.{tree_of};
ghost use Rattle.etp_rules.specs.Rules.{rule_of, rules_of};
ghost use Rattle.etp_rules.specs.Finding.{found_of, IsFirstStep};

use crate::node::{Node, Parts, matches, operation, read, shared, variable};
use crate::rule::Rule;
use etp_term::{NoMemory, Position, Side, Term};
use sqlite_items::Items;
use std::alloc::{AllocError, Global};
use std::rc::Rc;

/// A step of the strategy: the rule by its number from 1, the position, and the term after it.
#[derive(Drop)]
pub struct Fired {
    pub rule: u32,
    pub position: Position,
    pub to: Term,
}

/// A step that was found: the rule by its number from 0, and the sides from the position up to the
/// root.
#[derive(Drop)]
struct Found {
    number: u32,
    way_back: Items<Side>,
    to: Rc<Node>,
}

/// The strategy's step; None where no rule matches anywhere.
pub(crate) fn first_step(
    alloc: Global,
    rules: &[Rule],
    term: &Term,
) -> Result<Option<Fired>, NoMemory>
    requires { length rules.now ≤ 64 }
    ensures { IfOk result (λ o. IsFirstStep (rules_of rules.now) (tree_of term.now) o) }
{
    let whole = shared(alloc, term)?;
    match find(alloc, rules, &whole)? {
        None => Ok(None),
        Some(found) => {
            let rule = found.number + 1;
            let to = found.to.term(alloc)?;
            let position = turned(alloc, found.way_back)?;
            Ok(Some(Fired { rule, position, to }))
        }
    }
}

/// The step in the left part, else in the right part, else at the root.
fn find(alloc: Global, rules: &[Rule], term: &Rc<Node>) -> Result<Option<Found>, NoMemory>
    requires { length rules.now ≤ 64 }
    ensures step { IfOk result (λ o. found_of o ≡ fired (rules_of rules.now) term.now.value) }
    ensures few { IfOk result (λ o. IfSome o (λ f. f.number < 64)) }
{
    match term.as_ref().parts() {
        Parts::Var(_) => {
            let found = find_root(alloc, 0, rules, term)?;
            Ok(found)
        }
        Parts::Op(l, r) => match find(alloc, rules, l)? {
            Some(found) => {
                let to = operation(alloc, found.to, r.clone()?)?;
                let way_back = under(Side::L, found.way_back)?;
                let number = found.number;
                Ok(Some(Found {
                    number,
                    way_back,
                    to,
                }))
            }
            None => match find(alloc, rules, r)? {
                Some(found) => {
                    let to = operation(alloc, l.clone()?, found.to)?;
                    let way_back = under(Side::R, found.way_back)?;
                    let number = found.number;
                    Ok(Some(Found {
                        number,
                        way_back,
                        to,
                    }))
                }
                None => {
                    let found = find_root(alloc, 0, rules, term)?;
                    Ok(found)
                }
            },
        },
    }
}

/// The step at the root by the lowest matching rule, where the first of the rules has this number.
fn find_root(
    alloc: Global,
    number: u32,
    rules: &[Rule],
    term: &Rc<Node>,
) -> Result<Option<Found>, NoMemory>
    requires { number + length rules.now ≤ 64 }
    ensures step { IfOk result (λ o. found_of o ≡ fired_root number (rules_of rules.now) term.now.value) }
    ensures few { IfOk result (λ o. IfSome o (λ f. f.number < 64)) }
{
    match rules {
        [] => Ok(None),
        [rule, rest @ ..] => {
            if matches(&rule.left, term) {
                let to = instance(alloc, &rule.left, term, &rule.right)?;
                let way_back = Items::new(alloc);
                return Ok(Some(Found {
                    number,
                    way_back,
                    to,
                }));
            }
            let found = find_root(alloc, number + 1, rest, term)?;
            Ok(found)
        }
    }
}

/// The side, with what the pattern's variables stand for in the term.
fn instance(
    alloc: Global,
    pattern: &Term,
    term: &Rc<Node>,
    side: &Term,
) -> Result<Rc<Node>, NoMemory>
    ensures { IfOk result (λ t.
        t.value ≡ apply (matcher (tree_of pattern.now) term.now.value) (tree_of side.now)) }
{
    match side {
        Term::Var(v) => match read(pattern, term, *v) {
            Some(found) => {
                let copy = found.clone()?;
                Ok(copy)
            }
            None => {
                let made = variable(alloc, *v)?;
                Ok(made)
            }
        },
        Term::Op(l, r) => {
            let left = instance(alloc, pattern, term, l.get())?;
            let right = instance(alloc, pattern, term, r.get())?;
            let whole = operation(alloc, left, right)?;
            Ok(whole)
        }
    }
}

/// One side further up.
fn under(side: Side, mut way_back: Items<Side>) -> Result<Items<Side>, NoMemory>
    ensures { IfOk result (λ w. reverse w ≡ side ∷ reverse way_back) }
{
    way_back.push(side)?;
    Ok(way_back)
}

/// The position to which the sides lead back.
fn turned(alloc: Global, mut way_back: Items<Side>) -> Result<Position, NoMemory>
    ensures { IfOk result (λ p. p ≡ reverse way_back) }
{
    let mut position = Position::root(alloc);
    while let Some(side) = way_back.pop() {
        if position.len() == u32::MAX {
            return Err(AllocError);
        }
        position.push(side)?;
    }
    Ok(position)
}
