// Overlaps of two rules, and the critical pair that comes of one.
ghost use Rattle.std.specs.Prelude.{◌≡◌, ◌≤◌, IfOk, Some};
ghost use Rattle.etp_theory.specs.Trees.{op, bound};
ghost use Rattle.etp_theory.specs.Substitutions.{raise};
ghost use Rattle.etp_theory.specs.Positions.{sub_at};
ghost use Rattle.etp_term.specs.Terms.{tree_of};
ghost use Rattle.etp_term.specs.Positions.{position_of};
ghost use Rattle.etp_rules.specs.Rules.{rule_of, rules_of};
ghost use Rattle.etp_pairs.specs.Numbering.{HaveFewVariables, AreNumbered};
ghost use Rattle.etp_pairs.specs.Pairs.{IsPair, AreUnified};

use crate::naming::note;
use etp_match::{Subst, replace_at};
use etp_rules::{Rule, RuleSystem};
use etp_term::{NoMemory, Position, Term};
use etp_unify::{Unified, unify};
use sqlite_items::Boxed;
use std::alloc::Global;

/// A critical pair (Knuth and Bendix 1970): what the outer rule and what the inner rule makes of a
/// term that both rewrite, the inner one at a position of the outer left side. Rules are numbered
/// from 1.
#[derive(Drop)]
pub struct CriticalPair {
    pub outer: u32,
    pub position: Position,
    pub inner: u32,
    pub left: Term,
    pub right: Term,
}

/// What the outer and what the inner rule makes of a term that both rewrite.
#[derive(Drop)]
struct Results {
    left: Term,
    right: Term,
}

/// The critical pair of two rules at a position of the outer rule's left side, with its variables
/// numbered as they first come, through the left result and then the right one. None where a number
/// is no rule's, where the position isn't an operation's, where it is the root and both are one rule,
/// or where no substitution makes the part and the inner left side equal.
pub fn overlap(
    alloc: Global,
    system: &RuleSystem,
    outer: u32,
    position: &Position,
    inner: u32,
) -> Result<Option<CriticalPair>, NoMemory>
    ensures { IfOk result (λ o.
        IsPair (rules_of system.now.rules) outer (position_of position.now) inner o) }
{
    if outer == inner && position.len() == 0 {
        return Ok(None);
    }
    let Some(outer_rule) = system.rule(outer) else {
        return Ok(None);
    };
    let Some(inner_rule) = system.rule(inner) else {
        return Ok(None);
    };
    let Some(part) = outer_rule.left.at(position) else {
        return Ok(None);
    };
    if let Term::Var(_) = part {
        return Ok(None);
    }
    match results_of(alloc, outer_rule, inner_rule, position, part)? {
        None => Ok(None),
        Some(found) => {
            let named = numbered(alloc, &found)?;
            let position = copied(alloc, position)?;
            let left = named.left;
            let right = named.right;
            Ok(Some(CriticalPair {
                outer,
                position,
                inner,
                left,
                right,
            }))
        }
    }
}

/// Both results, where some substitution makes the part and the inner left side equal once the inner
/// rule's variables are raised.
fn results_of(
    alloc: Global,
    outer: &Rule,
    inner: &Rule,
    position: &Position,
    part: &Term,
) -> Result<Option<Results>, NoMemory>
    requires part { sub_at (position_of position.now) (tree_of outer.now.left)
        ≡ Some (tree_of part.now) }
    requires left { bound (tree_of inner.now.left) ≤ 64 }
    requires right { bound (tree_of inner.now.right) ≤ 64 }
    ensures { IfOk result (λ o. AreUnified (rule_of outer.now) (rule_of inner.now)
        (position_of position.now) (tree_of part.now) o) }
{
    let inner_left = raised(alloc, &inner.left)?;
    match unify(alloc, part, &inner_left)? {
        Unified::Never => Ok(None),
        Unified::Most(subst) => {
            let left = subst.apply(alloc, &outer.right)?;
            let whole = subst.apply(alloc, &outer.left)?;
            let inner_right = raised(alloc, &inner.right)?;
            let put = subst.apply(alloc, &inner_right)?;
            match replace_at(alloc, &whole, position, put)? {
                None => Ok(None),
                Some(right) => Ok(Some(Results { left, right })),
            }
        }
    }
}

/// The term with its variables raised by 64.
fn raised(alloc: Global, term: &Term) -> Result<Term, NoMemory>
    requires { bound (tree_of term.now) ≤ 64 }
    ensures { IfOk result (λ t. tree_of t ≡ raise (tree_of term.now)) }
{
    match term {
        Term::Var(v) => Ok(Term::Var(*v + 64)),
        Term::Op(l, r) => {
            let left = raised(alloc, l.get())?;
            let right = raised(alloc, r.get())?;
            Ok(Term::Op(Boxed::new(alloc, left)?, Boxed::new(alloc, right)?))
        }
    }
}

/// Both results with their variables numbered as they first come.
fn numbered(alloc: Global, results: &Results) -> Result<Results, NoMemory>
    requires { HaveFewVariables (tree_of results.now.left) (tree_of results.now.right) }
    ensures { IfOk result (λ r. AreNumbered (tree_of results.now.left) (tree_of results.now.right)
        (tree_of r.left) (tree_of r.right)) }
{
    let mut names = Subst::empty(alloc)?;
    let count = note(&mut names, 0, &results.left)?;
    note(&mut names, count, &results.right)?;
    Ok(Results {
        left: names.apply(alloc, &results.left)?,
        right: names.apply(alloc, &results.right)?,
    })
}

/// An equal position.
pub(crate) fn copied(alloc: Global, position: &Position) -> Result<Position, NoMemory>
    ensures { IfOk result (λ p. p ≡ position.now) }
{
    let mut copy = Position::root(alloc);
    for at in 0..position.len() {
        if let Some(side) = position.get(at) {
            copy.push(*side)?;
        }
    }
    Ok(copy)
}
