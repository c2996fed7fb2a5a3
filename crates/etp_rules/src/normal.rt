// Normal forms: the walk of a term by the strategy, that doesn't look again at what has no redex.
ghost use Rattle.std.specs.Prelude.{◌≡◌, ◌≤◌, MatchOption, IfOk, IfErr, None};
ghost use Rattle.etp_theory.specs.Strategy.{matcher, try_rules};
ghost use Rattle.etp_theory.specs.Trees.{op};
ghost use Rattle.etp_term.specs.Terms.{tree_of};
ghost use Rattle.etp_rules.specs.Rules.{rule_of, rules_of};
ghost use Rattle.etp_rules.specs.Matches.{instance, IsLowestMatch, AreUsable};
ghost use Rattle.etp_rules.specs.Walks.{IsWithin, WalksToEnd, WalksToReady, IsReady, IsTried, IsTaken, Stops, AreEnded};
ghost use Rattle.etp_rules.specs.Forms.{IsNormal};

use crate::node::{Node, leaves_under, matches, operation, read, variable};
use crate::rule::Rule;
use etp_term::Term;
use std::alloc::{AllocError, Global};
use std::rc::Rc;

/// The steps that a walk may take.
const STEP_LIMIT: u32 = 100000;

/// The leaves that a term of a walk may have.
const LEAF_LIMIT: u32 = 512;

/// The end of a walk within the limits, or the limit that the walk passes.
#[derive(Drop)]
pub enum Normal {
    Form(Term),
    TermLimit,
    StepLimit,
}

/// How far the walk of the whole term has come.
#[derive(Clone, Copy)]
struct Walk {
    /// The steps so far.
    steps: u32,
    /// The leaves of the whole term.
    leaves: u32,
}

/// Why a walk stops before its end.
#[derive(Drop)]
enum Stop {
    TermLimit,
    StepLimit,
    NoMemory,
}

impl From<AllocError> for Stop {
    ghost use Rattle.etp_rules.specs.declared.normal.Stop.TheVariants.{NoMemory};

    ghost from_gives = { λ _ stop. stop ≡ NoMemory };

    fn from(_: AllocError) -> Stop {
        Stop::NoMemory
    }
}

/// What a step at a root comes to.
#[derive(Drop)]
enum Tried {
    /// No rule matches.
    Nothing,
    /// A step was taken, and no rule matches in the two parts of what it gave, as they now are.
    Ready(Rc<Node>),
    /// A step was taken to a term in which no rule matches.
    Ended(Rc<Node>),
}

/// The end of the term's walk, or the limit that it passes.
pub(crate) fn normal_form(alloc: Global, rules: &[Rule], term: &Term) -> Result<Normal, AllocError>
    requires { AreUsable (rules_of rules.now) }
    ensures { IfOk result (λ n. IsNormal (rules_of rules.now) (tree_of term.now) n) }
{
    let leaves = term.leaves();
    if leaves > LEAF_LIMIT {
        return Ok(Normal::TermLimit);
    }
    let mut walk = Walk { steps: 0, leaves };
    // in a lone variable that is read onto itself, each variable stands for itself
    let pattern = Term::Var(0);
    let place = variable(alloc, 0)?;
    match walk_under(alloc, rules, &pattern, &place, term, &mut walk) {
        Ok(end) => Ok(Normal::Form(end.term(alloc)?)),
        Err(Stop::TermLimit) => Ok(Normal::TermLimit),
        Err(Stop::StepLimit) => Ok(Normal::StepLimit),
        Err(Stop::NoMemory) => Err(AllocError),
    }
}

/// Walks the side, with what the pattern's variables stand for in the term, to its end. What they
/// stand for is at its end already.
#[cycle(walking)]
fn walk_under(
    alloc: Global,
    rules: &[Rule],
    pattern: &Term,
    term: &Rc<Node>,
    side: &Term,
    walk: &mut Walk,
) -> Result<Rc<Node>, Stop>
    requires usable { AreUsable (rules_of rules.now) }
    requires ended { AreEnded (rules_of rules.now) (matcher (tree_of pattern.now) term.now.value) }
    requires within { IsWithin walk.old (instance pattern.now term.now.value (tree_of side.now)) }
    ensures end { IfOk result (λ end. WalksToEnd (rules_of rules.now) walk.old walk.new
        (instance pattern.now term.now.value (tree_of side.now)) end.value) }
    ensures stop { IfErr result (λ stop. Stops (rules_of rules.now) walk.old
        (instance pattern.now term.now.value (tree_of side.now)) stop) }
{
    match side {
        Term::Var(v) => match read(pattern, term, *v) {
            Some(found) => Ok(found.clone()?),
            None => Ok(variable(alloc, *v)?),
        },
        Term::Op(a, b) => {
            let whole = walk_parts(alloc, rules, pattern, term, a.get(), b.get(), walk)?;
            let end = walk_root(alloc, rules, whole, walk)?;
            Ok(end)
        }
    }
}

/// Walks both parts of an operation to their ends.
#[cycle(walking)]
fn walk_parts(
    alloc: Global,
    rules: &[Rule],
    pattern: &Term,
    term: &Rc<Node>,
    a: &Term,
    b: &Term,
    walk: &mut Walk,
) -> Result<Rc<Node>, Stop>
    requires usable { AreUsable (rules_of rules.now) }
    requires ended { AreEnded (rules_of rules.now) (matcher (tree_of pattern.now) term.now.value) }
    requires within { IsWithin walk.old (instance pattern.now term.now.value (op (tree_of a.now) (tree_of b.now))) }
    ensures ready { IfOk result (λ whole. WalksToReady (rules_of rules.now) walk.old walk.new
        (instance pattern.now term.now.value (op (tree_of a.now) (tree_of b.now))) whole.value) }
    ensures stop { IfErr result (λ stop. Stops (rules_of rules.now) walk.old
        (instance pattern.now term.now.value (op (tree_of a.now) (tree_of b.now))) stop) }
{
    let left = walk_under(alloc, rules, pattern, term, a, walk)?;
    let right = walk_under(alloc, rules, pattern, term, b, walk)?;
    Ok(operation(alloc, left, right)?)
}

/// Walks a term whose parts are at their ends to its end.
#[cycle(walking)]
fn walk_root(
    alloc: Global,
    rules: &[Rule],
    whole: Rc<Node>,
    walk: &mut Walk,
) -> Result<Rc<Node>, Stop>
    requires usable { AreUsable (rules_of rules.now) }
    requires ready { IsReady (rules_of rules.now) whole.value }
    requires within { IsWithin walk.old whole.value }
    ensures end { IfOk result (λ end. WalksToEnd (rules_of rules.now) walk.old walk.new whole.value
        end.value) }
    ensures stop { IfErr result (λ stop. Stops (rules_of rules.now) walk.old whole.value stop) }
{
    let mut current = whole;
    loop {
        match step_root(alloc, rules, &current, walk)? {
            Tried::Nothing => return Ok(current),
            Tried::Ready(next) => current = next,
            Tried::Ended(end) => return Ok(end),
        }
    }
}

/// Takes the step at the root, where there is one, and walks the parts of what it gives to their ends.
#[cycle(walking)]
fn step_root(
    alloc: Global,
    rules: &[Rule],
    whole: &Rc<Node>,
    walk: &mut Walk,
) -> Result<Tried, Stop>
    requires usable { AreUsable (rules_of rules.now) }
    requires ready { IsReady (rules_of rules.now) whole.now.value }
    requires within { IsWithin walk.old whole.now.value }
    ensures tried { IfOk result (λ tried. IsTried (rules_of rules.now) walk.old walk.new
        whole.now.value tried) }
    ensures stop { IfErr result (λ stop. Stops (rules_of rules.now) walk.old whole.now.value stop) }
{
    match take_step(rules, whole, walk)? {
        None => Ok(Tried::Nothing),
        Some(rule) => match &rule.right {
            Term::Var(_) => {
                let end = walk_under(alloc, rules, &rule.left, whole, &rule.right, walk)?;
                Ok(Tried::Ended(end))
            }
            Term::Op(a, b) => {
                let next = walk_parts(alloc, rules, &rule.left, whole, a.get(), b.get(), walk)?;
                Ok(Tried::Ready(next))
            }
        },
    }
}

/// Counts the step at the root, and says by which rule it is; None where no rule matches.
fn take_step<'a>(
    rules: &'a [Rule],
    whole: &Rc<Node>,
    walk: &mut Walk,
) -> Result<Option<&'a Rule>, Stop>
    requires usable { AreUsable (rules_of rules.now) }
    requires ready { IsReady (rules_of rules.now) whole.now.value }
    requires within { IsWithin walk.old whole.now.value }
    ensures taken { IfOk result (λ taken. IsTaken (rules_of rules.now) walk.old walk.new
        whole.now.value taken) }
    ensures stop { IfErr result (λ stop. Stops (rules_of rules.now) walk.old whole.now.value stop) }
{
    match first_match(rules, whole) {
        None => Ok(None),
        Some(rule) => {
            if walk.steps == STEP_LIMIT {
                return Err(Stop::StepLimit);
            }
            let fewer = whole.leaves();
            let more = leaves_under(&rule.left, whole, &rule.right);
            let leaves = walk.leaves - fewer + more;
            if leaves > LEAF_LIMIT {
                return Err(Stop::TermLimit);
            }
            walk.steps += 1;
            walk.leaves = leaves;
            Ok(Some(rule))
        }
    }
}

/// The lowest rule that matches.
fn first_match<'a>(rules: &'a [Rule], term: &Rc<Node>) -> Option<&'a Rule>
    ensures { MatchOption result (try_rules (rules_of rules.now) term.now.value ≡ None)
        (λ rule. IsLowestMatch (rules_of rules.now) (rule_of rule.now) term.now.value) }
{
    match rules {
        [] => None,
        [rule, rest @ ..] => {
            if matches(&rule.left, term) {
                Some(rule)
            } else {
                first_match(rest, term)
            }
        }
    }
}
