use crate::{PairsRefusal, convergent, overlap};
use etp_rules::{Rule, RuleList, RuleSystem};
use etp_term::{NoMemory, Position, Side, Term};
use sqlite_items::Boxed;
use std::alloc::Global;

fn op(alloc: Global, left: Term, right: Term) -> Result<Term, NoMemory> {
    Ok(Term::Op(Boxed::new(alloc, left)?, Boxed::new(alloc, right)?))
}

fn xy(alloc: Global) -> Result<Term, NoMemory> {
    op(alloc, Term::Var(0), Term::Var(1))
}

fn yz(alloc: Global) -> Result<Term, NoMemory> {
    op(alloc, Term::Var(1), Term::Var(2))
}

fn xy_z(alloc: Global) -> Result<Term, NoMemory> {
    op(alloc, xy(alloc)?, Term::Var(2))
}

/// The term `x * ((x * y) * z)`.
fn x_xy_z(alloc: Global) -> Result<Term, NoMemory> {
    op(alloc, Term::Var(0), xy_z(alloc)?)
}

/// The rule `(x * y) * (y * z) -> y`.
fn central(alloc: Global) -> Result<Rule, NoMemory> {
    let left = op(alloc, xy(alloc)?, yz(alloc)?)?;
    let right = Term::Var(1);
    Ok(Rule { left, right })
}

/// The rule `(x * y) * z -> x * (y * z)`.
fn reassociation(alloc: Global) -> Result<Rule, NoMemory> {
    let left = xy_z(alloc)?;
    let right = op(alloc, Term::Var(0), yz(alloc)?)?;
    Ok(Rule { left, right })
}

fn lone(alloc: Global, rule: Rule) -> Result<RuleList, NoMemory> {
    let mut rules = RuleList::empty(alloc);
    rules.push(rule)?;
    Ok(rules)
}

/// The central rule, `x * ((x * y) * z) -> x * y` and `(x * (y * z)) * z -> y * z`.
fn central_and_more(alloc: Global) -> Result<RuleList, NoMemory> {
    let mut rules = lone(alloc, central(alloc)?)?;
    let left = x_xy_z(alloc)?;
    let right = xy(alloc)?;
    if rules.len() < 64 {
        rules.push(Rule { left, right })?;
    }
    let x_yz = op(alloc, Term::Var(0), yz(alloc)?)?;
    let left = op(alloc, x_yz, Term::Var(2))?;
    let right = yz(alloc)?;
    if rules.len() < 64 {
        rules.push(Rule { left, right })?;
    }
    Ok(rules)
}

/// The rule that takes `(x * x) * ((x * x) * .. y)` with so many squares to `y`.
fn squares(alloc: Global, count: u32, right: Term) -> Result<Rule, NoMemory> {
    let mut left = Term::Var(1);
    for _ in 0..count {
        left = op(alloc, op(alloc, Term::Var(0), Term::Var(0))?, left)?;
    }
    Ok(Rule { left, right })
}

/// Six squares go, and two make a left comb of thirteen leaves.
fn growing(alloc: Global) -> Result<RuleList, NoMemory> {
    let mut comb = Term::Var(1);
    for _ in 0..12 {
        comb = op(alloc, comb, Term::Var(1))?;
    }
    let mut rules = lone(alloc, squares(alloc, 6, Term::Var(1))?)?;
    let rule = squares(alloc, 2, comb)?;
    if rules.len() < 64 {
        rules.push(rule)?;
    }
    Ok(rules)
}

fn system(weight: [u32; 3], rules: RuleList) -> Option<RuleSystem> {
    if rules.len() == 0 || rules.len() > 64 || !rules.has_small_variables() {
        return None;
    }
    RuleSystem::of(weight, rules).ok()
}

#[test]
fn the_central_rule_overlaps_with_itself_on_the_left(rt: HostRuntime) {
    let alloc = rt.alloc();
    let rules = lone(alloc, central(alloc).expect(&rt, "memory")).expect(&rt, "memory");
    let system = system([1, 1, 1], rules).expect(&rt, "a system");
    let mut position = Position::root(alloc);
    assert!(rt;
        overlap(alloc, &system, 1, &position, 1)
            .expect(&rt, "memory")
            .is_none()
    );
    position.push(Side::L).expect(&rt, "memory");
    assert!(rt;
        overlap(alloc, &system, 1, &position, 2)
            .expect(&rt, "memory")
            .is_none()
    );
    let pair = overlap(alloc, &system, 1, &position, 1).expect(&rt, "memory");
    let pair = pair.expect(&rt, "a pair");
    assert!(rt; pair.left.same_term(&xy(alloc).expect(&rt, "memory")));
    assert!(rt; pair.right.same_term(&x_xy_z(alloc).expect(&rt, "memory")));
}

#[test]
fn the_central_rule_alone_is_not_convergent(rt: HostRuntime) {
    let alloc = rt.alloc();
    let rules = lone(alloc, central(alloc).expect(&rt, "memory")).expect(&rt, "memory");
    let system = system([1, 1, 1], rules).expect(&rt, "a system");
    match convergent(alloc, &system) {
        Err(
            PairsRefusal::Unjoinable {
                outer,
                position,
                inner,
                left_form,
                right_form,
            },
        ) => {
            assert_eq!(rt; (outer, inner), (1, 1));
            assert_eq!(rt; position.len(), 1);
            assert!(rt; matches!(position.get(0), Some(Side::L)));
            assert!(rt; left_form.same_term(&xy(alloc).expect(&rt, "memory")));
            assert!(rt; right_form.same_term(&x_xy_z(alloc).expect(&rt, "memory")));
        }
        _ => assert!(rt; false),
    }
}

#[test]
fn three_rules_for_central_groupoids_are_convergent(rt: HostRuntime) {
    let alloc = rt.alloc();
    let rules = central_and_more(alloc).expect(&rt, "memory");
    assert_eq!(rt; rules.len(), 3);
    let system = system([1, 1, 1], rules).expect(&rt, "a system");
    assert!(rt; convergent(alloc, &system).is_ok());
}

#[test]
fn reassociation_is_convergent(rt: HostRuntime) {
    let alloc = rt.alloc();
    let rules = lone(alloc, reassociation(alloc).expect(&rt, "memory")).expect(&rt, "memory");
    let system = system([2, 1, 1], rules).expect(&rt, "a system");
    assert!(rt; convergent(alloc, &system).is_ok());
}

#[test]
fn two_rules_at_one_root_pass_the_term_limit(rt: HostRuntime) {
    let alloc = rt.alloc();
    let rules = growing(alloc).expect(&rt, "memory");
    assert_eq!(rt; rules.len(), 2);
    let system = system([1, 13, 1], rules).expect(&rt, "a system");
    match convergent(alloc, &system) {
        Err(
            PairsRefusal::TermLimit {
                outer,
                position,
                inner,
            },
        ) => {
            assert_eq!(rt; (outer, inner), (1, 2));
            assert_eq!(rt; position.len(), 0);
        }
        _ => assert!(rt; false),
    }
}
