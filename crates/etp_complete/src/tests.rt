ghost use Rattle.std.specs.Prelude.{IsSome, IsTrue};
ghost use Rattle.etp_theory.specs.LawNumbers.{law_numbered};

use crate::{Completed, complete};
use etp_laws::Laws;
use etp_rules::RuleList;
use etp_term::Term;

/// Whether the number is a law's.
fn is_listed(laws: &Laws, number: u32) -> bool
    ensures { IsTrue result → IsSome (law_numbered laws.now.equations number) }
{
    laws.law(number).is_some()
}

/// Whether the rules are `(x ◇ y) ◇ z -> x ◇ (y ◇ z)` alone.
fn is_reassociation(rules: &RuleList) -> bool {
    let Some(rule) = rules.get(0) else {
        return false;
    };
    let (Term::Op(a, z), Term::Op(x, b)) = (&rule.left, &rule.right) else {
        return false;
    };
    rules.len() == 1
        && is_product(a.get(), 0, 1)
        && is_variable(z.get(), 2)
        && is_variable(x.get(), 0)
        && is_product(b.get(), 1, 2)
}

fn is_product(term: &Term, left: u8, right: u8) -> bool {
    match term {
        Term::Var(_) => false,
        Term::Op(l, r) => is_variable(l.get(), left) && is_variable(r.get(), right),
    }
}

fn is_variable(term: &Term, variable: u8) -> bool {
    match term {
        Term::Var(v) => *v == variable,
        Term::Op(_, _) => false,
    }
}

#[test]
fn the_associative_law_gives_one_rule(rt: HostRuntime) {
    let alloc = rt.alloc();
    let laws = Laws::build(alloc).expect(&rt, "memory");
    assert!(rt; is_listed(&laws, 4512));
    assert!(rt; is_listed(&laws, 43));
    let end = complete(alloc, &laws, 4512, 43, [2, 1, 1]).expect(&rt, "memory");
    let Completed::Done(body) = &end else {
        assert!(rt; false);
        return;
    };
    assert!(rt; is_reassociation(&body.rules));
}
