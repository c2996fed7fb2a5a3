// Bodies of rule systems.
use super::{bad, refused, written};
use crate::BodyRefusal;

#[test]
fn a_rule_system_is_written_in_one_form(rt: HostRuntime) {
    let lines = [
        Some(" rules "),
        Some("weight 02\t1 1"),
        Some("# associativity"),
        Some("rule (x*y)*z->x * ((y * z))"),
        Some("holds 4512"),
        Some("fails 3 43"),
    ];
    let text = "rules\nweight 2 1 1\nrule (x ◇ y) ◇ z -> x ◇ (y ◇ z)\nholds 4512\nfails 3 43\n";
    assert!(rt; written(rt.alloc(), &lines, text.as_bytes()).expect(&rt, "memory"));
}

#[test]
fn lines_of_rules_stand_in_their_order(rt: HostRuntime) {
    let rules = Some("rules");
    let weight = Some("weight 2 1 1");
    let rule = Some("rule (x * y) * z -> x * (y * z)");
    let holds = Some("holds 4512");
    let fails = Some("fails 3 43");
    let cases: [(&[Option<&str>], Option<BodyRefusal>); 12] = [
        (&[rules, weight, rule, rule, holds, fails], None),
        (&[Some("rules 2 1 1")], bad(1)),
        (&[weight], bad(1)),
        (&[rules, rule], bad(2)),
        (&[rules, Some("weight 2 1")], bad(2)),
        (&[rules, Some("weight 2 1 1 1")], bad(2)),
        (&[rules, weight, weight], bad(3)),
        (&[rules, weight, holds], bad(3)),
        (&[rules, weight, Some("rule x * y = y * x")], bad(3)),
        (&[rules, weight, Some("rule x * x -> x -> x")], bad(3)),
        (&[rules, weight, Some("rule-> x")], bad(3)),
        (&[rules, weight, rule, holds, rule], bad(5)),
    ];
    for (lines, expected) in cases {
        assert!(rt; refused(rt.alloc(), lines).expect(&rt, "memory") == expected);
    }
}
