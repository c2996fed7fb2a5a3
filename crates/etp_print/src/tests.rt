use crate::{
    begin_refusal, body_refusal_text, file_refusal_text, linear_text, matrix_text, pairs_text,
    refuse, refuse_file, refuse_name, refuse_with, replay_text, rules_text, table_text,
};
use etp_check::CheckRefusal;
use etp_ledger::LedgerRefusal;
use etp_linear::{LinearFailure, LinearRefusal, Which};
use etp_matrix::{MatrixFailure, MatrixRefusal, Part};
use etp_pairs::PairsRefusal;
use etp_reading::BodyRefusal;
use etp_replay::ReplayRefusal;
use etp_rules::{Cause, RulesRefusal};
use etp_table::{Point, TableRefusal};
use etp_term::{NoMemory, Position, Side, Term};
use etp_text::Text;
use sqlite_items::Boxed;
use std::alloc::Global;

#[test]
fn refusal_lines_are_written(rt: HostRuntime) {
    let alloc = rt.alloc();
    let mut text = Text::empty(alloc);
    assert!(rt; refuse(&mut text, 7, b"bad line").expect(&rt, "memory"));
    assert!(rt; text.as_slice() == b"refused 7: bad line\n".as_slice());
    text.clear();
    assert!(rt; refuse_with(&mut text, 7, b"syntax at ", 3).expect(&rt, "memory"));
    assert!(rt; text.as_slice() == b"refused 7: syntax at 3\n".as_slice());
    text.clear();
    assert!(rt; refuse_name(&mut text, 7, b"name taken ", b"p").expect(&rt, "memory"));
    assert!(rt; text.as_slice() == b"refused 7: name taken p\n".as_slice());
    text.clear();
    assert!(rt; refuse_file(&mut text, 7, b"p", b"bad line 4").expect(&rt, "memory"));
    assert!(rt; text.as_slice() == b"refused 7: p: bad line 4\n".as_slice());
    text.clear();
    begin_refusal(&mut text, 7).expect(&rt, "memory");
    assert!(rt; text.as_slice() == b"refused 7: ".as_slice());
}

#[test]
fn refusals_have_texts(rt: HostRuntime) {
    let alloc = rt.alloc();
    let body = BodyRefusal::UnknownLaw {
        line: 1,
        number: 4695,
    };
    let text = body_refusal_text(alloc, &body).expect(&rt, "memory");
    assert!(rt; text.as_slice() == b"unknown law 4695 in line 1".as_slice());
    let replay = ReplayRefusal::Reference {
        lemma: 1,
        step: 1,
        line: 1,
    };
    let text = replay_text(alloc, &replay).expect(&rt, "memory");
    assert!(rt; text.as_slice() == b"reference lemma 1 step 1 line 1".as_slice());
    let table = TableRefusal::HoldsFails {
        law: 5,
        point: Point {
            values: [0, 1, 0, 0, 0, 0, 0, 0],
            variables: 2,
        },
        left: 0,
        right: 1,
    };
    let text = table_text(alloc, &table).expect(&rt, "memory");
    assert!(rt; text.as_slice() == b"holds fails law 5 x=0 y=1 left 0 right 1".as_slice());
    let file = LedgerRefusal::CiteMissing { cite: 2 };
    let text = file_refusal_text(alloc, 0, &file).expect(&rt, "memory");
    assert!(rt; text.as_slice() == b"cite missing 2".as_slice());
}

#[test]
fn refusals_of_linear_magmas_have_texts(rt: HostRuntime) {
    let failure = |variable| LinearFailure {
        variable,
        left: 1,
        right: -2,
    };
    let coefficient = |which, value| LinearRefusal::Coefficient { which, value };
    let holds = |variable| LinearRefusal::HoldsFails {
        law: 3,
        failure: failure(variable),
    };
    let cases: [(LinearRefusal, &str); 5] = [
        (
            coefficient(Which::Modulus, 0),
            "coefficient modulus value 0",
        ),
        (coefficient(Which::A, -1), "coefficient a value -1"),
        (holds(Some(0)), "holds fails law 3 x=1 left 1 right -2"),
        (holds(None), "holds fails law 3 zero left 1 right -2"),
        (LinearRefusal::FailsHolds { law: 43 }, "fails holds law 43"),
    ];
    for (refusal, expected) in &cases {
        let text = linear_text(rt.alloc(), refusal).expect(&rt, "memory");
        assert!(rt; text.as_slice() == expected.as_bytes());
    }
}

#[test]
fn refusals_of_matrix_linear_magmas_have_texts(rt: HostRuntime) {
    let holds = |at| MatrixRefusal::HoldsFails {
        law: 43,
        failure: MatrixFailure {
            at,
            left: [0, 1, 0, 0],
            right: [1, 1, 0, 0],
        },
    };
    let cases: [(MatrixRefusal, &str); 5] = [
        (MatrixRefusal::Modulus { value: 0 }, "modulus value 0"),
        (
            MatrixRefusal::Entry {
                part: Part::A,
                row: 0,
                column: 1,
                value: 2,
            },
            "matrix entry a row 0 column 1 value 2",
        ),
        (
            holds(Some((0, 0))),
            "holds fails law 43 x=e0 left 0,1 right 1,1",
        ),
        (holds(None), "holds fails law 43 zero left 0,1 right 1,1"),
        (MatrixRefusal::FailsHolds { law: 3 }, "fails holds law 3"),
    ];
    for (refusal, expected) in &cases {
        let text = matrix_text(rt.alloc(), 2, refusal).expect(&rt, "memory");
        assert!(rt; text.as_slice() == expected.as_bytes());
    }
}

#[test]
fn refusals_of_rules_have_texts(rt: HostRuntime) {
    let not_decreasing = |cause| RulesRefusal::NotDecreasing { rule: 1, cause };
    let cases: [(RulesRefusal, &str); 6] = [
        (RulesRefusal::WeightRange { which: 0 }, "weight a"),
        (RulesRefusal::WeightRange { which: 1 }, "weight b"),
        (RulesRefusal::WeightRange { which: 2 }, "weight c"),
        (
            RulesRefusal::SideTooLarge { rule: 2 },
            "side too large rule 2",
        ),
        (
            not_decreasing(Cause::Variable(1)),
            "not decreasing rule 1 variable y",
        ),
        (
            not_decreasing(Cause::Constant),
            "not decreasing rule 1 constant",
        ),
    ];
    for (refusal, expected) in &cases {
        let text = rules_text(rt.alloc(), refusal).expect(&rt, "memory");
        assert!(rt; text.as_slice() == expected.as_bytes());
    }
}

/// The product of two variables.
fn product(alloc: Global, left: u8, right: u8) -> Result<Term, NoMemory> {
    let left = Boxed::new(alloc, Term::Var(left))?;
    Ok(Term::Op(left, Boxed::new(alloc, Term::Var(right))?))
}

/// `z * x` and `y * z`, numbered anew through the first and then the second.
fn unjoinable(alloc: Global) -> Result<PairsRefusal, NoMemory> {
    let mut position = Position::root(alloc);
    position.push(Side::L)?;
    Ok(PairsRefusal::Unjoinable {
        outer: 1,
        position,
        inner: 2,
        left_form: product(alloc, 2, 0)?,
        right_form: product(alloc, 1, 2)?,
    })
}

#[test]
fn refusals_of_pairs_have_texts(rt: HostRuntime) {
    let alloc = rt.alloc();
    let cases: [(PairsRefusal, &str); 3] = [
        (
            unjoinable(alloc).expect(&rt, "memory"),
            "unjoinable 1 l 2: x ◇ y and z ◇ x",
        ),
        (
            PairsRefusal::TermLimit {
                outer: 1,
                position: Position::root(alloc),
                inner: 2,
            },
            "term limit pair 1 . 2",
        ),
        (
            PairsRefusal::StepLimit {
                outer: 2,
                position: Position::root(alloc),
                inner: 1,
            },
            "step limit pair 2 . 1",
        ),
    ];
    for (refusal, expected) in &cases {
        let text = pairs_text(alloc, refusal).expect(&rt, "memory");
        assert!(rt; text.as_slice() == expected.as_bytes());
    }
}

#[test]
fn refusals_of_laws_in_rule_systems_have_texts(rt: HostRuntime) {
    let alloc = rt.alloc();
    let cases: [(CheckRefusal, &str); 4] = [
        (
            CheckRefusal::HoldsFails {
                law: 43,
                left_form: product(alloc, 1, 2).expect(&rt, "memory"),
                right_form: product(alloc, 2, 1).expect(&rt, "memory"),
            },
            "holds fails law 43: y ◇ z and z ◇ y",
        ),
        (
            CheckRefusal::FailsHolds {
                law: 3,
                form: Term::Var(0),
            },
            "fails holds law 3: x",
        ),
        (CheckRefusal::TermLimit { law: 5 }, "term limit law 5"),
        (CheckRefusal::StepLimit { law: 5 }, "step limit law 5"),
    ];
    for (refusal, expected) in cases {
        let file = LedgerRefusal::Check(refusal);
        let text = file_refusal_text(alloc, 0, &file).expect(&rt, "memory");
        assert!(rt; text.as_slice() == expected.as_bytes());
    }
}
