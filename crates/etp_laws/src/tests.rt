use crate::{Laws, Numbered, words};
use etp_term::{Law, NoMemory, Term};
use sqlite_items::{Boxed, Items};
use std::alloc::Global;

/// A term with each operation in parentheses and each variable as a digit.
fn write(term: &Term, text: &mut Items<u8>) -> Result<(), NoMemory> {
    match term {
        Term::Var(v) => text.push(b'0'.wrapping_add(*v)),
        Term::Op(l, r) => {
            text.push(b'(')?;
            write(l.get(), text)?;
            write(r.get(), text)?;
            text.push(b')')
        }
    }
}

fn written(alloc: Global, law: &Law) -> Result<Items<u8>, NoMemory> {
    let mut text = Items::new(alloc);
    write(&law.left, &mut text)?;
    text.push(b'=')?;
    write(&law.right, &mut text)?;
    Ok(text)
}

fn op(alloc: Global, left: Term, right: Term) -> Result<Term, NoMemory> {
    Ok(Term::Op(Boxed::new(alloc, left)?, Boxed::new(alloc, right)?))
}

fn is_number(answer: Numbered, n: u32) -> bool {
    match answer {
        Numbered::Is(m) => m == n,
        _ => false,
    }
}

#[test]
fn the_laws_have_the_numbers_of_the_project(rt: HostRuntime) {
    let laws = Laws::build(rt.alloc()).expect(&rt, "memory");
    for (n, text) in [
        (1, "0=0"),
        (2, "0=1"),
        (3, "0=(00)"),
        (4, "0=(01)"),
        (5, "0=(10)"),
        (6, "0=(11)"),
        (7, "0=(12)"),
        (38, "(00)=(01)"),
        (42, "(01)=(02)"),
        (43, "(01)=(10)"),
        (46, "(01)=(23)"),
        (65, "0=(1(0(10)))"),
        (99, "0=(0((00)0))"),
        (168, "0=((10)(02))"),
        (255, "0=(((00)0)0)"),
        (677, "0=(1(0((10)1)))"),
        (1485, "0=((10)(0(21)))"),
        (1491, "0=((10)(1(10)))"),
        (2162, "0=(((12)0)(01))"),
        (4512, "(0(12))=((01)2)"),
        (4694, "((01)2)=((34)5)"),
    ] {
        let law = laws.law(n).expect(&rt, "a law");
        let found = written(rt.alloc(), law).expect(&rt, "memory");
        assert_eq!(rt; found.as_slice(), text.as_bytes(), "at {n}");
    }
}

#[test]
fn each_block_begins_at_its_place(rt: HostRuntime) {
    let laws = Laws::build_to(rt.alloc(), 5).expect(&rt, "memory");
    for (n, text) in [
        (8, "0=(0(00))"),
        (23, "0=((00)0)"),
        (47, "0=(0(0(00)))"),
        (151, "0=((00)(00))"),
        (203, "0=((0(00))0)"),
        (307, "(00)=(0(00))"),
        (411, "0=(0(0(0(00))))"),
        (3253, "(00)=(0(0(00)))"),
        (4268, "(0(00))=(0(01))"),
        (4380, "(0(00))=((00)0)"),
        (4583, "((00)0)=((00)1)"),
        (4695, "0=(0(0(0(0(00)))))"),
        (41529, "(00)=(0(0(0(00))))"),
        (53807, "(0(00))=(0(0(00)))"),
        (62576, "((01)2)=(((34)5)6)"),
    ] {
        let law = laws.law(n).expect(&rt, "a law");
        let found = written(rt.alloc(), law).expect(&rt, "memory");
        assert_eq!(rt; found.as_slice(), text.as_bytes(), "at {n}");
    }
}

#[test]
fn the_last_law_of_each_number_of_operations_stands_where_the_counts_say(rt: HostRuntime) {
    let laws = Laws::build_to(rt.alloc(), 5).expect(&rt, "memory");
    assert_eq!(rt; laws.count(), 62576);
    for (ops, last) in [(0, 2), (1, 7), (2, 46), (3, 410), (4, 4694), (5, 62576)] {
        let law = laws.law(last).expect(&rt, "a law");
        assert_eq!(rt; law.left.ops() + law.right.ops(), ops, "at {last}");
    }
    for (ops, first) in [(1, 3), (2, 8), (3, 47), (4, 411), (5, 4695)] {
        let law = laws.law(first).expect(&rt, "a law");
        assert_eq!(rt; law.left.ops() + law.right.ops(), ops, "at {first}");
    }
}

#[test]
fn every_law_has_its_own_number(rt: HostRuntime) {
    for order in [4, 5] {
        let laws = Laws::build_to(rt.alloc(), order).expect(&rt, "memory");
        for n in 1..laws.count() + 1 {
            let law = laws.law(n).expect(&rt, "a law");
            assert!(rt; is_number(laws.number(law), n), "at {n}");
        }
    }
}

#[test]
fn duals_of_the_project(rt: HostRuntime) {
    let laws = Laws::build(rt.alloc()).expect(&rt, "memory");
    for (n, dual) in [
        (4, 5),
        (47, 255),
        (1485, 2162),
        (1, 1),
        (2, 2),
        (3, 3),
        (6, 6),
    ] {
        assert!(rt;
            laws.dual(n) == Some(dual) && laws.dual(dual) == Some(n),
            "at {n}"
        );
    }
    for n in [43, 168, 4512] {
        assert!(rt; laws.dual(n) == Some(n), "at {n}");
    }
    assert!(rt; laws.dual(0).is_none() && laws.dual(4695).is_none());
    assert_eq!(rt; laws.duals().len(), 4694);
}

#[test]
fn numbers_of_laws_that_are_not_listed(rt: HostRuntime) {
    let alloc = rt.alloc();
    let laws = Laws::build(alloc).expect(&rt, "memory");
    let exchanged = Law {
        left: op(alloc, Term::Var(25), Term::Var(24)).expect(&rt, "memory"),
        right: op(alloc, Term::Var(24), Term::Var(25)).expect(&rt, "memory"),
    };
    assert!(rt; is_number(laws.number(&exchanged), 43));
    let inner = op(alloc, Term::Var(0), Term::Var(1)).expect(&rt, "memory");
    let associative = Law {
        left: op(alloc, inner, Term::Var(2)).expect(&rt, "memory"),
        right: op(
            alloc,
            Term::Var(0),
            op(alloc, Term::Var(1), Term::Var(2)).expect(&rt, "memory"),
        )
        .expect(&rt, "memory"),
    };
    assert!(rt; is_number(laws.number(&associative), 4512));
    let lone = Law {
        left: Term::Var(1),
        right: Term::Var(1),
    };
    assert!(rt; is_number(laws.number(&lone), 1));
    let equal = Law {
        left: op(alloc, Term::Var(0), Term::Var(1)).expect(&rt, "memory"),
        right: op(alloc, Term::Var(0), Term::Var(1)).expect(&rt, "memory"),
    };
    assert!(rt; matches!(laws.number(&equal), Numbered::Trivial));
}

#[test]
fn a_law_of_five_operations_has_a_number_in_order_five_alone(rt: HostRuntime) {
    let longer = Laws::build_to(rt.alloc(), 5).expect(&rt, "memory");
    let laws = Laws::build(rt.alloc()).expect(&rt, "memory");
    let law = longer.law(4695).expect(&rt, "a law");
    assert!(rt; matches!(laws.number(law), Numbered::TooManyOps(5)));
    assert_eq!(rt; laws.order() + longer.order(), 9);
    assert!(rt; longer.variables(62576) == Some(7) && laws.variables(4695).is_none());
}

#[test]
fn words_are_counted(rt: HostRuntime) {
    for (leaves, used, count) in [(5, 1, 203), (4, 1, 52), (3, 1, 15), (0, 5, 1)] {
        assert!(rt; words(leaves, used) == Some(count), "at {leaves} {used}");
    }
    assert!(rt; words(9, 1).is_none() && words(1, 9).is_none());
}
