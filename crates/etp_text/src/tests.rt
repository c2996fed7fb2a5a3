ghost use Rattle.std.specs.Prelude.{◌≤◌, length};

use crate::{Text, TextRefusal, read_law, read_term, text_theorems, write_law, write_term};
use etp_term::{Law, NoMemory, Term};
use sqlite_items::Boxed;
use std::alloc::Global;

fn op(alloc: Global, left: Term, right: Term) -> Result<Term, NoMemory> {
    Ok(Term::Op(Boxed::new(alloc, left)?, Boxed::new(alloc, right)?))
}

fn associativity(alloc: Global) -> Result<Law, NoMemory> {
    let right = op(alloc, Term::Var(1), Term::Var(2))?;
    let left = op(alloc, Term::Var(0), Term::Var(1))?;
    Ok(Law {
        left: op(alloc, Term::Var(0), right)?,
        right: op(alloc, left, Term::Var(2))?,
    })
}

#[test]
fn associativity_is_written_with_parentheses(rt: HostRuntime) {
    let law = associativity(rt.alloc()).expect(&rt, "memory");
    let text = write_law(rt.alloc(), &law).expect(&rt, "memory");
    assert_eq!(rt; text.as_slice(), "x ◇ (y ◇ z) = (x ◇ y) ◇ z".as_bytes());
}

#[test]
fn variables_from_6_on_have_numbers(rt: HostRuntime) {
    let term = op(rt.alloc(), Term::Var(5), Term::Var(63)).expect(&rt, "memory");
    let text = write_term(rt.alloc(), &term).expect(&rt, "memory");
    assert_eq!(rt; text.as_slice(), "v ◇ v63".as_bytes());
}

#[test]
fn a_text_keeps_what_is_pushed(rt: HostRuntime) {
    let mut text = Text::empty(rt.alloc());
    text.push(b'a').expect(&rt, "memory");
    assert_eq!(rt; text.as_slice(), b"a".as_slice());
}

fn law_refusal(alloc: Global, text: &[u8]) -> Option<TextRefusal>
    requires { length text.now ≤ 4096 }
{
    read_law(alloc, text).err()
}

fn term_refusal(alloc: Global, text: &[u8]) -> Option<TextRefusal>
    requires { length text.now ≤ 4096 }
{
    read_term(alloc, text).err()
}

/// The front so many times, the middle, and the back as many times.
fn around(
    alloc: Global,
    front: &[u8],
    middle: &[u8],
    back: &[u8],
    times: u32,
) -> Result<Text, NoMemory> {
    let mut text = Text::empty(alloc);
    for _ in 0..times {
        text.append(front)?;
    }
    text.append(middle)?;
    for _ in 0..times {
        text.append(back)?;
    }
    Ok(text)
}

#[test]
fn both_operators_and_needless_parentheses_are_read(rt: HostRuntime) {
    let expected = associativity(rt.alloc()).expect(&rt, "memory");
    let law = read_law(rt.alloc(), "\t((x)) ◇(y*z)=( x * y )◇ z ".as_bytes()).expect(&rt, "a law");
    assert!(rt; law.left.same_term(&expected.left) && law.right.same_term(&expected.right));
}

#[test]
fn what_was_written_is_read_again(rt: HostRuntime) {
    let term = op(rt.alloc(), Term::Var(63), Term::Var(6)).expect(&rt, "memory");
    let text = write_term(rt.alloc(), &term).expect(&rt, "memory");
    assert!(rt; text.len() <= 4096);
    let again = read_term(rt.alloc(), text.as_slice()).expect(&rt, "a term");
    assert!(rt; again.same_term(&term));
    text_theorems();
}

#[test]
fn the_first_refusal_is_named_by_its_byte(rt: HostRuntime) {
    let alloc = rt.alloc();
    assert_eq!(rt;
        law_refusal(alloc, b"x * y * z = x"),
        Some(TextRefusal::Syntax { at: 6 })
    );
    assert_eq!(rt;
        law_refusal(alloc, b"x = q"),
        Some(TextRefusal::Variable { at: 4 })
    );
    assert_eq!(rt;
        law_refusal(alloc, b"x  "),
        Some(TextRefusal::Syntax { at: 1 })
    );
    assert_eq!(rt;
        law_refusal(alloc, b"x q = x"),
        Some(TextRefusal::Syntax { at: 2 })
    );
    assert_eq!(rt;
        term_refusal(alloc, b" 1"),
        Some(TextRefusal::Syntax { at: 1 })
    );
    assert_eq!(rt;
        term_refusal(alloc, b""),
        Some(TextRefusal::Syntax { at: 0 })
    );
    assert_eq!(rt;
        term_refusal(alloc, b"x \xe2\x97 y"),
        Some(TextRefusal::Syntax { at: 2 })
    );
}

#[test]
fn a_name_of_none_of_the_64_variables_is_refused(rt: HostRuntime) {
    let alloc = rt.alloc();
    assert_eq!(rt;
        term_refusal(alloc, b"x1"),
        Some(TextRefusal::Variable { at: 0 })
    );
    assert_eq!(rt;
        term_refusal(alloc, b"X"),
        Some(TextRefusal::Variable { at: 0 })
    );
    assert_eq!(rt;
        term_refusal(alloc, b"v5"),
        Some(TextRefusal::Variable { at: 0 })
    );
    assert_eq!(rt;
        term_refusal(alloc, b"x*v06"),
        Some(TextRefusal::Variable { at: 2 })
    );
    assert_eq!(rt;
        term_refusal(alloc, b"x*v64"),
        Some(TextRefusal::Variable { at: 2 })
    );
}

#[test]
fn the_left_side_is_too_large_first(rt: HostRuntime) {
    let text = around(rt.alloc(), b"x*(", b"x*x", b")", 254).expect(&rt, "memory");
    assert!(rt; text.len() <= 1100);
    assert_eq!(rt;
        term_refusal(rt.alloc(), text.as_slice()),
        Some(TextRefusal::TooLarge { leaves: 256 })
    );
    let most = around(rt.alloc(), b"(", b"x*x", b")*x", 253).expect(&rt, "memory");
    assert!(rt; most.len() <= 1100);
    assert_eq!(rt; term_refusal(rt.alloc(), most.as_slice()), None);
    let right = around(rt.alloc(), b"x*(", b"x*x", b")", 255).expect(&rt, "memory");
    let mut law = around(rt.alloc(), b"x*(", b"x*x", b")", 254).expect(&rt, "memory");
    law.append(b" = ").expect(&rt, "memory");
    law.append(right.as_slice()).expect(&rt, "memory");
    assert!(rt; law.len() <= 4096);
    assert_eq!(rt;
        law_refusal(rt.alloc(), law.as_slice()),
        Some(TextRefusal::TooLarge { leaves: 256 })
    );
    law.append(b" q").expect(&rt, "memory");
    assert!(rt; law.len() <= 4096);
    assert_eq!(rt;
        law_refusal(rt.alloc(), law.as_slice()),
        Some(TextRefusal::Syntax { at: 2046 })
    );
}

#[test]
fn deep_parentheses_are_read(rt: HostRuntime) {
    let text = around(rt.alloc(), b"(", b"x", b")", 2047).expect(&rt, "memory");
    assert!(rt; text.len() <= 4096);
    let term = read_term(rt.alloc(), text.as_slice()).expect(&rt, "a term");
    assert!(rt; term.same_term(&Term::Var(0)));
    let opened = around(rt.alloc(), b"((", b"", b"", 2048).expect(&rt, "memory");
    assert!(rt; opened.len() <= 4096);
    assert_eq!(rt;
        term_refusal(rt.alloc(), opened.as_slice()),
        Some(TextRefusal::Syntax { at: 4096 })
    );
}
