// Bodies by their lines, and what is written of them.
mod rules;

ghost use Rattle.std.specs.Prelude.{IsTrue};
ghost use Rattle.etp_items.specs.Bodies.{body_of};
ghost use Rattle.etp_items.specs.Written.{HasSize};

use crate::{Body, BodyReader, BodyRefusal, body_text};
use etp_proof::{Proof, Step};
use etp_term::{Position, Side};
use etp_text::{Text, write_term};
use std::alloc::{AllocError, Global};

// Lines, then so many lines without a byte, closed or not; a line of None is too long.
#[derive(Clone, Copy)]
struct Case<'a> {
    lines: &'a [Option<&'a str>],
    blanks: u32,
    closed: bool,
}

fn read(alloc: Global, case: &Case<'_>) -> Result<Result<Body, BodyRefusal>, AllocError> {
    let mut reader = BodyReader::start(alloc, 4694)?;
    for line in case.lines {
        push_text(&mut reader, *line)?;
    }
    for _ in 0..case.blanks {
        reader.push(Some(b""))?;
    }
    Ok(reader.finish(case.closed))
}

fn push_text(reader: &mut BodyReader, line: Option<&str>) -> Result<(), AllocError> {
    match line {
        Some(text) if text.len() <= 4096 => reader.push(Some(text.as_bytes())),
        _ => reader.push(None),
    }
}

fn refusal(alloc: Global, case: &Case<'_>) -> Result<Option<BodyRefusal>, AllocError> {
    Ok(read(alloc, case)?.err())
}

fn bad(line: u32) -> Option<BodyRefusal> {
    Some(BodyRefusal::BadLine { line })
}

#[test]
fn bodies_are_read_or_refused(rt: HostRuntime) {
    let h = Some("proof 4 3");
    let x = Some("lemma x");
    let unknown = |number| Some(BodyRefusal::UnknownLaw { line: 1, number });
    let cases: [(&[Option<&str>], Option<BodyRefusal>); 22] = [
        (&[], Some(BodyRefusal::Unfinished { line: 1 })),
        (&[h], Some(BodyRefusal::Unfinished { line: 2 })),
        (&[h, x, Some("step 1 > . x * x")], None),
        (
            &[h, Some("lemma x * y"), Some("step 0 < l (x * x) * x")],
            None,
        ),
        (&[h, Some("lemma x * y")], None),
        (&[Some("# c"), h, x], None),
        (&[h, Some("lemma x +")], bad(2)),
        (&[Some("proof 4 99999999999")], bad(1)),
        (&[h, Some("step 0 > . x")], bad(2)),
        (&[h, x, Some("step 0 > . x *")], bad(3)),
        (&[h, x, Some("step 0 > x x * x")], bad(3)),
        (&[h, None], bad(2)),
        (
            &[Some(""), Some("# c"), h, Some(" "), x, Some("end")],
            bad(6),
        ),
        (&[Some("proof 4 4695"), x], unknown(4695)),
        (&[Some("proof 4 4294967295"), x], unknown(4294967295)),
        (&[Some("proof 0 4695"), x], unknown(0)),
        (&[h, Some("cite a"), x], bad(2)),
        (&[h, x, Some("step c1 > . x * x")], bad(3)),
        (
            &[Some("proof2 4 3"), Some("cite a"), x, Some("step c0 > . x")],
            None,
        ),
        (&[Some("proof2 4 3"), x, Some("cite a")], bad(3)),
        (&[Some("proof2 4 3"), Some("cite -a"), x], bad(2)),
        (&[Some("proof2 4 3"), Some("proof2 4 3")], bad(2)),
    ];
    for (lines, expected) in cases {
        assert!(rt; refused(rt.alloc(), lines).expect(&rt, "memory") == expected);
    }
}

#[test]
fn bodies_end_in_a_proper_way(rt: HostRuntime) {
    let proof: &[Option<&str>] = &[Some("proof 4 3"), Some("lemma x")];
    let wrong: &[Option<&str>] = &[Some("proof 4 3"), Some("lemma +")];
    let cases = [
        (proof, 0, false, Some(BodyRefusal::Unfinished { line: 3 })),
        (proof, 199_998, true, None),
        (
            proof,
            199_998,
            false,
            Some(BodyRefusal::Unfinished { line: 200_001 }),
        ),
        (
            proof,
            199_999,
            true,
            Some(BodyRefusal::TooManyLines { line: 200_001 }),
        ),
        (
            proof,
            200_010,
            false,
            Some(BodyRefusal::TooManyLines { line: 200_001 }),
        ),
        (wrong, 199_999, true, bad(2)),
    ];
    for (lines, blanks, closed, expected) in cases {
        let case = Case {
            lines,
            blanks,
            closed,
        };
        assert!(rt; refusal(rt.alloc(), &case).expect(&rt, "memory") == expected);
    }
}

fn with_cites(alloc: Global, count: u32) -> Result<Option<BodyRefusal>, AllocError> {
    let mut reader = BodyReader::start(alloc, 4694)?;
    reader.push(Some(b"proof2 4 3"))?;
    for _ in 0..count {
        reader.push(Some(b"cite a.b_c-1"))?;
    }
    reader.push(Some(b"lemma x"))?;
    Ok(reader.finish(true).err())
}

#[test]
fn a_proof_has_64_cites(rt: HostRuntime) {
    assert!(rt; with_cites(rt.alloc(), 64).expect(&rt, "memory") == None);
    assert!(rt; with_cites(rt.alloc(), 65).expect(&rt, "memory") == bad(66));
}

fn refused(alloc: Global, lines: &[Option<&str>]) -> Result<Option<BodyRefusal>, AllocError> {
    let case = Case {
        lines,
        blanks: 0,
        closed: true,
    };
    refusal(alloc, &case)
}

fn has_size(body: &Body) -> bool
    ensures { IsTrue result → HasSize (body_of body.now) }
{
    match body {
        Body::Proof(_) => true,
        Body::Table(table) => table.size >= 1,
        Body::Linear(_) => true,
        Body::Matrix(matrix) => matrix.size >= 1,
        Body::Rules(_) => true,
    }
}

fn written(alloc: Global, lines: &[Option<&str>], text: &[u8]) -> Result<bool, AllocError> {
    let case = Case {
        lines,
        blanks: 0,
        closed: true,
    };
    match read(alloc, &case)? {
        Ok(body) if has_size(&body) => { Ok(body_text(alloc, &body)?.as_slice() == text) }
        _ => Ok(false),
    }
}

#[test]
fn a_table_is_written_in_one_form(rt: HostRuntime) {
    let lines = [
        Some("table 02"),
        Some(" row 0 0"),
        Some("# the second row"),
        Some("row 1\t1"),
        Some("holds 4 01"),
        Some("holds 4"),
        Some("fails 43"),
    ];
    let text = "table 2\nrow 0 0\nrow 1 1\nholds 4 1 4\nfails 43\n";
    assert!(rt; written(rt.alloc(), &lines, text.as_bytes()).expect(&rt, "memory"));
}

#[test]
fn lines_of_a_table_stand_in_their_order(rt: HostRuntime) {
    let table = Some("table 2");
    let first = Some("row 0 0");
    let second = Some("row 1 1");
    let holds = Some("holds 4");
    let fails = Some("fails 43");
    let cases: [(&[Option<&str>], Option<BodyRefusal>); 8] = [
        (&[table, first, second, holds, fails], None),
        (&[Some("table 0")], bad(1)),
        (&[Some("table 256")], bad(1)),
        (&[table, Some("row 0")], bad(2)),
        (&[table, first, holds], bad(3)),
        (&[table, first, second, fails], bad(4)),
        (&[table, first, second, holds, fails, holds], bad(6)),
        (&[table, first, second, Some("holds"), fails], bad(4)),
    ];
    for (lines, expected) in cases {
        assert!(rt; refused(rt.alloc(), lines).expect(&rt, "memory") == expected);
    }
    let cited = &[table, first, second, Some("holds 4 4695"), Some("fails 0")];
    let unknown = Some(BodyRefusal::UnknownLaw {
        line: 4,
        number: 4695,
    });
    assert!(rt; refused(rt.alloc(), cited).expect(&rt, "memory") == unknown);
}

#[test]
fn a_linear_magma_is_written_in_one_form(rt: HostRuntime) {
    let cases = [
        (" linear  int\t1 -1 0", "linear int 1 -1 0\n"),
        ("linear int -0 007 -0010", "linear int 0 7 -10\n"),
        ("linear mod 07 3 -2 0", "linear mod 7 3 -2 0\n"),
        ("linear mod 0 0 0 0", "linear mod 0 0 0 0\n"),
        (
            "linear mod 4294967295 4294967295 -4294967295 1",
            "linear mod 4294967295 4294967295 -4294967295 1\n",
        ),
    ];
    for (line, text) in cases {
        let lines = [Some(line), Some("holds 4"), Some("fails 43")];
        let mut whole = Text::empty(rt.alloc());
        whole.append(text.as_bytes()).expect(&rt, "memory");
        whole.append(b"holds 4\nfails 43\n").expect(&rt, "memory");
        assert!(rt; written(rt.alloc(), &lines, whole.as_slice()).expect(&rt, "memory"));
    }
}

#[test]
fn one_line_tells_a_linear_magma(rt: HostRuntime) {
    let linear = Some("linear int 1 -1 0");
    let holds = Some("holds 4");
    let fails = Some("fails 43");
    let cases: [(&[Option<&str>], Option<BodyRefusal>); 21] = [
        (&[linear, holds, fails], None),
        (&[Some("linear mod 7 3 -2 0"), holds, fails], None),
        (&[Some("linear mod 0 0 0 0"), holds, fails], None),
        (&[Some("linear int 1000001 0 0"), holds, fails], None),
        (&[Some("linear")], bad(1)),
        (&[Some("linear int 1 1")], bad(1)),
        (&[Some("linear int 1 1 1 1")], bad(1)),
        (&[Some("linear int --1 0 0")], bad(1)),
        (&[Some("linear int - 1 0 0")], bad(1)),
        (&[Some("linear int 1 - 0")], bad(1)),
        (&[Some("linear int +1 0 0")], bad(1)),
        (&[Some("linear int 0 0 4294967296")], bad(1)),
        (&[Some("linear mod -7 1 1 1")], bad(1)),
        (&[Some("linear mod 1 1 1")], bad(1)),
        (&[Some("linear 1 1 1")], bad(1)),
        (&[holds, linear], bad(1)),
        (&[linear, linear], bad(2)),
        (&[linear, fails], bad(2)),
        (&[linear, Some("row 0")], bad(2)),
        (&[linear, holds, linear], bad(3)),
        (&[Some("table 1"), linear], bad(2)),
    ];
    for (lines, expected) in cases {
        assert!(rt; refused(rt.alloc(), lines).expect(&rt, "memory") == expected);
    }
    let unfinished = Some(BodyRefusal::Unfinished { line: 3 });
    assert!(rt; refused(rt.alloc(), &[linear, holds]).expect(&rt, "memory") == unfinished);
}

const MATRIX: [Option<&str>; 6] = [
    Some("matrix 2 2"),
    Some("a 0 1"),
    Some("a 1 1"),
    Some("b 1 1"),
    Some("b 1 0"),
    Some("c 0 0"),
];

#[test]
fn a_matrix_linear_magma_is_written_in_one_form(rt: HostRuntime) {
    let [_, first, second, third, fourth, _] = MATRIX;
    let lines = [
        Some(" matrix  02\t2"),
        first,
        second,
        Some("# B"),
        third,
        fourth,
        Some("c 00 0"),
        Some("holds 3 14"),
        Some("fails 43"),
        Some("fails 4512"),
    ];
    let text = "matrix 2 2\na 0 1\na 1 1\nb 1 1\nb 1 0\nc 0 0\nholds 3 14\nfails 43 4512\n";
    assert!(rt; written(rt.alloc(), &lines, text.as_bytes()).expect(&rt, "memory"));
}

#[test]
fn lines_of_matrices_stand_in_their_order(rt: HostRuntime) {
    let [heading, first, second, third, fourth, last] = MATRIX;
    let holds = Some("holds 3");
    let fails = Some("fails 43");
    let cases: [(&[Option<&str>], Option<BodyRefusal>); 14] = [
        (
            &[heading, first, second, third, fourth, last, holds, fails],
            None,
        ),
        (
            &[
                Some("matrix 0 1"),
                Some("a 7"),
                Some("b 7"),
                Some("c 7"),
                holds,
                fails,
            ],
            None,
        ),
        (&[Some("matrix 2 0")], bad(1)),
        (&[Some("matrix 2 5")], bad(1)),
        (&[Some("matrix 2")], bad(1)),
        (&[Some("matrix 2 2 2")], bad(1)),
        (&[first], bad(1)),
        (&[heading, Some("a 0")], bad(2)),
        (&[heading, Some("a 0 1 1")], bad(2)),
        (&[heading, first, third], bad(3)),
        (&[heading, first, second, first], bad(4)),
        (&[heading, first, second, third, last], bad(5)),
        (&[heading, first, second, third, fourth, holds], bad(6)),
        (&[heading, first, second, third, fourth, last, last], bad(7)),
    ];
    for (lines, expected) in cases {
        assert!(rt; refused(rt.alloc(), lines).expect(&rt, "memory") == expected);
    }
}

#[test]
fn bodies_are_written_in_one_form(rt: HostRuntime) {
    let plain = written(
        rt.alloc(),
        &[
            Some("  proof2 004\t3 "),
            Some("# c"),
            Some("lemma (x)*(y)"),
            Some("step 00 < . ((x * y)) * z"),
            Some("step 1 > lr v6"),
        ],
        "proof 4 3\nlemma x ◇ y\nstep 0 < . (x ◇ y) ◇ z\nstep 1 > lr v6\n".as_bytes(),
    );
    assert!(rt; plain.expect(&rt, "memory"));
    let citing = written(
        rt.alloc(),
        &[
            Some("proof2 4 3"),
            Some("cite a"),
            Some("lemma x"),
            Some("step c01 > r x"),
        ],
        "proof2 4 3\ncite a\nlemma x\nstep c1 > r x\n".as_bytes(),
    );
    assert!(rt; citing.expect(&rt, "memory"));
}

// What is to stand in a step: its lemma and its place there, from 0 on, the line that it names, its
// direction, its position's letters and its term.
#[derive(Clone, Copy)]
struct Expected<'a> {
    lemma: u32,
    place: u32,
    line: u32,
    reversed: bool,
    position: &'a [u8],
    term: &'a str,
}

fn is_at(position: &Position, letters: &[u8]) -> bool {
    for (side, letter) in position.as_slice().iter().zip(letters) {
        let expected = match side {
            Side::L => b'l',
            Side::R => b'r',
        };
        if *letter != expected {
            return false;
        }
    }
    position.as_slice().len() == letters.len()
}

fn is_expected(alloc: Global, step: &Step, expected: &Expected<'_>) -> Result<bool, AllocError> {
    let term = write_term(alloc, &step.to)?;
    Ok(
        step.line == expected.line
            && step.reversed == expected.reversed
            && !step.cited
            && is_at(&step.position, expected.position)
            && term.as_slice() == expected.term.as_bytes(),
    )
}

fn stands(alloc: Global, proof: &Proof, expected: &Expected<'_>) -> Result<bool, AllocError> {
    let Some(lemma) = proof.lemmas.get(expected.lemma) else {
        return Ok(false);
    };
    match lemma.steps.get(expected.place) {
        Some(step) => is_expected(alloc, step, expected),
        None => Ok(false),
    }
}

fn step_count(proof: &Proof, lemma: u32) -> Option<u32> {
    Some(proof.lemmas.get(lemma)?.steps.len())
}

fn is_two_lemmas(proof: &Proof) -> bool {
    proof.hypothesis == 43
        && proof.goal == 4512
        && proof.lemmas.len() == 2
        && step_count(proof, 0) == Some(1)
        && step_count(proof, 1) == Some(2)
}

#[test]
fn two_lemmas_are_read_with_their_steps(rt: HostRuntime) {
    let case = Case {
        lines: &[
            Some("proof 43 4512"),
            Some("lemma x * y"),
            Some("step 0 > . y * x"),
            Some(""),
            Some("lemma (x * y) * z"),
            Some("step 1 > l (y * x) * z"),
            Some("step 0 < . z * (y * x)"),
        ],
        blanks: 0,
        closed: true,
    };
    let expected = [
        Expected {
            lemma: 0,
            place: 0,
            line: 0,
            reversed: false,
            position: b"",
            term: "y ◇ x",
        },
        Expected {
            lemma: 1,
            place: 0,
            line: 1,
            reversed: false,
            position: b"l",
            term: "(y ◇ x) ◇ z",
        },
        Expected {
            lemma: 1,
            place: 1,
            line: 0,
            reversed: true,
            position: b"",
            term: "z ◇ (y ◇ x)",
        },
    ];
    match read(rt.alloc(), &case).expect(&rt, "memory") {
        Ok(Body::Proof(proof)) => {
            assert!(rt; is_two_lemmas(&proof));
            for step in &expected {
                assert!(rt; stands(rt.alloc(), &proof, step).expect(&rt, "memory"));
            }
        }
        _ => assert!(rt; false),
    }
}
