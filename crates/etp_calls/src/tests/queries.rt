// Queries answered.
ghost use Rattle.std.specs.Prelude.{◌≡◌, ◌∷◌, [], IfOk};
ghost use Rattle.etp_items.specs.Bodies.{body_of, model, table};

use etp_bits::Numbers;
use etp_evidence::answer_why;
use etp_items::{Body, Claims, TableBody};
use etp_laws::Laws;
use etp_ledger::{Ledger, Name};
use etp_profile::answer_profile;
use etp_show::{answer_dual, answer_files, answer_law, answer_number, append_law_line};
use etp_survey::{
    answer_class, answer_classes, answer_counts, answer_csv, answer_pair, answer_row,
};
use etp_text::Text;
use std::alloc::{AllocError, Global};

#[test]
fn laws_and_files_are_shown(rt: HostRuntime) {
    let alloc = rt.alloc();
    let laws = Laws::build_to(alloc, 4).expect(&rt, "memory");
    let mut text = Text::empty(alloc);
    assert!(rt; !answer_law(&mut text, &laws, 43, 1).expect(&rt, "memory"));
    assert!(rt; text.as_slice() == "43 x ◇ y = y ◇ x\n".as_bytes());
    text.clear();
    assert!(rt; answer_dual(&mut text, &laws, 0, 2).expect(&rt, "memory"));
    assert!(rt; text.as_slice() == b"refused 2: unknown law 0\n".as_slice());
    text.clear();
    let spelling = b"z * y = y * z";
    assert!(rt; !answer_number(alloc, &mut text, &laws, spelling, 3).expect(&rt, "memory"));
    assert!(rt; text.as_slice() == "43 x ◇ y = y ◇ x\n".as_bytes());
    text.clear();
    append_law_line(&mut text, 1, laws.law(1).expect(&rt, "law")).expect(&rt, "memory");
    assert!(rt; text.as_slice() == b"1 x = x\n".as_slice());
    text.clear();
    let ledger = Ledger::start(alloc, &laws).expect(&rt, "memory");
    assert!(rt; !answer_files(&mut text, &ledger, 4).expect(&rt, "memory"));
    assert!(rt; text.as_slice() == b"files 0\n".as_slice());
}

#[test]
fn pairs_are_answered(rt: HostRuntime) {
    let alloc = rt.alloc();
    let laws = Laws::build_to(alloc, 4).expect(&rt, "memory");
    let ledger = Ledger::start(alloc, &laws).expect(&rt, "memory");
    let mut text = Text::empty(alloc);
    assert!(rt; !answer_pair(&mut text, &ledger, 4, 3, 1).expect(&rt, "memory"));
    assert!(rt; text.as_slice() == b"4 3 open\n".as_slice());
    text.clear();
    assert!(rt; !answer_counts(&mut text, &ledger, 2).expect(&rt, "memory"));
    assert!(rt; text.as_slice() == b"implied 4694 refuted 0 open 22028942\n".as_slice());
}

#[test]
fn rows_classes_and_blocks_are_written(rt: HostRuntime) {
    let alloc = rt.alloc();
    let laws = Laws::build_to(alloc, 4).expect(&rt, "memory");
    let ledger = Ledger::start(alloc, &laws).expect(&rt, "memory");
    let mut text = Text::empty(alloc);
    assert!(rt; !answer_row(alloc, &mut text, &ledger, 2, 1).expect(&rt, "memory"));
    let row = b"2 implied 1 refuted 0 open 4693\nimplied 2\nrefuted\n";
    assert!(rt; text.as_slice() == row.as_slice());
    text.clear();
    assert!(rt; !answer_class(alloc, &mut text, &ledger, 6, 2).expect(&rt, "memory"));
    assert!(rt; text.as_slice() == b"class 6 1: 6\n".as_slice());
    text.clear();
    assert!(rt; !answer_classes(alloc, &mut text, &ledger, 3).expect(&rt, "memory"));
    assert!(rt; text.as_slice() == b"classes 4694\n".as_slice());
    text.clear();
    assert!(rt; !answer_csv(alloc, &mut text, &ledger, 2, 3, 4).expect(&rt, "memory"));
    assert!(rt; text.as_slice() == b"law,2,3\n2,implied,open\n3,open,implied\n".as_slice());
    text.clear();
    assert!(rt; answer_csv(alloc, &mut text, &ledger, 1, 201, 5).expect(&rt, "memory"));
    assert!(rt; text.as_slice() == b"refused 5: block 1 201\n".as_slice());
}

fn numbers(alloc: Global, items: &[u32]) -> Result<Numbers, AllocError>
    ensures { IfOk result (λ numbers. numbers ≡ items.now) }
{
    let mut numbers = Numbers::empty(alloc);
    numbers.append(items)?;
    Ok(numbers)
}

// In the table each product is its left factor.
fn left_factor(alloc: Global) -> Result<Body, AllocError>
    ensures { IfOk result (λ body. body_of body ≡ model (table 2 (0 ∷ 0 ∷ 1 ∷ 1 ∷ []))
        (record { holds = 4 ∷ []; fails = 43 ∷ [] })) }
{
    Ok(Body::Table(TableBody {
        size: 2,
        entries: numbers(alloc, &[0, 0, 1, 1])?,
        claims: Claims {
            holds: numbers(alloc, &[4])?,
            fails: numbers(alloc, &[43])?,
        },
    }))
}

#[test]
fn the_laws_of_a_stored_table(rt: HostRuntime) {
    let alloc = rt.alloc();
    let laws = Laws::build(alloc).expect(&rt, "memory");
    let mut ledger = Ledger::start(alloc, &laws).expect(&rt, "memory");
    let name = Name::of(alloc, b"t1")
        .expect(&rt, "memory")
        .expect(&rt, "a name");
    let body = left_factor(alloc).expect(&rt, "memory");
    assert!(rt; laws.law(4).is_some());
    assert!(rt; laws.law(43).is_some());
    assert!(rt; ledger.accept(&laws, name, body).is_ok());
    let mut text = Text::empty(alloc);
    let refused = answer_profile(alloc, &mut text, &laws, &ledger, b"t1", 7).expect(&rt, "memory");
    assert!(rt; !refused);
    let front = b"profile t1 1214: 1 3 4 8 9 10 11 12 23 24 25 26 27 38 42 47 ";
    assert!(rt; text.as_slice().starts_with(front));
    assert!(rt; text.as_slice().ends_with(b"\n"));
}

#[test]
fn a_refuted_pair_has_its_cover(rt: HostRuntime) {
    let alloc = rt.alloc();
    let laws = Laws::build(alloc).expect(&rt, "memory");
    let mut ledger = Ledger::start(alloc, &laws).expect(&rt, "memory");
    let name = Name::of(alloc, b"t1")
        .expect(&rt, "memory")
        .expect(&rt, "a name");
    let body = left_factor(alloc).expect(&rt, "memory");
    assert!(rt; laws.law(4).is_some());
    assert!(rt; laws.law(43).is_some());
    assert!(rt; ledger.accept(&laws, name, body).is_ok());
    let mut text = Text::empty(alloc);
    let refused = answer_why(alloc, &mut text, &laws, &ledger, 4, 43, 7).expect(&rt, "memory");
    assert!(rt; !refused);
    let shown = b"4 43 refuted\nholds 4 fails 43 t1\nfails 43 x=0 y=1 left 0 right 1\n";
    assert!(rt; text.as_slice() == shown.as_slice());
}
