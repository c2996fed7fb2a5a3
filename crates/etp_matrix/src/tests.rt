ghost use Rattle.std.specs.Prelude.{All, IsSome, IsTrue};
ghost use Rattle.etp_theory.specs.LawNumbers.{law_numbered};

use crate::{MatrixLinear, MatrixRefusal, Part};
use etp_laws::Laws;
use etp_theory::keeps_derived;

fn are_listed(laws: &Laws, numbers: &[u32]) -> bool
    ensures { IsTrue result → All (λ n. IsSome (law_numbered laws.now.equations n)) numbers.now }
{
    for number in numbers {
        match laws.law(*number) {
            None => return false,
            Some(_) => {}
        }
    }
    true
}

/// What is said of these claims; None where a number isn't listed.
fn judged(
    laws: &Laws,
    magma: &MatrixLinear,
    holds: &[u32],
    fails: &[u32],
) -> Option<Result<(), MatrixRefusal>> {
    if are_listed(laws, holds) && are_listed(laws, fails) {
        return Some(magma.judge(laws, holds, fails));
    }
    None
}

/// Whether a law that is to hold fails first with this variable that unit vector, and with these values.
fn is_failure(
    answer: &Option<Result<(), MatrixRefusal>>,
    number: u32,
    at: (u8, u8),
    left: &[u32; 4],
    right: &[u32; 4],
) -> bool {
    match answer {
        Some(Err(MatrixRefusal::HoldsFails { law, failure })) => {
            *law == number
                && failure.at == Some(at)
                && failure.left == *left
                && failure.right == *right
        }
        _ => false,
    }
}

#[test]
fn claims_are_judged(rt: HostRuntime) {
    let laws = Laws::build(rt.alloc()).expect(&rt, "memory");
    let twos = MatrixLinear::of(2, 2, &[0, 1, 1, 1], &[1, 1, 1, 0], &[0, 0]).expect(
        &rt, "in range",
    );
    assert!(rt; matches!(&judged(&laws, &twos, &[3, 14], &[43, 4512]), Some(Ok(()))));
    assert!(rt;
        is_failure(
            &judged(&laws, &twos, &[43], &[3]),
            43,
            (0, 0),
            &[0, 1, 0, 0],
            &[1, 1, 0, 0]
        )
    );
    assert!(rt;
        matches!(
            &judged(&laws, &twos, &[14], &[43, 3]),
            Some(Err(MatrixRefusal::FailsHolds { law: 3 }))
        )
    );
    let one = MatrixLinear::of(1, 1, &[0], &[0], &[0]).expect(&rt, "in range");
    assert!(rt; matches!(&judged(&laws, &one, &[2, 43, 4512], &[]), Some(Ok(()))));
    keeps_derived(&twos);
}

#[test]
fn the_first_number_out_of_range_is_named(rt: HostRuntime) {
    assert!(rt;
        matches!(
            &MatrixLinear::of(2, 2, &[0, 2, 1, 1], &[1, 1, 1, 0], &[0, 0]),
            Err(MatrixRefusal::Entry {
                part: Part::A,
                row: 0,
                column: 1,
                value: 2
            })
        )
    );
    assert!(rt;
        matches!(
            &MatrixLinear::of(3, 2, &[0, 2, 1, 1], &[1, 1, 3, 0], &[0, 3]),
            Err(MatrixRefusal::Entry {
                part: Part::B,
                row: 1,
                column: 0,
                value: 3
            })
        )
    );
    assert!(rt;
        matches!(
            &MatrixLinear::of(3, 2, &[0, 2, 1, 1], &[1, 1, 2, 0], &[0, 4]),
            Err(MatrixRefusal::Entry {
                part: Part::C,
                row: 1,
                column: 0,
                value: 4
            })
        )
    );
    assert!(rt;
        matches!(
            &MatrixLinear::of(0, 1, &[0], &[0], &[0]),
            Err(MatrixRefusal::Modulus { value: 0 })
        )
    );
    assert!(rt;
        matches!(
            &MatrixLinear::of(1000001, 1, &[0], &[0], &[0]),
            Err(MatrixRefusal::Modulus { value: 1000001 })
        )
    );
    assert!(rt; matches!(&MatrixLinear::of(1000000, 1, &[999999], &[0], &[0]), Ok(_)));
}
