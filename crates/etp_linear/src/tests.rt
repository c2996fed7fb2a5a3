ghost use Rattle.std.specs.Prelude.{All, IsSome, IsTrue};
ghost use Rattle.etp_theory.specs.LawNumbers.{law_numbered};

use crate::{Linear, LinearFailure, LinearRefusal, Ring, Which};
use etp_laws::Laws;
use etp_theory::keeps_derived;

fn are_listed(laws: &Laws, numbers: &[u32]) -> bool
    ensures { IsTrue result → All (λ n. IsSome (law_numbered laws.now.equations n)) numbers.now }
{
    for number in numbers {
        match laws.law(*number) {
            None => return false,
            Some(_) => {}
        }
    }
    true
}

/// What is said of these claims; None where a number isn't listed.
fn judged(
    laws: &Laws,
    linear: &Linear,
    holds: &[u32],
    fails: &[u32],
) -> Option<Result<(), LinearRefusal>> {
    if are_listed(laws, holds) && are_listed(laws, fails) {
        return Some(linear.judge(laws, holds, fails));
    }
    None
}

#[test]
fn claims_are_judged(rt: HostRuntime) {
    let laws = Laws::build(rt.alloc()).expect(&rt, "memory");
    let thirds = Linear::of(Ring::Modulo(3), 2, 2, 0).expect(&rt, "in range");
    assert!(rt; matches!(&judged(&laws, &thirds, &[3, 43], &[4512]), Some(Ok(()))));
    assert!(rt;
        matches!(
            &judged(&laws, &thirds, &[3, 4512], &[]),
            Some(Err(LinearRefusal::HoldsFails {
                law: 4512,
                failure: LinearFailure {
                    variable: Some(0),
                    left: 2,
                    right: 1
                },
            }))
        )
    );
    let sums = Linear::of(Ring::Integers, 1, 1, 0).expect(&rt, "in range");
    assert!(rt; matches!(&judged(&laws, &sums, &[43, 4512], &[3]), Some(Ok(()))));
    assert!(rt;
        matches!(
            &judged(&laws, &sums, &[3], &[4]),
            Some(Err(LinearRefusal::HoldsFails {
                law: 3,
                failure: LinearFailure {
                    variable: Some(0),
                    left: 1,
                    right: 2
                },
            }))
        )
    );
    let one = Linear::of(Ring::Modulo(1), 0, 0, 0).expect(&rt, "in range");
    assert!(rt;
        matches!(
            &judged(&laws, &one, &[4], &[43]),
            Some(Err(LinearRefusal::FailsHolds { law: 43 }))
        )
    );
    keeps_derived(&one);
}

#[test]
fn the_first_number_out_of_range_is_named(rt: HostRuntime) {
    assert!(rt;
        matches!(
            &Linear::of(Ring::Modulo(3), 3, 0, 0),
            Err(LinearRefusal::Coefficient {
                which: Which::A,
                value: 3
            })
        )
    );
    assert!(rt;
        matches!(
            &Linear::of(Ring::Modulo(3), -1, 3, 0),
            Err(LinearRefusal::Coefficient {
                which: Which::A,
                value: -1
            })
        )
    );
    assert!(rt;
        matches!(
            &Linear::of(Ring::Modulo(0), 0, 0, 0),
            Err(LinearRefusal::Coefficient {
                which: Which::Modulus,
                value: 0
            })
        )
    );
    assert!(rt;
        matches!(
            &Linear::of(Ring::Integers, 1000001, 0, 0),
            Err(LinearRefusal::Coefficient {
                which: Which::A,
                value: 1000001
            })
        )
    );
    assert!(rt; matches!(&Linear::of(Ring::Integers, 1000000, -1000000, 0), Ok(_)));
}
