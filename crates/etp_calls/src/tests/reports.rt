// Reports of a small closure.
ghost use Rattle.std.specs.Prelude.{◌≡◌, length};
ghost use Rattle.etp_theory.specs.LawNumbers.{IsLaw};

use etp_closure::Closure;
use etp_report::{Counts, class_of, classes_of, count_answers, csv_block, row_of};
use std::alloc::AllocError;
use std::rt::HostRuntime;

#[test]
fn pairs_are_counted(rt: HostRuntime) {
    match Closure::start(rt.alloc(), &[1, 2, 4, 3, 5]) {
        Ok(closure) => {
            assert_eq!(rt;
                count_answers(&closure),
                Counts {
                    implied: 5,
                    refuted: 0,
                    unsettled: 20
                }
            );
        }
        Err(_) => assert!(rt; false),
    }
}

// Keeps two laws and adds that each implies the other.
fn join(closure: &mut Closure, e: u32, f: u32) -> Result<(), AllocError>
    requires e_in { IsLaw (length closure.old.duals) e }
    requires f_in { IsLaw (length closure.old.duals) f }
    ensures { closure.new.duals ≡ closure.old.duals }
{
    closure.reserve(&[e], &[f])?;
    closure.add_implication(e, f);
    closure.add_implication(f, e);
    Ok(())
}

#[test]
fn two_equivalent_laws_are_reported(rt: HostRuntime) {
    let alloc = rt.alloc();
    let mut closure = Closure::start(alloc, &[1, 2, 3, 4, 5, 6]).expect(&rt, "memory");
    join(&mut closure, 2, 6).expect(&rt, "memory");
    let row = row_of(alloc, &closure, 2).expect(&rt, "memory");
    assert!(rt; row.implied.as_slice() == [2, 6].as_slice());
    assert!(rt; row.refuted.is_empty());
    let class = class_of(alloc, &closure, 6).expect(&rt, "memory");
    assert!(rt; class.as_slice() == [2, 6].as_slice());
    let classes = classes_of(alloc, &closure).expect(&rt, "memory");
    assert_eq!(rt; classes.len(), 5);
    assert!(rt; classes.get(1).expect(&rt, "a class").as_slice() == [2, 6].as_slice());
    let block = csv_block(alloc, &closure, 2, 3).expect(&rt, "a block");
    assert!(rt; block.as_slice() == b"law,2,3\n2,implied,open\n3,open,implied\n".as_slice());
}
