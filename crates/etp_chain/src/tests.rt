ghost use Rattle.std.specs.Prelude.{◌≡◌, ◌∷◌, [], Contains, IfOk};
ghost use Rattle.etp_theory.specs.Reach.{Fact as FactOf};
ghost use Rattle.etp_closure.specs.Facts.{fact_of};
ghost use Rattle.etp_chain.specs.Evidence.{NamesLaws};

use super::{Edge, Facts, Path, why_implied, why_refuted};
use etp_bits::Numbers;
use etp_closure::Fact;
use std::alloc::{AllocError, Global};
use std::rt::HostRuntime;

// Two files.
#[derive(Drop)]
struct Two {
    first: Fact,
    second: Fact,
}

impl Facts for Two {
    ghost said = { λ two. fact_of two.first ∷ fact_of two.second ∷ [] };

    fn count(&self) -> u32 {
        2
    }

    fn fact(&self, at: u32) -> Option<&Fact> {
        match at {
            0 => Some(&self.first),
            1 => Some(&self.second),
            _ => None,
        }
    }
}

// The list of one number.
fn one(alloc: Global, law: u32) -> Result<Numbers, AllocError>
    ensures { IfOk result (λ numbers. numbers ≡ law ∷ []) }
{
    let mut numbers = Numbers::empty(alloc);
    numbers.push(law)?;
    Ok(numbers)
}

// A table in which law 4 holds and law 2 fails, and a proof of law 3 from law 4. Laws 4 and 5 are each
// other's duals below, and the others their own.
fn table_and_proof(alloc: Global) -> Result<Two, AllocError>
    ensures { IfOk result (λ two. (fact : FactOf) → Contains (fact_of two.first ∷ fact_of two.second ∷ []) fact → NamesLaws 5 fact) }
{
    let holds = one(alloc, 4)?;
    let fails = one(alloc, 2)?;
    Ok(Two {
        first: Fact::Refutes { holds, fails },
        second: Fact::Implies {
            hypothesis: 4,
            goal: 3,
        },
    })
}

#[test]
fn a_dual_edge_is_named(rt: HostRuntime) {
    if let Ok(two) = table_and_proof(rt.alloc()) {
        if let Ok(Some(path)) = why_implied(rt.alloc(), &two, &[1, 2, 3, 5, 4], 5, 3) {
            assert_eq!(rt; path.len(), 1);
            assert!(rt;
                path.get(0)
                    == Some(&Edge {
                        hypothesis: 5,
                        goal: 3,
                        file: 1,
                        dual: true
                    })
            );
            return;
        }
    }
    assert!(rt; false);
}

#[test]
fn a_pair_is_refuted_by_way_of_a_proof(rt: HostRuntime) {
    if let Ok(two) = table_and_proof(rt.alloc()) {
        if let Ok(Some(cover)) = why_refuted(rt.alloc(), &two, &[1, 2, 3, 5, 4], 3, 2) {
            assert_eq!(rt; (cover.file, cover.dual), (0, false));
            assert_eq!(rt; (cover.holds, cover.fails), (4, 2));
            assert!(rt;
                cover.before.get(0)
                    == Some(&Edge {
                        hypothesis: 4,
                        goal: 3,
                        file: 1,
                        dual: false
                    })
            );
            assert!(rt; cover.after.is_empty());
            return;
        }
    }
    assert!(rt; false);
}

#[test]
fn a_path_takes_an_edge(rt: HostRuntime) {
    let mut path = Path::empty(rt.alloc());
    assert!(rt;
        path.push(Edge {
            hypothesis: 1,
            goal: 2,
            file: 0,
            dual: false
        })
        .is_ok()
    );
    assert_eq!(rt; path.len(), 1);
    assert!(rt; path.get(1).is_none());
}
