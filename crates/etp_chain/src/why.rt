ghost use Rattle.std.specs.Prelude.{◌≡◌, List, length, IfOk, MatchOption, Contains};
ghost use Rattle.etp_theory.specs.Reach.{Fact as FactOf, Reach, Covers};
ghost use Rattle.etp_theory.specs.LawNumbers.{IsLaw, IsOwnInverse};
ghost use Rattle.etp_chain.specs.Evidence.{NamesLaws, IsPath, IsCover};

use crate::covers::first_pair;
use crate::evidence::{Cover, Path};
use crate::facts::Facts;
use crate::graph::graph_of;
use crate::paths::path_from;
use crate::searches::search;
use std::alloc::{AllocError, Global};

/// The path of a pair, or None where the second law isn't reached from the first. It is a shortest
/// one; each step goes to the least law from which a shortest one goes on, and names the earliest
/// file that gives the step, plain before dual.
pub fn why_implied<L: Facts>(
    alloc: Global,
    facts: &L,
    duals: &[u32],
    e: u32,
    f: u32,
) -> Result<Option<Path>, AllocError>
    requires own_inverse { IsOwnInverse duals.now }
    requires facts_in { (fact : FactOf) → Contains (L.said facts.now) fact → NamesLaws (length duals.now) fact }
    requires e_in { IsLaw (length duals.now) e }
    requires f_in { IsLaw (length duals.now) f }
    ensures { IfOk result (λ answer. MatchOption answer (¬ Reach duals.now (L.said facts.now) e f) (λ path. IsPath duals.now (L.said facts.now) f e path)) }
{
    let size = duals.len() + 1;
    let graph = graph_of(alloc, facts, duals)?;
    let found = search(alloc, &graph.goals, &graph.hypotheses, size, f)?;
    if found[e as usize] == 0 {
        return Ok(None);
    }
    let path = path_from(alloc, &graph, &found, e)?;
    Ok(Some(path))
}

/// The cover of a pair, or None where no refuting pair covers it. It is of the earliest file, plain
/// before dual, with the least law that holds and then the least law that fails.
pub fn why_refuted<L: Facts>(
    alloc: Global,
    facts: &L,
    duals: &[u32],
    e: u32,
    f: u32,
) -> Result<Option<Cover>, AllocError>
    requires own_inverse { IsOwnInverse duals.now }
    requires facts_in { (fact : FactOf) → Contains (L.said facts.now) fact → NamesLaws (length duals.now) fact }
    requires e_in { IsLaw (length duals.now) e }
    requires f_in { IsLaw (length duals.now) f }
    ensures { IfOk result (λ answer. MatchOption answer (¬ Covers duals.now (L.said facts.now) e f) (λ cover. IsCover duals.now (L.said facts.now) e f cover)) }
{
    let size = duals.len() + 1;
    let graph = graph_of(alloc, facts, duals)?;
    let reaching = search(alloc, &graph.goals, &graph.hypotheses, size, e)?;
    let reached = search(alloc, &graph.hypotheses, &graph.goals, size, f)?;
    let pair = match first_pair(facts, duals, &reaching, &reached) {
        None => return Ok(None),
        Some(pair) => pair,
    };
    let before = path_from(alloc, &graph, &reaching, pair.holds)?;
    let found = search(alloc, &graph.goals, &graph.hypotheses, size, pair.fails)?;
    let after = path_from(alloc, &graph, &found, f)?;
    Ok(Some(Cover {
        file: pair.file,
        dual: pair.dual,
        holds: pair.holds,
        fails: pair.fails,
        before,
        after,
    }))
}
