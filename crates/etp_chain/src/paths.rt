// Paths, step by step.
ghost use Rattle.std.specs.Prelude.{◌≡◌, ℕ, ◌*◌, ◌<◌, ◌≤◌, ◌↔◌, List, length, slice_index, IfOk, IfSome, IsTrue, MatchOption};
ghost use Rattle.etp_theory.specs.Reach.{Fact as FactOf};
ghost use Rattle.etp_chain.specs.Edges.{HasEnds, IsEnds, IsGraph};
ghost use Rattle.etp_chain.specs.Evidence.{IsPath};
ghost use Rattle.etp_chain.specs.Searches.{IsSearched, IsFound, IsNearer, IsBest};

use crate::ends::Ends;
use crate::evidence::{Edge, Path};
use crate::graph::Graph;
use std::alloc::{AllocError, Global};

// The path from a law to the one that the search began at. A path of more than 4294967295 edges is
// want of memory too.
pub(crate) fn path_from(
    alloc: Global,
    graph: &Graph,
    found: &[usize],
    first: u32,
) -> Result<Path, AllocError>
    requires ready { HasEnds (length found.now) graph.now }
    requires first_in { first < length found.now }
    requires is_found { IsFound found.now first }
    ensures { IfOk result (λ path. (duals : List ℕ) (facts : List FactOf) (end : ℕ) → IsGraph duals facts (2 * length facts) graph.now → IsSearched graph.now.goals.laws.items graph.now.hypotheses.laws.items end found.now → IsPath duals facts end first path) }
{
    let mut path = Path::empty(alloc);
    let mut law = first;
    'steps: while let Some(place) = nearer(&graph.hypotheses, &graph.goals, found, law) {
        if path.len() == u32::MAX {
            return Err(AllocError);
        }
        let goal = graph.goals.laws[place];
        let source = graph.sources[place];
        path.push(Edge {
            hypothesis: law,
            goal,
            file: source.file,
            dual: source.dual,
        })?;
        law = goal;
    }
    Ok(path)
}

// The place of the edge that a path takes next, if it goes on.
fn nearer(from: &Ends, to: &Ends, found: &[usize], law: u32) -> Option<usize>
    requires law_in { law < length found.now }
    requires from_ready { IsEnds (length found.now) from.now }
    requires to_ready { IsEnds (length found.now) to.now }
    requires same_length { length to.now.laws.items ≡ length from.now.laws.items }
    ensures { MatchOption result ((place : ℕ) → place < length from.now.laws.items → slice_index from.now.laws.items place ≡ law → ¬ IsNearer found.now law (slice_index to.now.laws.items place)) (λ place. IsBest from.now.laws.items to.now.laws.items found.now law place) }
{
    let mut best: Option<usize> = None;
    let mut last = from.last(law);
    'edges: while last > 0 {
        let place = last - 1;
        if is_nearer(found, law, to.laws[place]) && is_at_most(&to.laws, place, best) {
            best = Some(place);
        }
        last = from.before(place);
    }
    best
}

// Whether a law is found with one less than another.
fn is_nearer(found: &[usize], law: u32, next: u32) -> bool
    requires law_in { law < length found.now }
    requires next_in { next < length found.now }
    ensures { IsTrue result ↔ IsNearer found.now law next }
{
    let code = found[law as usize];
    let next_code = found[next as usize];
    next_code > 0 && next_code < code && code - next_code == 1
}

// Whether the law at a place isn't above the one at another place, if there is one.
fn is_at_most(laws: &[u32], place: usize, other: Option<usize>) -> bool
    requires place_in { place < length laws.now }
    requires other_in { IfSome other (λ at. at < length laws.now) }
    ensures { IsTrue result ↔ IfSome other (λ at. slice_index laws.now place ≤ slice_index laws.now at) }
{
    match other {
        None => true,
        Some(other) => laws[place] <= laws[other],
    }
}
