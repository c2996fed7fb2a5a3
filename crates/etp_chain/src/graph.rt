// The edges of all facts, plain and dual.
ghost use Rattle.std.specs.Prelude.{◌≡◌, ℕ, ◌+◌, ◌*◌, ◌<◌, true, false, List, length, slice_get, IfOk, OnOk, Some, Contains};
ghost use Rattle.etp_theory.specs.Reach.{Fact as FactOf};
ghost use Rattle.etp_theory.specs.LawNumbers.{IsOwnInverse};
ghost use Rattle.etp_closure.specs.Facts.{fact_of};
ghost use Rattle.etp_chain.specs.Edges.{HasEnds, IsGraph, size_of};
ghost use Rattle.etp_chain.specs.Evidence.{NamesLaws, GivesEdge, turn_of};

use crate::ends::Ends;
use crate::facts::Facts;
use etp_closure::Fact;
use std::alloc::{AllocError, Global};

// The file that gives an edge, as it is or between the duals.
#[derive(Clone, Copy)]
pub(crate) struct Source {
    pub(crate) file: u32,
    pub(crate) dual: bool,
}

#[derive(Drop)]
pub(crate) struct Graph {
    pub(crate) hypotheses: Ends,
    pub(crate) goals: Ends,
    pub(crate) sources: Vec<Source>,
}

// The edges of all facts.
pub(crate) fn graph_of<L: Facts>(
    alloc: Global,
    facts: &L,
    duals: &[u32],
) -> Result<Graph, AllocError>
    requires own_inverse { IsOwnInverse duals.now }
    requires facts_in { (fact : FactOf) → Contains (L.said facts.now) fact → NamesLaws (length duals.now) fact }
    ensures ready { IfOk result (λ graph. HasEnds (length duals.now + 1) graph) }
    ensures edges { IfOk result (λ graph. IsGraph duals.now (L.said facts.now) (2 * length (L.said facts.now)) graph) }
{
    let mut graph = Graph::start(alloc, duals.len() + 1)?;
    for file in 0..facts.count() {
        match facts.fact(file) {
            Some(fact) => graph.add_fact(file, fact, duals)?,
            None => {}
        }
    }
    Ok(graph)
}

impl Graph {
    // No edges yet, of laws below the size.
    fn start(alloc: Global, size: usize) -> Result<Graph, AllocError>
        ensures ready { IfOk result (λ graph. HasEnds size graph) }
        ensures edges { IfOk result (λ graph. (duals : List ℕ) (facts : List FactOf) → IsGraph duals facts 0 graph) }
    {
        Ok(Graph {
            hypotheses: Ends::start(alloc, size)?,
            goals: Ends::start(alloc, size)?,
            sources: Vec::new(alloc),
        })
    }

    // Adds the edges of a file, which is later than all before.
    fn add_fact(&mut self, file: u32, fact: &Fact, duals: &[u32]) -> Result<(), AllocError>
        requires own_inverse { IsOwnInverse duals.now }
        requires fact_in { NamesLaws (length duals.now) (fact_of fact.now) }
        requires ready { HasEnds (length duals.now + 1) self.old }
        ensures ready { OnOk result (HasEnds (length duals.now + 1) self.new) }
        ensures edges { (facts : List FactOf) → slice_get facts file ≡ Some (fact_of fact.now) → IsGraph duals.now facts (turn_of file false) self.old → OnOk result (IsGraph duals.now facts (turn_of file true + 1) self.new) }
    {
        match fact {
            Fact::Refutes { .. } => Ok(()),
            Fact::Implies { hypothesis, goal } => {
                self.add(file, false, *hypothesis, *goal)?;
                let dual_hypothesis = duals[*hypothesis as usize - 1];
                let dual_goal = duals[*goal as usize - 1];
                self.add(file, true, dual_hypothesis, dual_goal)
            }
        }
    }

    // Adds an edge, which is given after all before.
    fn add(&mut self, file: u32, dual: bool, hypothesis: u32, goal: u32) -> Result<(), AllocError>
        requires hypothesis_in { hypothesis < size_of self.old.hypotheses }
        requires goal_in { goal < size_of self.old.hypotheses }
        requires ready { HasEnds (size_of self.old.hypotheses) self.old }
        ensures ready { OnOk result (HasEnds (size_of self.old.hypotheses) self.new) }
        ensures edges { (duals : List ℕ) (facts : List FactOf) → IsGraph duals facts (turn_of file dual) self.old → GivesEdge duals facts file dual hypothesis goal → OnOk result (IsGraph duals facts (turn_of file dual + 1) self.new) }
    {
        self.hypotheses.push(hypothesis)?;
        self.goals.push(goal)?;
        self.sources.push(Source { file, dual })?;
        Ok(())
    }
}
