//! Terms, laws, derivations, magmas and rewriting: what a reader must believe, and what mathematics
//! gives. Each theorem is the contract of a function with an empty body.
#![tactic(auto)]

mod magma;
#[cfg(test)]
mod tests;

ghost use Rattle.etp_theory.specs.Examples.{Examples};
ghost use Rattle.etp_theory.specs.LawExamples.{LawExamples};
ghost use Rattle.etp_theory.specs.LimitExamples.{LimitExamples};
ghost use Rattle.etp_theory.specs.RuleExamples.{RuleExamples};
ghost use Rattle.etp_theory.specs.Theorems.{TermTheorems, OrderTheorems, SubstitutionTheorems, PositionTheorems, DualTheorems, SamenessTheorems, DerivationTheorems, ProofTheorems, MagmaTheorems, TableTheorems, WeightTheorems, RewritingTheorems, StrategyTheorems, LimitTheorems, NewmanTheorems, UnificationTheorems, CriticalPairTheorems, OverlapTheorems, NormalFormTheorems, ReachTheorems};

pub use magma::{Magma, keeps_derived};

/// Operations, leaves, shape and word of a term.
pub fn term_theorems()
    ensures { TermTheorems }
{}

/// The orders of shapes and of laws.
pub fn order_theorems()
    ensures { OrderTheorems }
{}

/// Substitutions are total functions from variables to terms; finite partial maps do the same on
/// any two terms.
pub fn substitution_theorems()
    ensures { SubstitutionTheorems }
{}

/// Subterms and replacement at a position.
pub fn position_theorems()
    ensures { PositionTheorems }
{}

/// The dual of a term, both parts of every operation exchanged.
pub fn dual_theorems()
    ensures { DualTheorems }
{}

/// Laws that differ by the names of their variables and the order of their sides alone.
pub fn sameness_theorems()
    ensures { SamenessTheorems }
{}

/// Derivations by Birkhoff's rules (Birkhoff 1935).
pub fn derivation_theorems()
    ensures { DerivationTheorems }
{}

/// What a proof by lemmas and steps concludes is derived, where the laws that it cites are.
pub fn proof_theorems()
    ensures { ProofTheorems }
{}

/// Derivations conclude only what holds in every magma of their law (Birkhoff 1935).
pub fn magma_theorems()
    ensures { MagmaTheorems }
{}

/// A law holds in a finite magma where it holds at every list of values.
pub fn table_theorems()
    ensures { TableTheorems }
{}

/// Linear weights of terms, and rules that lower all of them.
pub fn weight_theorems()
    ensures { WeightTheorems }
{}

/// One rewriting, by cases and by a position, and what it does to weights.
pub fn rewriting_theorems()
    ensures { RewritingTheorems }
{}

/// The strategy: the left part first, then the right part, then the root, by the lowest rule.
pub fn strategy_theorems()
    ensures { StrategyTheorems }
{}

/// The limits of a walk, said by their numbers.
pub fn limit_theorems()
    ensures { LimitTheorems }
{}

/// One normal form from local confluence (Newman 1942).
pub fn newman_theorems()
    ensures { NewmanTheorems }
{}

/// Most general unifiers (Robinson 1965).
pub fn unification_theorems()
    ensures { UnificationTheorems }
{}

/// Local confluence from critical pairs (Knuth and Bendix 1970, Huet 1980).
pub fn critical_pair_theorems()
    ensures { CriticalPairTheorems }
{}

/// The order of a system's overlaps, and the first one that fails.
pub fn overlap_theorems()
    ensures { OverlapTheorems }
{}

/// The magma of the normal forms of a convergent system.
pub fn normal_form_theorems()
    ensures { NormalFormTheorems }
{}

/// What accepted proofs and refutations say of all pairs of laws.
pub fn reach_theorems()
    ensures { ReachTheorems }
{}

/// Small laws and systems at which the definitions are computed.
pub fn worked_examples()
    ensures { Examples }
{}

/// Laws whose sameness, duals, order and proofs are computed, and facts about them.
pub fn law_examples()
    ensures { LawExamples }
{}

/// Rules whose steps, weights and overlaps are computed.
pub fn rule_examples()
    ensures { RuleExamples }
{}

/// Walks at the limits.
pub fn limit_examples()
    ensures { LimitExamples }
{}
