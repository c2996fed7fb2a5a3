// Proofs of instances of laws.
ghost use Rattle.std.specs.Prelude.{◌≡◌, ◌≤◌, IfOk, slice_index};
ghost use Rattle.etp_theory.specs.Trees.{bound, renamed, law_renamed};
ghost use Rattle.etp_theory.specs.LawNumbers.{law_numbered};
ghost use Rattle.etp_term.specs.Terms.{tree_of};
ghost use Rattle.etp_term.specs.Laws.{equation_of};
ghost use Rattle.etp_laws.specs.Listing.{IsTheList};
ghost use Rattle.etp_items.specs.Bodies.{proof_of};
ghost use Rattle.etp_gen.specs.Files.{one_step, ProvesInstance};

use etp_laws::{Laws, Numbered};
use etp_proof::{Cites, Lemma, Lemmas, Proof, Step, Steps};
use etp_term::{Law, NoMemory, Position, Term};
use sqlite_items::Boxed;
use std::alloc::Global;

/// The term with each variable replaced by its value.
fn replaced_term(alloc: Global, term: &Term, values: &[u8; 8]) -> Result<Term, NoMemory>
    requires { bound (tree_of term.now) ≤ 8 }
    ensures { IfOk result
        (λ t. tree_of t ≡ renamed (λ v. slice_index values.now v) (tree_of term.now)) }
{
    match term {
        Term::Var(v) => Ok(Term::Var(values[*v as usize])),
        Term::Op(l, r) => {
            let left = replaced_term(alloc, l.get(), values)?;
            let right = replaced_term(alloc, r.get(), values)?;
            Ok(Term::Op(Boxed::new(alloc, left)?, Boxed::new(alloc, right)?))
        }
    }
}

/// The law with each variable replaced by its value.
fn replaced_law(alloc: Global, law: &Law, values: &[u8; 8]) -> Result<Law, NoMemory>
    requires left { bound (tree_of law.now.left) ≤ 8 }
    requires right { bound (tree_of law.now.right) ≤ 8 }
    ensures { IfOk result (λ replaced. equation_of replaced
        ≡ law_renamed (λ v. slice_index values.now v) (equation_of law.now)) }
{
    Ok(Law {
        left: replaced_term(alloc, &law.left, values)?,
        right: replaced_term(alloc, &law.right, values)?,
    })
}

/// The proof of one lemma with one step, from the left to the right side of a law by the hypothesis.
fn proof_by_step(alloc: Global, hypothesis: u32, goal: u32, law: Law) -> Result<Proof, NoMemory>
    ensures { IfOk result (λ proof. proof_of proof ≡ one_step hypothesis goal (equation_of law)) }
{
    let Law { left, right } = law;
    let mut steps = Steps::empty(alloc);
    steps.push(Step {
        to: right,
        line: 0,
        cited: false,
        reversed: false,
        position: Position::root(alloc),
    })?;
    let mut lemmas = Lemmas::empty(alloc);
    lemmas.push(Lemma { start: left, steps })?;
    Ok(Proof {
        hypothesis,
        goal,
        cites: Cites::empty(alloc),
        lemmas,
    })
}

/// The proof, from the law numbered `hypothesis`, of its instance by values of its variables.
pub(crate) fn prove_instance(
    alloc: Global,
    laws: &Laws,
    hypothesis: u32,
    law: &Law,
    values: &[u8; 8],
) -> Result<Proof, NoMemory>
    requires stands { law_numbered laws.now.equations hypothesis ≡ Some (equation_of law.now) }
    requires list { IsTheList laws.now.order laws.now.equations }
    requires small { laws.now.order ≤ 5 }
    ensures { IfOk result (λ proof. ProvesInstance laws.now.equations hypothesis
        (equation_of law.now) (λ v. slice_index values.now v) (proof_of proof)) }
{
    let replaced = replaced_law(alloc, law, values)?;
    match laws.number(&replaced) {
        Numbered::Is(goal) => proof_by_step(alloc, hypothesis, goal, replaced),
        Numbered::Trivial => proof_by_step(alloc, hypothesis, hypothesis, law.copy(alloc)?),
        Numbered::TooManyOps(_) => unreachable!(),
    }
}
