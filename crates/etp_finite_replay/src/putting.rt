// One term put for a variable in another.
ghost use Rattle.std.specs.Prelude.{◌≡◌, ◌↔◌, ℕ, IsTrue, IfOk};
ghost use Rattle.etp_term.specs.Terms.{tree_of};
ghost use Rattle.etp_term.specs.Laws.{equation_of};
ghost use Rattle.etp_theory.specs.Trees.{var};
ghost use Rattle.etp_cancel.specs.Cancelling.{put_for, IsCancelledBy};

use etp_match::Subst;
use etp_term::{Law, NoMemory, Term};
use std::alloc::Global;

/// The term with the other one put for the variable.
pub fn put_for(alloc: Global, variable: u8, put: &Term, term: &Term) -> Result<Term, NoMemory>
    ensures { IfOk result (λ t. tree_of t
        ≡ put_for variable (tree_of put.now) (tree_of term.now)) }
{
    let mut subst = Subst::empty(alloc)?;
    subst.bind(variable, put.copy(alloc)?)?;
    subst.apply(alloc, term)
}

/// Whether the side is the term with the other one put for the variable.
fn is_put(side: &Term, variable: u8, put: &Term, term: &Term) -> bool
    ensures { IsTrue result ↔ (tree_of side.now
        ≡ put_for variable (tree_of put.now) (tree_of term.now)) }
{
    match term {
        Term::Var(v) => {
            if *v == variable {
                side.same_term(put)
            } else {
                side.same_term(term)
            }
        }
        Term::Op(l, r) => match side {
            Term::Op(a, b) => is_put(a.get(), variable, put, l.get())
                && is_put(b.get(), variable, put, r.get()),
            Term::Var(_) => false,
        },
    }
}

fn is_variable(side: &Term, variable: u8) -> bool
    ensures { IsTrue result ↔ (tree_of side.now ≡ var variable) }
{
    match side {
        Term::Var(v) => *v == variable,
        Term::Op(_, _) => false,
    }
}

/// Whether the one side is `inner` put for the variable in `outer`, and the other the variable.
fn is_cancelled(put: &Term, alone: &Term, variable: u8, outer: &Term, inner: &Term) -> bool
    ensures { IsTrue result ↔ ((tree_of put.now
        ≡ put_for variable (tree_of inner.now) (tree_of outer.now))
        × (tree_of alone.now ≡ var variable)) }
{
    is_variable(alone, variable) && is_put(put, variable, inner, outer)
}

/// Whether one side of the law is `inner` put for the variable in `outer`, and the other one the
/// variable.
pub fn cancels(law: &Law, variable: u8, outer: &Term, inner: &Term) -> bool
    ensures { (line : ℕ) → IsTrue result ↔ IsCancelledBy (record {
      line = line;
      variable = variable;
      outer = tree_of outer.now;
      inner = tree_of inner.now;
    }) (equation_of law.now) }
{
    is_cancelled(&law.left, &law.right, variable, outer, inner)
        || is_cancelled(&law.right, &law.left, variable, outer, inner)
}
