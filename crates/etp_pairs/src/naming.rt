// Numbers for variables, in the order in which they first come.
ghost use Rattle.std.specs.Prelude.{◌≡◌, IfOk, OnOk};
ghost use Rattle.etp_term.specs.Terms.{tree_of};
ghost use Rattle.etp_match.specs.Bindings.{partial_of};
ghost use Rattle.etp_pairs.specs.Numbering.{AreNames, HasRoom, AreNoted};

use etp_match::Subst;
use etp_term::{NoMemory, Term};

/// Gives the next numbers, from the count on, to the term's variables that have none, as they come
/// from left to right; the count after it.
pub(crate) fn note(names: &mut Subst, count: u8, term: &Term) -> Result<u8, NoMemory>
    requires names { AreNames (partial_of names.old) count }
    requires room { HasRoom (partial_of names.old) (tree_of term.now) }
    ensures { IfOk result (λ n. AreNoted (tree_of term.now) (partial_of names.old)
        (partial_of names.new) count n) }
{
    match term {
        Term::Var(v) => {
            if names.get(*v).is_some() {
                return Ok(count);
            }
            names.bind(*v, Term::Var(count))?;
            Ok(count + 1)
        }
        Term::Op(l, r) => {
            let after = note(names, count, l.get())?;
            let last = note(names, after, r.get())?;
            Ok(last)
        }
    }
}
