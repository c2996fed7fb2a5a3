// Files by name, and their facts in the closure.
ghost use Rattle.std.specs.Prelude.{◌≡◌, List, [], ◌∷◌, ◌++◌, None, length, OnOk, OnErr, Contains};
ghost use Rattle.std.specs.Option.{option_map};
ghost use Rattle.etp_theory.specs.Reach.{Fact as FactOf};
ghost use Rattle.etp_finite_body.specs.FiniteBodies.{finite_body_of};
ghost use Rattle.etp_closure.specs.Closures.{StandsFor, SameAnswers, HasKeptLaws};
ghost use Rattle.etp_closure.specs.Facts.{fact_of};
ghost use Rattle.etp_finite.specs.Files.{facts_of, body_named};
ghost use Rattle.etp_finite.specs.Naming.{HasLaws};
ghost use Rattle.etp_finite.specs.Kept.{file_of, files_of};

use crate::kept::{Files, Kept};
use etp_closure::{Closure, Fact};
use std::alloc::AllocError;

// The file of a name.
pub(crate) fn find<'f>(files: &'f Files, name: &[u8]) -> Option<&'f Kept>
    ensures { option_map (λ kept. finite_body_of kept.now.body) result
        ≡ body_named name.now (files_of files.now.entries) }
{
    files.get(name)
}

// Keeps the laws that the fact names.
pub(crate) fn reserve_for(closure: &mut Closure, fact: &Fact) -> Result<(), AllocError>
    requires { HasLaws (length closure.old.duals) (fact_of fact.now) }
    ensures duals { closure.new.duals ≡ closure.old.duals }
    ensures kept { OnOk result (HasKeptLaws closure.new.slots (fact_of fact.now)) }
    ensures answers { SameAnswers closure.old closure.new }
    ensures stands { (facts : List FactOf) → StandsFor closure.old facts → StandsFor closure.new facts }
    ensures err { OnErr result (closure.new.slots ≡ closure.old.slots) }
{
    match fact {
        Fact::Implies { hypothesis, goal } => closure.reserve(&[*hypothesis], &[*goal]),
        Fact::Refutes { holds, fails } => closure.reserve(holds.as_slice(), fails.as_slice()),
    }
}

// Adds the fact, whose laws are kept.
pub(crate) fn add_fact(closure: &mut Closure, fact: &Fact)
    requires { HasKeptLaws closure.old.slots (fact_of fact.now) }
    ensures duals { closure.new.duals ≡ closure.old.duals }
    ensures slots { closure.new.slots ≡ closure.old.slots }
    ensures stands { (facts : List FactOf) → StandsFor closure.old facts → StandsFor closure.new (facts ++ fact_of fact.now ∷ []) }
{
    match fact {
        Fact::Implies { hypothesis, goal } => closure.add_implication(*hypothesis, *goal),
        Fact::Refutes { holds, fails } => {
            closure.add_refutation(holds.as_slice(), fails.as_slice())
        }
    }
}

// Adds the facts of all files, in order, to a closure without facts that keeps their laws.
pub(crate) fn add_all(closure: &mut Closure, files: &Files)
    requires none { StandsFor closure.old [] }
    requires kept { (fact : FactOf) → Contains (facts_of (files_of files.now.entries)) fact → HasKeptLaws closure.old.slots fact }
    ensures duals { closure.new.duals ≡ closure.old.duals }
    ensures slots { closure.new.slots ≡ closure.old.slots }
    ensures stands { StandsFor closure.new (facts_of (files_of files.now.entries)) }
{
    for at in 0..files.len() {
        add_fact(closure, &files[at].fact);
    }
}

// Puts a file of a free name in last place and adds its fact. Where memory is wanting the files are
// as before, and the closure keeps its laws and answers.
pub(crate) fn store(
    files: &mut Files,
    closure: &mut Closure,
    key: Vec<u8>,
    kept: Kept,
) -> Result<(), AllocError>
    requires free { body_named key.items (files_of files.old.entries) ≡ None }
    requires laws { HasLaws (length closure.old.duals) (fact_of kept.fact) }
    requires stands { StandsFor closure.old (facts_of (files_of files.old.entries)) }
    ensures duals { closure.new.duals ≡ closure.old.duals }
    ensures files { OnOk result (files_of files.new.entries ≡ files_of files.old.entries ++ file_of (key, kept) ∷ []) }
    ensures stands { StandsFor closure.new (facts_of (files_of files.new.entries)) }
    ensures err_files { OnErr result (files.new.entries ≡ files.old.entries) }
    ensures err_slots { OnErr result (closure.new.slots ≡ closure.old.slots) }
    ensures err_answers { OnErr result (SameAnswers closure.old closure.new) }
{
    files.insert(key, kept)?;
    let last = files.len() - 1;
    if reserve_for(closure, &files[last].fact).is_err() {
        files.pop();
        return Err(AllocError);
    }
    add_fact(closure, &files[last].fact);
    Ok(())
}
