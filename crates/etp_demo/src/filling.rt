// A ledger that takes the generated files of a seed.
ghost use Rattle.std.specs.Prelude.{◌≡◌, ◌<◌, ◌++◌, ◌∷◌, [], ℕ, None, length, IfOk, OnOk};
ghost use Rattle.etp_items.specs.Bodies.{proof, proof_of};
ghost use Rattle.etp_gen.specs.Files.{IsGenerated};
ghost use Rattle.etp_gen.specs.Scripts.{file_name};
ghost use Rattle.etp_ledger.specs.Files.{body_named};
ghost use Rattle.etp_ledger.specs.Ledgers.{IsOver};
ghost use Rattle.etp_demo.specs.Demos.{AreFilesOf};

use crate::reading::read_again;
use etp_gen::{Generator, append_file_name};
use etp_laws::Laws;
use etp_ledger::{Ledger, LedgerRefusal, Name};
use etp_proof::Proof;
use etp_term::NoMemory;
use etp_text::Text;
use std::alloc::Global;

/// The name of file k.
pub(crate) fn name_of(alloc: Global, k: u32) -> Result<Name, NoMemory>
    ensures { IfOk result (λ name. name ≡ file_name k) }
{
    let mut text = Text::empty(alloc);
    append_file_name(&mut text, k)?;
    match Name::of(alloc, text.as_slice())? {
        Some(name) => Ok(name),
        None => unreachable!(),
    }
}

// Takes file k, whose name is free.
fn take_file(
    alloc: Global,
    ledger: &mut Ledger,
    laws: &Laws,
    k: u32,
    file: Proof,
) -> Result<(), NoMemory>
    requires over { IsOver laws.now ledger.old }
    requires few { length ledger.old.files < 4294967295 }
    requires free { body_named (file_name k) ledger.old.files ≡ None }
    requires generated { (s : ℕ) × (after : ℕ)
        × IsGenerated laws.now.equations s (proof_of file) after }
    ensures over { OnOk result (IsOver laws.now ledger.new) }
    ensures files { OnOk result (ledger.new.files ≡ ledger.old.files
        ++ record { name = file_name k; body = proof (proof_of file) } ∷ []) }
{
    let name = name_of(alloc, k)?;
    let body = read_again(alloc, laws, file)?;
    match ledger.accept(laws, name, body) {
        Ok(()) => Ok(()),
        Err(refusal) => {
            prove!(matches!(&refusal, LedgerRefusal::NoMemory));
            Err(NoMemory)
        }
    }
}

/// A ledger that took so many generated files of a seed in order.
pub(crate) fn fill(alloc: Global, laws: &Laws, count: u32, seed: u32) -> Result<Ledger, NoMemory>
    ensures over { IfOk result (λ ledger. IsOver laws.now ledger) }
    ensures files { IfOk result
        (λ ledger. AreFilesOf laws.now.equations count seed ledger.files) }
{
    let _order = laws.order();
    let mut generator = Generator::start(seed);
    let mut ledger = Ledger::start(alloc, laws)?;
    for k in 0..count {
        let file = generator.next_file(alloc, laws)?;
        take_file(alloc, &mut ledger, laws, k + 1, file)?;
    }
    Ok(ledger)
}
