// The summary, and how much of it is written.
ghost use Rattle.std.specs.Prelude.{◌≡◌, ◌≤◌, ◌++◌, ◌∷◌, [], IfOk, OnOk};
ghost use Rattle.etp_io.specs.Causes.{Rose};
ghost use Rattle.etp_laws.specs.LawLists.{LawList};
ghost use Rattle.etp_ledger.specs.Ledgers.{IsOver};
ghost use Rattle.etp_ledger.specs.Withdrawing.{IsWithdrawn, without};
ghost use Rattle.etp_tasks.specs.Writing.{WritesSome};
ghost use Rattle.etp_demo.specs.Demos.{AppendsCounts, HasClasses, number_line, name_line, IsDemoOf};

use crate::filling::{fill, name_of};
use etp_io::{Sink, write_all};
use etp_laws::Laws;
use etp_ledger::Ledger;
use etp_report::classes_of;
use etp_survey::answer_counts;
use etp_term::NoMemory;
use etp_text::Text;
use std::alloc::Global;

/// Writes the summary of a ledger that took so many generated files of a seed and withdrew the
/// first, and answers the status: 0 where all was written, 4 where a write failed, 5 for want of
/// memory.
pub fn write_demo<K: Sink>(alloc: Global, count: u32, seed: u32, sink: &mut K) -> u8
    requires some { 1 ≤ count }
    ensures demo { WritesSome (IsDemoOf count seed) (K.took sink.old) (K.took sink.new) result }
    ensures write { result ≡ 4 → Rose (K.faults sink.old) (K.faults sink.new) }
{
    let Ok(text) = summary(alloc, count, seed) else {
        return 5;
    };
    match write_all(sink, text.as_slice()) {
        Ok(()) => 0,
        Err(_) => 4,
    }
}

fn summary(alloc: Global, count: u32, seed: u32) -> Result<Text, NoMemory>
    requires { 1 ≤ count }
    ensures { IfOk result (IsDemoOf count seed) }
{
    let laws = Laws::build(alloc)?;
    let _duals = laws.duals();
    let mut ledger = fill(alloc, &laws, count, seed)?;
    let mut text = Text::empty(alloc);
    append_number_line(&mut text, b"files ", ledger.count())?;
    append_counts(alloc, &mut text, &ledger)?;
    let first = name_of(alloc, 1)?;
    withdraw(&mut ledger, first.as_slice());
    append_name_line(&mut text, b"withdrawn ", first.as_slice())?;
    append_counts(alloc, &mut text, &ledger)?;
    let classes = count_classes(alloc, &ledger)?;
    append_number_line(&mut text, b"classes ", classes)?;
    Ok(text)
}

// Takes a file out that stands and that no file cites.
fn withdraw(ledger: &mut Ledger, name: &[u8])
    requires { IsWithdrawn ledger.old.files name.now (without name.now ledger.old.files) }
    ensures over { (laws : LawList) → IsOver laws ledger.old → IsOver laws ledger.new }
    ensures files { IsWithdrawn ledger.old.files name.now ledger.new.files }
{
    match ledger.withdraw(name) {
        Ok(()) => {}
        Err(_) => unreachable!(),
    }
}

fn append_number_line(text: &mut Text, word: &[u8], number: u32) -> Result<(), NoMemory>
    ensures { OnOk result (text.new ≡ text.old ++ number_line word.now number) }
{
    text.append(word)?;
    text.append_number(u64::from(number))?;
    text.append(b"\n")
}

fn append_name_line(text: &mut Text, word: &[u8], name: &[u8]) -> Result<(), NoMemory>
    ensures { OnOk result (text.new ≡ text.old ++ name_line word.now name.now) }
{
    text.append(word)?;
    text.append(name)?;
    text.append(b"\n")
}

// Appends the line that answers `counts`.
fn append_counts(alloc: Global, text: &mut Text, ledger: &Ledger) -> Result<(), NoMemory>
    ensures { OnOk result ((laws : LawList) → IsOver laws ledger.now
        → AppendsCounts laws ledger.now.files text.old text.new) }
{
    let mut line = Text::empty(alloc);
    answer_counts(&mut line, ledger, 0)?;
    text.append(line.as_slice())
}

fn count_classes(alloc: Global, ledger: &Ledger) -> Result<u32, NoMemory>
    ensures { IfOk result (λ number. (laws : LawList) → IsOver laws ledger.now
        → HasClasses laws ledger.now.files number) }
{
    let classes = classes_of(alloc, ledger.closure())?;
    Ok(classes.len())
}
