// The reply to the question which laws hold in a stored table.
ghost use Rattle.std.specs.Prelude.{◌≡◌, ◌↔◌, ◌++◌, List, [], Some, IfOk, IfSome, OnOk, IsTrue};
ghost use Rattle.std.specs.Option.{option_map};
ghost use Rattle.etp_proof.specs.Names.{IsName};
ghost use Rattle.etp_table.specs.Tables.{IsTable};
ghost use Rattle.etp_items.specs.Bodies.{FileBody, body_of};
ghost use Rattle.etp_ledger.specs.Files.{File, body_named};
ghost use Rattle.etp_ledger.specs.Accepting.{IsValidFor};
ghost use Rattle.etp_ledger.specs.Ledgers.{IsOver};
ghost use Rattle.etp_print.specs.Given.{Gives};
ghost use Rattle.etp_profile.specs.ProfileReplies.{ProfileReply, profile_line, table_in};

use etp_bits::Numbers;
use etp_items::{Body, TableBody, append_spaced};
use etp_laws::Laws;
use etp_ledger::{Ledger, Name};
use etp_print::{refuse, refuse_name, refuse_with};
use etp_sweep::{SweepRefusal, profile};
use etp_table::{OpTable, TableRefusal};
use etp_text::Text;
use std::alloc::{AllocError, Global};

/// Writes which laws hold in the table of a name; a word that is no name makes a bad line.
pub fn answer_profile(
    alloc: Global,
    text: &mut Text,
    laws: &Laws,
    ledger: &Ledger,
    word: &[u8],
    line: u64,
) -> Result<bool, AllocError>
    requires empty { text.old ≡ [] }
    requires over { IsOver laws.now ledger.now }
    ensures { IfOk result (λ refusal. Gives line text.new refusal
        (ProfileReply laws.now.order laws.now.equations ledger.now.files word.now)) }
{
    if !is_name(alloc, word)? {
        return refuse(text, line, b"bad line");
    }
    match body_of_name(ledger, word) {
        None => refuse_name(text, line, b"no such name ", word),
        Some(Body::Table(table)) => answer_table(alloc, text, laws, table, word, line),
        Some(Body::Proof(_)) => refuse_name(text, line, b"not a table ", word),
        Some(Body::Linear(_)) => refuse_name(text, line, b"not a table ", word),
        Some(Body::Matrix(_)) => refuse_name(text, line, b"not a table ", word),
        Some(Body::Rules(_)) => refuse_name(text, line, b"not a table ", word),
    }
}

// Whether the word is a name.
fn is_name(alloc: Global, word: &[u8]) -> Result<bool, AllocError>
    ensures { IfOk result (λ named. IsTrue named ↔ IsName word.now) }
{
    let name = Name::of(alloc, word)?;
    Ok(name.is_some())
}

// The body of the file of a name.
fn body_of_name<'l>(ledger: &'l Ledger, name: &[u8]) -> Option<&'l Body>
    ensures body { option_map (λ body. body_of body.now) result ≡ body_named name.now ledger.now.files }
    ensures valid { IfSome result (λ body. IsValidFor ledger.now.order ledger.now.files (body_of body.now)) }
{
    let place = ledger.place(name)?;
    let Some((_, body, _)) = ledger.file(place) else {
        unreachable!()
    };
    Some(body)
}

// Writes which laws hold in the table of a file.
fn answer_table(
    alloc: Global,
    text: &mut Text,
    laws: &Laws,
    body: &TableBody,
    word: &[u8],
    line: u64,
) -> Result<bool, AllocError>
    requires empty { text.old ≡ [] }
    requires table { IsTable (record { size = body.now.size; entries = body.now.entries }) }
    ensures { IfOk result (λ refusal. (files : List File) (stored : FileBody)
        → IsName word.now → body_named word.now files ≡ Some stored
        → table_in stored ≡ Some (record { size = body.now.size; entries = body.now.entries })
        → Gives line text.new refusal (ProfileReply laws.now.order laws.now.equations files word.now)) }
{
    let table = table_of(alloc, body)?;
    match profile(alloc, laws, &table) {
        Ok(numbers) => {
            append_profile(text, word, &numbers)?;
            Ok(false)
        }
        Err(SweepRefusal::ProfileSize { size }) => {
            refuse_with(text, line, b"profile size ", u32::from(size))
        }
        Err(SweepRefusal::NoMemory) => Err(AllocError),
    }
}

/// The table of a body whose entries are below its size.
pub fn table_of(alloc: Global, body: &TableBody) -> Result<OpTable, AllocError>
    requires { IsTable (record { size = body.now.size; entries = body.now.entries }) }
    ensures { IfOk result (λ table. table ≡ record { size = body.now.size; entries = body.now.entries }) }
{
    match OpTable::of(alloc, body.size, body.entries.as_slice()) {
        Ok(table) => Ok(table),
        Err(TableRefusal::NoMemory) => Err(AllocError),
        Err(_) => unreachable!(),
    }
}

// Appends the line of a profile.
fn append_profile(text: &mut Text, name: &[u8], numbers: &Numbers) -> Result<(), AllocError>
    ensures { OnOk result (text.new ≡ text.old ++ profile_line name.now numbers.now) }
{
    text.append(b"profile ")?;
    text.append(name)?;
    text.append(b" ")?;
    text.append_number(u64::from(numbers.len()))?;
    text.append(b":")?;
    append_spaced(text, numbers.as_slice())?;
    text.append(b"\n")
}
