// The reply to taking a file out.
ghost use Rattle.std.specs.Prelude.{◌≡◌, ◌↔◌, IsTrue, ◌<◌, ◌++◌, ◌∷◌, [], IfOk, OnOk, length, codes};
ghost use Rattle.etp_proof.specs.Names.{IsName};
ghost use Rattle.etp_print.specs.Given.{GivesThen};
ghost use Rattle.etp_desk.specs.Desks.{Agrees, Leaves};
ghost use Rattle.etp_filing.specs.Withdrawals.{WithdrawReply, RefusesCited};

use etp_desk::Opened;
use etp_ledger::{Ledger, LedgerRefusal, Name};
use etp_print::{begin_refusal, refuse, refuse_name};
use etp_text::Text;
use std::alloc::{AllocError, Global};

/// Takes the file of a name out and writes the reply; a word that is no name makes a bad line.
pub fn answer_withdrawal(
    alloc: Global,
    text: &mut Text,
    opened: &mut Opened,
    word: &[u8],
    line: u64,
) -> Result<bool, AllocError>
    requires empty { text.old ≡ [] }
    requires agrees { Agrees opened.old }
    ensures { IfOk result (λ refusal. GivesThen line text.new refusal (WithdrawReply opened.old.ledger.files word.now) (Leaves opened.old opened.new)) }
{
    if !is_name(alloc, word)? {
        return refuse(text, line, b"bad line");
    }
    take_out(text, opened, word, line)
}

// Whether the word is a name.
fn is_name(alloc: Global, word: &[u8]) -> Result<bool, AllocError>
    ensures { IfOk result (λ named. IsTrue named ↔ IsName word.now) }
{
    let name = Name::of(alloc, word)?;
    Ok(name.is_some())
}

// Takes the file of a name out.
fn take_out(
    text: &mut Text,
    opened: &mut Opened,
    word: &[u8],
    line: u64,
) -> Result<bool, AllocError>
    requires empty { text.old ≡ [] }
    requires agrees { Agrees opened.old }
    requires name { IsName word.now }
    ensures { IfOk result (λ refusal. GivesThen line text.new refusal (WithdrawReply opened.old.ledger.files word.now) (Leaves opened.old opened.new)) }
{
    match opened.ledger.withdraw(word) {
        Ok(()) => {
            append_withdrawn(text, word)?;
            Ok(false)
        }
        Err(LedgerRefusal::NoSuchName) => refuse_name(text, line, b"no such name ", word),
        Err(LedgerRefusal::Cited { by }) => refuse_cited(text, &opened.ledger, word, by, line),
        Err(_) => Err(AllocError),
    }
}

fn append_withdrawn(text: &mut Text, word: &[u8]) -> Result<(), AllocError>
    ensures { OnOk result (text.new ≡ text.old ++ (codes "withdrawn " ++ word.now ++ 10 ∷ [])) }
{
    text.append(b"withdrawn ")?;
    text.append(word)?;
    text.append(b"\n")
}

// Refuses to take out a file that the file at a place cites.
fn refuse_cited(
    text: &mut Text,
    ledger: &Ledger,
    word: &[u8],
    by: u32,
    line: u64,
) -> Result<bool, AllocError>
    requires empty { text.old ≡ [] }
    requires there { by < length ledger.now.files }
    ensures { IfOk result (λ refusal. RefusesCited line text.new refusal ledger.now.files word.now by) }
{
    let Some((name, _, _)) = ledger.file(by) else {
        unreachable!()
    };
    begin_refusal(text, line)?;
    text.append(b"cited ")?;
    text.append(word)?;
    text.append(b" by ")?;
    text.append(name)?;
    text.append(b"\n")?;
    Ok(true)
}
