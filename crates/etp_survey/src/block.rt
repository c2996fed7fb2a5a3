// Replies with the answers among some laws.
ghost use Rattle.std.specs.Prelude.{◌≡◌, ◌++◌, [], IfOk, codes, decimal, true};
ghost use Rattle.etp_laws.specs.LawLists.{LawList};
ghost use Rattle.etp_ledger.specs.Ledgers.{IsOver};
ghost use Rattle.etp_print.specs.Given.{Gives};
ghost use Rattle.etp_print.specs.Texts.{reply_text, refused};
ghost use Rattle.etp_survey.specs.PairReplies.{CsvReply};

use etp_ledger::Ledger;
use etp_print::refuse_with;
use etp_report::{ReportRefusal, csv_block};
use etp_text::Text;
use std::alloc::{AllocError, Global};

fn block_and_first(alloc: Global, first: u32) -> Result<Text, AllocError>
    ensures { IfOk result (λ why. why ≡ codes "block " ++ decimal first ++ codes " ") }
{
    let mut why = Text::empty(alloc);
    why.append(b"block ")?;
    why.append_number(u64::from(first))?;
    why.append(b" ")?;
    Ok(why)
}

fn refuse_block(
    alloc: Global,
    text: &mut Text,
    first: u32,
    last: u32,
    line: u64,
) -> Result<bool, AllocError>
    requires { text.old ≡ [] }
    ensures { IfOk result (λ refusal. (text.new ≡ reply_text line
        (refused (codes "block " ++ decimal first ++ codes " " ++ decimal last)))
        × (refusal ≡ true)) }
{
    let why = block_and_first(alloc, first)?;
    refuse_with(text, line, why.as_slice(), last)
}

/// Writes the answers among the laws from the first to the last as comma-separated values.
pub fn answer_csv(
    alloc: Global,
    text: &mut Text,
    ledger: &Ledger,
    first: u32,
    last: u32,
    line: u64,
) -> Result<bool, AllocError>
    requires { text.old ≡ [] }
    ensures { IfOk result (λ refused. (laws : LawList) → IsOver laws ledger.now
        → Gives line text.new refused (CsvReply laws ledger.now.files first last)) }
{
    match csv_block(alloc, ledger.closure(), first, last) {
        Ok(block) => {
            text.append(block.as_slice())?;
            Ok(false)
        }
        Err(ReportRefusal::Block { first, last }) => refuse_block(alloc, text, first, last, line),
        Err(ReportRefusal::NoMemory) => Err(AllocError),
    }
}
