// The reply that shows all files as the lines of a session.
ghost use Rattle.std.specs.Prelude.{◌≡◌, ◌++◌, [], IfOk, OnOk};
ghost use Rattle.etp_items.specs.Bodies.{body_of};
ghost use Rattle.etp_items.specs.Written.{HasSize};
ghost use Rattle.etp_ledger.specs.Ledgers.{IsOver};
ghost use Rattle.etp_print.specs.Texts.{answered};
ghost use Rattle.etp_print.specs.Given.{Gives};
ghost use Rattle.etp_show.specs.Printed.{order_text, printed_file, printed_ledger};

use etp_items::{Body, body_text};
use etp_laws::Laws;
use etp_ledger::Ledger;
use etp_text::Text;
use std::alloc::{AllocError, Global};

/// Writes the files that stand as the lines of a session that gives them again.
pub fn answer_ledger(
    alloc: Global,
    text: &mut Text,
    laws: &Laws,
    ledger: &Ledger,
    line: u64,
) -> Result<bool, AllocError>
    requires empty { text.old ≡ [] }
    requires over { IsOver laws.now ledger.now }
    ensures { IfOk result (λ refusal.
        Gives line text.new refusal
        (λ reply. reply ≡ answered (printed_ledger laws.now.order ledger.now.files))) }
{
    append_order(text, laws.order())?;
    'files: for at in 0..ledger.count() {
        let Some((name, body, _)) = ledger.file(at) else {
            unreachable!()
        };
        append_printed(alloc, text, name, body)?;
    }
    Ok(false)
}

// Appends the line of the order, where one is wanted.
fn append_order(text: &mut Text, order: u8) -> Result<(), AllocError>
    ensures { OnOk result (text.new ≡ text.old ++ order_text order) }
{
    if order == 5 {
        return text.append(b"order 5\n");
    }
    Ok(())
}

/// Appends the lines of a file.
pub fn append_printed(
    alloc: Global,
    text: &mut Text,
    name: &[u8],
    body: &Body,
) -> Result<(), AllocError>
    requires { HasSize (body_of body.now) }
    ensures { OnOk result (text.new ≡ text.old
        ++ printed_file (record { name = name.now; body = body_of body.now })) }
{
    let lines = body_text(alloc, body)?;
    text.append(b"file ")?;
    text.append(name)?;
    text.append(b"\n")?;
    text.append(lines.as_slice())?;
    text.append(b"end\n")
}
