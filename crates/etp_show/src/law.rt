// Replies that show a law by its number.
ghost use Rattle.std.specs.Prelude.{◌≡◌, ◌≤◌, ◌++◌, [], IfOk, OnOk, true, false, codes, decimal, length, None};
ghost use Rattle.etp_theory.specs.Trees.{leaves};
ghost use Rattle.etp_theory.specs.LawNumbers.{law_numbered};
ghost use Rattle.etp_term.specs.Terms.{tree_of};
ghost use Rattle.etp_term.specs.Laws.{equation_of};
ghost use Rattle.etp_text.specs.Refusals.{side_limit};
ghost use Rattle.etp_print.specs.Texts.{reply_text, is_refusal, refused};
ghost use Rattle.etp_print.specs.Given.{Gives};
ghost use Rattle.etp_show.specs.LawReplies.{law_line, law_reply, NumberedReply, NumberReply, DualReply};

use etp_laws::{Laws, Numbered};
use etp_print::{refuse, refuse_with};
use etp_term::Law;
use etp_text::{Text, TextRefusal, read_law};
use std::alloc::{AllocError, Global};

/// Appends a law with its number before it, as a line.
pub fn append_law_line(text: &mut Text, n: u32, law: &Law) -> Result<(), AllocError>
    ensures { OnOk result (text.new ≡ text.old ++ law_line n (equation_of law.now)) }
{
    text.append_number(u64::from(n))?;
    text.append(b" ")?;
    text.append_law(law)?;
    text.append(b"\n")
}

/// Writes law n, or that there is none.
pub fn answer_law(text: &mut Text, laws: &Laws, n: u32, line: u64) -> Result<bool, AllocError>
    requires { text.old ≡ [] }
    ensures { IfOk result (λ refusal.
        (text.new ≡ reply_text line (law_reply n (law_numbered laws.now.equations n)))
        × (refusal ≡ is_refusal (law_reply n (law_numbered laws.now.equations n)))) }
{
    match laws.law(n) {
        Some(law) => {
            append_law_line(text, n, law)?;
            Ok(false)
        }
        None => refuse_with(text, line, b"unknown law ", n),
    }
}

/// Writes the law that is the same as the dual of law n.
pub fn answer_dual(text: &mut Text, laws: &Laws, n: u32, line: u64) -> Result<bool, AllocError>
    requires { text.old ≡ [] }
    ensures { IfOk result (λ refusal.
        Gives line text.new refusal (DualReply laws.now.equations n
        (law_numbered laws.now.equations n))) }
{
    match laws.dual(n) {
        Some(m) => answer_law(text, laws, m, line),
        None => refuse_with(text, line, b"unknown law ", n),
    }
}

// Writes the listed law that is the same as a law.
fn answer_numbered(text: &mut Text, laws: &Laws, law: &Law, line: u64) -> Result<bool, AllocError>
    requires empty { text.old ≡ [] }
    requires left { leaves (tree_of law.now.left) ≤ side_limit }
    requires right { leaves (tree_of law.now.right) ≤ side_limit }
    ensures { IfOk result (λ refusal.
        Gives line text.new refusal (NumberedReply laws.now.order laws.now.equations
        (equation_of law.now))) }
{
    match laws.number(law) {
        Numbered::Is(n) => answer_law(text, laws, n, line),
        Numbered::Trivial => refuse(text, line, b"trivial"),
        Numbered::TooManyOps(operations) => refuse_with(text, line, b"operations ", operations),
    }
}

/// Writes the listed law that is the same as the one that a text spells.
pub fn answer_number(
    alloc: Global,
    text: &mut Text,
    laws: &Laws,
    spelling: &[u8],
    line: u64,
) -> Result<bool, AllocError>
    requires empty { text.old ≡ [] }
    requires short { length spelling.now ≤ 4096 }
    ensures { IfOk result (λ refusal.
        Gives line text.new refusal (NumberReply laws.now.order laws.now.equations spelling.now)) }
{
    match read_law(alloc, spelling) {
        Ok(law) => answer_numbered(text, laws, &law, line),
        Err(TextRefusal::Syntax { at }) => refuse_with(text, line, b"syntax at ", at),
        Err(TextRefusal::Variable { at }) => refuse_with(text, line, b"variable at ", at),
        Err(TextRefusal::TooLarge { leaves }) => refuse_with(text, line, b"too large ", leaves),
        Err(TextRefusal::NoMemory) => Err(AllocError),
    }
}
