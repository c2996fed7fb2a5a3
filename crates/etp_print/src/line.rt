// Refusal lines.
ghost use Rattle.std.specs.Prelude.{◌≡◌, ◌++◌, ◌∷◌, [], IfOk, OnOk, true, codes, decimal};
ghost use Rattle.etp_print.specs.Texts.{reply_text, refused, refused_file};

use etp_text::Text;
use std::alloc::{AllocError, Global};

/// Begins a refusal line: what is appended up to its end says why.
pub fn begin_refusal(text: &mut Text, line: u64) -> Result<(), AllocError>
    ensures { OnOk result (text.new ≡ text.old
        ++ (codes "refused " ++ decimal line ++ codes ": ")) }
{
    text.append(b"refused ")?;
    text.append_number(line)?;
    text.append(b": ")
}

/// Writes a refusal line, and answers that it is one.
pub fn refuse(text: &mut Text, line: u64, why: &[u8]) -> Result<bool, AllocError>
    requires { text.old ≡ [] }
    ensures { IfOk result (λ refusal. (text.new ≡ reply_text line (refused why.now))
        × (refusal ≡ true)) }
{
    begin_refusal(text, line)?;
    text.append(why)?;
    text.append(b"\n")?;
    Ok(true)
}

/// Writes a refusal line that ends with a number.
pub fn refuse_with(text: &mut Text, line: u64, why: &[u8], n: u32) -> Result<bool, AllocError>
    requires { text.old ≡ [] }
    ensures { IfOk result (λ refusal. (text.new ≡ reply_text line (refused (why.now ++ decimal n)))
        × (refusal ≡ true)) }
{
    begin_refusal(text, line)?;
    text.append(why)?;
    text.append_number(u64::from(n))?;
    text.append(b"\n")?;
    Ok(true)
}

/// Writes a refusal line that ends with a name.
pub fn refuse_name(text: &mut Text, line: u64, why: &[u8], name: &[u8]) -> Result<bool, AllocError>
    requires { text.old ≡ [] }
    ensures { IfOk result (λ refusal. (text.new ≡ reply_text line (refused (why.now ++ name.now)))
        × (refusal ≡ true)) }
{
    begin_refusal(text, line)?;
    text.append(why)?;
    text.append(name)?;
    text.append(b"\n")?;
    Ok(true)
}

/// Writes the refusal line of a file's content.
pub fn refuse_file(text: &mut Text, line: u64, name: &[u8], why: &[u8]) -> Result<bool, AllocError>
    requires { text.old ≡ [] }
    ensures { IfOk result (λ refusal. (text.new ≡ reply_text line (refused_file name.now why.now))
        × (refusal ≡ true)) }
{
    begin_refusal(text, line)?;
    text.append(name)?;
    text.append(b": ")?;
    text.append(why)?;
    text.append(b"\n")?;
    Ok(true)
}
