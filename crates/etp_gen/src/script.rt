// The script of generated files.
ghost use Rattle.std.specs.Prelude.{◌≡◌, ◌++◌, IfOk, OnOk};
ghost use Rattle.etp_items.specs.Bodies.{proof_of};
ghost use Rattle.etp_gen.specs.Scripts.{file_name, written_file, IsScript};

use crate::generator::Generator;
use etp_items::{Body, body_text};
use etp_laws::Laws;
use etp_proof::Proof;
use etp_term::NoMemory;
use etp_text::Text;
use std::alloc::Global;

/// Appends the name of file k: `g` and the number.
pub fn append_file_name(text: &mut Text, k: u32) -> Result<(), NoMemory>
    ensures { OnOk result (text.new ≡ text.old ++ file_name k) }
{
    text.append(b"g")?;
    text.append_number(u64::from(k))
}

/// Appends file k as the lines of a session.
fn append_file(alloc: Global, text: &mut Text, k: u32, file: Proof) -> Result<(), NoMemory>
    ensures { OnOk result (text.new ≡ text.old ++ written_file k (proof_of file)) }
{
    let body = Body::Proof(file);
    let lines = body_text(alloc, &body)?;
    text.append(b"file ")?;
    append_file_name(text, k)?;
    text.append(b"\n")?;
    text.append(lines.as_slice())?;
    text.append(b"end\n")
}

/// The script of so many files from a seed, which is the same text at each call: the input of a
/// session that takes the files in order and then answers `counts`.
pub fn generate(alloc: Global, laws: &Laws, count: u32, seed: u32) -> Result<Text, NoMemory>
    ensures { IfOk result (λ text. IsScript laws.now.equations count seed text) }
{
    let mut generator = Generator::start(seed);
    let mut text = Text::empty(alloc);
    for k in 0..count {
        let file = generator.next_file(alloc, laws)?;
        append_file(alloc, &mut text, k + 1, file)?;
    }
    text.append(b"counts\n")?;
    Ok(text)
}
