// The body of a file from its text, line by line.
ghost use Rattle.std.specs.Prelude.{◌≡◌, ◌≤◌, ◌<◌, ◌++◌, ◌∷◌, [], ℕ, List, length, IfOk, OnOk, IfSome, MatchOption, true};
ghost use Rattle.etp_io.specs.Parts.{FirstNewline};
ghost use Rattle.etp_io.specs.Texts.{LineText, text_of, lines_of, NoNewline};
ghost use Rattle.etp_reading.specs.Reading.{given_text};
ghost use Rattle.etp_items.specs.Bodies.{FileBody, body_of, proof, proof_of};
ghost use Rattle.etp_items.specs.Reading.{IsReadBody};
ghost use Rattle.etp_items.specs.Work.{HasRead};
ghost use Rattle.etp_gen.specs.Files.{IsGenerated};

use etp_items::{Body, BodyReader, body_text};
use etp_laws::Laws;
use etp_proof::Proof;
use etp_term::NoMemory;
use std::alloc::Global;

const NEWLINE: u8 = b'\n';

const RETURN: u8 = b'\r';

/// The most bytes of a line.
const LINE: usize = 4096;

// The place of the first newline.
fn find_newline(bytes: &[u8]) -> Option<usize>
    ensures { MatchOption result (NoNewline bytes.now) (λ place. FirstNewline bytes.now place) }
{
    for (place, byte) in bytes.iter().enumerate() {
        if *byte == NEWLINE {
            return Some(place);
        }
    }
    None
}

// The first line of bytes, and what stands behind it.
fn cut_line(bytes: &[u8]) -> (&[u8], &[u8])
    requires { 0 < length bytes.now }
    ensures lines { lines_of bytes.now ≡ text_of 4096 result.0.now ∷ lines_of result.1.now }
    ensures shorter { length result.1.now < length bytes.now }
{
    match find_newline(bytes) {
        None => (bytes, &bytes[bytes.len()..]),
        Some(place) => (&bytes[..place], &bytes[place + 1..]),
    }
}

// The line as it is read: without a carriage return at its end, and None where it is too long.
fn given_line(line: &[u8]) -> Option<&[u8]>
    ensures text { given_text result ≡ text_of 4096 line.now }
    ensures short { IfSome result (λ given. length given.now ≤ 4096) }
{
    if line.len() > LINE {
        return None;
    }
    let Some((last, before)) = line.split_last() else {
        return Some(line);
    };
    if *last == RETURN {
        Some(before)
    } else {
        Some(line)
    }
}

// Pushes all lines of a text.
fn push_lines(reader: &mut BodyReader, text: &[u8]) -> Result<(), NoMemory>
    ensures read { OnOk result (HasRead reader.old []
        → HasRead reader.new (lines_of text.now)) }
    ensures count { OnOk result (reader.new.tally.count ≡ reader.old.tally.count) }
{
    let mut rest = text;
    while !rest.is_empty() {
        let (line, behind) = cut_line(rest);
        reader.push(given_line(line))?;
        rest = behind;
    }
    Ok(())
}

// The body that the lines of a text are.
fn read_body(alloc: Global, count: u32, text: &[u8]) -> Result<Body, NoMemory>
    requires { (body : FileBody) × IsReadBody count (lines_of text.now) true body }
    ensures { IfOk result (λ body.
        IsReadBody count (lines_of text.now) true (body_of body)) }
{
    let mut reader = BodyReader::start(alloc, count)?;
    push_lines(&mut reader, text)?;
    match reader.finish(true) {
        Ok(body) => Ok(body),
        Err(_) => unreachable!(),
    }
}

/// The body of a generated file, which is written and read line by line.
pub(crate) fn read_again(alloc: Global, laws: &Laws, file: Proof) -> Result<Body, NoMemory>
    requires { (s : ℕ) × (after : ℕ) × IsGenerated laws.now.equations s (proof_of file) after }
    ensures { IfOk result (λ body. body_of body ≡ proof (proof_of file)) }
{
    let _order = laws.order();
    let count = laws.count();
    let written = Body::Proof(file);
    let text = body_text(alloc, &written)?;
    read_body(alloc, count, text.as_slice())
}
