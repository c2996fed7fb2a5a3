// What the first line that isn't blank begins.
ghost use Rattle.std.specs.Prelude.{◌≡◌, ◌∷◌, ℕ, List, true, false};
ghost use Rattle.etp_io.specs.Texts.{whole};
ghost use Rattle.etp_words.specs.Words.{words_of, IsBlankLine};
ghost use Rattle.etp_reading.specs.Reading.{given_text};
ghost use Rattle.etp_finite_body.specs.Work.{BeginsAs};

use etp_lines::is_blank_line;
use etp_words::behind;

/// What the first line that isn't blank begins.
#[derive(Clone, Copy)]
pub(crate) enum First {
    /// No line has been read but blank ones.
    Blank,
    /// A rule system, or a linear magma over the integers.
    Infinite,
    /// A table, or a linear magma over anything else.
    Model,
    /// Anything else; it may be a proof.
    Proof,
}

/// What a line begins; None is one of more than 4096 bytes.
pub(crate) fn begun(line: Option<&[u8]>) -> First
    ensures { BeginsAs result (given_text line.entry) }
{
    let Some(line) = line else {
        return First::Proof;
    };
    if is_blank_line(line) {
        return First::Blank;
    }
    begun_by(line)
}

/// What a line that isn't blank begins.
fn begun_by(line: &[u8]) -> First
    requires { IsBlankLine line.now → ⊥ }
    ensures { BeginsAs result (whole line.now) }
{
    if begins(line, "rules") {
        return First::Infinite;
    }
    if begins(line, "table") {
        return First::Model;
    }
    let Some(rest) = behind(line, "linear") else {
        return First::Proof;
    };
    if begins(rest, "int") {
        return First::Infinite;
    }
    First::Model
}

/// Whether the first word is this one.
fn begins(line: &[u8], name: &str) -> bool
    ensures yes { result ≡ true → (more : List (List ℕ)) × (words_of line.now ≡ name.now ∷ more) }
    ensures no { result ≡ false → (more : List (List ℕ)) → words_of line.now ≡ name.now ∷ more → ⊥ }
{
    match behind(line, name) {
        Some(_) => true,
        None => false,
    }
}
