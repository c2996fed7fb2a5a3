// What a line of a proof says.
ghost use Rattle.std.specs.Prelude.{◌≡◌, ◌≤◌, ℕ, List, false, length, IfOk, IfSome, MatchOption};
ghost use Rattle.std.specs.Option.{option_map};
ghost use Rattle.etp_theory.specs.Trees.{Tree};
ghost use Rattle.etp_theory.specs.Proofs.{ProofStep};
ghost use Rattle.etp_term.specs.Terms.{tree_of};
ghost use Rattle.etp_term.specs.Positions.{position_of};
ghost use Rattle.etp_term.specs.Positions as Program;
ghost use Rattle.etp_proof.specs.Lemmas.{step_of};
ghost use Rattle.etp_reading.specs.Tallies.{HasFirst};
ghost use Rattle.etp_lines.specs.ProofLines as Lines;
ghost use Rattle.etp_lines.specs.ProofLines.{SaysProofLine, numbers_of_proof_line, version_word, reference_of, reversed_of, side_of, sides_of, position_named, SaysHeading, SaysCite, SaysLemma, SaysStep};
ghost use Rattle.etp_lines.specs.Said.{version_of, named_by, proof_line_of, HasStepWords};

use crate::sides::read_side;
use etp_proof::{Label, Step};
use etp_reading::Tally;
use etp_term::{NoMemory, Position, Side, Term};
use etp_words::{behind, is, next_word, number_word};
use std::alloc::Global;

/// The two forms of a proof: one by its own lemmas, and one that may cite files.
#[derive(Clone, Copy, Debug, PartialEq, Eq)]
pub enum Version {
    Plain,
    Citing,
}

/// The first line of a proof.
#[derive(Clone, Copy)]
pub struct Heading {
    pub version: Version,
    pub hypothesis: u32,
    pub goal: u32,
}

/// What a line of a proof says.
#[derive(Drop)]
pub enum ProofLine {
    Heading(Heading),
    Cite(Label),
    Lemma(Term),
    Step(Step),
}

impl ProofLine {
    /// The first law number of the line that isn't listed.
    pub fn first_unlisted(&self, tally: &Tally) -> Option<u32>
        ensures { HasFirst tally.now.count (numbers_of_proof_line (proof_line_of self.now)) result }
    {
        match self {
            ProofLine::Heading(heading) => tally.first_of(&[heading.hypothesis, heading.goal]),
            ProofLine::Cite(_) | ProofLine::Lemma(_) | ProofLine::Step(_) => None,
        }
    }
}

/// The number of a line, or of a cite.
#[derive(Clone, Copy)]
struct Reference {
    line: u32,
    cited: bool,
}

fn version_named(word: &[u8]) -> Option<Version>
    ensures { MatchOption result ((v : Lines.Version) → word.now ≡ version_word v → ⊥)
        (λ v. word.now ≡ version_word (version_of v)) }
{
    if is(word, "proof") {
        return Some(Version::Plain);
    }
    if is(word, "proof2") {
        return Some(Version::Citing);
    }
    None
}

/// The line as the first one of a proof.
fn heading_line(line: &[u8]) -> Option<Heading>
    ensures { MatchOption result ((v : Lines.Version) (e f : ℕ) → SaysHeading line.now v e f → ⊥)
        (λ h. SaysHeading line.now (version_of h.version) h.hypothesis h.goal) }
{
    let (word, rest) = next_word(line)?;
    let version = version_named(word)?;
    let (hypothesis, rest) = next_word(rest)?;
    let (goal, rest) = next_word(rest)?;
    if next_word(rest).is_some() {
        return None;
    }
    let hypothesis = number_word(hypothesis)?;
    let goal = number_word(goal)?;
    Some(Heading {
        version,
        hypothesis,
        goal,
    })
}

/// The name that the line cites.
fn cite_line(alloc: Global, line: &[u8]) -> Result<Option<Label>, NoMemory>
    ensures { IfOk result (λ o. MatchOption o ((name : List ℕ) → SaysCite line.now name → ⊥)
        (SaysCite line.now)) }
{
    let Some(rest) = behind(line, "cite") else {
        return Ok(None);
    };
    let Some((name, rest)) = next_word(rest) else {
        return Ok(None);
    };
    if next_word(rest).is_some() {
        return Ok(None);
    }
    Label::of(alloc, name)
}

/// The start of the lemma that a line begins: the word `lemma` and a term of at most 255 leaves.
/// None where the line is no such line.
pub fn lemma_line(alloc: Global, line: &[u8]) -> Result<Option<Term>, NoMemory>
    requires { length line.now ≤ 4096 }
    ensures { IfOk result (λ o. MatchOption o ((t : Tree) → SaysLemma line.now t → ⊥)
        (λ t. SaysLemma line.now (tree_of t))) }
{
    let Some(rest) = behind(line, "lemma") else {
        return Ok(None);
    };
    read_side(alloc, rest)
}

/// The number of a line, or `c` and directly behind it the number of a cite.
fn reference_of(word: &[u8]) -> Option<Reference>
    ensures { option_map named_by result ≡ reference_of word.now }
{
    match word {
        [b'c', number @ ..] => {
            let line = number_word(number)?;
            Some(Reference { line, cited: true })
        }
        _ => {
            let line = number_word(word)?;
            Some(Reference { line, cited: false })
        }
    }
}

/// Whether a step of this direction reads its equation from right to left.
fn reversed_of(word: &[u8]) -> Option<bool>
    ensures { result ≡ reversed_of word.now }
{
    if is(word, ">") {
        return Some(false);
    }
    if is(word, "<") {
        return Some(true);
    }
    None
}

fn side_of(letter: u8) -> Option<Side>
    ensures { option_map Program.side_of result ≡ side_of letter }
{
    match letter {
        b'l' => Some(Side::L),
        b'r' => Some(Side::R),
        _ => None,
    }
}

/// The position that the letters lead to from the root.
fn read_sides(alloc: Global, letters: &[u8]) -> Result<Option<Position>, NoMemory>
    requires { length letters.now ≤ 4096 }
    ensures { IfOk result (λ o. option_map position_of o ≡ sides_of letters.now) }
{
    let mut position = Position::root(alloc);
    for letter in letters {
        let Some(side) = side_of(*letter) else {
            return Ok(None);
        };
        position.push(side)?;
    }
    Ok(Some(position))
}

/// The position that the word names: `.`, or the letters of the sides.
fn read_position(alloc: Global, word: &[u8]) -> Result<Option<Position>, NoMemory>
    requires { length word.now ≤ 4096 }
    ensures { IfOk result (λ o. option_map position_of o ≡ position_named word.now) }
{
    if is(word, ".") {
        return Ok(Some(Position::root(alloc)));
    }
    read_sides(alloc, word)
}

/// The words of a step behind its first, and the text of its term.
#[derive(Clone, Copy)]
struct StepWords<'a> {
    reference: Reference,
    reversed: bool,
    position: &'a [u8],
    term: &'a [u8],
}

fn step_words(line: &[u8]) -> Option<StepWords<'_>>
    ensures words { MatchOption result ((x : ProofStep) → SaysStep line.now x → ⊥)
        (λ w. HasStepWords line.now w) }
    ensures position { IfSome result (λ w. length w.position.now ≤ length line.now) }
    ensures term { IfSome result (λ w. length w.term.now ≤ length line.now) }
{
    let rest = behind(line, "step")?;
    let (reference, rest) = next_word(rest)?;
    let (direction, rest) = next_word(rest)?;
    let (position, term) = next_word(rest)?;
    let reference = reference_of(reference)?;
    let reversed = reversed_of(direction)?;
    Some(StepWords {
        reference,
        reversed,
        position,
        term,
    })
}

/// The step that the line says, by a line of the proof or by a cite.
fn any_step_line(alloc: Global, line: &[u8]) -> Result<Option<Step>, NoMemory>
    requires { length line.now ≤ 4096 }
    ensures { IfOk result (λ o. MatchOption o ((x : ProofStep) → SaysStep line.now x → ⊥)
        (λ x. SaysStep line.now (step_of x))) }
{
    let Some(words) = step_words(line) else {
        return Ok(None);
    };
    let Some(position) = read_position(alloc, words.position)? else {
        return Ok(None);
    };
    let Some(to) = read_side(alloc, words.term)? else {
        return Ok(None);
    };
    Ok(Some(Step {
        to,
        line: words.reference.line,
        cited: words.reference.cited,
        reversed: words.reversed,
        position,
    }))
}

/// The step that a line says: the word `step`, the number of a line of the proof, `>` or `<`, a
/// position, and a term of at most 255 leaves. None where the line is no such line; a step by a
/// cite is none.
pub fn step_line(alloc: Global, line: &[u8]) -> Result<Option<Step>, NoMemory>
    requires { length line.now ≤ 4096 }
    ensures step { IfOk result (λ o.
        MatchOption o ((x : ProofStep) → SaysStep line.now x → x.cited ≡ false → ⊥)
        (λ x. SaysStep line.now (step_of x))) }
    ensures plain { IfOk result (λ o. IfSome o (λ x. x.cited ≡ false)) }
{
    let Some(step) = any_step_line(alloc, line)? else {
        return Ok(None);
    };
    if step.cited {
        return Ok(None);
    }
    Ok(Some(step))
}

/// What the line of a proof says; None where it says nothing.
pub(crate) fn read_proof_line(alloc: Global, line: &[u8]) -> Result<Option<ProofLine>, NoMemory>
    requires { length line.now ≤ 4096 }
    ensures { IfOk result (λ o. MatchOption o ((l : Lines.ProofLine) → SaysProofLine line.now l → ⊥)
        (λ l. SaysProofLine line.now (proof_line_of l))) }
{
    if let Some(step) = any_step_line(alloc, line)? {
        return Ok(Some(ProofLine::Step(step)));
    }
    if let Some(start) = lemma_line(alloc, line)? {
        return Ok(Some(ProofLine::Lemma(start)));
    }
    if let Some(name) = cite_line(alloc, line)? {
        return Ok(Some(ProofLine::Cite(name)));
    }
    match heading_line(line) {
        Some(heading) => Ok(Some(ProofLine::Heading(heading))),
        None => Ok(None),
    }
}
