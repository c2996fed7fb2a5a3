// The text of a proof.
ghost use Rattle.std.specs.Prelude.{◌≡◌, ◌++◌, ◌∷◌, [], codes, map, OnOk, IfOk};
ghost use Rattle.std.specs.List.{list_any};
ghost use Rattle.etp_term.specs.Positions as Positions;
ghost use Rattle.etp_term.specs.Positions.{position_of};
ghost use Rattle.etp_proof.specs.Lemmas.{step_of, lemma_of};
ghost use Rattle.etp_items.specs.Bodies as Bodies;
ghost use Rattle.etp_items.specs.Bodies.{proof_of};
ghost use Rattle.etp_lines.specs.ProofLines as Lines;
ghost use Rattle.etp_lines.specs.ProofLines.{heading, cite};
ghost use Rattle.etp_lines.specs.Said.{version_of};
ghost use Rattle.etp_items.specs.Reading.{lemma_lines};
ghost use Rattle.etp_items.specs.Written.{reference_word, direction_word, side_letter, position_word, spaced, written_proof_lines, is_citing, version_for, written_body};

use etp_lines::Version;
use etp_proof::{Label, Lemma, Proof, Step};
use etp_term::{NoMemory, Side};
use etp_text::Text;
use std::alloc::Global;

/// The lines of a proof as they are written. One without cites and steps by a cite is written as
/// `proof`.
pub(crate) fn proof_text(alloc: Global, proof: &Proof) -> Result<Text, NoMemory>
    ensures { IfOk result (λ text. text ≡ written_body (Bodies.proof (proof_of proof.now))) }
{
    let mut text = Text::empty(alloc);
    append_heading(&mut text, proof)?;
    append_cites(&mut text, proof.cites.as_slice())?;
    append_lemmas(&mut text, proof.lemmas.as_slice())?;
    Ok(text)
}

/// Whether a step is one by a cite.
fn any_cited(steps: &[Step]) -> bool
    ensures { result ≡ list_any (λ x. x.cited) steps.now }
{
    steps.iter().any(|step| step.cited)
}

/// Whether a lemma has a step by a cite.
fn any_by_cite(lemmas: &[Lemma]) -> bool
    ensures { result ≡ list_any (λ l. list_any (λ x. x.cited) l.steps) lemmas.now }
{
    lemmas.iter().any(|lemma| any_cited(lemma.steps.as_slice()))
}

/// Whether a proof has a cite or a step by one.
fn is_citing(proof: &Proof) -> bool
    ensures { result ≡ is_citing (proof_of proof.now) }
{
    if proof.cites.len() > 0 {
        return true;
    }
    any_by_cite(proof.lemmas.as_slice())
}

/// The version that a proof is written in.
fn version(proof: &Proof) -> Version
    ensures { version_of result ≡ version_for (proof_of proof.now) }
{
    if is_citing(proof) {
        Version::Citing
    } else {
        Version::Plain
    }
}

fn append_heading(text: &mut Text, proof: &Proof) -> Result<(), NoMemory>
    ensures { OnOk result (text.new ≡ text.old ++ written_proof_lines
        (heading (version_for (proof_of proof.now)) proof.now.hypothesis proof.now.goal ∷ [])) }
{
    text.append(match version(proof) {
        Version::Plain => b"proof",
        Version::Citing => b"proof2",
    })?;
    text.append(b" ")?;
    text.append_number(u64::from(proof.hypothesis))?;
    text.append(b" ")?;
    text.append_number(u64::from(proof.goal))?;
    text.append(b"\n")
}

fn append_cites(text: &mut Text, cites: &[Label]) -> Result<(), NoMemory>
    ensures { OnOk result (text.new ≡ text.old ++ written_proof_lines (map cite cites.now)) }
{
    for name in cites {
        append_cite(text, name)?;
    }
    Ok(())
}

fn append_cite(text: &mut Text, name: &Label) -> Result<(), NoMemory>
    ensures { OnOk result (text.new ≡ text.old ++ written_proof_lines (cite name.now ∷ [])) }
{
    text.append(b"cite ")?;
    text.append(name.as_slice())?;
    text.append(b"\n")
}

fn append_lemmas(text: &mut Text, lemmas: &[Lemma]) -> Result<(), NoMemory>
    ensures { OnOk result (text.new ≡ text.old
        ++ written_proof_lines (lemma_lines (map lemma_of lemmas.now))) }
{
    for lemma in lemmas {
        append_lemma(text, lemma)?;
    }
    Ok(())
}

fn append_lemma(text: &mut Text, lemma: &Lemma) -> Result<(), NoMemory>
    ensures { OnOk result (text.new ≡ text.old
        ++ written_proof_lines (lemma_lines (lemma_of lemma.now ∷ []))) }
{
    append_start(text, lemma)?;
    append_steps(text, lemma.steps.as_slice())
}

fn append_start(text: &mut Text, lemma: &Lemma) -> Result<(), NoMemory>
    ensures { OnOk result (text.new ≡ text.old
        ++ written_proof_lines (Lines.lemma (lemma_of lemma.now).start ∷ [])) }
{
    text.append(b"lemma ")?;
    text.append_term(&lemma.start)?;
    text.append(b"\n")
}

fn append_steps(text: &mut Text, steps: &[Step]) -> Result<(), NoMemory>
    ensures { OnOk result (text.new ≡ text.old
        ++ written_proof_lines (map Lines.step (map step_of steps.now))) }
{
    for step in steps {
        append_step(text, step)?;
    }
    Ok(())
}

fn append_step(text: &mut Text, step: &Step) -> Result<(), NoMemory>
    ensures { OnOk result (text.new ≡ text.old
        ++ written_proof_lines (Lines.step (step_of step.now) ∷ [])) }
{
    append_step_words(text, step)?;
    text.append_term(&step.to)?;
    text.append(b"\n")
}

/// Appends what stands before the term of a step.
fn append_step_words(text: &mut Text, step: &Step) -> Result<(), NoMemory>
    ensures { OnOk result (text.new ≡ text.old
        ++ spaced (codes "step" ∷ reference_word (step_of step.now)
        ∷ direction_word step.now.reversed
        ∷ position_word (position_of step.now.position) ∷ [] ∷ [])) }
{
    text.append(b"step ")?;
    append_reference(text, step)?;
    text.append(direction(step.reversed))?;
    append_position(text, step.position.as_slice())?;
    text.append(b" ")
}

/// The sign of a step's direction, with a space on each side.
fn direction(reversed: bool) -> &'static [u8]
    ensures { result.now ≡ 32 ∷ (direction_word reversed ++ 32 ∷ []) }
{
    if reversed { b" < " } else { b" > " }
}

fn append_reference(text: &mut Text, step: &Step) -> Result<(), NoMemory>
    ensures { OnOk result (text.new ≡ text.old ++ reference_word (step_of step.now)) }
{
    if step.cited {
        text.append(b"c")?;
    }
    text.append_number(u64::from(step.line))
}

fn append_position(text: &mut Text, sides: &[Side]) -> Result<(), NoMemory>
    ensures { OnOk result (text.new ≡ text.old ++ position_word (position_of sides.now)) }
{
    if sides.is_empty() {
        return text.append(b".");
    }
    append_sides(text, sides)
}

fn append_sides(text: &mut Text, sides: &[Side]) -> Result<(), NoMemory>
    ensures { OnOk result (text.new ≡ text.old ++ map side_letter (position_of sides.now)) }
{
    for side in sides {
        text.append(letter(*side))?;
    }
    Ok(())
}

fn letter(side: Side) -> &'static [u8]
    ensures { result.now ≡ side_letter (Positions.side_of side) ∷ [] }
{
    match side {
        Side::L => b"l",
        Side::R => b"r",
    }
}
