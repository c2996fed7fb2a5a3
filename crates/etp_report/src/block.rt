ghost use Rattle.std.specs.Prelude.{◌≡◌, ◌≤◌, ◌<◌, ◌+◌, ◌-◌, ◌^◌, ◌++◌, ◌∷◌, [], ℕ, List, IfOk, IfErr, OnOk, IsTrue, ◌↔◌, codes, decimal, false, length, map};
ghost use Rattle.std.specs.List.{range_with_len, list_any};
ghost use Rattle.csv.specs.Records.{fields_of, partial_of};
ghost use Rattle.csv.specs.Writing as Csv;
ghost use Rattle.etp_theory.specs.LawNumbers.{IsLaw};
ghost use Rattle.etp_theory.specs.Reach.{Fact};
ghost use Rattle.etp_closure.specs.Closures.{StandsFor};
ghost use Rattle.etp_closure.specs.Answers.{answer_of, Says};
ghost use Rattle.etp_report.specs.Blocks.{answer_text, record_line, head_line, answers_line, lines_of, block_text, IsBlock, IsBlockRefused};

use crate::refusal::ReportRefusal;
use csv::{ByteRecord, Writer, WriterBuilder};
use etp_closure::{Answer, Closure};
use etp_text::Text;
use itoa::Buffer;
use std::alloc::{AllocError, Global};

/// The word of an answer.
pub fn answer_word(answer: Answer) -> &'static str
    ensures { result.now ≡ answer_text answer }
{
    match answer {
        Answer::Implied => "implied",
        Answer::Refuted => "refuted",
        Answer::Unsettled => "open",
    }
}

fn is_block(size: u32, first: u32, last: u32) -> bool
    ensures { IsTrue result ↔ IsBlock size first last }
{
    0 < first && first <= last && last <= size && last - first < 200
}

// Appends a number to the fields of a record.
fn push_number(row: &mut ByteRecord, number: u32) -> Result<(), AllocError>
    requires { partial_of row.old ≡ [] }
    ensures fields { OnOk result (fields_of row.new ≡ fields_of row.old ++ decimal number ∷ []) }
    ensures no_part { OnOk result (partial_of row.new ≡ []) }
{
    let mut digits = Buffer::new();
    row.push_field(digits.format(number).as_bytes())?;
    Ok(())
}

// Fills a record with the numbers of so many laws.
fn fill_head(row: &mut ByteRecord, first: u32, count: u32) -> Result<(), AllocError>
    requires few { first + count ≤ 2 ^ 32 }
    ensures { OnOk result (fields_of row.new
        ≡ codes "law" ∷ map decimal (range_with_len first count)) }
{
    row.clear();
    row.push_field(b"law")?;
    for place in 0..count {
        push_number(row, first + place)?;
    }
    Ok(())
}

// Fills a record with a law and its answers to so many laws.
fn fill_answers(
    row: &mut ByteRecord,
    closure: &Closure,
    e: u32,
    first: u32,
    count: u32,
) -> Result<(), AllocError>
    requires e_in { IsLaw (length closure.now.duals) e }
    requires from_one { 1 ≤ first }
    requires to_last { first + count ≤ length closure.now.duals + 1 }
    requires few { first + count ≤ 2 ^ 32 }
    ensures { OnOk result (fields_of row.new ≡ decimal e
        ∷ map (λ f. answer_text (answer_of closure.now e f)) (range_with_len first count)) }
{
    row.clear();
    push_number(row, e)?;
    for place in 0..count {
        let answer = closure.answer(e, first + place);
        row.push_field(answer_word(answer).as_bytes())?;
    }
    Ok(())
}

// Writes a record of two fields at least, none of which needs quotes.
fn write_record(writer: &mut Writer<Vec<u8>>, row: &ByteRecord) -> Result<(), AllocError>
    requires setup { Csv.writer_setup writer.old ≡ Csv.default_writer }
    requires fresh { Csv.fields_written writer.old ≡ 0 }
    requires blank { Csv.has_written writer.old ≡ false }
    requires many { 1 < length (fields_of row.now) }
    requires plain { list_any (Csv.needs_quotes Csv.default_writer) (fields_of row.now) ≡ false }
    ensures setup { OnOk result (Csv.writer_setup writer.new ≡ Csv.default_writer) }
    ensures fresh { OnOk result (Csv.fields_written writer.new ≡ 0) }
    ensures blank { OnOk result (Csv.has_written writer.new ≡ false) }
    ensures text { OnOk result ((Csv.writer_under writer.new).items ++ Csv.writer_pending writer.new
        ≡ ((Csv.writer_under writer.old).items ++ Csv.writer_pending writer.old)
        ++ record_line (fields_of row.now)) }
{
    let Ok(()) = writer.write_byte_record(row) else {
        return Err(AllocError);
    };
    Ok(())
}

// Writes the record of the numbers of so many laws.
fn write_head(
    writer: &mut Writer<Vec<u8>>,
    row: &mut ByteRecord,
    first: u32,
    count: u32,
) -> Result<(), AllocError>
    requires setup { Csv.writer_setup writer.old ≡ Csv.default_writer }
    requires fresh { Csv.fields_written writer.old ≡ 0 }
    requires blank { Csv.has_written writer.old ≡ false }
    requires some { 0 < count }
    requires few { first + count ≤ 2 ^ 32 }
    ensures setup { OnOk result (Csv.writer_setup writer.new ≡ Csv.default_writer) }
    ensures fresh { OnOk result (Csv.fields_written writer.new ≡ 0) }
    ensures blank { OnOk result (Csv.has_written writer.new ≡ false) }
    ensures text { OnOk result ((Csv.writer_under writer.new).items ++ Csv.writer_pending writer.new
        ≡ ((Csv.writer_under writer.old).items ++ Csv.writer_pending writer.old)
        ++ head_line first count) }
{
    fill_head(row, first, count)?;
    write_record(writer, row)?;
    Ok(())
}

// Writes the record of a law and its answers to so many laws.
fn write_answers(
    writer: &mut Writer<Vec<u8>>,
    row: &mut ByteRecord,
    closure: &Closure,
    e: u32,
    first: u32,
    count: u32,
) -> Result<(), AllocError>
    requires setup { Csv.writer_setup writer.old ≡ Csv.default_writer }
    requires fresh { Csv.fields_written writer.old ≡ 0 }
    requires blank { Csv.has_written writer.old ≡ false }
    requires some { 0 < count }
    requires e_in { IsLaw (length closure.now.duals) e }
    requires from_one { 1 ≤ first }
    requires to_last { first + count ≤ length closure.now.duals + 1 }
    requires few { first + count ≤ 2 ^ 32 }
    ensures setup { OnOk result (Csv.writer_setup writer.new ≡ Csv.default_writer) }
    ensures fresh { OnOk result (Csv.fields_written writer.new ≡ 0) }
    ensures blank { OnOk result (Csv.has_written writer.new ≡ false) }
    ensures text { OnOk result ((Csv.writer_under writer.new).items ++ Csv.writer_pending writer.new
        ≡ ((Csv.writer_under writer.old).items ++ Csv.writer_pending writer.old)
        ++ answers_line (answer_of closure.now) first count e) }
{
    fill_answers(row, closure, e, first, count)?;
    write_record(writer, row)?;
    Ok(())
}

// Writes the numbers of so many laws, and for each of them its answers to all of them.
fn write_lines(
    alloc: Global,
    closure: &Closure,
    first: u32,
    count: u32,
) -> Result<Vec<u8>, AllocError>
    requires some { 0 < count }
    requires from_one { 1 ≤ first }
    requires to_last { first + count ≤ length closure.now.duals + 1 }
    requires few { first + count ≤ 2 ^ 32 }
    ensures { IfOk result (λ bytes. bytes.items ≡ lines_of (answer_of closure.now) first count) }
{
    let mut row = ByteRecord::new(alloc);
    let mut writer = WriterBuilder::new().from_writer(Vec::new(alloc));
    write_head(&mut writer, &mut row, first, count)?;
    for place in 0..count {
        write_answers(&mut writer, &mut row, closure, first + place, first, count)?;
    }
    match writer.into_inner() {
        Ok(bytes) => Ok(bytes),
        Err(_) => Err(AllocError),
    }
}

/// Writes the answers among the laws from the first to the last as comma-separated values: a record
/// of their numbers, and for each of them a record of its answers to all of them.
pub fn csv_block(
    alloc: Global,
    closure: &Closure,
    first: u32,
    last: u32,
) -> Result<Text, ReportRefusal>
    ensures text { IfOk result (λ text. text ≡ block_text (answer_of closure.now) first last) }
    ensures block { OnOk result (IsBlock (length closure.now.duals) first last) }
    ensures err { IfErr result (λ r. IsBlockRefused (length closure.now.duals) first last r) }
    ensures says { OnOk result ((facts : List Fact) → StandsFor closure.now facts → (e f : ℕ)
        → Says closure.now.duals facts e f (answer_of closure.now e f)) }
{
    if !is_block(closure.size(), first, last) {
        return Err(ReportRefusal::Block { first, last });
    }
    let count = last - first + 1;
    let bytes = write_lines(alloc, closure, first, count)?;
    let mut text = Text::empty(alloc);
    text.append(bytes.as_slice())?;
    Ok(text)
}
