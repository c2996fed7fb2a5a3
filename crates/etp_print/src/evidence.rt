// The lines of evidence.
ghost use Rattle.std.specs.Prelude.{◌≡◌, ◌≤◌, ◌++◌, IfOk, OnOk};
ghost use Rattle.etp_term.specs.Terms.{tree_of};
ghost use Rattle.etp_print.specs.EvidenceTexts.{file_text, edge_line, cover_line, table_failure, linear_failure, matrix_failure, rules_failure};

use crate::linear::append_failure;
use crate::matrix::{append_unit_vector, append_vectors};
use crate::refusal::append_with;
use crate::rules::append_with_term;
use crate::table::{append_point, append_sides};
use etp_chain::{Cover, Edge};
use etp_linear::LinearFailure;
use etp_matrix::MatrixFailure;
use etp_table::Point;
use etp_term::Term;
use etp_text::Text;
use std::alloc::{AllocError, Global};

// Appends the name of a file, and whether the dual of what it says is meant.
fn append_file(text: &mut Text, name: &[u8], dual: bool) -> Result<(), AllocError>
    ensures { OnOk result (text.new ≡ text.old ++ file_text name.now dual) }
{
    text.append(b" ")?;
    text.append(name)?;
    if dual { text.append(b" dual") } else { Ok(()) }
}

/// Appends the line of an edge by the file of this name, without the newline.
pub fn append_edge(text: &mut Text, edge: &Edge, name: &[u8]) -> Result<(), AllocError>
    ensures { OnOk result (text.new ≡ text.old ++ edge_line edge.now name.now) }
{
    text.append_number(u64::from(edge.hypothesis))?;
    append_with(text, b" -> ", edge.goal)?;
    append_file(text, name, edge.dual)
}

/// Appends the line of a cover by the file of this name, without the newline.
pub fn append_cover(text: &mut Text, cover: &Cover, name: &[u8]) -> Result<(), AllocError>
    ensures { OnOk result (text.new ≡ text.old ++ cover_line cover.now name.now) }
{
    append_with(text, b"holds ", cover.holds)?;
    append_with(text, b" fails ", cover.fails)?;
    append_file(text, name, cover.dual)
}

/// The line of an edge by the file of this name, without the newline.
pub fn edge_text(alloc: Global, edge: &Edge, name: &[u8]) -> Result<Text, AllocError>
    ensures { IfOk result (λ text. text ≡ edge_line edge.now name.now) }
{
    let mut text = Text::empty(alloc);
    append_edge(&mut text, edge, name)?;
    Ok(text)
}

/// The line of a cover by the file of this name, without the newline.
pub fn cover_text(alloc: Global, cover: &Cover, name: &[u8]) -> Result<Text, AllocError>
    ensures { IfOk result (λ text. text ≡ cover_line cover.now name.now) }
{
    let mut text = Text::empty(alloc);
    append_cover(&mut text, cover, name)?;
    Ok(text)
}

/// Appends where a law fails in a table, without the newline.
pub fn append_table_failure(
    text: &mut Text,
    law: u32,
    point: &Point,
    left: u8,
    right: u8,
) -> Result<(), AllocError>
    ensures { OnOk result (text.new ≡ text.old ++ table_failure law point.now left right) }
{
    append_with(text, b"fails ", law)?;
    append_point(text, point)?;
    append_sides(text, left, right)
}

/// Appends where a law fails in a linear magma, without the newline.
pub fn append_linear_failure(
    text: &mut Text,
    law: u32,
    failure: &LinearFailure,
) -> Result<(), AllocError>
    ensures { OnOk result (text.new ≡ text.old ++ linear_failure law failure.now) }
{
    append_with(text, b"fails ", law)?;
    append_failure(text, failure)
}

/// Appends where a law fails in a matrix-linear magma over vectors of `size` numbers, without the
/// newline.
pub fn append_matrix_failure(
    text: &mut Text,
    law: u32,
    size: u8,
    failure: &MatrixFailure,
) -> Result<(), AllocError>
    requires { size ≤ 4 }
    ensures { OnOk result (text.new ≡ text.old ++ matrix_failure law size failure.now) }
{
    append_with(text, b"fails ", law)?;
    append_unit_vector(text, failure.at)?;
    append_vectors(text, size, failure)
}

/// Appends the normal forms of the sides of a law that fails in a rule system, without the newline.
pub fn append_rules_failure(
    text: &mut Text,
    law: u32,
    left_form: &Term,
    right_form: &Term,
) -> Result<(), AllocError>
    ensures { OnOk result (text.new ≡ text.old
        ++ rules_failure law (tree_of left_form.now) (tree_of right_form.now)) }
{
    append_with(text, b"fails ", law)?;
    append_with_term(text, b" left ", left_form)?;
    append_with_term(text, b" right ", right_form)
}
