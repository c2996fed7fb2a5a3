// Replies that show the files that stand.
ghost use Rattle.std.specs.Prelude.{◌≡◌, ◌++◌, ◌∷◌, [], IfOk, OnOk, codes};
ghost use Rattle.etp_items.specs.Bodies.{body_of, claims_of};
ghost use Rattle.etp_print.specs.Texts.{answered};
ghost use Rattle.etp_print.specs.Given.{Gives};
ghost use Rattle.etp_show.specs.FileLists.{files_text, kind_text, counts_text};

use etp_items::{Body, Claims};
use etp_ledger::Ledger;
use etp_text::Text;
use std::alloc::AllocError;

// How many laws are to hold, and how many are to fail.
fn append_counts(text: &mut Text, claims: &Claims) -> Result<(), AllocError>
    ensures { OnOk result (text.new ≡ text.old ++ counts_text (claims_of claims.now)) }
{
    text.append_number(u64::from(claims.holds.len()))?;
    text.append(b" ")?;
    text.append_number(u64::from(claims.fails.len()))
}

fn append_kind(text: &mut Text, body: &Body) -> Result<(), AllocError>
    ensures { OnOk result (text.new ≡ text.old ++ kind_text (body_of body.now)) }
{
    match body {
        Body::Proof(proof) => {
            text.append(b"proof ")?;
            text.append_number(u64::from(proof.hypothesis))?;
            text.append(b" ")?;
            text.append_number(u64::from(proof.goal))
        }
        Body::Table(table) => {
            text.append(b"table ")?;
            append_counts(text, &table.claims)
        }
        Body::Linear(linear) => {
            text.append(b"linear ")?;
            append_counts(text, &linear.claims)
        }
        Body::Matrix(matrix) => {
            text.append(b"matrix ")?;
            append_counts(text, &matrix.claims)
        }
        Body::Rules(rules) => {
            text.append(b"rules ")?;
            append_counts(text, &rules.claims)
        }
    }
}

// Appends the line of a file.
fn append_file(text: &mut Text, name: &[u8], body: &Body) -> Result<(), AllocError>
    ensures { OnOk result (text.new ≡ text.old
        ++ (name.now ++ codes " " ++ kind_text (body_of body.now) ++ 10 ∷ [])) }
{
    text.append(name)?;
    text.append(b" ")?;
    append_kind(text, body)?;
    text.append(b"\n")
}

/// Writes a line for each file that stands, and how many there are.
pub fn answer_files(text: &mut Text, ledger: &Ledger, line: u64) -> Result<bool, AllocError>
    requires { text.old ≡ [] }
    ensures { IfOk result (λ refusal.
        Gives line text.new refusal (λ reply. reply ≡ answered (files_text ledger.now.files))) }
{
    let count = ledger.count();
    'files: for at in 0..count {
        let Some((name, body, _)) = ledger.file(at) else {
            unreachable!()
        };
        append_file(text, name, body)?;
    }
    text.append(b"files ")?;
    text.append_number(u64::from(count))?;
    text.append(b"\n")?;
    Ok(false)
}
