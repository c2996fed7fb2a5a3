// The lines of a path.
ghost use Rattle.std.specs.Prelude.{◌≡◌, ◌++◌, OnOk};
ghost use Rattle.etp_evidence.specs.WhyReplies.{name_at, edge_lines};

use etp_chain::Path;
use etp_ledger::Ledger;
use etp_print::append_edge;
use etp_text::Text;
use std::alloc::AllocError;

/// The name of the file at a place, counted from 0.
pub(crate) fn name_at(ledger: &Ledger, at: u32) -> &[u8]
    ensures { result.now ≡ name_at ledger.now.files at }
{
    match ledger.file(at) {
        Some((name, _, _)) => name,
        None => &[],
    }
}

/// Appends a line for each edge of a path.
pub(crate) fn append_path(text: &mut Text, ledger: &Ledger, path: &Path) -> Result<(), AllocError>
    ensures { OnOk result (text.new ≡ text.old ++ edge_lines ledger.now.files path.now) }
{
    'edges: for at in 0..path.len() {
        let Some(edge) = path.get(at) else {
            unreachable!()
        };
        append_edge(text, edge, name_at(ledger, edge.file))?;
        text.append(b"\n")?;
    }
    Ok(())
}
