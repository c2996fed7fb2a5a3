// Replies to queries.
ghost use Rattle.std.specs.Prelude.{◌≡◌, [], IfOk};
ghost use Rattle.etp_command.specs.Values.{query_from, IsQueryWithin};
ghost use Rattle.etp_print.specs.Given.{Gives};
ghost use Rattle.etp_desk.specs.Desks.{opened_of, Agrees};
ghost use Rattle.etp_reply.specs.Replies.{QueryReply};

use etp_command::Query;
use etp_desk::Opened;
use etp_evidence::answer_why;
use etp_profile::answer_profile;
use etp_show::{answer_dual, answer_files, answer_law, answer_ledger, answer_number};
use etp_survey::{
    answer_class, answer_classes, answer_counts, answer_csv, answer_pair, answer_row,
};
use etp_text::Text;
use std::alloc::{AllocError, Global};

/// Writes the reply to a query, and answers whether it is a refusal.
pub(crate) fn answer_query(
    alloc: Global,
    text: &mut Text,
    opened: &Opened,
    query: Query<'_>,
    line: u64,
) -> Result<bool, AllocError>
    requires empty { text.old ≡ [] }
    requires agrees { Agrees opened.now }
    requires short { IsQueryWithin 4096 query }
    ensures { IfOk result (λ refusal.
        Gives line text.new refusal (QueryReply (opened_of opened.now) (query_from query.entry))) }
{
    let laws = &opened.laws;
    let ledger = &opened.ledger;
    match query {
        Query::Law(n) => answer_law(text, laws, n, line),
        Query::Number(spelling) => answer_number(alloc, text, laws, spelling, line),
        Query::Dual(n) => answer_dual(text, laws, n, line),
        Query::Ask(e, f) => answer_pair(text, ledger, e, f, line),
        Query::Why(e, f) => answer_why(alloc, text, laws, ledger, e, f, line),
        Query::Files => answer_files(text, ledger, line),
        Query::Counts => answer_counts(text, ledger, line),
        Query::Row(e) => answer_row(alloc, text, ledger, e, line),
        Query::Class(e) => answer_class(alloc, text, ledger, e, line),
        Query::Classes => answer_classes(alloc, text, ledger, line),
        Query::Csv(first, last) => answer_csv(alloc, text, ledger, first, last, line),
        Query::Ledger => answer_ledger(alloc, text, laws, ledger, line),
        Query::Profile(word) => answer_profile(alloc, text, laws, ledger, word, line),
    }
}
