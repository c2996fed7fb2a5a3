// The laws of a session and the files that stand.
ghost use Rattle.std.specs.Prelude.{◌≡◌, IfOk};
ghost use Rattle.etp_command.specs.Values.{operations_of};
ghost use Rattle.etp_desk.specs.States.{Opens};
ghost use Rattle.etp_desk.specs.Desks.{opened_of, Agrees};

use etp_command::ListOrder;
use etp_laws::Laws;
use etp_ledger::Ledger;
use std::alloc::{AllocError, Global};

/// The list of laws of a session, and the files that stand.
#[derive(Drop)]
pub struct Opened {
    pub laws: Laws,
    pub ledger: Ledger,
}

impl Opened {
    /// The laws of at most so many operations, and no file.
    pub fn start(alloc: Global, order: ListOrder) -> Result<Opened, AllocError>
        ensures opens { IfOk result (λ o. Opens (operations_of order) (opened_of o)) }
        ensures agrees { IfOk result (λ o. Agrees o) }
    {
        let laws = Laws::build_to(alloc, order.operations())?;
        let ledger = Ledger::start(alloc, &laws)?;
        let _duals = laws.duals();
        Ok(Opened { laws, ledger })
    }
}
