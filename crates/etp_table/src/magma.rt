ghost use Rattle.etp_theory.specs.Sound.{sound as holds_after};
ghost use Rattle.etp_table.specs.Tables;
ghost use Rattle.etp_table.specs.Closed.{carrier_closed};

use crate::table::OpTable;
use etp_theory::Magma;

impl Magma for OpTable {
    type Value = u8;

    ghost inside = { Tables.carrier };

    ghost times = { Tables.times };

    ghost closed = { carrier_closed };

    ghost sound = { λ t e f h d. holds_after (Tables.carrier t) (Tables.times t) (carrier_closed t) e h d };
}
