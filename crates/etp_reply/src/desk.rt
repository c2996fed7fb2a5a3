// What a session keeps between two lines.
ghost use Rattle.std.specs.Prelude.{◌≡◌};
ghost use Rattle.etp_desk.specs.States.{unopened};
ghost use Rattle.etp_reply.specs.Desks.{IsDesk, HasRightLaws};

use etp_desk::Opened;
use etp_filing::Filing;

/// What a session keeps between two lines: nothing before the first that isn't blank, then the laws
/// and the files that stand, and the file whose body is being read.
#[derive(Drop)]
pub struct Desk {
    pub(crate) opened: Option<Opened>,
    pub(crate) filing: Option<Filing>,
}

impl Desk {
    /// Before the first line.
    pub fn start() -> Desk
        ensures state { IsDesk result unopened }
        ensures laws { HasRightLaws result }
    {
        Desk {
            opened: None,
            filing: None,
        }
    }
}
