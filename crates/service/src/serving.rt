// How the end of a session ends the run.
ghost use Rattle.std.specs.Prelude.{◌≡◌};
ghost use Rattle.service.specs.Serving.{exit_of as exit_of_end};

use crate::Exit;
use load_server::SessionEnd;

pub fn exit_of(end: SessionEnd) -> Exit
    ensures { result ≡ exit_of_end end }
{
    match end {
        SessionEnd::Done => Exit::Ok,
        SessionEnd::ReadFault => Exit::ReadFault,
        SessionEnd::WriteFault => Exit::WriteFault,
        SessionEnd::Refused { at } => Exit::Refused { at },
        SessionEnd::Enough => Exit::Enough,
        SessionEnd::NoMemory => Exit::NoMemory,
    }
}
