// The core by itself.
ghost use Rattle.std.specs.Prelude.{◌≡◌, []};
ghost use Rattle.load_server.specs.Alone.{IsAlone};

use dl_outside::Steps;
use front_core::Front;
use front_defs::{Command, Reply, Turns};
use front_laws::parted;
use std::alloc::Global;
use std::sync::ledger::Ledger;

/// A core that no others share: every command is a turn of its own.
#[derive(Drop)]
pub struct Solo {
    pub front: Front,
}

impl Solo {
    /// A new core, which has seen nothing.
    pub fn new(alloc: Global) -> Solo
        ensures { IsAlone result.front [] [] }
    {
        parted::an_empty_front_stands_for_nothing();
        Solo {
            front: Front::new(alloc),
        }
    }
}

impl Turns for Solo {
    ghost use Rattle.std.specs.Prelude.{true};
    ghost use Rattle.load_server.specs.Alone.{IsAlone};

    ghost stands = { λ s seen own. IsAlone s.front seen own };

    ghost may = { λ s command. Unit {0} };

    ghost vouched = { λ s. true };

    fn turn<L: Ledger>(&mut self, command: Command, steps: &mut Steps<L>) -> Reply {
        self.front.step(command, steps)
    }

    ghost legal = { λ s seen own vouched alone. alone.legal };
}
