//! A list of events, run.
ghost use Rattle.std.specs.Prelude.{◌≡◌, All, IfOk};
ghost use Rattle.fm_model.specs.Site.{IsPrototype};
ghost use Rattle.pub_core.specs.Happening.{run};
ghost use Rattle.pub_core.specs.Outcome.{outcome_of, EventFits};
ghost use Rattle.pub_core.specs.World.{start};

use crate::event::Event;
use crate::machine::Machine;
use crate::outcome::Outcome;
use fm_base::{Arc, List, NoMemory};
use fm_model::Proto;
use std::alloc::Global;

/// Runs events over `sessions` sessions to which nothing happened. Returns the operations published, and the bytes
/// that each session was sent with the number that it has seen. An event that isn't possible where it comes changes
/// nothing: a look where no request waits for one, an operation for which there is no room, a session that isn't
/// there.
pub fn run_all(
    alloc: Global,
    proto: Arc<Proto>,
    sessions: u32,
    events: &List<Event>,
) -> Result<Outcome, NoMemory>
    requires prototype { IsPrototype proto }
    requires fits { All (EventFits proto) events.now }
    ensures { IfOk result (λ outcome. outcome ≡ outcome_of proto (run proto (start sessions) events.now)) }
{
    let mut machine = Machine::new(alloc, proto, sessions)?;
    for event in events.as_slice() {
        if let Err(fail) = machine.happen(alloc, event) {
            drop(machine);
            return Err(fail);
        }
    }
    machine.outcome(alloc)
}
