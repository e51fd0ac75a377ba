//! The line of a run that ends at no file, and leaves all else as it is.
ghost use Rattle.std.specs.Prelude.{◌≡◌};
ghost use Rattle.srv_closing.specs.Stage.{Says, dial_shown, stage_of};

use dev_traits::{Machine, World};
use srv_alone::{End, report};

/// Reports an end at which no file is named, and returns it. Nothing but the sink is used.
pub fn say<M: Machine>(world: &mut World<M>, end: End) -> End
    ensures end { result ≡ end }
    ensures says { let stage = stage_of M.shown M.F.shown M.L.shown M.S.shown (dial_shown M.N.shown M.N.L.shown) in
        Says end (stage world.old) (stage world.new) }
{
    report(&mut world.sink, end, b"");
    end
}
