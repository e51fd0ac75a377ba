//! A door through which links come.
ghost use Rattle.std.specs.Prelude.{◌≡◌, ◌<◌, IfOk, IfSome, OnErr};
ghost use Rattle.dev_traits.specs.Cause.{HasCause};
ghost use Rattle.dev_traits.specs.Door.{DoorShown, IfCame, IsFresh, MayCome, after_coming, after_done};

use crate::faults::Failed;
use crate::link::Link;
use fm_base::Bytes;

/// What a door was opened with.
#[derive(Drop)]
pub struct DoorAsked {
    pub address: Bytes,
    /// How many links come before the door closes; 0 is without end.
    pub connections: u32,
}

/// What comes next at a door.
#[derive(Drop)]
pub enum Coming<L> {
    /// A link came.
    Came(L),
    /// The link of this key may go on, or its time is over, which its next call says. It promises nothing: there need
    /// be no link of this key, and the one that there is may still say that it would wait.
    Ready(usize),
    /// No link is left to come, and none is out.
    Closed,
}

/// A door through which links come, several at once. Whoever serves them picks a key for each, by which the door names
/// it. A link that was stepped either rests, and is watched again, or is given back. Where the door failed, no link
/// comes any more, and those that are out go on.
pub trait Door {
    type L: Link + Drop;

    /// The links left to come, how many are out and those that were given back, where they are known, and how
    /// many calls have failed.
    ghost shown: { Self → DoorShown Self.L };

    /// How many calls have failed. The count stands still at its greatest number.
    fn faults(&self) -> u64
        ensures { result ≡ (shown self.now).faults };

    /// Waits for what comes next. A link that comes has this key, and is watched.
    fn next(&mut self, key: usize) -> Result<Coming<Self::L>, Failed>
        ensures next { IfSome (shown self.old).held (λ doorway. IfOk result (MayCome doorway)) }
        ensures came { IfOk result (λ coming.
            (shown self.new).held ≡ after_coming coming (shown self.old).held) }

        // Also where nothing is known of the door.
        ensures fresh { IfOk result (IfCame (λ link. IsFresh (Self.L.shown link))) }
        ensures err { OnErr result ((shown self.new).held ≡ (shown self.old).held) }
        ensures cause { HasCause (shown self.old).faults (shown self.new).faults result };

    /// Watches the link of a key again: `next` says once it may go on, or its time is over. It takes no memory.
    fn rest(&mut self, key: usize, link: &mut Self::L)
        ensures same_link { Self.L.shown link.new ≡ Self.L.shown link.old }
        ensures same_door { shown self.new ≡ shown self.old };

    /// Gives back the link of a key. It takes no memory.
    fn done(&mut self, key: usize, link: Self::L)
        requires out { IfSome (shown self.old).held (λ doorway. 0 < doorway.out) }
        ensures given { (shown self.new).held ≡ after_done link (shown self.old).held }
        ensures faults { (shown self.new).faults ≡ (shown self.old).faults };
}
