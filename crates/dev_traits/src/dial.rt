//! A dialer, which leads to peers by their addresses.
ghost use Rattle.std.specs.Prelude.{◌≡◌, IfOk, IfSome, IsTrue, Some};
ghost use Rattle.dev_traits.specs.Cause.{HasReadCause};
ghost use Rattle.dev_traits.specs.Dial.{DialShown, after_dial, after_return};
ghost use Rattle.dev_traits.specs.Door.{IsFresh};

use crate::faults::Failed;
use crate::link::Link;
use fm_base::Fail;
use std::alloc::Global;

/// A dialer, which gives a link to the peer at an address. A link that it gave is given back once it was used.
pub trait Dial {
    type L: Link + Drop;

    /// The link that it will give, whether one is out, the addresses that were dialled and the links that were given
    /// back, where they are known, and how many calls have failed.
    ghost shown: { Self → DialShown Self.L };

    /// How many calls have failed. The count stands still at its greatest number.
    fn faults(&self) -> u64
        ensures { result ≡ (shown self.now).faults };

    /// A link to the peer at an address.
    fn dial(&mut self, alloc: Global, address: &[u8]) -> Result<Self::L, Fail<Failed>>
        ensures next { IfSome (shown self.old).held (λ exchange.
            IfOk result (λ link. exchange.link ≡ Some link)) }
        ensures dialled { (shown self.new).held ≡ after_dial address.now result (shown self.old).held }

        // Also where nothing is known of the dialer.
        ensures fresh { IfOk result (λ link. IsFresh (Self.L.shown link)) }
        ensures cause { HasReadCause (shown self.old).faults (shown self.new).faults result };

    /// Gives back a link that was used. It takes no memory.
    fn done(&mut self, link: Self::L)
        requires out { IfSome (shown self.old).held (λ exchange. IsTrue exchange.out) }
        ensures given { (shown self.new).held ≡ after_return link (shown self.old).held }
        ensures faults { (shown self.new).faults ≡ (shown self.old).faults };
}
