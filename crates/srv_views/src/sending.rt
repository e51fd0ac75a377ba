//! Bytes that are sent over a link in pieces.
ghost use Rattle.std.specs.Prelude.{◌≡◌, ◌≤◌, ◌<◌, ◌+◌, ℕ, List, Ok, IfOk, drop, length, take, OnErr, OnOk};
ghost use Rattle.dap_number.specs.Overlay.{IsPut};
ghost use Rattle.dev_traits.specs.Cause.{HasCause};
ghost use Rattle.dev_traits.specs.Link.{after_put};
ghost use Rattle.srv_views.specs.Sending as spec;

use dev_traits::{Failed, Link, put_all};
use srv_alone::End;

// How many bytes a piece has at most that is put into a buffer.
const ROOM: usize = 65_536;

// From this number of bytes on, what is lent is sent from where it lies.
const LONG: usize = 8_192;

/// Bytes that are had in pieces, without memory.
pub(crate) trait Whole {
    ghost bytes: { Self → List ℕ };

    /// How many bytes there are.
    fn len(&self) -> u64
        ensures { result ≡ length (bytes self.now) };

    /// Writes the bytes from an offset on over the front of a buffer, as many as fit, and returns how many that are.
    fn piece(&self, from: u64, out: &mut [u8]) -> usize
        requires { from ≤ length (bytes self.now) }
        ensures { IsPut (drop from (bytes self.now)) out.old out.new result };

    /// Lends a front of the bytes from an offset on that stands together somewhere. It may be empty.
    fn lent(&self, from: u64) -> &[u8]
        ensures { take (length result.now) (drop from (bytes self.now)) ≡ result.now };
}

// Sends the next bytes from an offset on, and returns how many that are. Many that are lent are sent from where they
// lie; else as many as a buffer has room for.
fn put_next<W: Whole, L: Link>(
    link: &mut L,
    whole: &W,
    from: u64,
    room: &mut [u8],
) -> Result<usize, Failed>
    requires blocks { L.blocks }
    requires from { from < length (W.bytes whole.now) }
    requires room { 0 < length room.old }
    ensures some { IfOk result (λ count. 0 < count) }
    ensures within { IfOk result (λ count. from + count ≤ length (W.bytes whole.now)) }
    ensures put { IfOk result (λ count. (L.shown link.new).held
        ≡ after_put (take count (drop from (W.bytes whole.now))) (L.shown link.old).held) }
    ensures err { OnErr result ((count : ℕ) × (from + count ≤ length (W.bytes whole.now))
        × ((L.shown link.new).held
        ≡ after_put (take count (drop from (W.bytes whole.now))) (L.shown link.old).held)) }
    ensures room { length room.new ≡ length room.old }
    ensures cause { HasCause (L.shown link.old).faults (L.shown link.new).faults result }
{
    let lent = whole.lent(from);
    if lent.len() >= LONG {
        put_all(link, lent)?;
        return Ok(lent.len());
    }
    let count = whole.piece(from, room);
    let (piece, _) = room.split_at(count);
    put_all(link, piece)?;
    Ok(count)
}

// Sends all bytes, or a front of them where the link fails.
#[tactic(auto, using(crate::proofs::SendingLemmas::sending))]
fn put_whole<W: Whole, L: Link>(link: &mut L, whole: &W) -> Result<(), Failed>
    requires { L.blocks }
    ensures ok { OnOk result
        ((L.shown link.new).held ≡ after_put (W.bytes whole.now) (L.shown link.old).held) }
    ensures err { OnErr result ((count : ℕ) × (count ≤ length (W.bytes whole.now))
        × ((L.shown link.new).held ≡ after_put (take count (W.bytes whole.now)) (L.shown link.old).held)) }
    ensures cause { HasCause (L.shown link.old).faults (L.shown link.new).faults result }
{
    let mut room = [0; ROOM];
    let len = whole.len();
    let mut sent = 0;
    while sent < len {
        let count = put_next(link, whole, sent, &mut room)?;
        sent += count as u64;
    }
    Ok(())
}

/// Sends all bytes, and returns how that ends.
pub(crate) fn send<W: Whole, L: Link>(link: &mut L, whole: &W) -> End
    requires { L.blocks }
    ensures { spec.Delivers result (Ok (W.bytes whole.now)) (L.shown link.old) (L.shown link.new) }
{
    match put_whole(link, whole) {
        Ok(()) => End::Done,
        Err(Failed) => End::LinkFault,
    }
}
