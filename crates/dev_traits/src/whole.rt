//! Bytes that are sent whole.
ghost use Rattle.std.specs.Prelude.{◌≡◌, ◌≤◌, ℕ, length, take, OnOk, OnErr};
ghost use Rattle.dev_traits.specs.Cause.{HasCause};
ghost use Rattle.dev_traits.specs.Link.{after_put};

use crate::faults::Failed;
use crate::link::{Link, Sent};

#[tactic(auto, using(crate::proofs::LinkLemmas::after_put_more))]
/// Sends all the bytes over a link that blocks, or a front of them where the link fails.
pub fn put_all<L: Link>(link: &mut L, bytes: &[u8]) -> Result<(), Failed>
    requires { L.blocks }
    ensures ok { OnOk result ((L.shown link.new).held ≡ after_put bytes.now (L.shown link.old).held) }
    ensures err { OnErr result ((count : ℕ) × (count ≤ length bytes.now)
        × ((L.shown link.new).held ≡ after_put (take count bytes.now) (L.shown link.old).held)) }
    ensures cause { HasCause (L.shown link.old).faults (L.shown link.new).faults result }
{
    let mut sent = 0;
    while sent < bytes.len() {
        let (_, rest) = bytes.split_at(sent);
        match link.put(rest)? {
            Sent::Bytes(count) => sent += count,
            Sent::Later => unreachable!(),
        }
    }
    Ok(())
}
