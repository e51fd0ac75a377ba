//! Bytes that are taken of a link that blocks.
ghost use Rattle.std.specs.Prelude.{◌≡◌, ◌+◌, ◌<◌, ◌≤◌, [], length, IfErr, IfOk};
ghost use Rattle.dev_traits.specs.Moved.{IsOver};
ghost use Rattle.dap_client.specs.Pull.{Gathers, HasPullCause, IsOfLink, put_of};

use crate::fault::PullEnd;
use dev_traits::{Failed, Link, Taken};
use fm_base::Bytes;
use std::alloc::Global;

// The size of the buffer for a body.
const BUFFER: usize = 65_536;

// Takes some of the next bytes, at most `most`, to the end of `out`, and returns how many. 0 is the end of input.
pub(crate) fn take_some<L: Link>(
    link: &mut L,
    buf: &mut [u8],
    most: u64,
    out: &mut Bytes,
) -> Result<usize, PullEnd>
    requires blocks { L.blocks }
    requires room { 0 < length buf.old }
    requires some { 0 < most }
    ensures taken { IfOk result (λ _.
        Gathers (L.shown link.old).held (L.shown link.new).held out.old out.new) }
    ensures count { IfOk result (λ count. length out.new ≡ length out.old + count) }
    ensures most { IfOk result (λ count. count ≤ most) }
    ensures end { IfOk result (λ count. count ≡ 0 → IsOver (L.shown link.new).held) }
    ensures put { put_of (L.shown link.new).held ≡ put_of (L.shown link.old).held }
    ensures link { IfErr result IsOfLink }
    ensures cause { HasPullCause (L.shown link.old).faults (L.shown link.new).faults result }
{
    let room = most.min(buf.len() as u64) as usize;
    let (front, _) = buf.split_at_mut(room);
    match link.take(front) {
        Ok(Taken::Bytes(count)) => {
            let (bytes, _) = front.split_at(count);
            out.append(bytes)?;
            Ok(count)
        }
        Ok(Taken::End) => Ok(0),
        Ok(Taken::Later) => unreachable!(),
        Err(Failed) => Err(PullEnd::LinkFault),
    }
}

// Takes a body of this length, or what there is of it where the input ends before.
pub(crate) fn take_body<L: Link>(alloc: Global, link: &mut L, len: u64) -> Result<Bytes, PullEnd>
    requires blocks { L.blocks }
    ensures taken { IfOk result (λ body.
        Gathers (L.shown link.old).held (L.shown link.new).held [] body) }
    ensures most { IfOk result (λ body. length body ≤ len) }
    ensures short { IfOk result (λ body. length body < len → IsOver (L.shown link.new).held) }
    ensures put { put_of (L.shown link.new).held ≡ put_of (L.shown link.old).held }
    ensures link { IfErr result IsOfLink }
    ensures cause { HasPullCause (L.shown link.old).faults (L.shown link.new).faults result }
{
    let mut buf = [0u8; BUFFER];
    let mut body = Bytes::new(alloc);
    while (body.len() as u64) < len {
        let left = len - body.len() as u64;
        if take_some(link, &mut buf, left, &mut body)? == 0 {
            return Ok(body);
        }
    }
    Ok(body)
}
