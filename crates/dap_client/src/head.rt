//! The head of a reply.
ghost use Rattle.std.specs.Prelude.{◌≡◌, ◌≤◌, [], IfErr, IfOk, IfSome, length};
ghost use Rattle.dap_client.specs.Pull.{Gathers, HasPullCause, IsHeadOf, IsOfLink, put_of};
ghost use Rattle.dap_client.specs.Reply.{ends_head};

use crate::fault::PullEnd;
use crate::taking::take_some;
use dev_traits::Link;
use fm_base::Bytes;
use std::alloc::Global;
use web_frame::MAX_HEAD;

// How the taking of a head ended: with its end, with that of the input, or at the limit.
#[derive(Clone, Copy)]
pub(crate) enum HeadEnd {
    Whole,
    Early,
    Long,
}

// The bytes that were taken for a head.
#[derive(Drop)]
pub(crate) struct Head {
    pub bytes: Bytes,
    pub end: HeadEnd,
}

// Whether bytes end as a head does.
#[tactic(auto, unfolding(crate::specs::Reply::ends_head))]
fn ends_head(bytes: &[u8]) -> bool
    ensures { result ≡ ends_head bytes.now }
{
    bytes.ends_with(b"\n\n") || bytes.ends_with(b"\n\r\n")
}

// Takes a head byte by byte, so that none behind it is taken.
pub(crate) fn take_head<L: Link>(alloc: Global, link: &mut L) -> Result<Head, PullEnd>
    requires blocks { L.blocks }
    ensures taken { IfOk result (λ head.
        Gathers (L.shown link.old).held (L.shown link.new).held [] head.bytes) }
    ensures head { IfSome (L.shown link.old).held (λ wire.
        IfOk result (λ head. IsHeadOf head.bytes head.end wire.left)) }
    ensures few { IfOk result (λ head. length head.bytes ≤ 16_384) }
    ensures put { put_of (L.shown link.new).held ≡ put_of (L.shown link.old).held }
    ensures link { IfErr result IsOfLink }
    ensures cause { HasPullCause (L.shown link.old).faults (L.shown link.new).faults result }
{
    let mut byte = [0u8; 1];
    let mut bytes = Bytes::new(alloc);
    for _turn in 0..MAX_HEAD {
        if take_some(link, &mut byte, 1, &mut bytes)? == 0 {
            let end = HeadEnd::Early;
            return Ok(Head { bytes, end });
        }
        if ends_head(bytes.as_slice()) {
            let end = HeadEnd::Whole;
            return Ok(Head { bytes, end });
        }
    }
    let end = HeadEnd::Long;
    Ok(Head { bytes, end })
}
