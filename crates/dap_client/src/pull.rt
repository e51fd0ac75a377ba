//! Pulling a message over a link.
ghost use Rattle.std.specs.Prelude.{◌≡◌, ◌+◌, ◌<◌, ◌^◌, ℕ, [], IfOk};
ghost use Rattle.fm_base.specs.Chain.{fault_as};
ghost use Rattle.dap_client.specs.declared.fault.ClientFault.TheVariants.{BadData};
ghost use Rattle.dap_client.specs.DataReading.{message_or_fault};
ghost use Rattle.dap_client.specs.Pull.{HasPullCause, IfPulled, IsReadBehind, Pulls, PutsFront, put_of};
ghost use Rattle.dap_client.specs.Reply as spec;

use crate::fault::{ClientFault, PullEnd};
use crate::head::{HeadEnd, take_head};
use crate::length::len_behind;
use crate::message::Message;
use crate::read::read_message;
use crate::taking::take_body;
use dev_traits::{Failed, Link, put_all};
use fm_base::{Bytes, Fail, NoMemory};
use std::alloc::Global;

// The request for a target.
#[tactic(auto, unfolding(crate::specs::Reply::request_text))]
fn request_text(alloc: Global, address: &[u8], target: &[u8]) -> Result<Bytes, NoMemory>
    ensures { IfOk result (λ request. request ≡ spec.request_text address.now target.now) }
{
    let mut request = Bytes::copy_of(alloc, b"GET ")?;
    request.append(target)?;
    request.append(b" HTTP/1.1\r\nHost: ")?;
    request.append(address)?;
    request.append(b"\r\nConnection: close\r\n\r\n")?;
    Ok(request)
}

// The message that a body spells.
fn message_in(alloc: Global, body: &[u8]) -> Result<Message, PullEnd>
    ensures said { IfPulled result (λ outcome. outcome ≡ fault_as BadData (message_or_fault body.now)) }
    ensures cause { (faults : ℕ) → HasPullCause faults faults result }
{
    match read_message(alloc, body) {
        Ok(message) => Ok(message),
        Err(Fail::Fault(at)) => Err(PullEnd::Fault(ClientFault::BadData(at))),
        Err(Fail::NoMemory) => Err(PullEnd::NoMemory),
    }
}

// The message of the reply behind a head of this length.
fn read_behind<L: Link>(
    alloc: Global,
    link: &mut L,
    head: usize,
    len: u64,
) -> Result<Message, PullEnd>
    requires blocks { L.blocks }
    requires fits { head + len < 2 ^ 64 }
    ensures said { IfPulled result (IsReadBehind head len (L.shown link.old).held (L.shown link.new).held) }
    ensures put { put_of (L.shown link.new).held ≡ put_of (L.shown link.old).held }
    ensures cause { HasPullCause (L.shown link.old).faults (L.shown link.new).faults result }
{
    let body = take_body(alloc, link, len)?;
    if (body.len() as u64) < len {
        let count = head as u64 + body.len() as u64;
        return Err(PullEnd::Fault(ClientFault::ReplyEnded(count)));
    }
    message_in(alloc, body.as_slice())
}

// The message of the reply that comes.
fn read_reply<L: Link>(alloc: Global, link: &mut L) -> Result<Message, PullEnd>
    requires blocks { L.blocks }
    ensures pulls { IfPulled result (Pulls [] (L.shown link.old).held (L.shown link.new).held) }
    ensures put { put_of (L.shown link.new).held ≡ put_of (L.shown link.old).held }
    ensures cause { HasPullCause (L.shown link.old).faults (L.shown link.new).faults result }
{
    let head = take_head(alloc, link)?;
    let count = head.bytes.len();
    match head.end {
        HeadEnd::Early => Err(PullEnd::Fault(ClientFault::ReplyEnded(count as u64))),
        HeadEnd::Long => Err(PullEnd::Fault(ClientFault::BadHead)),
        HeadEnd::Whole => match len_behind(head.bytes.as_slice()) {
            Ok(len) => read_behind(alloc, link, count, len),
            Err(fault) => Err(PullEnd::Fault(fault)),
        },
    }
}

/// Asks the peer of a link for a target, and reads the message of its reply. No byte behind the reply is taken.
///
/// The address is 1 to 255 bytes and the target 1 to 8,000, from `!` to `~`; no clause needs it.
pub fn pull_link<L: Link>(
    alloc: Global,
    link: &mut L,
    address: &[u8],
    target: &[u8],
) -> Result<Message, PullEnd>
    requires blocks { L.blocks }

    // Without a fault of the link all of the request was put, and the outcome is what the input says.
    ensures pulls { IfPulled result (Pulls (spec.request_text address.now target.now)
        (L.shown link.old).held (L.shown link.new).held) }

    // Whatever came of it, a front of the request was put.
    ensures put { PutsFront (spec.request_text address.now target.now)
        (L.shown link.old).held (L.shown link.new).held }
    ensures cause { HasPullCause (L.shown link.old).faults (L.shown link.new).faults result }
{
    let request = request_text(alloc, address, target)?;
    match put_all(link, request.as_slice()) {
        Ok(()) => read_reply(alloc, link),
        Err(Failed) => Err(PullEnd::LinkFault),
    }
}
