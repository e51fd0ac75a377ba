//! The command that reads a reply of another server.
ghost use Rattle.std.specs.Prelude.{◌≡◌};
ghost use Rattle.srv_pull.specs.Pull as spec;

use crate::sums::put_message;
use dap_client::{Message, PullEnd, pull_link};
use dev_traits::{Dial, Failed, Sink};
use fm_base::Fail;
use srv_alone::{End, report};
use std::alloc::Global;

// Dials an address once, asks the peer for a target, and gives the link back that it got.
fn pull_from<N: Dial>(
    alloc: Global,
    address: &[u8],
    target: &[u8],
    dial: &mut N,
) -> Result<Message, PullEnd>
    requires blocks { N.L.blocks }
    ensures { spec.Dials N.L.shown address.now target.now result (N.shown dial.old) (N.shown dial.new) }
{
    let mut link = match dial.dial(alloc, address) {
        Ok(link) => link,
        Err(Fail::NoMemory) => return Err(PullEnd::NoMemory),
        Err(Fail::Fault(Failed)) => return Err(PullEnd::LinkFault),
    };
    let pulled = pull_link(alloc, &mut link, address, target);
    dial.done(link);
    pulled
}

// The end of a command that pulled no message.
fn end_of(why: PullEnd) -> End
    ensures { result ≡ spec.end_of why }
{
    match why {
        PullEnd::NoMemory => End::NoMemory,
        PullEnd::LinkFault => End::LinkFault,
        PullEnd::Fault(fault) => End::BadReply(fault.code()),
    }
}

// Writes the line of a message, and returns the end.
fn say_message<S: Sink>(sink: &mut S, message: &Message) -> End
    ensures { spec.SaysMessage message.now result (S.shown sink.old) (S.shown sink.new) }
{
    match put_message(sink, message) {
        Ok(()) => End::Done,
        Err(Failed) => End::SinkFault,
    }
}

/// Runs `pull`: dials an address once, asks the peer for a target, reads the message of its reply, and gives the link
/// back. Then it writes the line of the message, or reports why there is none. A line that is cut says that the sink
/// failed. The clause says what became of the dialer and the link at each end.
pub fn pull<N: Dial, S: Sink>(
    alloc: Global,
    address: &[u8],
    target: &[u8],
    dial: &mut N,
    sink: &mut S,
) -> End
    requires blocks { N.L.blocks }
    ensures { spec.RunsPull N.L.shown address.now target.now result
        (N.shown dial.old) (N.shown dial.new) (S.shown sink.old) (S.shown sink.new) }
{
    match pull_from(alloc, address, target, dial) {
        Ok(message) => {
            let end = say_message(sink, &message);
            drop(message);
            end
        }
        Err(why) => {
            let end = end_of(why);
            report(sink, end, b"");
            end
        }
    }
}
