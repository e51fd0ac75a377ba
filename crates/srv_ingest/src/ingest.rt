//! Taking in all that arrives.
ghost use Rattle.std.specs.Prelude.{◌≡◌, ◌+◌};
ghost use Rattle.pub_look.specs.History.{Continues};
ghost use Rattle.srv_ingest.specs.Ingests.{EndsIngest, SettledWith};

use crate::report::{IngestEnd, IngestReport};
use crate::turn::take_next;
use dev_traits::Inbox;
use fm_base::Arc;
use fm_model::Proto;
use pub_snap::{Desk, Name, Pass, Share};
use srv_verdict::{NOTHING, Seat};
use std::alloc::Global;
use std::sync::{Mutex, Wait};

/// Takes in all names that arrive, until none will arrive any more or the inbox fails. A file comes to the collection,
/// and a name that ends in `.retract` takes back the file that it names. Each name gets its verdict, in order, and the
/// inbox is told its line before. It waits for the inbox, for the desk, and for readers inside the copy that is
/// changed.
pub fn ingest_all<N: Name, R: Wait, I: Inbox>(
    rt: &R,
    alloc: Global,
    desk: &Mutex<Desk<N>>,
    pass: &mut Pass<N>,
    inbox: &mut I,
    proto: &Arc<Proto>,
    share: &mut Share<N>,
) -> IngestReport
    requires { proto.now ≡ N.proto }
    ensures settles { SettledWith proto.now (I.shown inbox.old).held (I.shown inbox.new).held pass.old pass.new result }
    ensures end { EndsIngest (I.shown inbox.old) (I.shown inbox.new) result.end }
    ensures counted { share.new ≡ share.old + result.published + result.retracted }
    ensures later { Continues pass.old.seen pass.new.seen }
    ensures same_proto { pass.new.proto ≡ pass.old.proto }
{
    let mut seat = Seat {
        desk,
        pass,
        share,
        held: NOTHING,
    };
    let mut report = IngestReport {
        published: 0,
        retracted: 0,
        refused: 0,
        short: 0,
        end: IngestEnd::InboxFault,
    };
    for _ in rt.forever() {
        if let Some(end) = take_next(rt, alloc, &mut seat, inbox, proto, &mut report) {
            return IngestReport { end, ..report };
        }
    }
    unreachable!()
}
