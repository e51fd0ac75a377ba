//! A connection between two turns.
ghost use Rattle.std.specs.Prelude.{◌≡◌, IfErr, IfOk};
ghost use Rattle.srv_door.specs.Kept.{session_of};

use dev_traits::Door;
use fm_base::NoMemory;
use srv_action::Doing;
use srv_conn::{Connection, Revisions};
use std::alloc::Global;
use std::marker::Model;
use web_session::{PackedSession, Session};

// A session between two turns. One that is packed has left its room to the worker.
#[derive(Drop)]
pub(crate) enum Stored {
    Whole(Session),
    Packed(PackedSession),
}

/// A connection between two turns. Its session takes no more memory than the bytes that it holds, unless these are of a
/// head that isn't whole. A clause sees the connection.
#[derive(Drop)]
pub(crate) struct Kept<L> {
    link: L,
    session: Stored,
    doing: Doing,
    revisions: Revisions,
}

impl<L> Model for Kept<L> {
    ghost use Rattle.srv_conn.specs.declared.connection.Connection.{Connection};
    ghost use Rattle.srv_door.specs.Kept.{session_of};

    ghost Value = { Connection L };

    ghost view = { λ k. record {
      link = k.link;
      session = session_of k.session;
      doing = k.doing;
      revisions = k.revisions;
    } };
}

impl<L> Kept<L> {
    /// Keeps a connection until its next turn. A session that is packed leaves its room behind.
    pub fn new(alloc: Global, connection: Connection<L>, spare: &mut Option<Session>) -> Kept<L>
        ensures { result ≡ connection }
    {
        let Connection {
            link,
            session,
            doing,
            revisions,
        } = connection;
        let session = store(alloc, session, spare);
        Kept {
            link,
            session,
            doing,
            revisions,
        }
    }

    /// The connection, whose session takes the room that was left behind, or memory where there is none.
    pub fn woken(self, alloc: Global, spare: &mut Option<Session>) -> Result<Connection<L>, Kept<L>>
        ensures ok { IfOk result (λ connection. connection ≡ self) }
        ensures err { IfErr result (λ kept. kept ≡ self) }
    {
        let Kept {
            link,
            session,
            doing,
            revisions,
        } = self;
        match restored(alloc, session, spare) {
            Ok(session) => Ok(Connection {
                link,
                session,
                doing,
                revisions,
            }),
            Err(session) => Err(Kept {
                link,
                session,
                doing,
                revisions,
            }),
        }
    }

    /// The same, whose link a door watches again.
    pub fn rested<D: Door<L = L>>(self, door: &mut D, key: usize) -> Kept<L>
        ensures kept { result ≡ record self { link = result.link } }
        ensures same_link { L.shown result.link ≡ L.shown self.link }
        ensures same_door { D.shown door.new ≡ D.shown door.old }
    {
        let mut kept = self;
        door.rest(key, &mut kept.link);
        kept
    }
}

// A session as it is stored. Where it is packed it is left behind, for the room that it has.
fn store(alloc: Global, session: Session, spare: &mut Option<Session>) -> Stored
    ensures { session_of result ≡ session }
{
    match session.packed(alloc) {
        Some(packed) => {
            drop(spare.replace(session));
            Stored::Packed(packed)
        }
        None => Stored::Whole(session),
    }
}

// Some session, for the room that it has.
fn any_session(alloc: Global, spare: &mut Option<Session>) -> Result<Session, NoMemory> {
    match spare.take() {
        Some(session) => Ok(session),
        None => Session::new(alloc),
    }
}

// A stored session in a room of its own.
fn restored(alloc: Global, stored: Stored, spare: &mut Option<Session>) -> Result<Session, Stored>
    ensures ok { IfOk result (λ session. session ≡ session_of stored) }
    ensures err { IfErr result (λ kept. session_of kept ≡ session_of stored) }
{
    match stored {
        Stored::Whole(session) => Ok(session),
        Stored::Packed(packed) => match any_session(alloc, spare) {
            Ok(mut session) => {
                session.unpack(&packed);
                drop(packed);
                Ok(session)
            }
            Err(NoMemory) => Err(Stored::Packed(packed)),
        },
    }
}
