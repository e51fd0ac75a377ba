//! The steps of `once`, on one collection and one connection.
ghost use Rattle.std.specs.Prelude.{◌≡◌, ◌<◌, ◌≤◌, IfErr, IsFalse, IsTrue, OnErr, OnOk};
ghost use Rattle.srv_conn.specs.Served.{IsAtRest};
ghost use Rattle.srv_alone.specs.declared.end.End.TheVariants as ends;
ghost use Rattle.srv_alone.specs.Publishing.{expired, retracted};
ghost use Rattle.srv_alone.specs.Steps as spec;

use crate::end::End;
use crate::put::put;
use dap_reply::Stop;
use dev_traits::{Files, Link};
use fm_base::{Arc, NoMemory};
use fm_model::Proto;
use pub_look::Plain;
use srv_conn::serve_link;
use srv_words::Step;
use std::alloc::Global;
use web_session::{Action, End as LinkEnd, Event, Session};

// A collection over a prototype, and a connection that it is served on.
#[derive(Drop)]
pub(crate) struct Service {
    pub(crate) proto: Arc<Proto>,
    pub(crate) plain: Plain,
    pub(crate) session: Session,
    ghost same: { plain.proto ≡ proto },
}

// The runs below a cutoff go.
fn expire(alloc: Global, plain: &mut Plain, cutoff: i64) -> Result<(), End>
    ensures ok { OnOk result (plain.new ≡ expired cutoff plain.old) }
    ensures err { OnErr result (plain.new ≡ plain.old) }
    ensures end { IfErr result (λ end. end ≡ ends.NoMemory) }
    ensures same { plain.new.proto ≡ plain.old.proto }
{
    let _revision = plain.expire(alloc, cutoff)?;
    Ok(())
}

// The file of a name is taken back.
fn retract(alloc: Global, plain: &mut Plain, name: &[u8]) -> Result<(), End>
    ensures ok { OnOk result (plain.new ≡ retracted name.now plain.old) }
    ensures err { OnErr result (plain.new ≡ plain.old) }
    ensures end { IfErr result (λ end. end ≡ ends.NoMemory) }
    ensures same { plain.new.proto ≡ plain.old.proto }
{
    let _revision = plain.retract(alloc, name)?;
    Ok(())
}

// The end of a run whose link stopped so before all replies were written.
fn end_of_stop(stop: Stop) -> End
    ensures { result ≡ spec.end_of_stop stop }
{
    match stop {
        Stop::Ended(LinkEnd::LinkFault) => End::LinkFault,
        Stop::Ended(LinkEnd::NoMemory) => End::NoMemory,
        _ => End::InputEnded,
    }
}

// Whether a session has ended.
fn has_ended(session: &mut Session) -> bool
    ensures ended { IsTrue result → spec.HasEnded session.new }
    ensures rests { IsFalse result → spec.RestsUnlessEnded session.old → IsAtRest session.new }
    ensures same { session.new ≡ session.old }
{
    matches!(session.on(Event::Start), Action::Close(_))
}

// Ok if all `count` replies were begun, else the end of a run whose link stopped so.
fn outcome_of(stop: Stop, begun: usize, count: u32) -> Result<(), End>
    requires { begun ≤ count }
    ensures whole { OnOk result (begun ≡ count) }
    ensures calm { OnOk result (spec.end_of_stop stop ≡ ends.InputEnded) }
    ensures end { IfErr result (λ end. end ≡ spec.end_of_stop stop) }
    ensures short { IfErr result (λ end. end ≡ ends.InputEnded → begun < count) }
{
    match end_of_stop(stop) {
        End::InputEnded if begun == count as usize => Ok(()),
        end => Err(end),
    }
}

// Replies to `count` requests.
#[tactic(auto, using(crate::proofs::AskLemmas::asks))]
fn ask<L: Link>(
    alloc: Global,
    proto: &Proto,
    plain: &mut Plain,
    session: &mut Session,
    link: &mut L,
    count: u32,
) -> Result<(), End>
    requires blocks { L.blocks }
    requires proto { plain.old.proto ≡ proto.now }
    requires stands { spec.RestsUnlessEnded session.old }
    ensures done { OnOk result (spec.AnswersAsk count
        (spec.connection plain.old session.old (L.shown link.old))
        (spec.connection plain.new session.new (L.shown link.new))) }
    ensures ends { IfErr result (λ end. spec.EndsAsk count
        (spec.connection plain.old session.old (L.shown link.old))
        (spec.connection plain.new session.new (L.shown link.new)) end) }
    ensures stands { spec.RestsUnlessEnded session.new }
    ensures same { plain.new.proto ≡ plain.old.proto }
{
    if has_ended(session) {
        return Err(End::InputEnded);
    }
    let (stop, trail) = serve_link(alloc, plain, link, session, &proto.site, count);
    outcome_of(stop, trail.len(), count)
}

impl Service {
    // Does a step.
    pub(crate) fn step<F: Files, L: Link>(
        &mut self,
        alloc: Global,
        step: &Step,
        files: &mut F,
        link: &mut L,
    ) -> Result<(), End>
        requires blocks { L.blocks }
        requires rests { spec.RestsUnlessEnded self.old.session }
        ensures done { OnOk result (spec.IsDone step.now
            (spec.progress (F.shown files.old) self.old.plain self.old.session (L.shown link.old))
            (spec.progress (F.shown files.new) self.new.plain self.new.session (L.shown link.new))) }
        ensures ends { IfErr result (λ end. spec.EndsAt step.now
            (spec.progress (F.shown files.old) self.old.plain self.old.session (L.shown link.old))
            (spec.progress (F.shown files.new) self.new.plain self.new.session (L.shown link.new)) end) }
        ensures stands { spec.RestsUnlessEnded self.new.session }
    {
        let proto = self.proto.get();
        match step {
            Step::Put(path) => put(alloc, proto, &mut self.plain, files, path.as_slice()),
            Step::Expire(cutoff) => expire(alloc, &mut self.plain, *cutoff),
            Step::Retract(name) => retract(alloc, &mut self.plain, name.as_slice()),
            Step::Ask(count) => ask(
                alloc,
                proto,
                &mut self.plain,
                &mut self.session,
                link,
                *count,
            ),
        }
    }
}
