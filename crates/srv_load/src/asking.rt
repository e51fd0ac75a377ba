//! All the data of a view, counted.
ghost use Rattle.std.specs.Prelude.{◌≡◌, IfOk, OnOk, false, length, true};
ghost use Rattle.fm_edition.specs.Log.{held_of};
ghost use Rattle.dap_reply.specs.Parts.{bytes_of};
ghost use Rattle.dap_reply.specs.Reply.{reply_text};
ghost use Rattle.srv_load.specs.Asked as spec;

use crate::summing::sum_from;
use dap_reply::{Dap, Plan, plan};
use fm_base::{Bytes, NoMemory};
use fm_edition::Edition;
use fm_model::ViewName;
use fm_views::row_count;
use pub_look::{Look, Plain, Query};
use std::alloc::Global;
use web_path::{Service, Target};

// The number of rows of a view, and the sum of the bytes of a body modulo 2^32.
#[derive(Clone, Copy, Drop)]
pub(crate) struct Counted {
    pub(crate) rows: u64,
    pub(crate) sum: u32,
}

// A target whose body is to be counted.
#[derive(Drop)]
struct Counting {
    target: Target,
}

// A request for a target; to HEAD the reply has no body.
fn request_for(alloc: Global, target: &Target, head: bool) -> Result<Dap, NoMemory>
    ensures { IfOk result (λ dap. dap ≡ record { target = target.now; head = head; last = false }) }
{
    let target = Target {
        view: target.view,
        service: target.service,
        constraint: Bytes::copy_of(alloc, target.constraint.as_slice())?,
        label: Bytes::copy_of(alloc, target.label.as_slice())?,
    };
    Ok(Dap {
        target,
        head,
        last: false,
    })
}

// The reply to a target; to HEAD it is the head alone.
fn reply_to(
    alloc: Global,
    edition: &Edition,
    revision: u64,
    target: &Target,
    head: bool,
) -> Result<Plan, NoMemory>
    ensures { IfOk result (λ reply. bytes_of reply
        ≡ reply_text (spec.answer_for edition.now target.now) revision head false) }
{
    let dap = request_for(alloc, target, head)?;
    let reply = plan(alloc, edition, revision, &dap)?;
    Ok(reply)
}

// How long the head of the reply to a target is.
fn head_len(
    alloc: Global,
    edition: &Edition,
    revision: u64,
    target: &Target,
) -> Result<u64, NoMemory>
    ensures { IfOk result (λ len. len
        ≡ length (reply_text (spec.answer_for edition.now target.now) revision true false)) }
{
    let head = reply_to(alloc, edition, revision, target, true)?;
    let count = head.len();
    drop(head);
    Ok(count)
}

// The sum of the body of the reply to a target: what is left of the reply behind its head.
fn body_sum(
    alloc: Global,
    edition: &Edition,
    revision: u64,
    target: &Target,
) -> Result<u32, NoMemory>
    ensures { IfOk result (λ sum. sum ≡ spec.sum_of (spec.body_over edition.now target.now)) }
{
    let head = head_len(alloc, edition, revision, target)?;
    let whole = reply_to(alloc, edition, revision, target, false)?;
    let sum = sum_from(&whole, head);
    drop(whole);
    Ok(sum)
}

#[tactic(auto, unfolding(crate::specs::Asked::counted))]
impl Query for Counting {
    type Out = Counted;

    ghost says = { λ counting held _ out. out ≡ spec.counted held counting.target };

    fn answer(&self, alloc: Global, edition: &Edition, revision: u64) -> Result<Counted, NoMemory> {
        let rows = row_count(alloc, edition, &self.target.view)?;
        let sum = body_sum(alloc, edition, revision, &self.target)?;
        Ok(Counted { rows, sum })
    }
}

// Asks for all the data of a view, under a label.
pub(crate) fn ask(
    alloc: Global,
    plain: &mut Plain,
    view: ViewName,
    label: &[u8],
) -> Result<Counted, NoMemory>
    ensures counted { IfOk result (λ counted. counted
        ≡ spec.counted (held_of plain.old.proto plain.old.seen) (spec.all_of view label.now)) }
    ensures same { OnOk result (held_of plain.new.proto plain.new.seen ≡ held_of plain.old.proto plain.old.seen) }
{
    let label = Bytes::copy_of(alloc, label)?;
    let target = Target {
        view,
        service: Service::Dods,
        constraint: Bytes::new(alloc),
        label,
    };
    let counting = Counting { target };
    let asked = plain.ask(alloc, &counting);
    drop(counting);
    let (counted, _revision) = asked?;
    Ok(counted)
}
