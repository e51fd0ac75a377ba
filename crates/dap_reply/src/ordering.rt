//! Whether an item is refused, or a collection is looked at for it.
ghost use Rattle.std.specs.Prelude.{◌≡◌, IfOk};
ghost use Rattle.fm_base.specs.Answer.{Answers};
ghost use Rattle.dap_reply.specs.Order.{item_by, order_of};
ghost use Rattle.dap_reply.specs.Reply.{target_wanted, has_head_alone, target_asked};

use crate::fault::DapFault;
use crate::wanted::{Dap, Order};
use fm_base::{Fail, NoMemory, fault_as};
use fm_model::Site;
use std::alloc::Global;
use web_frame::{Method, Request};
use web_path::{Target, read_target};
use web_session::Asked;

// What a request asks for, or its first fault.
#[tactic(auto, unfolding(crate::specs::Reply::target_asked))]
fn target_asked(
    alloc: Global,
    request: Request,
    target: &[u8],
    site: &Site,
) -> Result<Target, Fail<DapFault>>
    ensures { Answers (target_asked site.now request target.now) result }
{
    if request.method == Method::Other {
        return Err(Fail::Fault(DapFault::Method));
    }
    if request.has_body {
        return Err(Fail::Fault(DapFault::BodyNotTaken));
    }
    fault_as(read_target(alloc, target, site), DapFault::Path)
}

// What an item asks for, or the first fault for which no collection is looked at.
#[tactic(auto, unfolding(crate::specs::Reply::target_wanted))]
fn target_wanted(
    alloc: Global,
    asked: Asked,
    target: &[u8],
    site: &Site,
) -> Result<Target, Fail<DapFault>>
    ensures { Answers (target_wanted site.now (item_by asked target.now)) result }
{
    match asked {
        Asked::BadHead => Err(Fail::Fault(DapFault::BadHead)),
        Asked::HeadTooLong => Err(Fail::Fault(DapFault::HeadTooLong)),
        Asked::Head(request) => target_asked(alloc, request, target, site),
    }
}

// Whether the reply has its head alone.
fn has_head_alone(asked: Asked, target: &[u8]) -> bool
    ensures { result ≡ has_head_alone (item_by asked target.now) }
{
    match asked {
        Asked::BadHead | Asked::HeadTooLong => false,
        Asked::Head(request) => matches!(request.method, Method::Head),
    }
}

/// What is to be done for what a session asks for, whose present target is handed in: the first of the faults for which
/// no collection is looked at, in their order, or a request that is wanted. `last` says whether the connection ends
/// after the reply.
#[tactic(auto, unfolding(crate::specs::Order::order_of))]
pub fn order(
    alloc: Global,
    asked: Asked,
    target: &[u8],
    last: bool,
    site: &Site,
) -> Result<Order, NoMemory>
    ensures { IfOk result (λ order. order ≡ order_of site.now (item_by asked target.now) last) }
{
    let head = has_head_alone(asked, target);
    match target_wanted(alloc, asked, target, site) {
        Ok(target) => Ok(Order::Wanted(Dap { target, head, last })),
        Err(Fail::Fault(fault)) => Ok(Order::Refused { fault, head, last }),
        Err(Fail::NoMemory) => Err(NoMemory),
    }
}
