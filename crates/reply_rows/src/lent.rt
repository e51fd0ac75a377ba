//! What replies lend of their data.

use super::collection::ItsProto;
use dap_reply::{Order, Plan, order};
use fm_model::Site;
use pub_look::{Look, Plain};
use row_text::Said;
use std::alloc::Global;
use web_frame::{Method, Request};
use web_session::Asked;

/// Puts how many bytes the reply to a GET lends from each of some offsets among its data. The words are its target and
/// the offsets. `None` where the target is refused, or memory runs out.
pub fn put_lent(alloc: Global, plain: &mut Plain, words: &str, out: &mut Said) -> Option<()> {
    let (target, offsets) = words.split_once(' ').unwrap_or((words, ""));
    let plan = plan_for(alloc, plain, target.as_bytes())?;
    let put = put_counts(&plan, offsets, out);
    drop(plan);
    put
}

fn put_counts(plan: &Plan, offsets: &str, out: &mut Said) -> Option<()> {
    out.put("lent");
    let ready = plan.front.len() as u64;
    for offset in offsets.split_whitespace() {
        let offset = offset.parse::<u32>().ok()?;
        out.put_number(
            " ",
            plan.lent(ready.saturating_add(u64::from(offset))).len(),
        );
    }
    Some(())
}

// The plan of the reply to a GET of a target.
fn plan_for(alloc: Global, plain: &mut Plain, target: &[u8]) -> Option<Plan> {
    let (proto, _) = plain.ask(alloc, &ItsProto).ok()?;
    plan_at(alloc, plain, &proto.get().site, target)
}

// The plan of the reply to a GET of a target at a site.
fn plan_at(alloc: Global, plain: &mut Plain, site: &Site, target: &[u8]) -> Option<Plan> {
    let get = Asked::Head(Request {
        method: Method::Get,
        close: false,
        has_body: false,
    });
    let Order::Wanted(dap) = order(alloc, get, target, false, site).ok()? else {
        return None;
    };
    let (plan, _) = plain.ask(alloc, &dap).ok()?;
    Some(plan)
}
