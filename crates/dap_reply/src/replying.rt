//! The reply to a request over an edition, and the reply that refuses.
ghost use Rattle.std.specs.Prelude.{◌≡◌, [], IfOk};
ghost use Rattle.dap_plan.specs.Parts.{bytes_of};
ghost use Rattle.dap_reply.specs.Planned.{answer_over, planned, refused};
ghost use Rattle.dap_reply.specs.Reply.{answer_head, headed, refusal_of, reply_parts, reply_text};
ghost use Rattle.dap_reply.specs.Head.{head_text};

use crate::asked::body_of;
use crate::body::{Answer, Body, BodyKind};
use crate::fault::DapFault;
use crate::head::{Head, put_head};
use crate::message::error_text;
use crate::status::Status;
use crate::wanted::Dap;
use dap_plan::Plan;
use fm_base::{Bytes, Fail, NoMemory};
use fm_edition::Edition;
use std::alloc::Global;

// What is answered to a fault.
#[tactic(auto, unfolding(crate::specs::Reply::refusal_of))]
fn refusal_of(alloc: Global, fault: &DapFault) -> Result<Answer, NoMemory>
    ensures { IfOk result (λ answer. answer ≡ refusal_of fault.now) }
{
    let text = error_text(alloc, fault)?;
    Ok(Answer {
        status: fault.status(),
        body: Body {
            kind: BodyKind::Error,
            bytes: Plan::ready(alloc, text),
        },
    })
}

// What is answered to a request over an edition.
#[tactic(auto, unfolding(crate::specs::Planned::answer_over))]
fn answer_over(alloc: Global, edition: &Edition, dap: &Dap) -> Result<Answer, NoMemory>
    ensures { IfOk result (λ answer. answer ≡ answer_over edition.now dap.now) }
{
    match body_of(alloc, edition, &dap.target) {
        Ok(body) => Ok(Answer {
            status: Status::Fine,
            body,
        }),
        Err(Fail::Fault(fault)) => refusal_of(alloc, &fault),
        Err(Fail::NoMemory) => Err(NoMemory),
    }
}

// How many bytes a head has at most, by and large.
const HEAD: usize = 256;

// No bytes yet, and room for a head.
fn with_room(alloc: Global) -> Result<Bytes, NoMemory>
    ensures { IfOk result (λ text. text ≡ []) }
{
    let items = Vec::with_capacity(alloc, HEAD)?;
    Ok(Bytes { items })
}

// The head of the reply with an answer.
fn answer_head(alloc: Global, answer: &Answer, revision: u64, last: bool) -> Result<Bytes, NoMemory>
    ensures { IfOk result (λ text. text ≡ head_text (answer_head answer.now revision last)) }
{
    let mut text = with_room(alloc)?;
    let head = Head {
        status: answer.status,
        kind: answer.body.kind,
        len: answer.body.bytes.len(),
        revision,
        last,
    };
    put_head(&head, &mut text)?;
    Ok(text)
}

// A head, and the body behind it but to HEAD.
#[tactic(auto, unfolding(crate::specs::Reply::headed))]
fn headed(alloc: Global, text: Bytes, body: Plan, head: bool) -> Result<Plan, NoMemory>
    ensures { IfOk result (λ plan. plan ≡ headed text body head) }
{
    if head {
        drop(body);
        return Ok(Plan::ready(alloc, text));
    }
    body.behind(text)
}

// The reply with an answer.
#[tactic(auto, unfolding(crate::specs::Reply::reply_parts))]
fn reply(
    alloc: Global,
    answer: Answer,
    revision: u64,
    head: bool,
    last: bool,
) -> Result<Plan, NoMemory>
    ensures { IfOk result (λ plan. plan ≡ reply_parts answer revision head last) }
{
    match answer_head(alloc, &answer, revision, last) {
        Ok(text) => headed(alloc, text, answer.body.bytes, head),
        Err(NoMemory) => {
            drop(answer);
            Err(NoMemory)
        }
    }
}

/// The reply to a request over an edition that `revision` operations left (ESE-RFC-004; RFC 9112): the head, and the
/// body but to HEAD, with the data left in the files. The body is what is asked for, or says the first fault.
#[tactic(auto, unfolding(crate::specs::Planned::planned), using(crate::proofs::ReplyLemmas::parts))]
pub fn plan(alloc: Global, edition: &Edition, revision: u64, dap: &Dap) -> Result<Plan, NoMemory>
    ensures parts { IfOk result (λ plan. plan ≡ planned edition.now revision dap.now) }
    ensures bytes { IfOk result (λ plan. bytes_of plan
        ≡ reply_text (answer_over edition.now dap.now) revision dap.now.head dap.now.last) }
{
    let answer = answer_over(alloc, edition, dap)?;
    reply(alloc, answer, revision, dap.head, dap.last)
}

/// The reply that refuses a request: the head, and the Error object but to HEAD. `revision` is the number of the
/// operations seen.
#[tactic(auto, unfolding(crate::specs::Planned::refused), using(crate::proofs::ReplyLemmas::parts))]
pub fn refusal(
    alloc: Global,
    fault: &DapFault,
    revision: u64,
    head: bool,
    last: bool,
) -> Result<Plan, NoMemory>
    ensures parts { IfOk result (λ plan. plan ≡ refused fault.now revision head last) }
    ensures bytes { IfOk result (λ plan. bytes_of plan
        ≡ reply_text (refusal_of fault.now) revision head last) }
{
    let answer = refusal_of(alloc, fault)?;
    reply(alloc, answer, revision, head, last)
}
