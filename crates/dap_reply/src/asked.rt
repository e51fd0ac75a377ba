//! The body that a target asks for.
ghost use Rattle.std.specs.Prelude.{◌≡◌, ◌<◌, ◌^◌, ◌++◌, [], All, IfOk, Ok, OnOk, codes, length};
ghost use Rattle.fm_base.specs.Answer.{Answers, AnswersAs};
ghost use Rattle.fm_model.specs.Rows as views;
ghost use Rattle.dap_model.specs.StructureText as texts;
ghost use Rattle.fm_dataset.specs.Declarations.{decls_of};
ghost use Rattle.dap_reply.specs.declared.body.BodyKind.{BodyKind as Kind};
ghost use Rattle.dap_reply.specs.Body.{attributes_asked, body_of, data_asked, data_behind_text, dataset_sent};
ghost use Rattle.dap_reply.specs.Body.{sent_asked, some_rows, some_shown, structure_asked, structure_by};
ghost use Rattle.dap_reply.specs.Body.{text_body, within_limit};
ghost use Rattle.dap_plan.specs.Laid.{AreLaid};
ghost use Rattle.dap_plan.specs.Parts.{bytes_of, IsSentOf};

use crate::body::{Body, BodyKind};
use crate::fault::DapFault;
use crate::projecting::text_asked;
use dap_das::das_text_of;
use dap_dds::dds_of;
use dap_model::{Decl, Sent};
use dap_plan::{Laid, Plan, lay_out};
use dap_project::whole_parts;
use fm_base::{Bytes, Fail, List, NoMemory};
use fm_dataset::{Dataset, decls};
use fm_edition::Edition;
use fm_model::Proto;
use fm_views::{row_count, shown};
use std::alloc::Global;
use web_path::{Service, Target};

/// The most bytes that a body may have.
pub const MAX_BODY: u64 = 536_870_912;

// Room behind a structure text for the line that follows it, and for the head of a reply.
const ROOM_BEHIND: usize = 512;

// How many rows a view has, of which there is one.
#[tactic(auto, unfolding(crate::specs::Body::some_rows))]
fn count_rows(alloc: Global, edition: &Edition, target: &Target) -> Result<u64, Fail<DapFault>>
    ensures { Answers (some_rows (length (views.rows edition.now.files target.now.view))) result }
{
    match row_count(alloc, edition, &target.view)? {
        0 => Err(Fail::Fault(DapFault::NoRows)),
        count => Ok(count),
    }
}

/// The dataset of a target's view, or the fault where the view has no row.
#[tactic(auto, unfolding(crate::specs::Body::some_shown))]
pub fn dataset_asked(
    alloc: Global,
    edition: &Edition,
    target: &Target,
) -> Result<Dataset, Fail<DapFault>>
    ensures { Answers (some_shown edition.now.proto edition.now.files target.now) result }
{
    match shown(alloc, edition, &target.view, target.label.as_slice()) {
        Ok(source) => Ok(source),
        Err(Fail::NoMemory) => Err(Fail::NoMemory),
        Err(Fail::Fault(_)) => Err(Fail::Fault(DapFault::NoRows)),
    }
}

// A body that is a text, within the limit.
#[tactic(auto, using(crate::proofs::LimitLemmas::texts))]
fn text_body(alloc: Global, kind: BodyKind, text: Bytes) -> Result<Body, Fail<DapFault>>
    ensures { Answers (within_limit (text_body kind text)) result }
{
    let len = text.len() as u128;
    if len > MAX_BODY as u128 {
        return Err(Fail::Fault(DapFault::TooLarge {
            len,
            limit: MAX_BODY,
        }));
    }
    Ok(Body {
        kind,
        bytes: Plan::ready(alloc, text),
    })
}

// The body that is this text.
fn structure_body(
    alloc: Global,
    target: &Target,
    decls: &List<Decl>,
) -> Result<Body, Fail<DapFault>>
    ensures { Answers (within_limit (text_body Kind.Structure (texts.dds_of target.now.label decls.now))) result }
{
    let text = dds_of(alloc, target.label.as_slice(), decls)?;
    text_body(alloc, BodyKind::Structure, text)
}

// The structure text of declarations for the constraint of a target. Without one they are sent as they stand.
#[tactic(auto, unfolding(crate::specs::Body::structure_of))]
fn structure_by(alloc: Global, target: &Target, decls: &List<Decl>) -> Result<Body, Fail<DapFault>>
    ensures { Answers (structure_by decls.now target.now) result }
{
    if target.constraint.is_empty() {
        return structure_body(alloc, target, decls);
    }
    let (text, _) = text_asked(alloc, target, decls.as_slice())?;
    text_body(alloc, BodyKind::Structure, text)
}

// The structure text that a target asks for.
#[tactic(auto, unfolding(crate::specs::Body::structure_asked))]
fn structure_asked(
    alloc: Global,
    edition: &Edition,
    target: &Target,
) -> Result<Body, Fail<DapFault>>
    ensures { Answers (structure_asked edition.now.proto edition.now.files target.now) result }
{
    let count = count_rows(alloc, edition, target)?;
    let decls = decls(alloc, edition.proto().get(), count)?;
    structure_by(alloc, target, &decls)
}

// The attribute text that a target asks for.
#[tactic(auto, unfolding(crate::specs::Body::attributes_asked))]
fn attributes_asked(
    alloc: Global,
    edition: &Edition,
    target: &Target,
) -> Result<Body, Fail<DapFault>>
    ensures { Answers (attributes_asked edition.now.proto edition.now.files target.now) result }
{
    // A view without rows has no attributes either.
    let _count = count_rows(alloc, edition, target)?;
    let mut text = Bytes::new(alloc);
    das_text_of(alloc, edition.proto().get(), &target.view, &mut text)?;
    text_body(alloc, BodyKind::Attributes, text)
}

// Where the data of a body lies behind its text, and how long the body is, within the limit.
fn laid_within(
    alloc: Global,
    front: &Bytes,
    source: &Dataset,
    sent: &List<Sent>,
) -> Result<(Laid, u64), Fail<DapFault>>
    requires sent { All (IsSentOf source.now) sent.now }
    requires few { length sent.now < 2 ^ 28 }
    ensures within { AnswersAs (λ _. data_behind_text front.now source.now sent.now)
        (within_limit (data_behind_text front.now source.now sent.now)) result }
    ensures laid { IfOk result (λ made. AreLaid source.now sent.now made.0) }
    ensures len { IfOk result (λ made. made.1
        ≡ length (bytes_of (data_behind_text front.now source.now sent.now).bytes)) }
    ensures few { IfOk result (λ made. made.1 < 2 ^ 63) }
{
    let layout = lay_out(alloc, source, sent.as_slice())?;
    let begin = front.len() as u128;
    let len = layout.len + begin;
    if len > MAX_BODY as u128 {
        return Err(Fail::Fault(DapFault::TooLarge {
            len,
            limit: MAX_BODY,
        }));
    }
    Ok((layout.parts, len as u64))
}

// A body that is data, within the limit.
fn data_body(
    alloc: Global,
    front: Bytes,
    source: Dataset,
    sent: List<Sent>,
) -> Result<Body, Fail<DapFault>>
    requires sent { All (IsSentOf source) sent }
    requires few { length sent < 2 ^ 28 }
    ensures { Answers (within_limit (data_behind_text front source sent)) result }
{
    match laid_within(alloc, &front, &source, &sent) {
        Ok((laid, len)) => Ok(Body {
            kind: BodyKind::Data,
            bytes: Plan::with_data(front, source, sent, laid, len),
        }),
        Err(fail) => {
            drop(source);
            Err(fail)
        }
    }
}

// Puts the line before the data behind a structure text, with room for the head of a reply.
fn put_data_line(text: &mut Bytes) -> Result<(), NoMemory>
    ensures { OnOk result (text.new ≡ text.old ++ codes "Data:\n") }
{
    text.items.reserve_exact(ROOM_BEHIND)?;
    text.append(b"Data:\n")
}

// The text before the data that a target asks for, and what is sent of all declarations, as they stand.
fn whole_asked(
    alloc: Global,
    target: &Target,
    decls: &List<Decl>,
) -> Result<(Bytes, List<Sent>), NoMemory>
    requires { target.now.constraint ≡ [] }
    ensures { IfOk result (λ asked. sent_asked decls.now target.now ≡ Ok asked) }
{
    let mut front = dds_of(alloc, target.label.as_slice(), decls)?;
    put_data_line(&mut front)?;
    let sent = whole_parts(alloc, decls.as_slice())?;
    Ok((front, sent))
}

// The text before the data that a target asks for, and what is sent of declarations. Without a constraint these are
// taken as they stand.
#[tactic(auto, unfolding(crate::specs::Body::structure_of))]
fn sent_asked(
    alloc: Global,
    target: &Target,
    decls: &List<Decl>,
) -> Result<(Bytes, List<Sent>), Fail<DapFault>>
    ensures { Answers (sent_asked decls.now target.now) result }
{
    if target.constraint.is_empty() {
        return Ok(whole_asked(alloc, target, decls)?);
    }
    let (mut front, sent) = text_asked(alloc, target, decls.as_slice())?;
    put_data_line(&mut front)?;
    Ok((front, sent))
}

// The data that a target asks for of a dataset.
fn dataset_sent(alloc: Global, target: &Target, source: Dataset) -> Result<Body, Fail<DapFault>>
    ensures { Answers (dataset_sent source target.now) result }
{
    // Few parts are sent, and each is one of the dataset, since the prototype is that of a file.
    let _proto = source.proto();
    match sent_asked(alloc, target, source.decls()) {
        Ok((front, sent)) => data_body(alloc, front, source, sent),
        Err(fail) => {
            drop(source);
            Err(fail)
        }
    }
}

// The data that a target asks for.
#[tactic(auto, unfolding(crate::specs::Body::data_asked))]
fn data_asked(alloc: Global, edition: &Edition, target: &Target) -> Result<Body, Fail<DapFault>>
    ensures { Answers (data_asked edition.now.proto edition.now.files target.now) result }
{
    let source = dataset_asked(alloc, edition, target)?;
    dataset_sent(alloc, target, source)
}

// The body that a target asks for over an edition.
#[tactic(auto, unfolding(crate::specs::Body::body_of))]
pub(crate) fn body_of(
    alloc: Global,
    edition: &Edition,
    target: &Target,
) -> Result<Body, Fail<DapFault>>
    ensures { Answers (body_of edition.now.proto edition.now.files target.now) result }
{
    match target.service {
        Service::Dds => structure_asked(alloc, edition, target),
        Service::Das => attributes_asked(alloc, edition, target),
        Service::Dods => data_asked(alloc, edition, target),
    }
}
