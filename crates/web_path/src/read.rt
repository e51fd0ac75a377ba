//! Reading a target.
ghost use Rattle.std.specs.Prelude.{◌≡◌, ◌+◌, ◌≤◌, IfOk, IfSome, length, take, drop};
ghost use Rattle.std.specs.Path.{rsplit_once};
ghost use Rattle.percent_encoding.specs.Percent as escapes;
ghost use Rattle.fm_base.specs.Answer.{Answers};
ghost use Rattle.web_path.specs.Target as spec;

use crate::escape::bad_escape;
use crate::fault::PathFault;
use crate::scan::{first_of, last_of};
use crate::target::{Service, Target};
use crate::view::read_view;
use fm_base::{Bytes, Fail, NoMemory};
use fm_model::Site;
use percent_encoding::percent_decode;
use std::alloc::Global;

// The bytes with each escape decoded. These are no more than there were.
fn decoded(alloc: Global, bytes: &[u8]) -> Result<Bytes, NoMemory>
    ensures { IfOk result (λ list. list ≡ escapes.percent_decode bytes.now) }
{
    let mut items = Vec::with_capacity(alloc, bytes.len())?;
    percent_decode(bytes).append_to(&mut items)?;
    Ok(Bytes { items })
}

// The service that the end of a path names.
#[tactic(auto, unfolding(crate::specs::Target::service_of))]
fn service_of(end: &[u8]) -> Option<Service>
    ensures { result ≡ spec.service_of end.now }
{
    if end == b"dds".as_slice() {
        Some(Service::Dds)
    } else if end == b"das".as_slice() {
        Some(Service::Das)
    } else if end == b"dods".as_slice() {
        Some(Service::Dods)
    } else {
        None
    }
}

// What stands after the last `/` of a path.
#[tactic(auto, unfolding(crate::specs::Target::label_of, std::specs::Path::rsplit_once))]
fn label_of(path: &[u8]) -> &[u8]
    ensures { result.now ≡ spec.label_of path.now }
{
    match last_of(b'/', path) {
        Some(at) => &path[at + 1..],
        None => path,
    }
}

// The request of a path and a constraint that are decoded.
#[tactic(auto, unfolding(crate::specs::Target::asked_of, std::specs::Path::rsplit_once))]
fn asked_of(
    alloc: Global,
    path: &[u8],
    constraint: Bytes,
    site: &Site,
) -> Result<Target, Fail<PathFault>>
    ensures { Answers (spec.asked_of site.now path.now constraint) result }
{
    let Some(dot) = last_of(b'.', path) else {
        return Err(Fail::Fault(PathFault::NoSuchDataset));
    };
    let front = &path[..dot];
    let Some(view) = read_view(front, site) else {
        return Err(Fail::Fault(PathFault::NoSuchDataset));
    };
    let Some(service) = service_of(&path[dot + 1..]) else {
        return Err(Fail::Fault(PathFault::NoSuchService));
    };
    let label = Bytes::copy_of(alloc, label_of(front))?;
    Ok(Target {
        view,
        service,
        constraint,
        label,
    })
}

// Where a `/` ends an authority: behind one or more bytes, none of them a `?`.
#[tactic(auto, unfolding(crate::specs::Target::authority_end))]
fn authority_end(rest: &[u8]) -> Option<usize>
    ensures end { result ≡ spec.authority_end rest.now }
    ensures within { IfSome result (λ end. end ≤ length rest.now) }
{
    let slash = first_of(b'/', rest);
    if 0 < slash && slash < first_of(b'?', rest) {
        Some(slash)
    } else {
        None
    }
}

// The path and query of a target: what follows its scheme and authority, or the whole of it where it has none.
#[tactic(auto, unfolding(crate::specs::Target::path_and_query), using(crate::proofs::AbsoluteLemmas::short))]
pub(crate) fn path_and_query(target: &[u8]) -> &[u8]
    ensures { result.now ≡ spec.path_and_query target.now }
{
    let Some((front, rest)) = target.split_at_checked(7) else {
        return target;
    };
    if !front.eq_ignore_ascii_case(b"http://".as_slice()) {
        return target;
    }
    match authority_end(rest) {
        Some(end) => &rest[end..],
        None => target,
    }
}

// What a path and query ask for, in which escapes are sound.
#[tactic(auto, unfolding(crate::specs::Target::asked_at))]
fn asked_at(alloc: Global, text: &[u8], site: &Site) -> Result<Target, Fail<PathFault>>
    ensures { Answers (spec.asked_at site.now text.now) result }
{
    let question = first_of(b'?', text);
    let path = decoded(alloc, &text[..question])?;
    let constraint = decoded(alloc, text.get(question + 1..).unwrap_or(b"".as_slice()))?;
    asked_of(alloc, path.as_slice(), constraint, site)
}

/// What a target asks for: a view of the collection, a service, a constraint and a label. The target may have the
/// absolute form, `http://AUTHORITY/..` (RFC 9112, section 3.2.2). A fault is the first that the target has, in the
/// order of the faults; the offset of a bad escape counts from the target's first byte.
#[tactic(auto, unfolding(crate::specs::Target::target_of))]
pub fn read_target(alloc: Global, target: &[u8], site: &Site) -> Result<Target, Fail<PathFault>>
    ensures { Answers (spec.target_of site.now target.now) result }
{
    if let Some(at) = bad_escape(target) {
        return Err(Fail::Fault(PathFault::BadEscape(at as u64)));
    }
    asked_at(alloc, path_and_query(target), site)
}
