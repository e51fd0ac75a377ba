//! The collections that words of `many` describe.
ghost use Rattle.std.specs.Prelude.{◌≡◌, ◌<◌, IfOk, IfSome, length, nat_eq, option_map, map};
ghost use Rattle.std.specs.List.{position};
ghost use Rattle.srv_words.specs.Collections as spec;
ghost use Rattle.srv_words.specs.Reads.{Reads};

use crate::job::{BadWords, Spec};
use crate::made::both;
use crate::site::default_site;
use crate::values::is_collection_name;
use fm_base::{Fail, List, NoMemory};
use std::alloc::Global;

/// The parts of `NAME=PROTO=INBOX`.
#[derive(Clone, Copy)]
pub(crate) struct Parts<'a> {
    pub name: &'a [u8],
    proto: &'a [u8],
    inbox: &'a [u8],
}

// The index of the first `=`.
fn first_equals(text: &[u8]) -> Option<usize>
    ensures at { result ≡ position (λ byte. nat_eq byte 61) text.now }
    ensures within { IfSome result (λ at. at < length text.now) }
{
    text.iter().position(|byte| *byte == b'=')
}

// What stands before and behind the first `=`.
#[tactic(auto, unfolding(crate::specs::Collections::cut_of))]
fn cut_of(text: &[u8]) -> Option<(&[u8], &[u8])>
    ensures { option_map (λ cut. (cut.0.now, cut.1.now)) result ≡ spec.cut_of text.now }
{
    let at = first_equals(text)?;
    Some((&text[..at], &text[at + 1..]))
}

// Whether a path may stand in such a word: it isn't empty, and has no `=`.
#[tactic(auto, unfolding(crate::specs::Collections::is_path))]
fn is_path(text: &[u8]) -> bool
    ensures { result ≡ spec.is_path text.now }
{
    !text.is_empty() && !text.contains(&b'=')
}

/// The parts of a word, where they have their forms.
#[tactic(auto, unfolding(crate::specs::Collections::parts_of))]
pub(crate) fn parts_of(word: &[u8]) -> Option<Parts<'_>>
    ensures { option_map (λ parts. (parts.name.now, parts.proto.now, parts.inbox.now)) result
        ≡ spec.parts_of word.now }
{
    let (name, rest) = cut_of(word)?;
    let (proto, inbox) = cut_of(rest)?;
    if !is_collection_name(name) || !is_path(proto) || !is_path(inbox) {
        return None;
    }
    Some(Parts { name, proto, inbox })
}

// Whether a collection has this name.
fn has_name(found: &[Spec], name: &[u8]) -> bool
    ensures { result ≡ spec.has_name name.now found.now }
{
    found.iter().any(|spec| spec.site.name.as_slice() == name)
}

// The collection of these parts, with the default epoch and the default mark.
fn spec_over(alloc: Global, parts: Parts<'_>) -> Result<Spec, NoMemory>
    ensures { IfOk result (λ found. let given = parts.entry in
        found ≡ spec.spec_over given.name.now given.proto.now given.inbox.now) }
{
    let site = default_site(alloc, parts.name)?;
    match both(alloc, parts.proto, parts.inbox) {
        Ok((proto, inbox)) => Ok(Spec { site, proto, inbox }),
        Err(NoMemory) => {
            drop(site);
            Err(NoMemory)
        }
    }
}

// The collection that a word describes, whose name none of those that were found has.
#[tactic(auto, unfolding(crate::specs::Collections::next_of))]
fn next_of(alloc: Global, found: &[Spec], word: &[u8]) -> Result<Spec, Fail<BadWords>>
    ensures { Reads (spec.next_of found.now word.now) result }
{
    let Some(parts) = parts_of(word) else {
        return Err(Fail::Fault(BadWords));
    };
    if has_name(found, parts.name) {
        return Err(Fail::Fault(BadWords));
    }
    Ok(spec_over(alloc, parts)?)
}

/// The collections that words describe, one after the other.
#[tactic(auto, using(crate::proofs::CollectionLemmas::specs), unfolding(crate::specs::Collections::specs_of, crate::specs::Collections::specs_from))]
pub(crate) fn specs_of(alloc: Global, words: &[&str]) -> Result<List<Spec>, Fail<BadWords>>
    ensures { Reads (spec.specs_of (map (λ word. word.now) words.now)) result }
{
    let mut specs = List::new(alloc);
    for word in words {
        match next_of(alloc, specs.as_slice(), word.as_bytes()) {
            Ok(next) => {
                if let Err(NoMemory) = specs.push(next) {
                    drop(specs);
                    return Err(Fail::NoMemory);
                }
            }
            Err(fail) => {
                drop(specs);
                return Err(fail);
            }
        }
    }
    Ok(specs)
}
