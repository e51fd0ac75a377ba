//! The site of a collection.
ghost use Rattle.std.specs.Prelude.{◌≡◌, IfOk, option_map};
ghost use Rattle.clap.specs.Matches.{found_of};
ghost use Rattle.clap.specs.Walk.{rows_of};
ghost use Rattle.srv_words.specs.Reads.{Reads};
ghost use Rattle.srv_words.specs.Sites as spec;
ghost use Rattle.srv_words.specs.Values as values;

use crate::job::BadWords;
use crate::matches::text_of;
use crate::values::{DEFAULT_EPOCH, MAX_MARK, epoch_of, is_collection_name};
use clap::ArgMatches;
use fm_base::{Bytes, Fail, NoMemory};
use fm_model::Site;
use std::alloc::Global;

// The name that a collection gets.
#[tactic(auto, unfolding(crate::specs::Sites::name_of))]
fn name_of<'a>(matches: &ArgMatches<'a>) -> Option<&'a [u8]>
    ensures { option_map (λ name. name.now) result ≡ spec.name_of (rows_of (found_of matches.now)) }
{
    match text_of(matches, "name") {
        Some(name) if is_collection_name(name) => Some(name),
        _ => None,
    }
}

// The mark of a collection of this name, where none is given.
fn default_mark(alloc: Global, name: &[u8]) -> Result<Bytes, NoMemory>
    ensures { IfOk result (λ mark. mark ≡ values.default_mark name.now) }
{
    let mut mark = Bytes::copy_of(alloc, name)?;
    match mark.append(b"_") {
        Ok(()) => Ok(mark),
        Err(NoMemory) => {
            drop(mark);
            Err(NoMemory)
        }
    }
}

// The mark of a collection of this name.
#[tactic(auto, unfolding(crate::specs::Values::mark_of))]
fn mark_of(alloc: Global, name: &[u8], given: Option<&[u8]>) -> Result<Bytes, Fail<BadWords>>
    ensures { Reads (values.mark_of name.now (option_map (λ mark. mark.now) given.entry)) result }
{
    match given {
        Some(mark) => {
            if mark.len() > MAX_MARK as usize {
                return Err(Fail::Fault(BadWords));
            }
            Ok(Bytes::copy_of(alloc, mark)?)
        }
        None => Ok(default_mark(alloc, name)?),
    }
}

// The site of a name, an epoch and a mark.
fn site_with(alloc: Global, name: &[u8], epoch: i64, mark: Bytes) -> Result<Site, NoMemory>
    ensures { IfOk result (λ site. site ≡ record { name = name.now; epoch = epoch; mark = mark }) }
{
    match Bytes::copy_of(alloc, name) {
        Ok(name) => Ok(Site { name, epoch, mark }),
        Err(NoMemory) => {
            drop(mark);
            Err(NoMemory)
        }
    }
}

// The site of a collection.
#[tactic(auto, unfolding(crate::specs::Sites::site_of))]
pub(crate) fn site_of(alloc: Global, matches: &ArgMatches<'_>) -> Result<Site, Fail<BadWords>>
    ensures { Reads (spec.site_of (rows_of (found_of matches.now))) result }
{
    let Some(name) = name_of(matches) else {
        return Err(Fail::Fault(BadWords));
    };
    let Some(epoch) = epoch_of(text_of(matches, "epoch")) else {
        return Err(Fail::Fault(BadWords));
    };
    let mark = mark_of(alloc, name, text_of(matches, "mark"))?;
    Ok(site_with(alloc, name, epoch, mark)?)
}

/// The site of a collection of this name, with the default epoch and the default mark.
pub(crate) fn default_site(alloc: Global, name: &[u8]) -> Result<Site, NoMemory>
    ensures { IfOk result (λ site. site ≡ spec.default_site name.now) }
{
    let mark = default_mark(alloc, name)?;
    site_with(alloc, name, DEFAULT_EPOCH, mark)
}
