//! The values of options.
ghost use Rattle.std.specs.Prelude.{◌≡◌, MatchOption, None, Some, pos, option_map};
ghost use Rattle.std.specs.List.{list_all};
ghost use Rattle.std.specs.Option.{option_and_then};
ghost use Rattle.nc_model.specs.Instant.{instant_of};
ghost use Rattle.fm_model.specs.LoadTimes.{is_instant};
ghost use Rattle.fm_model.specs.Prototype.{is_plain_name};
ghost use Rattle.srv_words.specs.Values as spec;

use fm_base::is_name_byte;
use fm_model::{MAX_INSTANT, MAX_NAME};
use tm_units::read_instant;

/// 2020-01-01T00:00:00Z.
pub(crate) const DEFAULT_EPOCH: i64 = 1_577_836_800;

/// 0100-01-01T00:00:00Z.
pub(crate) const FIRST_EPOCH: i64 = -59_011_459_200;

/// 9900-12-31T23:59:59Z.
pub(crate) const LAST_EPOCH: i64 = 250_278_163_199;

/// The most bytes of a mark that stands in the words.
pub(crate) const MAX_MARK: u32 = 64;

// Whether a name has letters, digits, `_` and `-` alone.
#[tactic(auto, unfolding(fm_model::specs::Prototype::is_plain_name))]
fn is_plain(name: &[u8]) -> bool
    ensures { result ≡ is_plain_name name.now }
{
    name.iter().all(|byte| is_name_byte(*byte))
}

// Whether a collection may have this name.
#[tactic(auto, unfolding(crate::specs::Values::is_collection_name))]
pub(crate) fn is_collection_name(name: &[u8]) -> bool
    ensures { result ≡ spec.is_collection_name name.now }
{
    1 <= name.len() && name.len() <= MAX_NAME as usize && is_plain(name)
}

// Whether a byte is a visible character of ASCII.
fn is_visible_byte(byte: u8) -> bool
    ensures { result ≡ spec.is_visible_byte byte }
{
    0x21 <= byte && byte <= 0x7e
}

// Whether a text has visible characters of ASCII alone.
fn are_visible(text: &[u8]) -> bool
    ensures { result ≡ list_all spec.is_visible_byte text.now }
{
    text.iter().all(|byte| is_visible_byte(*byte))
}

/// Whether a text has 1 to `most` visible characters of ASCII, and nothing else.
#[tactic(auto, unfolding(crate::specs::Values::is_visible))]
pub(crate) fn is_visible(most: u32, text: &[u8]) -> bool
    ensures { result ≡ spec.is_visible most text.now }
{
    1 <= text.len() && text.len() <= most as usize && are_visible(text)
}

// Whether a collection may have this epoch.
#[tactic(auto, unfolding(crate::specs::Values::is_epoch))]
fn is_epoch(t: i64) -> bool
    ensures { result ≡ spec.is_epoch t }
{
    (FIRST_EPOCH..=LAST_EPOCH).contains(&t)
}

// The epoch that a text writes, and the default one where there is none.
#[tactic(auto, unfolding(crate::specs::Values::epoch_of, crate::specs::Values::epoch_at))]
pub(crate) fn epoch_of(text: Option<&[u8]>) -> Option<i64>
    ensures { result ≡ spec.epoch_of (option_map (λ t. t.now) text.entry) }
{
    let Some(text) = text else {
        return Some(DEFAULT_EPOCH);
    };
    let t = read_instant(text)?;
    if !is_epoch(t) {
        return None;
    }
    Some(t)
}

// The text after a front, where it isn't empty.
#[tactic(auto, unfolding(crate::specs::Values::rest_of))]
pub(crate) fn rest_of<'a>(front: &[u8], text: &'a [u8]) -> Option<&'a [u8]>
    ensures { option_map (λ rest. rest.now) result ≡ spec.rest_of front.now text.now }
{
    if text.starts_with(front) && front.len() < text.len() {
        Some(&text[front.len()..])
    } else {
        None
    }
}

// Whether seconds from an epoch are an instant that a collection may have.
#[tactic(auto, unfolding(fm_model::specs::LoadTimes::is_instant))]
fn is_instant(seconds: i128) -> bool
    ensures { result ≡ is_instant seconds }
{
    -i128::from(MAX_INSTANT) <= seconds && seconds <= i128::from(MAX_INSTANT)
}

// Seconds from an epoch, where they are an instant that a collection may have.
#[tactic(auto, using(fm_model::proofs::RunLemmas::instant_fits), unfolding(crate::specs::Values::if_instant))]
fn if_instant(seconds: i128) -> Option<i64>
    ensures { result ≡ spec.if_instant seconds }
{
    if !is_instant(seconds) {
        return None;
    }
    Some(seconds as i64)
}

// An instant as seconds from an epoch, where a collection may have it.
#[tactic(auto, unfolding(crate::specs::Values::from_epoch))]
pub(crate) fn from_epoch(epoch: i64, t: i64) -> Option<i64>
    ensures { result ≡ spec.from_epoch epoch t }
{
    if_instant(i128::from(t) - i128::from(epoch))
}
