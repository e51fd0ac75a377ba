//! Which view a path is of.
ghost use Rattle.std.specs.Prelude.{◌≡◌, ◌↔◌, ◌++◌, IsTrue, MatchOption, None, Some};
ghost use Rattle.std.specs.Fmt.{signed_decimal};
ghost use Rattle.std.specs.Option.{option_and_then};
ghost use Rattle.std.specs.Str.{bytes_eq};
ghost use Rattle.web_path.specs.Reading as spec;

use fm_model::{Site, ViewName};
use itoa::Buffer;
use std::str;
use tm_units::read_instant;

// What follows a text.
fn after_one<'a>(front: &[u8], text: &'a [u8]) -> Option<&'a [u8]>
    ensures { MatchOption result (spec.after front.now text.now ≡ None)
        (λ rest. spec.after front.now text.now ≡ Some rest.now) }
{
    text.strip_prefix(front)
}

// What follows three texts in a row.
#[tactic(auto, using(crate::proofs::FrontLemmas::fronts))]
fn after<'a>(first: &[u8], name: &[u8], last: &[u8], path: &'a [u8]) -> Option<&'a [u8]>
    ensures { MatchOption result (spec.after (first.now ++ name.now ++ last.now) path.now ≡ None)
        (λ rest. spec.after (first.now ++ name.now ++ last.now) path.now ≡ Some rest.now) }
{
    after_one(last, after_one(name, after_one(first, path)?)?)
}

// Whether a text is the decimal of a number.
fn is_decimal(number: i64, text: &[u8]) -> bool
    ensures { IsTrue result ↔ (text.now ≡ signed_decimal number) }
{
    let mut buffer = Buffer::new();
    buffer.format(number).as_bytes() == text
}

// The number of which a text is the decimal.
fn seconds_in(text: &[u8]) -> Option<i64>
    ensures { result ≡ spec.seconds_of text.now }
{
    match str::from_utf8(text) {
        Ok(digits) => match digits.parse::<i64>() {
            Ok(number) if is_decimal(number, text) => Some(number),
            Ok(_) => None,
            Err(_) => None,
        },
        Err(_) => None,
    }
}

// The number of which a text is the decimal and an `s`.
#[tactic(auto, unfolding(crate::specs::Reading::before_s))]
fn seconds_before_s(text: &[u8]) -> Option<i64>
    ensures { result ≡ option_and_then spec.seconds_of (spec.before_s text.now) }
{
    seconds_in(text.strip_suffix(b"s")?)
}

// An instant in either spelling.
#[tactic(auto, unfolding(crate::specs::Reading::moment_of, crate::specs::Reading::with_marks))]
fn moment_in(text: &[u8]) -> Option<i64>
    ensures { result ≡ spec.moment_of text.now }
{
    match text {
        [y0, y1, y2, y3, m0, m1, d0, d1, t, h0, h1, n0, n1, s0, s1, z] => read_instant(&[
            *y0, *y1, *y2, *y3, b'-', *m0, *m1, b'-', *d0, *d1, *t, *h0, *h1, b':', *n0, *n1, b':',
            *s0, *s1, *z,
        ]),
        _ => read_instant(text),
    }
}

// An instant in either spelling, as seconds from the epoch.
#[tactic(auto, unfolding(crate::specs::Reading::from_epoch, crate::specs::Reading::if_fits))]
fn seconds_from_epoch(text: &[u8], site: &Site) -> Option<i64>
    ensures { result ≡ option_and_then (spec.from_epoch site.now) (spec.moment_of text.now) }
{
    let moment = moment_in(text)?;
    i64::try_from(i128::from(moment) - i128::from(site.epoch)).ok()
}

// The number of seconds that is all of a path after three texts in a row, but for an `s` at the end.
fn seconds_after(first: &[u8], name: &[u8], last: &[u8], path: &[u8]) -> Option<i64>
    ensures { result ≡ spec.seconds_after (first.now ++ name.now ++ last.now) path.now }
{
    seconds_before_s(after(first, name, last, path)?)
}

// The instant that is all of a path after three texts in a row, as seconds from the epoch.
fn moment_after(first: &[u8], last: &[u8], path: &[u8], site: &Site) -> Option<i64>
    ensures { result ≡ spec.moment_after site.now (first.now ++ site.now.name ++ last.now) path.now }
{
    seconds_from_epoch(after(first, site.name.as_slice(), last, path)?, site)
}

// The view, other than the best time series, that a path below the root is of.
#[tactic(auto, unfolding(crate::specs::Reading::other_view))]
fn other_view(path: &[u8], site: &Site) -> Option<ViewName>
    ensures { result ≡ spec.other_view site.now path.now }
{
    let name = site.name.as_slice();
    if let Some(least) = seconds_after(b"best/", name, b"_BestGE_", path) {
        return Some(ViewName::BestFrom(least));
    }
    if let Some(run) = moment_after(b"runs/", b"_RUN_", path, site) {
        return Some(ViewName::Run(run));
    }
    if let Some(offset) = seconds_after(b"offset/", name, b"_Offset_", path) {
        return Some(ViewName::Offset(offset));
    }
    match moment_after(b"forecast/", b"_ConstantForecast_", path, site) {
        Some(valid) => Some(ViewName::Forecast(valid)),
        None => None,
    }
}

// Whether a text is two texts in a row.
#[tactic(auto, using(crate::proofs::FrontLemmas::rests))]
fn is_pair(first: &[u8], last: &[u8], text: &[u8]) -> bool
    ensures { result ≡ bytes_eq text.now (first.now ++ last.now) }
{
    match after_one(first, text) {
        Some(rest) => rest == last,
        None => false,
    }
}

// The view that a path below the root is of.
#[tactic(auto, unfolding(crate::specs::Reading::view_below))]
fn view_below(path: &[u8], site: &Site) -> Option<ViewName>
    ensures { result ≡ spec.view_below site.now path.now }
{
    if is_pair(site.name.as_slice(), b"_best.ncd", path) {
        return Some(ViewName::Best);
    }
    other_view(path, site)
}

// The view that a path is of.
#[tactic(auto, unfolding(crate::specs::Reading::view_of))]
pub(crate) fn read_view(path: &[u8], site: &Site) -> Option<ViewName>
    ensures { result ≡ spec.view_of site.now path.now }
{
    view_below(
        after(b"/thredds/dodsC/", site.name.as_slice(), b"/", path)?,
        site,
    )
}
