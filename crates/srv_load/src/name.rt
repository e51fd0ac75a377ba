//! The names of made files.
ghost use Rattle.std.specs.Prelude.{◌≡◌, ◌+◌, ◌++◌, ◌<◌, ◌≤◌, IfOk, OnOk, drop, length, take};
ghost use Rattle.nc_model.specs.Instant.{HasFourDigitYear, instant_text_of};
ghost use Rattle.srv_load.specs.Name as spec;

use fm_base::{Bytes, NoMemory};
use std::alloc::Global;
use tm_units::instant_text;

// The epoch of the collection, 2020-01-01T00:00:00Z, in Unix seconds.
pub(crate) const EPOCH: u32 = 1_577_836_800;

// The seconds from a run to the next.
pub(crate) const STEP: u32 = 21_600;

// The run time of file k, in Unix seconds.
#[tactic(auto, using(crate::proofs::NameLemmas::names))]
pub(crate) fn run_time(k: u32) -> i64
    requires { k < 400 }
    ensures value { result ≡ spec.run_time k }
    ensures year { HasFourDigitYear result }
{
    i64::from(EPOCH + STEP * k)
}

// Appends some bytes of a text, from an offset on.
fn put_part(text: &[u8], from: usize, count: usize, out: &mut Bytes) -> Result<(), NoMemory>
    requires { from + count ≤ length text.now }
    ensures { OnOk result (out.new ≡ out.old ++ take count (drop from text.now)) }
{
    let (_, rest) = text.split_at(from);
    let (part, _) = rest.split_at(count);
    out.append(part)
}

// Appends the text of an instant as `yyyyMMdd_HHmm`.
fn put_stamp(text: &[u8], out: &mut Bytes) -> Result<(), NoMemory>
    requires { length text.now ≡ 20 }
    ensures { OnOk result (out.new ≡ out.old ++ spec.as_stamp text.now) }
{
    put_part(text, 0, 4, out)?;
    put_part(text, 5, 2, out)?;
    put_part(text, 8, 2, out)?;
    out.append(b"_")?;
    put_part(text, 11, 2, out)?;
    put_part(text, 14, 2, out)
}

// The text of the run time of file k.
pub(crate) fn put_run_time(alloc: Global, k: u32, out: &mut Bytes) -> Result<(), NoMemory>
    requires { k < 400 }
    ensures { OnOk result (out.new ≡ out.old ++ instant_text_of (spec.run_time k)) }
{
    instant_text(alloc, run_time(k), out)
}

// The name of file k.
#[tactic(auto, using(crate::proofs::NameLemmas::names), unfolding(crate::specs::Name::made_name))]
pub(crate) fn made_name(alloc: Global, k: u32) -> Result<Bytes, NoMemory>
    requires { k < 400 }
    ensures { IfOk result (λ name. name ≡ spec.made_name k) }
{
    let mut text = Bytes::new(alloc);
    put_run_time(alloc, k, &mut text)?;
    let mut name = Bytes::copy_of(alloc, b"load_")?;
    put_stamp(text.as_slice(), &mut name)?;
    name.append(b".nc")?;
    Ok(name)
}
