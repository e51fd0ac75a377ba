//! The values, by a sequence of numbers.
ghost use Rattle.std.specs.Prelude.{◌≡◌, ◌+◌, ◌++◌, ◌<◌, ◌*◌, IfOk, OnOk};
ghost use Rattle.fm_gen.specs.Fields.{word};
ghost use Rattle.fm_gen.specs.Values as spec;

use crate::fields::put_word;
use fm_base::{Bytes, NoMemory};

// The number of values of a record.
const VALUES: u32 = 64;

// The number of records of a file.
pub(crate) const RECORDS: u32 = 65;

// The number after a number of the sequence.
#[tactic(auto, unfolding(crate::specs::Values::next))]
fn next(x: u32) -> u32
    ensures { result ≡ spec.next x }
{
    ((1_664_525 * u64::from(x) + 1_013_904_223) % 4_294_967_296) as u32
}

// The bits of the value that a number of the sequence gives.
#[tactic(auto, unfolding(crate::specs::Values::bits_of))]
fn bits_of(x: u32) -> u32
    ensures { result ≡ spec.bits_of x }
{
    0x3f80_0000 + x / 512
}

// The first number of the sequence of file k.
#[tactic(auto, unfolding(crate::specs::Values::first_number))]
fn first_number(seed: u32, k: u32) -> u32
    ensures { result ≡ spec.first_number seed k }
{
    seed.wrapping_add(k)
}

// The values of a record, from a number of the sequence on. The number after the last of them is returned.
#[tactic(auto, unfolding(crate::specs::Values::values_text, crate::specs::Values::number_after))]
fn put_values(first: u32, out: &mut Bytes) -> Result<u32, NoMemory>
    ensures text { OnOk result (out.new ≡ out.old ++ spec.values_text first 64) }
    ensures number { IfOk result (λ x. x ≡ spec.number_after first 64) }
{
    let mut x = first;
    for _i in 0..VALUES {
        put_word(bits_of(x), out)?;
        x = next(x);
    }
    Ok(x)
}

// Record j of file k, whose first value is by the number x. The number of the next record is returned.
#[tactic(auto, using(crate::proofs::ValueLemmas::next_record), unfolding(crate::specs::Values::record_text))]
fn put_record(seed: u32, k: u32, j: u32, x: u32, out: &mut Bytes) -> Result<u32, NoMemory>
    requires few { k < 400 }
    requires within { j < 65 }
    requires number { x ≡ spec.number_at seed k (64 * j) }
    ensures text { OnOk result (out.new ≡ out.old ++ spec.record_text seed k j) }
    ensures number { IfOk result (λ x. x ≡ spec.number_at seed k (64 * (j + 1))) }
{
    put_word(21_600 * k + 3_600 * j, out)?;
    put_values(x, out)
}

/// The records of file k.
#[tactic(auto, using(crate::proofs::ValueLemmas::next_record), unfolding(crate::specs::Values::records_text))]
pub(crate) fn put_records(seed: u32, k: u32, out: &mut Bytes) -> Result<(), NoMemory>
    requires { k < 400 }
    ensures { OnOk result (out.new ≡ out.old ++ spec.records_text seed k 65) }
{
    let mut x = first_number(seed, k);
    for j in 0..RECORDS {
        x = put_record(seed, k, j, x, out)?;
    }
    Ok(())
}

/// The numbers from 0 to below n.
#[tactic(auto, unfolding(crate::specs::Values::steps_text))]
pub(crate) fn put_steps(n: u32, out: &mut Bytes) -> Result<(), NoMemory>
    ensures { OnOk result (out.new ≡ out.old ++ spec.steps_text n) }
{
    for i in 0..n {
        put_word(i, out)?;
    }
    Ok(())
}
