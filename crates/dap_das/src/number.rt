//! The numbers of an attribute.
ghost use Rattle.std.specs.Prelude.{◌≡◌, ◌<◌, ◌++◌, OnOk};
ghost use Rattle.dap_das.specs.AttributeText as spec;

use fm_base::{Bytes, NoMemory};
use fm_bits::{pattern_at, text_of};
use nc_model::Kind;
use std::alloc::Global;

/// How many values of a kind some bytes are.
#[tactic(auto, using(crate::proofs::Numbers::some_size))]
pub fn value_count(kind: Kind, values: &[u8]) -> usize
    ensures { result ≡ spec.value_count kind values.now }
{
    values.len() / usize::from(kind.size())
}

// The bytes of the value at an index.
#[tactic(auto, using(crate::proofs::Numbers::value_ends))]
fn value_at(kind: Kind, values: &[u8], i: usize) -> &[u8]
    requires { i < spec.value_count kind values.now }
    ensures { result.now ≡ spec.value_at kind values.now i }
{
    let size = usize::from(kind.size());
    let (_, rest) = values.split_at(i * size);
    let (value, _) = rest.split_at(size);
    value
}

// Writes the number at an index.
#[tactic(auto, unfolding(crate::specs::AttributeText::number_at))]
fn put_number(
    alloc: Global,
    kind: Kind,
    values: &[u8],
    i: usize,
    out: &mut Bytes,
) -> Result<(), NoMemory>
    requires { i < spec.value_count kind values.now }
    ensures { OnOk result (out.new ≡ out.old ++ spec.number_at kind values.now i) }
{
    match pattern_at(kind, value_at(kind, values, i)) {
        Some(p) => text_of(alloc, p, out),
        None => Ok(()),
    }
}

// Writes a number after another.
#[tactic(auto, unfolding(crate::specs::AttributeText::after_comma))]
fn put_next(
    alloc: Global,
    kind: Kind,
    values: &[u8],
    i: usize,
    out: &mut Bytes,
) -> Result<(), NoMemory>
    requires { i < spec.value_count kind values.now }
    ensures { OnOk result (out.new ≡ out.old ++ spec.after_comma (spec.number_at kind values.now i)) }
{
    out.append(b", ")?;
    put_number(alloc, kind, values, i, out)
}

// Writes all numbers, with `, ` between them.
#[tactic(auto, using(crate::proofs::Numbers::first_number))]
pub(crate) fn put_numbers(
    alloc: Global,
    kind: Kind,
    values: &[u8],
    out: &mut Bytes,
) -> Result<(), NoMemory>
    requires { 0 < spec.value_count kind values.now }
    ensures { OnOk result (out.new ≡ out.old
        ++ spec.numbers_text kind values.now (spec.value_count kind values.now)) }
{
    let count = value_count(kind, values);
    put_number(alloc, kind, values, 0, out)?;
    for i in 1..count {
        put_next(alloc, kind, values, i, out)?;
    }
    Ok(())
}
