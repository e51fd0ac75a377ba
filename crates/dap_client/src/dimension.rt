//! Dimensions of arrays, as `[time = 3][lat = 2]`.
ghost use Rattle.std.specs.Prelude.{◌≡◌, ◌+◌, ◌^◌, ◌<◌, ◌≤◌, length, true, false, IfOk, IfSome, IfNone};
ghost use Rattle.dap_client.specs.Reading as spec;
ghost use Rattle.dap_client.specs.Reading.{Reads};
ghost use Rattle.dap_client.specs.TextReading as text;

use crate::cursor::Cursor;
use crate::shape::{MOST_VALUES, Shape};
use fm_base::{Bytes, Fail, List};
use nc_model::Dim;
use std::alloc::Global;

// The number with one digit more, where it is from 1 to the limit.
fn with_digit(limit: u64, value: u64, byte: u8) -> Option<u64>
    requires small { limit < 2 ^ 32 }
    requires within { value ≤ limit }
    ensures some { IfSome result (λ next. spec.is_next_digit limit value byte ≡ true) }
    ensures value { IfSome result (λ next. next ≡ spec.with_digit value byte) }
    ensures range { IfSome result (λ next. (1 ≤ next) × (next ≤ limit)) }
    ensures none { IfNone result (spec.is_next_digit limit value byte ≡ false) }
{
    if !byte.is_ascii_digit() {
        return None;
    }
    let next = value * 10 + u64::from(byte - b'0');
    if next == 0 || limit < next {
        return None;
    }
    Some(next)
}

// Takes one digit more of a number, where one goes on from it.
#[tactic(auto, using(crate::proofs::SizeLemmas::sizes))]
fn read_digit(cursor: &mut Cursor<'_>, limit: u64, value: u64) -> Option<u64>
    requires small { limit < 2 ^ 32 }
    requires within { value ≤ limit }
    ensures some { IfSome result (λ next. spec.size_from limit value cursor.old.at cursor.old.rest
        ≡ spec.size_from limit next cursor.new.at cursor.new.rest) }
    ensures range { IfSome result (λ next. (1 ≤ next) × (next ≤ limit)) }
    ensures less { IfSome result (λ next. length cursor.old.rest ≡ length cursor.new.rest + 1) }
    ensures none { IfNone result (spec.size_from limit value cursor.old.at cursor.old.rest
        ≡ spec.bracket_at value cursor.new) }
{
    let byte = cursor.peek()?;
    let next = with_digit(limit, value, byte)?;
    cursor.step();
    Some(next)
}

// Takes the bracket behind a number.
#[tactic(auto, unfolding(crate::specs::Reading::bracket_at))]
fn read_bracket(cursor: &mut Cursor<'_>, value: u64) -> Result<u64, Fail<u64>>
    ensures read { Reads (λ n. n) (spec.bracket_at value cursor.old) result cursor.new }
    ensures some { IfOk result (λ n. (n ≡ value) × (1 ≤ n)) }
{
    if !cursor.next_is(b']') || value == 0 {
        return Err(Fail::Fault(cursor.at()));
    }
    cursor.step();
    Ok(value)
}

// Takes a size and the bracket behind it.
#[tactic(auto, using(crate::proofs::SizeLemmas::size_ended), unfolding(crate::specs::Reading::size_at))]
fn read_size(cursor: &mut Cursor<'_>, limit: u64) -> Result<u64, Fail<u64>>
    requires { limit < 2 ^ 32 }
    ensures read { Reads (λ n. n) (spec.size_at limit cursor.old) result cursor.new }
    ensures some { IfOk result (λ n. 1 ≤ n) }
{
    let left = cursor.left();
    let mut value = 0;
    for _turn in 0..left {
        match read_digit(cursor, limit, value) {
            Some(next) => value = next,
            None => return read_bracket(cursor, value),
        }
    }
    Err(Fail::Fault(cursor.at()))
}

// Reads a dimension behind its opening bracket.
#[tactic(auto, using(crate::proofs::SizeLemmas::room_after), unfolding(crate::specs::TextReading::dim_at))]
fn read_dim(alloc: Global, cursor: &mut Cursor<'_>, shape: &mut Shape) -> Result<(), Fail<u64>>
    requires { shape.old.room < 2 ^ 32 }
    ensures read { Reads (λ _. shape.new) (text.dim_at shape.old cursor.old) result cursor.new }
    ensures room { shape.new.room < 2 ^ 32 }
{
    let (name, _) = cursor.name_word(b' ', b' ')?;
    cursor.fixed(b"= ")?;
    let size = read_size(cursor, shape.room)?;
    let name = Bytes::copy_of(alloc, name)?;
    shape.dims.push(Dim { name, size })?;
    shape.room /= size;
    Ok(())
}

// Reads one dimension more, or the semicolon, and says which.
#[tactic(auto, unfolding(crate::specs::Reading::turn_at))]
fn read_dim_or_end(
    alloc: Global,
    cursor: &mut Cursor<'_>,
    shape: &mut Shape,
) -> Result<bool, Fail<u64>>
    requires { shape.old.room < 2 ^ 32 }
    ensures read { let mark = spec.mark_at 91 59 in
        Reads (λ more. (more, shape.new)) (spec.turn_at mark text.dim_at shape.old cursor.old) result cursor.new }
    ensures room { shape.new.room < 2 ^ 32 }
{
    if !cursor.mark(b'[', b';')? {
        return Ok(false);
    }
    read_dim(alloc, cursor, shape)?;
    Ok(true)
}

// Reads dimensions after the first, up to the semicolon.
#[tactic(auto, using(crate::proofs::TurnLemmas::turns))]
fn read_more_dims(
    alloc: Global,
    cursor: &mut Cursor<'_>,
    shape: &mut Shape,
) -> Result<(), Fail<u64>>
    requires { shape.old.room < 2 ^ 32 }
    ensures { let mark = spec.mark_at 91 59 in
        Reads (λ _. shape.new) (spec.items_at mark text.dim_at shape.old cursor.old) result cursor.new }
{
    let left = cursor.left();
    for _turn in 0..left {
        if !read_dim_or_end(alloc, cursor, shape)? {
            return Ok(());
        }
    }
    Err(Fail::Fault(cursor.at()))
}

// Reads one dimension or more, the first behind its opening bracket, up to the semicolon.
#[tactic(auto, unfolding(crate::specs::TextReading::some_dims_at))]
pub(crate) fn read_some_dims(alloc: Global, cursor: &mut Cursor<'_>) -> Result<List<Dim>, Fail<u64>>
    ensures { Reads (λ dims. dims) (text.some_dims_at cursor.old) result cursor.new }
{
    let mut shape = Shape {
        dims: List::new(alloc),
        room: MOST_VALUES,
    };
    read_dim(alloc, cursor, &mut shape)?;
    read_more_dims(alloc, cursor, &mut shape)?;
    Ok(shape.dims)
}

// Reads dimensions behind the byte after a name: the bracket of the first one, or the semicolon.
#[tactic(auto, unfolding(crate::specs::TextReading::dims_at))]
pub(crate) fn read_dims(
    alloc: Global,
    cursor: &mut Cursor<'_>,
    more: bool,
) -> Result<List<Dim>, Fail<u64>>
    ensures { Reads (λ dims. dims) (text.dims_at more cursor.old) result cursor.new }
{
    if more {
        read_some_dims(alloc, cursor)
    } else {
        Ok(List::new(alloc))
    }
}
