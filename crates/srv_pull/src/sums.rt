//! What a message comes to, and the line that says so.
ghost use Rattle.std.specs.Prelude.{◌≡◌, ◌+◌, ◌%◌, ◌^◌, sum};
ghost use Rattle.dev_traits.specs.Cause.{HasCause};
ghost use Rattle.srv_alone.specs.Report.{Appends};
ghost use Rattle.srv_pull.specs.Sums as spec;

use dap_client::{Column, Message};
use dev_traits::{Failed, Sink};
use itoa::Buffer;
use srv_alone::put_pieces;

// How many values a column has.
fn count_in(column: &Column) -> usize
    ensures { result ≡ spec.count_in column.now }
{
    match column {
        Column::Numbers(bits) => bits.len(),
        Column::Texts(words) => words.len(),
    }
}

// How many values a message has.
#[tactic(auto, using(crate::proofs::SumsLemmas::counts), unfolding(crate::specs::Sums::value_count))]
fn value_count(message: &Message) -> u128
    ensures { result ≡ spec.value_count message.now }
{
    let mut count = 0;
    for column in message.columns.as_slice() {
        count += u128::from(count_in(column) as u64);
    }
    count
}

// Adds numbers to a sum modulo 2^64.
fn added(start: u64, numbers: &[u64]) -> u64
    ensures { result ≡ (start + sum numbers.now) % 2 ^ 64 }
{
    let mut total = start;
    for bits in numbers {
        total = total.wrapping_add(*bits);
    }
    total
}

// Adds the numbers of a column to a sum modulo 2^64.
fn added_column(start: u64, column: &Column) -> u64
    ensures { result ≡ (start + spec.bits_in column.now) % 2 ^ 64 }
{
    match column {
        Column::Numbers(bits) => added(start, bits.as_slice()),
        Column::Texts(_) => start,
    }
}

// The sum of the bits of all numbers of a message, modulo 2^32.
#[tactic(auto, using(crate::proofs::SumsLemmas::sums), unfolding(crate::specs::Sums::bits_sum))]
fn bits_sum(message: &Message) -> u64
    ensures { result ≡ spec.bits_sum message.now }
{
    let mut total = 0;
    for column in message.columns.as_slice() {
        total = added_column(total, column);
    }
    total % 4_294_967_296
}

// Writes the line of a message, or its first bytes where the sink fails. It takes no memory.
#[tactic(auto, unfolding(crate::specs::Sums::message_line))]
pub(crate) fn put_message<S: Sink>(sink: &mut S, message: &Message) -> Result<(), Failed>
    ensures put { Appends (spec.message_line message.now) (S.shown sink.old).held (S.shown sink.new).held result }
    ensures cause { HasCause (S.shown sink.old).faults (S.shown sink.new).faults result }
{
    let mut parts = Buffer::new();
    let mut values = Buffer::new();
    let mut sum = Buffer::new();
    put_pieces(
        sink,
        &[
            b"label ".as_slice(),
            message.label.as_slice(),
            b" parts ".as_slice(),
            parts.format(message.columns.len()).as_bytes(),
            b" values ".as_slice(),
            values.format(value_count(message)).as_bytes(),
            b" sum ".as_slice(),
            sum.format(bits_sum(message)).as_bytes(),
            b"\n".as_slice(),
        ],
    )
}
