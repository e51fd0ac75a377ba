//! The sum of the bytes of a plan, slice by slice.
ghost use Rattle.std.specs.Prelude.{◌≡◌, ◌+◌, ◌%◌, ◌^◌, ◌<◌, ◌≤◌, drop, length, sum, take};
ghost use Rattle.dap_reply.specs.Parts.{bytes_of};
ghost use Rattle.srv_load.specs.Asked.{sum_of};

use dap_reply::Plan;

// Adds bytes to a sum modulo 2^32.
fn added(start: u32, bytes: &[u8]) -> u32
    ensures { result ≡ (start + sum bytes.now) % 2 ^ 32 }
{
    let mut total = start;
    for byte in bytes {
        total = total.wrapping_add(u32::from(*byte));
    }
    total
}

// Adds the next bytes of a plan to a sum, from an offset. Bytes that stand ready or in a file are added as they lie
// there, where they fill the room or are all that is left; else the room is filled. Returns the sum and the number of
// bytes.
fn added_next(start: u32, plan: &Plan, from: u64, room: &mut [u8]) -> (u32, usize)
    requires offset { from < length (bytes_of plan.now) }
    requires room { 0 < length room.old }
    ensures some { 0 < result.1 }
    ensures within { from + result.1 ≤ length (bytes_of plan.now) }
    ensures sum { result.0 ≡ (start + sum (take result.1 (drop from (bytes_of plan.now)))) % 2 ^ 32 }
{
    let lent = plan.lent(from);
    if lent.len() >= room.len() || lent.len() as u64 == plan.len() - from {
        return (added(start, lent), lent.len());
    }
    let count = plan.piece(from, room);
    let (piece, _) = room.split_at(count);
    (added(start, piece), count)
}

// The sum of the bytes of a plan from an offset on, modulo 2^32.
#[tactic(auto, using(crate::proofs::SumLemmas::sums), unfolding(crate::specs::Asked::sum_of))]
pub(crate) fn sum_from(plan: &Plan, from: u64) -> u32
    requires { from ≤ length (bytes_of plan.now) }
    ensures { result ≡ sum_of (drop from (bytes_of plan.now)) }
{
    let mut room = [0; 8192];
    let mut total = 0;
    let mut offset = from;
    while offset < plan.len() {
        let (more, count) = added_next(total, plan, offset, &mut room);
        total = more;
        offset += count as u64;
    }
    total
}
