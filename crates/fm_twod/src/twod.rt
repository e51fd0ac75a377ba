//! The bytes of a two-dimensional view, of which the data stays in the files.
ghost use Rattle.std.specs.Prelude.{◌≡◌, ◌-◌, ◌^◌, ◌<◌, ◌≤◌, All, drop, length, min};
ghost use Rattle.dap_number.specs.Overlay.{overlay};
ghost use Rattle.fm_twod.specs.Parts.{bytes_of, IsSentOf};

use crate::data::put_data;
use crate::grid::Grid;
use dap_model::Sent;
use dap_number::put;
use fm_base::{Bytes, List};
use std::marker::Model;

/// The bytes that are asked for of a two-dimensional view: those before the first byte of its data, and what is sent of
/// it behind them. It holds the files that it needs, and no data.
#[derive(Drop)]
pub struct Twod {
    front: Bytes,
    grid: Grid,
    sent: List<Sent>,
    len: u64,
}

impl Model for Twod {
    ghost use Rattle.fm_twod.specs.Parts.{Body, IsBody};

    ghost Value = { Body };

    ghost view = { λ twod. record { front = twod.front; laid = twod.grid; sent = twod.sent } };

    ghost invariant = { λ twod.
        IsBody (record { front = twod.front; laid = twod.grid; sent = twod.sent }) twod.len };
}

impl Twod {
    // Some bytes stand ready, and behind them is the data of what is sent of a view, `len` bytes with them.
    pub(crate) fn new(front: Bytes, grid: Grid, sent: List<Sent>, len: u64) -> Twod
        requires sent { All (IsSentOf grid) sent }
        requires len { len ≡ length (bytes_of (record { front = front; laid = grid; sent = sent })) }
        requires few { len < 2 ^ 63 }
        ensures { result ≡ record { front = front; laid = grid; sent = sent } }
    {
        Twod {
            front,
            grid,
            sent,
            len,
        }
    }

    /// How many bytes there are.
    pub fn len(&self) -> u64
        ensures { result ≡ length (bytes_of self.now) }
    {
        self.len
    }

    /// Writes the bytes from an offset on over the front of a buffer, as many as fit, and returns how many that are. It
    /// takes no memory. The offset is at most `len`.
    pub fn piece(&self, from: u64, out: &mut [u8]) -> usize
        requires { from ≤ length (bytes_of self.now) }
        ensures count { result ≡ min (length out.old) (length (bytes_of self.now) - from) }
        ensures bytes { out.new ≡ overlay (drop from (bytes_of self.now)) out.old }
    {
        let count = put(self.front.as_slice(), from, out);
        let from = from.saturating_sub(self.front.len() as u64);
        let (_, rest) = out.split_at_mut(count);
        let more = put_data(&self.grid, self.sent.as_slice(), from, rest);
        count + more
    }
}
