//! The runs and the offsets as whole seconds in 32 bits.
ghost use Rattle.std.specs.Prelude.{◌≡◌, ◌^◌, ◌<◌, All};
ghost use Rattle.fm_twod.specs.declared.cells.RunCells.{RunCells as Cells};
ghost use Rattle.fm_twod.specs.Laid as spec;

use crate::cells::RunCells;
use crate::lookup::{offset_at, run_at};
use fm_dataset::bits_of_seconds;

// The bits of the seconds at an index.
#[tactic(auto, unfolding(crate::specs::Laid::seconds_bits))]
pub(crate) fn seconds_bits(instants: &[i64], index: u64) -> u64
    requires { All spec.IsShort instants.now }
    ensures value { result ≡ spec.seconds_bits instants.now index }
    ensures width { result < 2 ^ 32 }
{
    match offset_at(instants, index) {
        None => 0,
        Some(seconds) => bits_of_seconds(seconds),
    }
}

// The bits of the run at an index.
#[tactic(auto, unfolding(crate::specs::Laid::run_bits))]
pub(crate) fn run_bits(runs: &[RunCells], index: u64) -> u64
    requires { All (λ (cells : Cells). spec.IsShort cells.run) runs.now }
    ensures value { result ≡ spec.run_bits runs.now index }
    ensures width { result < 2 ^ 32 }
{
    match run_at(runs, index) {
        None => 0,
        Some(cells) => bits_of_seconds(cells.run),
    }
}
