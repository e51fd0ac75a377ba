//! The bytes that one record takes, over all record variables.
ghost use Rattle.std.specs.Prelude.{◌≡◌, ◌<◌, ◌≤◌, ◌^◌, All, length, if◌then◌else◌, nat_lt};
ghost use Rattle.nc_model.specs.Format.{padded_len};
ghost use Rattle.nc_model.specs.Kind.{size_of};
ghost use Rattle.nc_model.specs.Layout.{record_size};
ghost use Rattle.nc_layout.specs.Kept.{vsizes_of};
ghost use Rattle.nc_layout.specs.Meaning.{IsSmall};

use crate::dims::is_record_var;
use nc_model::{Header, Kind};

fn padded_len(vsize: u64) -> u64
    requires { vsize ≤ 2 ^ 40 }
    ensures { result ≡ padded_len vsize }
{
    (vsize + 3) / 4 * 4
}

fn lone_len(kind: Kind, vsize: u64) -> u64
    requires { vsize ≤ 2 ^ 40 }
    ensures { result ≡ (if nat_lt (size_of kind) 4 then vsize else padded_len vsize) }
{
    if kind.size() < 4 {
        vsize
    } else {
        padded_len(vsize)
    }
}

// The bytes that one record takes. Each variable's part is padded to a multiple of four bytes, but where there is one
// record variable alone and its kind is smaller than four bytes.
#[tactic(auto, using(crate::proofs::RecordLemmas::records))]
pub(crate) fn record_size(header: &Header, vsizes: &[u64]) -> u128
    requires sizes { vsizes.now ≡ vsizes_of header.now }
    requires small { All (IsSmall header.now) header.now.vars }
    requires few { length header.now.vars < 2 ^ 32 }
    ensures value { result ≡ record_size header.now }
    ensures small { result < 2 ^ 73 }
{
    let mut count = 0u32;
    let mut padded = 0u128;
    let mut lone = 0u128;
    for (number, var) in header.vars.as_slice().iter().enumerate() {
        if is_record_var(header, var) {
            let vsize = vsizes[number];
            count += 1;
            padded += u128::from(padded_len(vsize));
            lone += u128::from(lone_len(var.kind, vsize));
        }
    }
    if count == 1 { lone } else { padded }
}
