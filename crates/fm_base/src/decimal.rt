//! Numbers as decimal text.
ghost use Rattle.std.specs.Prelude.{◌≡◌, ◌++◌, OnOk, OnErr};
ghost use Rattle.std.specs.Fmt.{signed_decimal};

use crate::fail::NoMemory;
use crate::list::Bytes;
use std::alloc::Global;

/// Writes a number in decimal at the end of `out`, with `-` where it is below 0. An `Err` changes nothing.
pub fn put_decimal(alloc: Global, n: i128, out: &mut Bytes) -> Result<(), NoMemory>
    ensures ok { OnOk result (out.new ≡ out.old ++ signed_decimal n) }
    ensures err { OnErr result (out.new ≡ out.old) }
{
    let text = n.to_string(alloc)?;
    out.append(text.as_bytes())
}
