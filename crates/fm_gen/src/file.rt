//! A made file.
ghost use Rattle.std.specs.Prelude.{◌≡◌, ◌++◌, ◌<◌, IfOk, OnOk};
ghost use Rattle.fm_gen.specs.File as spec;

use crate::fields::{put_attr, put_dim, put_tagged, put_var_end, put_var_front, put_word};
use crate::values::{put_records, put_steps};
use fm_base::{Bytes, NoMemory};
use std::alloc::Global;

// The numbers of two kinds: whole numbers and floats of four bytes.
const INT: u32 = 4;

const FLOAT: u32 = 5;

// The dimensions.
#[tactic(auto, unfolding(crate::specs::File::dims_text))]
fn put_dims(out: &mut Bytes) -> Result<(), NoMemory>
    ensures { OnOk result (out.new ≡ out.old ++ spec.dims_text) }
{
    put_tagged(10, 3, out)?;
    put_dim(b"time", 0, out)?;
    put_dim(b"lat", 8, out)?;
    put_dim(b"lon", 8, out)
}

// The variable of the times.
#[tactic(auto, unfolding(crate::specs::File::time_text))]
fn put_time(out: &mut Bytes) -> Result<(), NoMemory>
    ensures { OnOk result (out.new ≡ out.old ++ spec.time_text) }
{
    put_var_front(b"time", &[0], out)?;
    put_tagged(12, 1, out)?;
    put_attr(b"units", b"seconds since 2020-01-01 00:00:00", out)?;
    put_var_end(INT, 4, 340, out)
}

// The variable of the latitudes.
#[tactic(auto, unfolding(crate::specs::File::lat_text))]
fn put_lat(out: &mut Bytes) -> Result<(), NoMemory>
    ensures { OnOk result (out.new ≡ out.old ++ spec.lat_text) }
{
    put_var_front(b"lat", &[1], out)?;
    put_tagged(0, 0, out)?;
    put_var_end(INT, 32, 276, out)
}

// The variable of the longitudes.
#[tactic(auto, unfolding(crate::specs::File::lon_text))]
fn put_lon(out: &mut Bytes) -> Result<(), NoMemory>
    ensures { OnOk result (out.new ≡ out.old ++ spec.lon_text) }
{
    put_var_front(b"lon", &[2], out)?;
    put_tagged(0, 0, out)?;
    put_var_end(INT, 32, 308, out)
}

// The variable of the values.
#[tactic(auto, unfolding(crate::specs::File::v_text))]
fn put_v(out: &mut Bytes) -> Result<(), NoMemory>
    ensures { OnOk result (out.new ≡ out.old ++ spec.v_text) }
{
    put_var_front(b"v", &[0, 1, 2], out)?;
    put_tagged(0, 0, out)?;
    put_var_end(FLOAT, 256, 344, out)
}

// The variables.
#[tactic(auto, unfolding(crate::specs::File::vars_text))]
fn put_vars(out: &mut Bytes) -> Result<(), NoMemory>
    ensures { OnOk result (out.new ≡ out.old ++ spec.vars_text) }
{
    put_tagged(11, 4, out)?;
    put_time(out)?;
    put_lat(out)?;
    put_lon(out)?;
    put_v(out)
}

// The header.
#[tactic(auto, unfolding(crate::specs::File::header_text))]
fn put_header(out: &mut Bytes) -> Result<(), NoMemory>
    ensures { OnOk result (out.new ≡ out.old ++ spec.header_text) }
{
    out.append(b"CDF\x01")?;
    put_word(65, out)?;
    put_dims(out)?;
    put_tagged(0, 0, out)?;
    put_vars(out)
}

/// File k that is made from a seed: a CDF-1 file of 17,240 bytes, with 65 times, which begin 21,600 k seconds after
/// 2020-01-01T00:00:00Z and are an hour apart, and 8 latitudes and longitudes. The values are those of a sequence of
/// numbers that the seed and k begin.
#[tactic(auto, unfolding(crate::specs::File::made_file))]
pub fn make_file(alloc: Global, seed: u32, k: u32) -> Result<Bytes, NoMemory>
    requires { k < 400 }
    ensures { IfOk result (λ bytes. bytes ≡ spec.made_file seed k) }
{
    let mut out = Bytes::new(alloc);
    put_header(&mut out)?;
    put_steps(8, &mut out)?;
    put_steps(8, &mut out)?;
    put_records(seed, k, &mut out)?;
    Ok(out)
}
