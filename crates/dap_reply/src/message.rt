//! What is said of a fault, and the Error object that says it (ESE-RFC-004).
ghost use Rattle.std.specs.Prelude.{◌≡◌, ◌++◌, IfOk, OnOk, codes};
ghost use Rattle.std.specs.Fmt.{decimal};
ghost use Rattle.dap_reply.specs.declared.fault.DapFault.{DapFault};
ghost use Rattle.dap_reply.specs.Fault.{code_lines, message_lines};
ghost use Rattle.dap_reply.specs.Fault.{constraint_message, error_text, fault_message, path_message, projection_message};

use crate::fault::DapFault;
use dap_model::{CeFault, ProjectFault};
use fm_base::{Bytes, NoMemory, put_decimal};
use fm_bits::put_quoted;
use std::alloc::Global;
use web_path::PathFault;

// Writes a number.
fn put_number(alloc: Global, number: u64, out: &mut Bytes) -> Result<(), NoMemory>
    ensures { OnOk result (out.new ≡ out.old ++ decimal number) }
{
    put_decimal(alloc, i128::from(number), out)
}

// Writes some words and a number.
fn put_numbered(alloc: Global, words: &[u8], number: u64, out: &mut Bytes) -> Result<(), NoMemory>
    ensures { OnOk result (out.new ≡ out.old ++ (words.now ++ decimal number)) }
{
    out.append(words)?;
    put_number(alloc, number, out)
}

// Writes what is said of a constraint.
#[tactic(auto, unfolding(crate::specs::Fault::constraint_message))]
fn put_constraint(alloc: Global, fault: CeFault, out: &mut Bytes) -> Result<(), NoMemory>
    ensures { OnOk result (out.new ≡ out.old ++ constraint_message fault) }
{
    match fault {
        CeFault::BadConstraint(at) => put_numbered(alloc, b"constraint wrong at ", at, out),
        CeFault::Selection(at) => put_numbered(alloc, b"selection at ", at, out),
    }
}

// Writes some words and a name.
fn put_named(words: &[u8], name: &[u8], out: &mut Bytes) -> Result<(), NoMemory>
    ensures { OnOk result (out.new ≡ out.old ++ (words.now ++ name.now)) }
{
    out.append(words)?;
    out.append(name)
}

// Writes how many slabs a name takes and has.
fn put_slab_rank(
    alloc: Global,
    name: &[u8],
    got: u64,
    rank: u64,
    out: &mut Bytes,
) -> Result<(), NoMemory>
    ensures { OnOk result (out.new ≡ out.old
        ++ (name.now ++ codes " takes " ++ decimal rank ++ codes " slabs and has " ++ decimal got)) }
{
    out.append(name)?;
    put_numbered(alloc, b" takes ", rank, out)?;
    put_numbered(alloc, b" slabs and has ", got, out)
}

// Writes which slab of a name is outside its dimension.
fn put_slab_range(
    alloc: Global,
    name: &[u8],
    dim: u64,
    size: u64,
    out: &mut Bytes,
) -> Result<(), NoMemory>
    ensures { OnOk result (out.new ≡ out.old
        ++ (codes "slab " ++ decimal dim ++ codes " of " ++ name.now ++ codes " is outside " ++ decimal size)) }
{
    put_numbered(alloc, b"slab ", dim, out)?;
    put_named(b" of ", name, out)?;
    put_numbered(alloc, b" is outside ", size, out)
}

// Writes that a name has two lists of slabs.
fn put_slab_conflict(name: &[u8], out: &mut Bytes) -> Result<(), NoMemory>
    ensures { OnOk result (out.new ≡ out.old ++ (name.now ++ codes " has two lists of slabs")) }
{
    out.append(name)?;
    out.append(b" has two lists of slabs")
}

// Writes what is said of a projection.
#[tactic(auto, unfolding(crate::specs::Fault::projection_message))]
fn put_projection(alloc: Global, fault: &ProjectFault, out: &mut Bytes) -> Result<(), NoMemory>
    ensures { OnOk result (out.new ≡ out.old ++ projection_message fault.now) }
{
    match fault {
        ProjectFault::NoSuchVariable(name) => put_named(b"no variable ", name.as_slice(), out),
        ProjectFault::SlabRank { name, got, rank } => {
            put_slab_rank(alloc, name.as_slice(), *got, *rank, out)
        }
        ProjectFault::SlabRange { name, dim, size } => {
            put_slab_range(alloc, name.as_slice(), *dim, *size, out)
        }
        ProjectFault::SlabConflict(name) => put_slab_conflict(name.as_slice(), out),
    }
}

// Writes what is said of a target.
#[tactic(auto, unfolding(crate::specs::Fault::path_message))]
fn put_path(alloc: Global, fault: PathFault, out: &mut Bytes) -> Result<(), NoMemory>
    ensures { OnOk result (out.new ≡ out.old ++ path_message fault) }
{
    match fault {
        PathFault::BadEscape(at) => put_numbered(alloc, b"bad escape at ", at, out),
        PathFault::NoSuchDataset => out.append(b"no such dataset"),
        PathFault::NoSuchService => out.append(b"no such service"),
    }
}

// Writes some words and a number that 64 bits may not hold.
fn put_long(alloc: Global, words: &[u8], number: u128, out: &mut Bytes) -> Result<(), NoMemory>
    ensures { OnOk result (out.new ≡ out.old ++ (words.now ++ decimal number)) }
{
    let digits = number.to_string(alloc)?;
    out.append(words)?;
    out.append(digits.as_bytes())
}

// Writes what is said of a body that is too large.
#[tactic(auto, unfolding(crate::specs::Fault::fault_message))]
fn put_too_large(alloc: Global, len: u128, limit: u64, out: &mut Bytes) -> Result<(), NoMemory>
    ensures { OnOk result (out.new ≡ out.old ++ fault_message (DapFault.TooLarge len limit)) }
{
    put_long(alloc, b"body of ", len, out)?;
    put_numbered(alloc, b" bytes is over ", limit, out)
}

// Writes what is said of a fault.
#[tactic(auto, unfolding(crate::specs::Fault::fault_message))]
fn put_message(alloc: Global, fault: &DapFault, out: &mut Bytes) -> Result<(), NoMemory>
    ensures { OnOk result (out.new ≡ out.old ++ fault_message fault.now) }
{
    match fault {
        DapFault::Constraint(fault) => put_constraint(alloc, *fault, out),
        DapFault::Projection(fault) => put_projection(alloc, fault, out),
        DapFault::Path(fault) => put_path(alloc, *fault, out),
        DapFault::TooLarge { len, limit } => put_too_large(alloc, *len, *limit, out),
        DapFault::Method => out.append(b"method not taken"),
        DapFault::BodyNotTaken => out.append(b"body not taken"),
        DapFault::NoRows => out.append(b"no rows"),
        DapFault::BadHead => out.append(b"bad request head"),
        DapFault::HeadTooLong => out.append(b"request head over 16384 bytes"),
    }
}

// Writes a text between others.
fn put_between(before: &[u8], text: &[u8], after: &[u8], out: &mut Bytes) -> Result<(), NoMemory>
    ensures { OnOk result (out.new ≡ out.old ++ (before.now ++ (text.now ++ after.now))) }
{
    out.append(before)?;
    out.append(text)?;
    out.append(after)
}

// Writes the lines up to the number.
#[tactic(auto, unfolding(crate::specs::Fault::code_lines))]
fn put_code(alloc: Global, fault: &DapFault, out: &mut Bytes) -> Result<(), NoMemory>
    ensures { OnOk result (out.new ≡ out.old ++ code_lines fault.now) }
{
    let mut code = Bytes::new(alloc);
    put_decimal(alloc, i128::from(fault.code()), &mut code)?;
    put_between(b"Error {\n    code = ", code.as_slice(), b";\n", out)
}

// Writes the lines from the message on.
#[tactic(auto, unfolding(crate::specs::Fault::message_lines))]
fn put_message_lines(alloc: Global, fault: &DapFault, out: &mut Bytes) -> Result<(), NoMemory>
    ensures { OnOk result (out.new ≡ out.old ++ message_lines fault.now) }
{
    let mut message = Bytes::new(alloc);
    put_message(alloc, fault, &mut message)?;
    let mut quoted = Bytes::new(alloc);
    put_quoted(alloc, message.as_slice(), &mut quoted)?;
    put_between(b"    message = ", quoted.as_slice(), b";\n};\n", out)
}

// The Error object of a fault.
#[tactic(auto, unfolding(crate::specs::Fault::error_text))]
pub(crate) fn error_text(alloc: Global, fault: &DapFault) -> Result<Bytes, NoMemory>
    ensures { IfOk result (λ text. text ≡ error_text fault.now) }
{
    let mut text = Bytes::new(alloc);
    put_code(alloc, fault, &mut text)?;
    put_message_lines(alloc, fault, &mut text)?;
    Ok(text)
}
