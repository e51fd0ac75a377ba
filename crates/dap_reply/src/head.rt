//! The head of a reply (RFC 9112; ESE-RFC-004, the headers of a response).
ghost use Rattle.std.specs.Prelude.{◌≡◌, ◌++◌, OnOk, codes};
ghost use Rattle.std.specs.Fmt.{decimal};
ghost use Rattle.dap_reply.specs.Head.{last_lines, status_line};
ghost use Rattle.dap_reply.specs.Head.{allow_line, connection_word, count_lines, head_line, head_text, kind_lines};

use crate::body::BodyKind;
use crate::status::Status;
use fm_base::{Bytes, NoMemory};
use itoa::Buffer;

/// What a head says: the status, what the body is, how many bytes it has, how many operations left the collection, and
/// whether the connection ends.
#[derive(Clone, Copy)]
pub struct Head {
    pub status: Status,
    pub kind: BodyKind,
    pub len: u64,
    pub revision: u64,
    pub last: bool,
}

// Writes a line.
#[tactic(auto, unfolding(crate::specs::Head::head_line))]
fn put_line(name: &[u8], value: &[u8], out: &mut Bytes) -> Result<(), NoMemory>
    ensures { OnOk result (out.new ≡ out.old ++ head_line name.now value.now) }
{
    out.append(name)?;
    out.append(b": ")?;
    out.append(value)?;
    out.append(b"\r\n")
}

// Writes a line with a number.
#[tactic(auto, unfolding(crate::specs::Head::head_line))]
fn put_number(name: &[u8], number: u64, out: &mut Bytes) -> Result<(), NoMemory>
    ensures { OnOk result (out.new ≡ out.old ++ head_line name.now (decimal number)) }
{
    out.append(name)?;
    out.append(b": ")?;
    let mut buffer = Buffer::new();
    out.append(buffer.format(number).as_bytes())?;
    out.append(b"\r\n")
}

// Writes the first line.
#[tactic(auto, unfolding(crate::specs::Head::status_line))]
fn put_status(status: Status, out: &mut Bytes) -> Result<(), NoMemory>
    ensures { OnOk result (out.new ≡ out.old ++ status_line status) }
{
    out.append(b"HTTP/1.1 ")?;
    out.append(status.text())?;
    out.append(b"\r\n")
}

// Writes whether the connection stays.
#[tactic(auto, unfolding(crate::specs::Head::connection_word))]
fn put_connection(last: bool, out: &mut Bytes) -> Result<(), NoMemory>
    ensures { OnOk result (out.new ≡ out.old ++ head_line (codes "Connection") (connection_word last)) }
{
    if last {
        put_line(b"Connection", b"close", out)
    } else {
        put_line(b"Connection", b"keep-alive", out)
    }
}

// Writes the methods that are taken, where one wasn't.
#[tactic(auto, unfolding(crate::specs::Head::allow_line))]
fn put_allow(status: Status, out: &mut Bytes) -> Result<(), NoMemory>
    ensures { OnOk result (out.new ≡ out.old ++ allow_line status) }
{
    match status {
        Status::NotAllowed => put_line(b"Allow", b"GET, HEAD", out),
        _ => Ok(()),
    }
}

// Writes what the body is.
#[tactic(auto, unfolding(crate::specs::Head::kind_lines))]
fn put_kind(kind: BodyKind, out: &mut Bytes) -> Result<(), NoMemory>
    ensures { OnOk result (out.new ≡ out.old ++ kind_lines kind) }
{
    put_line(b"Content-Description", kind.description(), out)?;
    put_line(b"Content-Type", kind.media(), out)
}

// Writes how many operations left the collection, and how many bytes the body has.
#[tactic(auto, unfolding(crate::specs::Head::count_lines))]
fn put_counts(revision: u64, len: u64, out: &mut Bytes) -> Result<(), NoMemory>
    ensures { OnOk result (out.new ≡ out.old ++ count_lines revision len) }
{
    put_number(b"X-Collection-Revision", revision, out)?;
    put_number(b"Content-Length", len, out)
}

// Writes whether the connection stays, and the end of the head.
#[tactic(auto, unfolding(crate::specs::Head::last_lines))]
fn put_last(status: Status, last: bool, out: &mut Bytes) -> Result<(), NoMemory>
    ensures { OnOk result (out.new ≡ out.old ++ last_lines status last) }
{
    put_connection(last, out)?;
    put_allow(status, out)?;
    out.append(b"\r\n")
}

// Writes a head.
#[tactic(auto, unfolding(crate::specs::Head::head_text))]
pub(crate) fn put_head(head: &Head, out: &mut Bytes) -> Result<(), NoMemory>
    ensures { OnOk result (out.new ≡ out.old ++ head_text head.now) }
{
    put_status(head.status, out)?;
    put_line(b"XDODS-Server", b"dods/3.2", out)?;
    put_kind(head.kind, out)?;
    put_counts(head.revision, head.len, out)?;
    put_last(head.status, head.last, out)
}
