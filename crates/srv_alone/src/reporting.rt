//! Reports how a run ended.
ghost use Rattle.std.specs.Prelude.{◌≡◌};
ghost use Rattle.std.specs.List.{flat_map};
ghost use Rattle.dev_traits.specs.Cause.{HasCause};
ghost use Rattle.srv_alone.specs.Report as spec;
ghost use Rattle.srv_alone.specs.Report.{Appends};

use crate::end::End;
use dev_traits::{Failed, Sink};
use itoa::Buffer;

/// Writes the slices one after the other. Where the sink fails, the first bytes of them were written. It takes no
/// memory.
#[tactic(auto, using(crate::proofs::PieceLemmas::pieces))]
pub fn put_pieces<S: Sink>(sink: &mut S, pieces: &[&[u8]]) -> Result<(), Failed>
    ensures put { Appends (flat_map (λ piece. piece.now) pieces.now)
        (S.shown sink.old).held (S.shown sink.new).held result }
    ensures cause { HasCause (S.shown sink.old).faults (S.shown sink.new).faults result }
{
    for piece in pieces {
        sink.put(piece)?;
    }
    Ok(())
}

#[tactic(auto, unfolding(crate::specs::Report::refused_line))]
fn put_refused<S: Sink>(sink: &mut S, path: &[u8], code: u16) -> Result<(), Failed>
    ensures put { Appends (spec.refused_line path.now code) (S.shown sink.old).held (S.shown sink.new).held result }
    ensures cause { HasCause (S.shown sink.old).faults (S.shown sink.new).faults result }
{
    let mut digits = Buffer::new();
    let code = digits.format(code).as_bytes();
    put_pieces(
        sink,
        &[
            b"refused ".as_slice(),
            path,
            b" code ".as_slice(),
            code,
            b"\n".as_slice(),
        ],
    )
}

#[tactic(auto, unfolding(crate::specs::Report::too_long_line))]
fn put_too_long<S: Sink>(sink: &mut S, path: &[u8], len: u64) -> Result<(), Failed>
    ensures put { Appends (spec.too_long_line path.now len) (S.shown sink.old).held (S.shown sink.new).held result }
    ensures cause { HasCause (S.shown sink.old).faults (S.shown sink.new).faults result }
{
    let mut digits = Buffer::new();
    let len = digits.format(len).as_bytes();
    put_pieces(
        sink,
        &[
            b"too long ".as_slice(),
            path,
            b" ".as_slice(),
            len,
            b"\n".as_slice(),
        ],
    )
}

#[tactic(auto, unfolding(crate::specs::Report::file_fault_line))]
fn put_file_fault<S: Sink>(sink: &mut S, path: &[u8]) -> Result<(), Failed>
    ensures put { Appends (spec.file_fault_line path.now) (S.shown sink.old).held (S.shown sink.new).held result }
    ensures cause { HasCause (S.shown sink.old).faults (S.shown sink.new).faults result }
{
    put_pieces(sink, &[b"file fault ".as_slice(), path, b"\n".as_slice()])
}

// Writes the line of a word and a number.
#[tactic(auto, unfolding(crate::specs::Report::number_line))]
fn put_number<S: Sink>(sink: &mut S, word: &[u8], number: u32) -> Result<(), Failed>
    ensures put { Appends (spec.number_line word.now number) (S.shown sink.old).held (S.shown sink.new).held result }
    ensures cause { HasCause (S.shown sink.old).faults (S.shown sink.new).faults result }
{
    let mut digits = Buffer::new();
    let number = digits.format(number).as_bytes();
    put_pieces(sink, &[word, number, b"\n".as_slice()])
}

#[tactic(auto, unfolding(crate::specs::Report::no_file_line))]
fn put_no_file<S: Sink>(sink: &mut S, path: &[u8]) -> Result<(), Failed>
    ensures put { Appends (spec.no_file_line path.now) (S.shown sink.old).held (S.shown sink.new).held result }
    ensures cause { HasCause (S.shown sink.old).faults (S.shown sink.new).faults result }
{
    put_pieces(sink, &[b"no file ".as_slice(), path, b"\n".as_slice()])
}

// Writes the line of an end at the file at a path, or its first bytes where the sink fails. It takes no memory.
#[tactic(auto, unfolding(crate::specs::Report::line_of))]
fn put_line<S: Sink>(sink: &mut S, end: End, path: &[u8]) -> Result<(), Failed>
    ensures put { Appends (spec.line_of end path.now) (S.shown sink.old).held (S.shown sink.new).held result }
    ensures cause { HasCause (S.shown sink.old).faults (S.shown sink.new).faults result }
    ensures none { spec.HasNoLine end → S.shown sink.new ≡ S.shown sink.old }
{
    match end {
        End::Done | End::SinkFault => Ok(()),
        End::BadWords => sink.put(b"bad words\n"),
        End::Refused(code) => put_refused(sink, path, code),
        End::NoMemory => sink.put(b"no memory\n"),
        End::FileFault => put_file_fault(sink, path),
        End::LinkFault => sink.put(b"link fault\n"),
        End::DoorFault(number) => put_number(sink, b"door fault ", number),
        End::InboxFault(number) => put_number(sink, b"inbox fault ", number),
        End::NoFile => put_no_file(sink, path),
        End::TooLong(len) => put_too_long(sink, path, len),
        End::InputEnded => sink.put(b"input ended\n"),
        End::BadReply(code) => put_number(sink, b"bad reply code ", u32::from(code)),
    }
}

/// Reports an end at the file at a path. A line that can't be written changes nothing else.
#[tactic(auto, using(crate::proofs::ReportLemmas::reports))]
pub fn report<S: Sink>(sink: &mut S, end: End, path: &[u8])
    ensures { spec.Reports end path.now (S.shown sink.old) (S.shown sink.new) }
{
    let _written = put_line(sink, end, path);
}
