//! The command that makes a large collection and reads it.
ghost use Rattle.std.specs.Prelude.{◌≡◌, ◌++◌, ◌<◌, ◌≤◌, IfOk, OnOk};
ghost use Rattle.srv_load.specs.Summary.{summary_of};
ghost use Rattle.srv_alone.specs.Load as spec;

use crate::end::End;
use crate::reporting::report;
use dev_traits::Sink;
use fm_base::{Bytes, NoMemory};
use itoa::Buffer;
use srv_load::{Summary, summarize};
use std::alloc::Global;

// Appends a word and a number.
#[tactic(auto, unfolding(crate::specs::Load::field))]
fn put_field(word: &[u8], number: u64, out: &mut Bytes) -> Result<(), NoMemory>
    ensures { OnOk result (out.new ≡ out.old ++ spec.field word.now number) }
{
    let mut digits = Buffer::new();
    out.append(word)?;
    out.append(digits.format(number).as_bytes())
}

// Appends how many files and times a collection holds.
#[tactic(auto, unfolding(crate::specs::Load::held_text))]
fn put_held(summary: &Summary, out: &mut Bytes) -> Result<(), NoMemory>
    ensures { OnOk result (out.new ≡ out.old ++ spec.held_text summary.now) }
{
    put_field(b"files ", u64::from(summary.files), out)?;
    put_field(b" rows ", u64::from(summary.rows), out)
}

// Appends how many rows its views have.
#[tactic(auto, unfolding(crate::specs::Load::views_text))]
fn put_views(summary: &Summary, out: &mut Bytes) -> Result<(), NoMemory>
    ensures { OnOk result (out.new ≡ out.old ++ spec.views_text summary.now) }
{
    put_field(b" best ", summary.best, out)?;
    put_field(b" run ", summary.run, out)?;
    put_field(b" offset ", summary.offset, out)?;
    put_field(b" forecast ", summary.forecast, out)
}

// The line of a collection that was read.
#[tactic(auto, unfolding(crate::specs::Load::load_line))]
fn line_of(alloc: Global, summary: &Summary) -> Result<Bytes, NoMemory>
    ensures { IfOk result (λ line. line ≡ spec.load_line summary.now) }
{
    let mut line = Bytes::new(alloc);
    put_held(summary, &mut line)?;
    put_views(summary, &mut line)?;
    put_field(b" sum ", u64::from(summary.sum), &mut line)?;
    line.append(b"\n")?;
    Ok(line)
}

// The line of the collection of the first files of a seed.
fn line_of_made(alloc: Global, seed: u32, files: u32) -> Result<Bytes, NoMemory>
    requires some { 0 < files }
    requires few { files ≤ 400 }
    ensures { IfOk result (λ line. line ≡ spec.load_line (summary_of seed files)) }
{
    let summary = summarize(alloc, seed, files)?;
    let line = line_of(alloc, &summary)?;
    Ok(line)
}

/// Makes the first files of a seed, reads the collection of them, and writes its line, or reports that memory ran out.
/// A line that is cut says that the sink failed.
pub fn load<S: Sink>(alloc: Global, sink: &mut S, seed: u32, files: u32) -> End
    requires some { 0 < files }
    requires few { files ≤ 400 }
    ensures { spec.EndsLoad seed files result (S.shown sink.old) (S.shown sink.new) }
{
    let Ok(line) = line_of_made(alloc, seed, files) else {
        report(sink, End::NoMemory, b"");
        return End::NoMemory;
    };
    match sink.put(line.as_slice()) {
        Ok(()) => End::Done,
        Err(_failed) => End::SinkFault,
    }
}
