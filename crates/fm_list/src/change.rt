//! What an operation takes out of some files and adds to them.
ghost use Rattle.std.specs.Prelude.{◌≡◌, ◌++◌, IfOk, OnErr, OnOk, filter, length, take};
ghost use Rattle.fm_list.specs.Change as spec;

use crate::finding::has_run;
use crate::placed::Placed;
use fm_base::{List, NoMemory};
use fm_model::{Loaded, Op};
use std::alloc::Global;

/// Whether an operation leaves a held file.
#[tactic(auto, unfolding(crate::specs::Change::keeps))]
pub fn keeps(op: &Op, held: &Loaded) -> bool
    ensures { result ≡ spec.keeps op.now held.now }
{
    match op {
        Op::Put(file) => held.name.as_slice() != file.get().name.as_slice(),
        Op::Expire(cutoff) => held.run >= *cutoff,
        Op::Retract(name) => held.name.as_slice() != name.as_slice(),
    }
}

// Whether an operation leaves a file, where `went` has the file if it doesn't. No file is looked into whose run is that
// of none of these.
fn stays(file: &Placed, went: &[Placed], op: &Op) -> bool
    requires { spec.IsAmongGone went.now op.now file.now }
    ensures { result ≡ spec.keeps op.now file.now }
{
    let run = file.run();
    if let Op::Expire(cutoff) = op {
        return run >= *cutoff;
    }
    !has_run(went, run) || keeps(op, file.get())
}

/// The files that an operation leaves, and room for one more, where `went` has all that it takes out of them.
pub fn kept(
    alloc: Global,
    files: &[Placed],
    went: &[Placed],
    op: &Op,
) -> Result<List<Placed>, NoMemory>
    requires { spec.HasGone went.now op.now files.now }
    ensures { IfOk result (λ kept. kept ≡ filter (spec.keeps op.now) files.now) }
{
    let items = Vec::with_capacity(alloc, files.len().saturating_add(1))?;
    let mut kept = List { items };
    for file in files {
        if stays(file, went, op) {
            kept.push(file.share()?)?;
        }
    }
    Ok(kept)
}

/// Adds the files that an operation takes out of some.
pub fn push_gone(gone: &mut List<Placed>, files: &[Placed], op: &Op) -> Result<(), NoMemory>
    ensures ok { OnOk result (gone.new ≡ gone.old ++ spec.gone files.now op.now) }
    ensures err { OnErr result (take (length gone.old) gone.new ≡ gone.old) }
{
    for file in files {
        if !keeps(op, file.get()) {
            gone.push(file.share()?)?;
        }
    }
    Ok(())
}

/// The files that an operation takes out, and the one that it adds.
pub fn changed(mut gone: List<Placed>, op: &Op) -> Result<List<Placed>, NoMemory>
    ensures { IfOk result (λ changed. changed ≡ gone ++ spec.added op.now) }
{
    if let Op::Put(file) = op {
        gone.push(Placed::new(file.share()?))?;
    }
    Ok(gone)
}
