//! A desk that is opened, raced over and closed.
ghost use Rattle.std.specs.Prelude.{◌≡◌, ◌≤◌};
ghost use Rattle.fm_model.specs.Site.{IsPrototype};
ghost use Rattle.pub_snap.specs.Opening.{IsNamed};

use super::readers::{Publisher, race};
use super::runs::{Runs, SAMPLE};
use super::steps::STEPS;
use crate::prototype::prototype_of;
use fm_base::Arc;
use fm_model::Proto;
use pub_look::Look;
use pub_snap::{Blank, Desk, Name, Pass, Receipt, Share, prepare};
use row_text::{Answers, File, Row, Said};
use std::alloc::{AllocError, Global};
use std::marker::{Brand, Send, Sync};
use std::sync::Wait;
use std::thread::Threads;

const READERS: u32 = 8;

// Whether each pass learns the last receipt, which is of all steps.
fn learn_all<N: Name>(passes: &mut [Pass<N>], receipt: &Receipt<N>) -> bool {
    for pass in passes.iter_mut() {
        pass.learn(receipt);
        if pass.seen() != STEPS {
            return false;
        }
    }
    passes.len() == READERS as usize && receipt.revision() == STEPS
}

// Whether readers see each revision whole, and then learn the last receipt.
fn is_seen<N: Name + Send + Sync, R: Threads + Wait + Sync>(
    rt: &R,
    alloc: Global,
    publisher: &mut Publisher<'_, N>,
    passes: &mut [Pass<N>],
) -> bool {
    let is_whole = race(rt, alloc, publisher, passes);
    let receipt = publisher.desk.receipt();
    let is_learnt = learn_all(passes, &receipt);
    drop(receipt);
    is_whole && is_learnt
}

// The same, over a desk that is opened and closed, and leaves what all steps leave.
fn closed<N: Name + Send + Sync, R: Threads + Wait + Sync>(
    rt: &R,
    alloc: Global,
    blank: Blank,
    runs: Runs<N>,
) -> bool
    requires named { IsNamed blank N.book N.name N.proto N.parts }
    requires some { 1 ≤ blank.shares }
{
    let Ok((mut desk, mut passes, mut shares)) = blank.open::<N>(alloc) else {
        drop(runs);
        return false;
    };
    let mut publisher = Publisher {
        desk: &mut desk,
        share: &mut shares.items[0],
        runs,
    };
    let holds = is_seen(rt, alloc, &mut publisher, passes.items.as_mut_slice());
    drop(publisher);
    drop(passes);
    let closed = desk.close(rt, shares);
    holds && closed.revision == STEPS && closed.total == STEPS && closed.tally.files == 2
}

// The same, of a desk that has its name.
fn holds_for<N: Name + Send + Sync, R: Threads + Wait + Sync>(
    rt: &R,
    alloc: Global,
    files: &[File],
    blank: Blank,
    proto: &Proto,
) -> bool
    requires named { IsNamed blank N.book N.name N.proto N.parts }
    requires some { 1 ≤ blank.shares }
    requires proto { proto.now ≡ N.proto }
{
    match Runs::of(alloc, files, proto) {
        Some(runs) => closed::<N, _>(rt, alloc, blank, runs),
        None => {
            drop(blank);
            false
        }
    }
}

// The same, over a desk for the prototype of the sample. `None` where there is none.
fn holds<R: Threads + Wait + Sync>(rt: &R, alloc: Global, files: &[File]) -> Option<bool> {
    let proto = prototype_of(alloc, files, SAMPLE)?;
    let blank = prepare(alloc, proto.share().ok()?, READERS, 1).ok()?;
    Some(holds_for::<Brand, _>(rt, alloc, files, blank, proto.get()))
}

/// Whether eight readers that ask as fast as they can see each revision whole, while 20,000 operations are published.
/// It answers the row of that name.
#[derive(Drop)]
pub struct Raced {
    holds: bool,
}

/// Races with eight readers over the prototype of the sample, which is one of the files.
pub fn run_race<R: Threads + Wait + Sync>(rt: &R, alloc: Global, files: &[File]) -> Raced {
    Raced {
        holds: holds(rt, alloc, files) == Some(true),
    }
}

impl Answers for Raced {
    fn answer(&self, _alloc: Global, row: &Row<'_>, out: &mut Said) -> Result<bool, AllocError> {
        out.put(if self.holds { "holds" } else { "doesn't hold" });
        Ok(row.has_each(&[]) && row.value("name") == Some("readers see each revision whole"))
    }
}
