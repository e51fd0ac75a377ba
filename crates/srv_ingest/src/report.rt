//! The reports on files taken in and runs let go.
ghost use Rattle.std.specs.Prelude.{◌≡◌, ◌+◌, ◌≤◌, length};
ghost use Rattle.srv_verdict.specs.Attempts.{published_number};
ghost use Rattle.srv_ingest.specs.Turns.{operations, with_published, with_settled};
ghost use Rattle.srv_ingest.specs.Verdicts.{taken_back};

use crate::file::taken_back;
use dev_traits::Verdict;
use pub_snap::{Name, Share};

/// Why taking in stopped.
#[derive(Clone, Copy)]
pub enum IngestEnd {
    /// Nothing will arrive any more.
    Done,
    /// The inbox failed.
    InboxFault,
    /// Memory ran out while the next name was asked for.
    NoMemory,
}

/// The numbers of names that became files of the collection, that took files back, that were refused or found no room,
/// and for which memory ran out. The last two counts stand still at their greatest number.
#[derive(Clone, Copy)]
pub struct IngestReport {
    pub published: u64,
    pub retracted: u64,
    pub refused: u64,
    pub short: u64,
    pub end: IngestEnd,
}

/// The number of moments at which runs went, and of those at which memory ran out. The second count stands still at its
/// greatest number.
#[derive(Clone, Copy, Debug, PartialEq, Eq)]
pub struct ExpireReport {
    pub expired: u64,
    pub short: u64,
}

// Counts a file that came or was taken back. The share has counted it too, so the sum fits.
#[tactic(auto, unfolding(crate::specs::Turns::with_published))]
pub(crate) fn count_published<N: Name>(
    report: &mut IngestReport,
    name: &[u8],
    verdict: Verdict,
    share: &Share<N>,
)
    requires { operations report.old + length (published_number verdict) ≤ share.now }
    ensures { report.new ≡ with_published report.old (taken_back name.now) verdict }
{
    let Verdict::Published(_) = verdict else {
        return;
    };
    // What it has counted fits its type, and so does the sum.
    let _most = share.count();
    if taken_back(name).is_some() {
        report.retracted += 1;
    } else {
        report.published += 1;
    }
}

// Counts a verdict that the inbox took.
#[tactic(auto, unfolding(crate::specs::Turns::with_settled))]
pub(crate) fn count_settled(report: &mut IngestReport, verdict: Verdict)
    ensures { report.new ≡ with_settled report.old verdict }
{
    match verdict {
        Verdict::Refused(_) | Verdict::Full(_) => report.refused = report.refused.saturating_add(1),
        Verdict::Short => report.short = report.short.saturating_add(1),
        Verdict::Published(_) | Verdict::NotHeld(_) | Verdict::Gone => {}
    }
}
