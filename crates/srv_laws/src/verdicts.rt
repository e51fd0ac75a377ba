//! Laws of names that arrive and of moments, each as the contract of a call that does nothing.
ghost use Rattle.std.specs.Prelude.{◌≡◌, ◌≢◌, ◌+◌, ◌≤◌, ◌==◌, ℕ, ℤ, All, List, [], Option, Some, drop, false, length, take, zip};
ghost use Rattle.std.specs.List.{count_by};
ghost use Rattle.dev_traits.specs.declared.clock.Expiry.TheVariants.{Idle};
ghost use Rattle.dev_traits.specs.declared.inbox.Verdict.TheVariants.{NotHeld};
ghost use Rattle.dev_traits.specs.Clock.{Moments};
ghost use Rattle.dev_traits.specs.Inbox.{Post};
ghost use Rattle.fm_model.specs.declared.loaded.Loaded.{Loaded};
ghost use Rattle.fm_model.specs.declared.op.Op.{Op};
ghost use Rattle.fm_model.specs.declared.proto.Proto.{Proto};
ghost use Rattle.fm_model.specs.Collection.{coll, holds, holds_older};
ghost use Rattle.pub_look.specs.History.{History};
ghost use Rattle.srv_ingest.specs.declared.report.IngestEnd.TheVariants.{InboxFault};
ghost use Rattle.srv_ingest.specs.declared.report.ExpireReport.{ExpireReport};
ghost use Rattle.srv_ingest.specs.declared.report.IngestReport.{IngestReport};
ghost use Rattle.srv_laws.specs.Accepted.{IsAccepted, IsPublishedOrFull};
ghost use Rattle.srv_laws.specs.Alone.{IsOfBoth, verdicts_on};
ghost use Rattle.srv_ingest.specs.Expires.{idle_numbers, AllSettledWith};
ghost use Rattle.srv_ingest.specs.Ingests.{found_with, looked_numbers, published_numbers, SettledWith};
ghost use Rattle.srv_ingest.specs.Verdicts.{cutoff_at, taken_back, IsVerdict};

/// Of the names on which one `ingest_all` found a verdict: where the content of a name is accepted as a file, the file
/// is an operation that was seen, or a look showed no room for it, or memory ran out. Where a name has no verdict, the
/// inbox failed.
pub fn an_accepted_file_is_published_or_shown_full()
    ensures accepted { (proto : Proto) (post : Post) (inbox' : Option Post) (pass pass' : History)
        (report : IngestReport) → (done : SettledWith proto (Some post) inbox' pass pass' report)
        → All (λ it. (file : Loaded) → IsAccepted proto post.content it.name file
        → IsPublishedOrFull pass'.seen file it.verdict) (found_with done.settled done.untaken) }
    ensures unsettled { (proto : Proto) (inbox inbox' : Option Post) (pass pass' : History) (report : IngestReport)
        → (done : SettledWith proto inbox inbox' pass pass' report) → (name : List ℕ) → done.unsettled ≡ Some name
        → report.end ≡ InboxFault }
{}

/// Where one inbox and one clock are all that publishes in a log, each operation of the log has exactly one verdict: on
/// a name, maybe one that the inbox did not take, or on a moment.
pub fn each_operation_has_one_verdict()
    ensures { (proto : Proto) (post : Post) (inbox' : Option Post) (seen seen' : History) (report : IngestReport)
        → (names : SettledWith proto (Some post) inbox' seen seen' report)
        → (keep : ℕ) (epoch : ℤ) (clock clock' : Option Moments) (timed timed' : History) (told : ExpireReport)
        → (moments : AllSettledWith keep epoch clock clock' timed timed' told)
        → (log : List Op) → IsOfBoth log seen' report timed' told
        → (number : ℕ) → 1 ≤ number → number ≤ length log
        → verdicts_on number (found_with names.settled names.untaken) moments.settled ≡ 1 }
{}

/// Where a verdict says that nothing was to be taken back, or that no run was too old, it was so after that many
/// operations.
pub fn nothing_was_to_be_done_where_a_verdict_says_so()
    ensures names { (proto : Proto) (post : Post) (inbox' : Option Post) (pass pass' : History) (report : IngestReport)
        → (done : SettledWith proto (Some post) inbox' pass pass' report)
        → All (λ it. (back : List ℕ) (count : ℕ) → taken_back it.name ≡ Some back → it.verdict ≡ NotHeld count
        → (count ≤ length pass'.seen) × (holds (coll (take count pass'.seen)) back ≡ false))
        (found_with done.settled done.untaken) }
    ensures moments { (keep : ℕ) (epoch : ℤ) (clock clock' : Option Moments) (pass pass' : History)
        (report : ExpireReport) → (done : AllSettledWith keep epoch clock clock' pass pass' report)
        → All (λ it. (count : ℕ) → it.verdict ≡ Idle count → (count ≤ length pass'.seen)
        × (holds_older (coll (take count pass'.seen)) (cutoff_at it.moment keep epoch) ≡ false)) done.settled }
{}

/// Each verdict that speaks of a look has one of its own: of the looks at `n` operations, no more are spoken of than
/// were made.
pub fn each_look_that_is_spoken_of_was_made()
    ensures names { (proto : Proto) (inbox inbox' : Option Post) (pass pass' : History) (report : IngestReport)
        → (done : SettledWith proto inbox inbox' pass pass' report) → (n : ℕ)
        → count_by (λ m. m == n) pass.looks
        + count_by (λ m. m == n) (looked_numbers (found_with done.settled done.untaken))
        ≤ count_by (λ m. m == n) pass'.looks }
    ensures moments { (keep : ℕ) (epoch : ℤ) (clock clock' : Option Moments) (pass pass' : History)
        (report : ExpireReport) → (done : AllSettledWith keep epoch clock clock' pass pass' report) → (n : ℕ)
        → count_by (λ m. m == n) pass.looks + count_by (λ m. m == n) (idle_numbers done.settled)
        ≤ count_by (λ m. m == n) pass'.looks }
{}

/// Where all names that were left were taken in, and the inbox did not fail, it has one verdict more for each of them,
/// the right one, in order. These verdicts say all operations that the report counts.
pub fn each_name_has_its_verdict()
    ensures each { (proto : Proto) (post post' : Post) (pass pass' : History) (report : IngestReport)
        → (done : SettledWith proto (Some post) (Some post') pass pass' report) → post'.left ≡ []
        → report.end ≢ InboxFault
        → (length post'.verdicts ≡ length post.verdicts + length post.left)
        × (length (published_numbers done.settled) ≡ report.published + report.retracted) }
    ensures right { (proto : Proto) (post post' : Post) (pass pass' : History) (report : IngestReport)
        → (done : SettledWith proto (Some post) (Some post') pass pass' report) → post'.left ≡ []
        → report.end ≢ InboxFault
        → All (λ it. IsVerdict proto pass'.seen post.content it.0 (taken_back it.0) it.1)
        (zip post.left (drop (length post.verdicts) post'.verdicts)) }
{}
