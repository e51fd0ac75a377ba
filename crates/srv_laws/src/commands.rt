//! What a reader believes of runs, each as the contract of a call that does nothing.
ghost use Rattle.std.specs.Prelude.{◌≡◌, ◌≢◌, ◌⊎◌, ◌++◌, ◌<◌, ℕ, All, IfSome, List, [], length, Err, None, Ok, Option, Some};
ghost use Rattle.nc_model.specs.declared.header.Header.{Header};
ghost use Rattle.fm_model.specs.declared.op.Op.{Op};
ghost use Rattle.fm_model.specs.declared.proto.Proto.{Proto};
ghost use Rattle.fm_model.specs.declared.site.Site.{Site};
ghost use Rattle.dev_traits.specs.Clock.{Moments};
ghost use Rattle.dev_traits.specs.Inbox.{InboxShown};
ghost use Rattle.dev_traits.specs.Link.{Wire};
ghost use Rattle.dev_traits.specs.Shown.{FilesShown, LinkShown};
ghost use Rattle.dev_traits.specs.World.{WorldShown};
ghost use Rattle.web_frame.specs.Items.{heads_of};
ghost use Rattle.dap_reply.specs.Script.{script_of};
ghost use Rattle.srv_ingest.specs.declared.report.ExpireReport.{ExpireReport};
ghost use Rattle.srv_ingest.specs.declared.report.IngestReport.{IngestReport};
ghost use Rattle.srv_ingest.specs.Expires.{IsRightAt};
ghost use Rattle.srv_ingest.specs.Ingests.{AllRight, found_with};
ghost use Rattle.srv_workers.specs.Runs.{IsClockRun, IsInboxRun, Run};
ghost use Rattle.srv_words.specs.declared.job.Job.{Job};
ghost use Rattle.srv_words.specs.declared.job.Job.TheVariants.{Check, Many, Once, Serve};
ghost use Rattle.srv_words.specs.declared.job.Serving.{Serving};
ghost use Rattle.srv_words.specs.declared.job.ServingMany.{ServingMany};
ghost use Rattle.srv_words.specs.declared.job.Step.{Step};
ghost use Rattle.srv_words.specs.declared.job.Stepping.{Stepping};
ghost use Rattle.srv_alone.specs.declared.end.End.{End};
ghost use Rattle.srv_alone.specs.declared.end.End.TheVariants.{Done, NoMemory};
ghost use Rattle.srv_alone.specs.Check.{checked_or_end};
ghost use Rattle.srv_alone.specs.Once.{opened, RunsOnce, RunsSteps};
ghost use Rattle.srv_laws.specs.Output.{revisions_of, WritesScript};
ghost use Rattle.srv_alone.specs.Report.{Said, status_of};
ghost use Rattle.srv_run.specs.Run.{IsAlone, Runs, UsesDialer, UsesFiles, UsesLink};
ghost use Rattle.srv_serve.specs.Many.{RunsMany};
ghost use Rattle.srv_serve.specs.Serve.{RunsServe};
ghost use Rattle.srv_serve.specs.Shows.{Shows};
ghost use Rattle.srv_serve.specs.Stage.{LeavesDevices, LeavesDialer, Stage};
ghost use Rattle.srv_laws.specs.WellFormed.{IsWellUsed};
ghost use Rattle.srv_laws.specs.WellServed.{EndsWell, HasNoMomentLeft, IsUsedUp, IsWellServed, ShowsClocks};
ghost use Rattle.srv_laws.specs.Worked.{HasNotOpened, HasNotWorked, HasWorked};
ghost use Rattle.srv_laws.specs.WorkedMany as many;

/// Well-formed use of `once` succeeds, unless memory runs out: where the files are there and are taken, the link has
/// the requests that are asked for, and no call of the files or the link failed, every step is done, and the status is
/// 0, or 4. Whether the line could be written changes neither.
pub fn well_formed_use_of_once_succeeds<D, I, C, L>()
    ensures end { (site : Site) (path : List ℕ) (steps : List Step) (end : End) (before after : WorldShown)
        → RunsOnce site path steps end before after → IsWellUsed site path steps before after
        → (end ≡ Done) ⊎ (end ≡ NoMemory) }
    ensures status { (show : Shows D I C L) (stepping : Stepping) (status : ℕ) (before after : Stage D I C)
        → Runs show (Some (Once stepping)) status before after
        → IsWellUsed stepping.site stepping.proto stepping.steps before.outside after.outside
        → (status ≡ 0) ⊎ (status ≡ 4) }
{}

/// What a run of `once` writes to its link is one script over its whole log: the replies to the first requests of the
/// link's input, in order, each with the number of operations that the steps before its own added as its revision. It
/// is whole, unless the link failed; where memory ran out the text that says so may follow. Where every step was done,
/// it has all the replies that the steps ask for.
pub fn the_output_of_once_is_one_script()
    ensures script { (site : Site) (path : List ℕ) (steps : List Step) (end : End) (at : List ℕ)
        (files files' : FilesShown) (link link' : LinkShown) (held : List ℕ → Option (List ℕ)) (wire : Wire)
        → files.held ≡ Some held → link.held ≡ Some wire
        → (runs : RunsSteps site path steps files files' link link' end at)
        → WritesScript runs.proto runs.history.seen (revisions_of held (opened runs.proto) steps)
        (heads_of wire.left).items 0 end wire link' }
    ensures whole { (site : Site) (path : List ℕ) (steps : List Step) (end : End) (at : List ℕ)
        (files files' : FilesShown) (link link' : LinkShown) (held : List ℕ → Option (List ℕ)) (wire : Wire)
        → files.held ≡ Some held → link.held ≡ Some wire
        → (runs : RunsSteps site path steps files files' link link' end at) → end ≡ Done
        → IfSome link'.held (λ after. after.put ≡ wire.put ++ script_of runs.proto runs.history.seen
        (revisions_of held (opened runs.proto) steps) (heads_of wire.left).items 0) }
{}

/// Well-formed use of `serve` succeeds, unless memory runs out: where the prototype is there and is one, and no call
/// of the files, the opener, a door, an inbox or the sink failed, every worker ended well and the line was written,
/// and the status is 0, or 4.
pub fn well_formed_use_of_serve_succeeds<D, I, C, L>()
    ensures end { (show : Shows D I C L) (serving : Serving) (end : End) (before after : Stage D I C)
        → RunsServe show serving end before after → IsWellServed show serving before after
        → (end ≡ Done) ⊎ (end ≡ NoMemory) }
    ensures status { (show : Shows D I C L) (serving : Serving) (status : ℕ) (before after : Stage D I C)
        → Runs show (Some (Serve serving)) status before after → IsWellServed show serving before after
        → (status ≡ 0) ⊎ (status ≡ 4) }
{}

/// No job but `serve` and `many` touches the opener and the devices; nor do words that are no job, nor a run without
/// memory for its words. A run of either opened nothing, or no worker ran and its devices are as the opener gave them,
/// or workers ran over all of them. Workers ran wherever all doors and inboxes were opened, unless the status is 4.
pub fn only_servers_touch_devices<D, I, C, L>()
    ensures none { (show : Shows D I C L) (status : ℕ) (before after : Stage D I C)
        → Runs show None status before after → LeavesDevices before after }
    ensures others { (show : Shows D I C L) (job : Job) (status : ℕ) (before after : Stage D I C)
        → Runs show (Some job) status before after → IsAlone job → LeavesDevices before after }
    ensures serve { (show : Shows D I C L) (serving : Serving) (status : ℕ) (before after : Stage D I C)
        → Runs show (Some (Serve serving)) status before after
        → HasNotOpened status before after ⊎ HasNotWorked show serving status before after
        ⊎ HasWorked show serving before after }
    ensures all { (show : Shows D I C L) (serving : Serving) (status : ℕ) (before after : Stage D I C)
        → Runs show (Some (Serve serving)) status before after → 0 < serving.workers → before.devices.doors ≡ []
        → length after.devices.doors ≡ serving.workers → length after.devices.inboxes ≡ length serving.inboxes
        → (status ≡ 4) ⊎ HasWorked show serving before after }
    ensures many { (show : Shows D I C L) (serving : ServingMany) (status : ℕ) (before after : Stage D I C)
        → Runs show (Some (Many serving)) status before after
        → HasNotOpened status before after ⊎ many.HasNotWorked show serving status before after
        ⊎ many.HasWorked show serving before after }
    ensures all_many { (show : Shows D I C L) (serving : ServingMany) (status : ℕ) (before after : Stage D I C)
        → Runs show (Some (Many serving)) status before after → 0 < serving.workers → before.devices.doors ≡ []
        → length after.devices.doors ≡ serving.workers → length after.devices.inboxes ≡ length serving.specs
        → (status ≡ 4) ⊎ many.HasWorked show serving before after }
{}

/// A check of a file without a fault ends with 0, or with 7 where its line couldn't be written. A check of another
/// file, or of a path without one, ends with the status of what is found. Either ends with 4 where memory runs out, and
/// with 5 where the files fail.
pub fn a_check_says_whether_a_file_is_sound<D, I, C, L>()
    ensures sound { (show : Shows D I C L) (path : List ℕ) (status : ℕ) (before after : Stage D I C)
        (held : List ℕ → Option (List ℕ)) (header : Header) → Runs show (Some (Check path)) status before after
        → before.outside.files.held ≡ Some held → checked_or_end (held path) ≡ Ok header
        → (status ≡ 0) ⊎ (status ≡ 7) ⊎ (status ≡ 4) ⊎ (status ≡ 5) }
    ensures found { (show : Shows D I C L) (path : List ℕ) (status : ℕ) (before after : Stage D I C)
        (held : List ℕ → Option (List ℕ)) (end : End) → Runs show (Some (Check path)) status before after
        → before.outside.files.held ≡ Some held → checked_or_end (held path) ≡ Err end
        → (status ≡ status_of end) ⊎ (status ≡ 4) ⊎ (status ≡ 5) }
{}

/// Only `once`, `twod` and `extract` use the link, and only `pull` the dialer. `load`, `pull` and bad words read no
/// file.
pub fn a_job_uses_only_its_devices<D, I, C, L>()
    ensures link { (show : Shows D I C L) (job : Option Job) (status : ℕ) (before after : Stage D I C)
        → Runs show job status before after → (UsesLink job → ⊥) → after.outside.link ≡ before.outside.link }
    ensures files { (show : Shows D I C L) (job : Option Job) (status : ℕ) (before after : Stage D I C)
        → Runs show job status before after → (UsesFiles job → ⊥) → after.outside.files ≡ before.outside.files }
    ensures dialer { (show : Shows D I C L) (job : Option Job) (status : ℕ) (before after : Stage D I C)
        → Runs show job status before after → (UsesDialer job → ⊥) → LeavesDialer before after }
{}

/// A run with a status other than 0 and 7 says how it ended: the line of an end with that status was written, or its
/// first bytes where the sink failed. A run of `once` that did every step writes none, so a sink that would fail
/// changes nothing.
pub fn a_run_says_how_it_ended<D, I, C, L>()
    ensures said { (show : Shows D I C L) (job : Option Job) (status : ℕ) (before after : Stage D I C)
        → Runs show job status before after → status ≢ 0 → status ≢ 7
        → Said status before.outside.sink after.outside.sink }
    ensures done { (show : Shows D I C L) (stepping : Stepping) (before after : Stage D I C)
        → Runs show (Some (Once stepping)) 0 before after → after.outside.sink ≡ before.outside.sink }
{}

/// A run of `serve` or `many` whose workers all ended well, whether or not its lines could be written, has served all
/// links and settled all names that came. Where its opener shows the clocks, and these their moments, it has settled
/// all moments.
pub fn a_run_that_ends_well_leaves_nothing<D, I, C, L>()
    ensures devices { (show : Shows D I C L) (serving : Serving) (end : End) (before after : Stage D I C)
        → RunsServe show serving end before after → EndsWell end → IsUsedUp show after }
    ensures clocks { (show : Shows D I C L) (serving : Serving) (end : End) (before after : Stage D I C)
        → RunsServe show serving end before after → EndsWell end → ShowsClocks show before.opener
        → HasNoMomentLeft show after }
    ensures devices_many { (show : Shows D I C L) (serving : ServingMany) (end : End) (before after : Stage D I C)
        → RunsMany show serving end before after → EndsWell end → IsUsedUp show after }
    ensures clocks_many { (show : Shows D I C L) (serving : ServingMany) (end : End) (before after : Stage D I C)
        → RunsMany show serving end before after → EndsWell end → ShowsClocks show before.opener
        → HasNoMomentLeft show after }
{}

/// All verdicts of the workers of a run speak of its one log: each that says that a name or a moment became operation n
/// names the n-th of the log, and each that speaks of a look at n operations speaks of the first n of the log. So does
/// the verdict that was found at most on one name more, and that its inbox did not take. In a run of `many` the inbox
/// and the clock of each collection have such runs over the log of that collection alone.
pub fn verdicts_speak_of_one_log<I, C>()
    ensures names { (inbox : I → InboxShown) (proto : Proto) (log : List Op) (run : Run I IngestReport)
        → (is : IsInboxRun inbox proto log run)
        → AllRight proto (inbox run.came).held log (found_with is.settles.settled is.settles.untaken) }
    ensures moments { (clock : C → Option Moments) (proto : Proto) (keep : ℕ) (log : List Op)
        (run : Run C ExpireReport) → (is : IsClockRun clock proto keep log run)
        → All (IsRightAt keep proto.site.epoch log) is.settles.settled }
{}
