//! The command that does steps on a collection, and serves it on one connection.
ghost use Rattle.std.specs.Prelude.{◌≡◌, ◌⊎◌, IfErr, IfOk, OnOk};
ghost use Rattle.fm_model.specs.Site.{IsPrototype, IsSite};
ghost use Rattle.web_session.specs.State.{fresh};
ghost use Rattle.srv_alone.specs.Once as spec;
ghost use Rattle.srv_alone.specs.Steps.{DoesSteps, path_of, progress, RestsUnlessEnded};

use crate::end::End;
use crate::reading::{content_of, proto_of};
use crate::reporting::report;
use crate::service::Service;
use dev_traits::{Files, Link, Sink};
use fm_base::{Arc, NoMemory};
use fm_model::{Proto, Site};
use pub_look::Plain;
use srv_words::Step;
use std::alloc::Global;
use web_session::Session;

/// Reads the file at a path as the prototype of a collection, or says how the run ends at it. The file is refused with
/// its first fault, is none or too long, a call of the files failed, or memory ran out.
pub fn read_prototype<F: Files>(
    alloc: Global,
    files: &mut F,
    site: Site,
    path: &[u8],
) -> Result<Proto, End>
    requires { IsSite site }
    ensures opens { IfOk result (spec.Opens site path.now (F.shown files.old)) }
    ensures same { OnOk result (F.shown files.new ≡ F.shown files.old) }
    ensures sound { IfOk result IsPrototype }
    ensures ends { IfErr result (spec.EndsOpening site path.now (F.shown files.old) (F.shown files.new)) }
{
    let bytes = content_of(alloc, files, path)?;
    proto_of(alloc, bytes, site)
}

// The collection over a prototype to which nothing was published, and a connection at its start.
#[tactic(auto, using(crate::proofs::SessionLemmas::sessions))]
fn service_over(alloc: Global, proto: Proto) -> Result<Service, NoMemory>
    requires { IsPrototype proto }
    ensures proto { IfOk result (λ service. service.proto ≡ proto) }
    ensures plain { IfOk result (λ service. service.plain ≡ spec.opened proto) }
    ensures session { IfOk result (λ service. service.session ≡ fresh) }
    ensures rests { IfOk result (λ service. RestsUnlessEnded service.session) }
{
    let proto = Arc::new(alloc, proto)?;
    let plain = Plain::open(alloc, proto.share()?)?;
    match Session::new(alloc) {
        Ok(session) => Ok(Service {
            proto,
            plain,
            session,
        }),
        Err(NoMemory) => {
            drop(plain);
            Err(NoMemory)
        }
    }
}

// The collection over the prototype at a path and a connection at its start, or how the run ends at that file.
#[tactic(auto, using(crate::proofs::OnceLemmas::runs))]
pub(crate) fn service_of<F: Files>(
    alloc: Global,
    files: &mut F,
    site: Site,
    path: &[u8],
) -> Result<Service, End>
    requires { IsSite site }
    ensures opens { IfOk result (λ service. spec.Opens site path.now (F.shown files.old) service.proto) }
    ensures plain { IfOk result (λ service. service.plain ≡ spec.opened service.proto) }
    ensures session { IfOk result (λ service. service.session ≡ fresh) }
    ensures rests { IfOk result (λ service. RestsUnlessEnded service.session) }
    ensures same { OnOk result (F.shown files.new ≡ F.shown files.old) }
    ensures ends { IfErr result (spec.EndsOpening site path.now (F.shown files.old) (F.shown files.new)) }
{
    let proto = read_prototype(alloc, files, site, path)?;
    match service_over(alloc, proto) {
        Ok(service) => Ok(service),
        Err(NoMemory) => Err(End::NoMemory),
    }
}

// The path of the file that a step reads.
fn step_path(step: &Step) -> &[u8]
    ensures { result.now ≡ path_of step.now }
{
    match step {
        Step::Put(path) => path.as_slice(),
        Step::Expire(_) | Step::Retract(_) | Step::Ask(_) => b"",
    }
}

// Does the steps in their order up to the first that isn't done, and returns how that ends and the path of its file.
#[tactic(auto, using(crate::proofs::StepLemmas::steps))]
pub(crate) fn do_steps<'a, F: Files, L: Link>(
    alloc: Global,
    service: &mut Service,
    steps: &'a [Step],
    files: &mut F,
    link: &mut L,
) -> (End, &'a [u8])
    requires blocks { L.blocks }
    requires rests { RestsUnlessEnded service.old.session }
    ensures { DoesSteps steps.entry.now
        (progress (F.shown files.old) service.old.plain service.old.session (L.shown link.old))
        (progress (F.shown files.new) service.new.plain service.new.session (L.shown link.new))
        result.0 result.1.now }
{
    for step in steps {
        if let Err(end) = service.step(alloc, step, files, link) {
            return (end, step_path(step));
        }
    }
    (End::Done, b"")
}

// Reads the prototype and does the steps, and returns how that ends and the path of the file at which it does.
#[tactic(auto, using(crate::proofs::OnceLemmas::runs))]
fn run_steps<'a, F: Files, L: Link>(
    alloc: Global,
    site: Site,
    path: &'a [u8],
    steps: &'a [Step],
    files: &mut F,
    link: &mut L,
) -> (End, &'a [u8])
    requires blocks { L.blocks }
    requires site { IsSite site }
    ensures { spec.RunsSteps site path.entry.now steps.entry.now (F.shown files.old) (F.shown files.new)
        (L.shown link.old) (L.shown link.new) result.0 result.1.now
        ⊎ spec.EndsAtPrototype site path.entry.now (F.shown files.old) (F.shown files.new)
        (L.shown link.old) (L.shown link.new) result.0 result.1.now }
{
    let mut service = match service_of(alloc, files, site, path) {
        Ok(service) => service,
        Err(end) => return (end, path),
    };
    let ended = do_steps(alloc, &mut service, steps, files, link);
    drop(service);
    ended
}

/// Runs `once`: reads the prototype at a path, does the steps in their order up to the first that isn't done, and
/// reports how that ended. The clause says what each step leaves, and which end names which file.
pub fn once<F: Files, L: Link, S: Sink>(
    alloc: Global,
    site: Site,
    path: &[u8],
    steps: &[Step],
    files: &mut F,
    link: &mut L,
    sink: &mut S,
) -> End
    requires blocks { L.blocks }
    requires site { IsSite site }
    ensures { spec.RunsOnce site path.now steps.now result
        (record { files = F.shown files.old; link = L.shown link.old; sink = S.shown sink.old })
        (record { files = F.shown files.new; link = L.shown link.new; sink = S.shown sink.new }) }
{
    let (end, at) = run_steps(alloc, site, path, steps, files, link);
    report(sink, end, at);
    end
}
