//! The collection that steps leave.
ghost use Rattle.std.specs.Prelude.{◌≡◌, [], IfErr, IfOk, IsTrue};
ghost use Rattle.std.specs.List.{list_all};
ghost use Rattle.fm_model.specs.Site.{IsSite};
ghost use Rattle.srv_words.specs.Stepping.{is_change};
ghost use Rattle.srv_alone.specs.declared.end.End.TheVariants as ends;
ghost use Rattle.srv_alone.specs.Collect as spec;

use crate::doing::{do_steps, service_of};
use crate::end::End;
use crate::service::Service;
use dev_traits::{Files, Link};
use fm_model::Site;
use pub_look::Plain;
use srv_words::Step;
use std::alloc::Global;

// The collection of a service, whose connection ends.
fn into_plain(service: Service) -> Plain
    ensures { result ≡ service.plain }
{
    let Service { plain, .. } = service;
    plain
}

/// Reads the prototype at a path and does steps that change the collection over it alone. Returns that collection, or
/// how the run ends and the path of the file at which it does. The link isn't used.
pub fn collect<'a, F: Files, L: Link>(
    alloc: Global,
    site: Site,
    path: &'a [u8],
    steps: &'a [Step],
    files: &mut F,
    link: &mut L,
) -> Result<Plain, (End, &'a [u8])>
    requires blocks { L.blocks }
    requires site { IsSite site }
    requires changes { IsTrue (list_all is_change steps.now) }
    ensures done { IfOk result (λ plain. spec.Collects site path.entry.now steps.entry.now
        (F.shown files.old) (F.shown files.new) (L.shown link.old) plain ends.Done []) }
    ensures stops { IfErr result (λ stop. spec.StopsCollecting site path.entry.now steps.entry.now
        (F.shown files.old) (F.shown files.new) (L.shown link.old) stop.0 stop.1.now) }
    ensures unused { L.shown link.new ≡ L.shown link.old }
{
    let mut service = match service_of(alloc, files, site, path) {
        Ok(service) => service,
        Err(end) => return Err((end, path)),
    };
    let (end, at) = do_steps(alloc, &mut service, steps, files, link);
    match end {
        End::Done => Ok(into_plain(service)),
        end => {
            drop(service);
            Err((end, at))
        }
    }
}
