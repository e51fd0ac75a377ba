//! What is picked of a collection for a netCDF file.
ghost use Rattle.std.specs.Prelude.{◌≡◌, IfOk};
ghost use Rattle.fm_base.specs.Answer.{Answers};
ghost use Rattle.fm_base.specs.Chain.{fault_as};
ghost use Rattle.web_path.specs.Target.{target_of};
ghost use Rattle.dap_reply.specs.declared.fault.DapFault.TheVariants.{Path};
ghost use Rattle.nc_writer.specs.File.{netcdf_of};
ghost use Rattle.srv_views.specs.Extract as spec;

use dap_model::Projected;
use dap_reply::{DapFault, dataset_asked, projected_of};
use fm_base::{Bytes, Fail, NoMemory, fault_as};
use fm_dataset::Dataset;
use fm_edition::Edition;
use fm_model::Site;
use nc_writer::{NcFile, WriteFault};
use pub_look::Query;
use std::alloc::Global;
use std::marker::Model;
use web_path::{Target, read_target};

/// A question for a view as a netCDF file: the path of the view below that of the collection, a constraint, and the
/// version of the format, 1 or 2.
#[derive(Debug, Drop)]
pub struct ExtractAsk {
    pub view: Bytes,
    pub constraint: Bytes,
    pub version: u8,
}

/// A dataset, and what is sent of it. It can be written as a netCDF file.
#[derive(Drop)]
pub struct Picked {
    source: Dataset,
    projected: Projected,
}

impl Model for Picked {
    ghost use Rattle.nc_writer.specs.Facts.{CanBeWritten};
    ghost use Rattle.srv_views.specs.Extract.{Pick};

    ghost Value = { Pick };

    ghost view = { λ picked. record { source = picked.source; projected = picked.projected } };

    ghost invariant = { λ picked. CanBeWritten picked.source picked.projected.sent };
}

impl Picked {
    // The netCDF file of what is sent, in a version of the format, or the first fault.
    pub(crate) fn file(&self, alloc: Global, version: u8) -> Result<NcFile<'_>, Fail<WriteFault>>
        ensures { Answers (netcdf_of self.now.source self.now.projected.sent version) result }
    {
        NcFile::make(alloc, &self.source, &self.projected, version)
    }
}

// The target that asks for the data of a view, by its path below that of the collection.
#[tactic(auto, unfolding(crate::specs::Extract::target_text))]
fn target_text(alloc: Global, site: &Site, view: &[u8]) -> Result<Bytes, NoMemory>
    ensures { IfOk result (λ text. text ≡ spec.target_text site.now view.now) }
{
    let mut text = Bytes::copy_of(alloc, b"/thredds/dodsC/")?;
    text.append(site.name.as_slice())?;
    text.append(b"/")?;
    text.append(view)?;
    text.append(b".dods")?;
    Ok(text)
}

// The target of a view of a collection, or the fault of its path.
fn target_of(alloc: Global, site: &Site, view: &[u8]) -> Result<Target, Fail<DapFault>>
    ensures { Answers (fault_as Path (target_of site.now (spec.target_text site.now view.now))) result }
{
    let text = target_text(alloc, site, view)?;
    fault_as(read_target(alloc, text.as_slice(), site), DapFault::Path)
}

// What is sent of a dataset for a constraint, or the first fault.
fn pick_of(alloc: Global, source: Dataset, constraint: &[u8]) -> Result<Picked, Fail<DapFault>>
    ensures { Answers (spec.pick_of constraint.now source) result }
{
    // What `proto` ensures of the dataset: what is sent of it can be written.
    let _proto = source.proto();
    match projected_of(alloc, source.decls().as_slice(), constraint) {
        Ok(projected) => Ok(Picked { source, projected }),
        Err(fail) => {
            drop(source);
            Err(fail)
        }
    }
}

// The view of a target and what is sent of it for a constraint, or the first fault.
fn picked_at(
    alloc: Global,
    edition: &Edition,
    target: &Target,
    constraint: &[u8],
) -> Result<Picked, Fail<DapFault>>
    ensures { Answers (spec.picked_at edition.now constraint.now target.now) result }
{
    let source = dataset_asked(alloc, edition, target)?;
    pick_of(alloc, source, constraint)
}

// The view that is asked for of a collection and what is sent of it, or the first fault.
#[tactic(auto, unfolding(crate::specs::Extract::picked_of))]
fn picked_of(alloc: Global, edition: &Edition, ask: &ExtractAsk) -> Result<Picked, Fail<DapFault>>
    ensures { Answers (spec.picked_of edition.now ask.now) result }
{
    let site = &edition.proto().get().site;
    let target = target_of(alloc, site, ask.view.as_slice())?;
    let picked = picked_at(alloc, edition, &target, ask.constraint.as_slice());
    drop(target);
    picked
}

impl Query for ExtractAsk {
    type Out = Result<Picked, DapFault>;

    ghost says = { λ ask held revision answer. answer ≡ spec.picked_of held ask };

    fn answer(
        &self,
        alloc: Global,
        edition: &Edition,
        _revision: u64,
    ) -> Result<Result<Picked, DapFault>, NoMemory> {
        match picked_of(alloc, edition, self) {
            Ok(picked) => Ok(Ok(picked)),
            Err(Fail::Fault(fault)) => Ok(Err(fault)),
            Err(Fail::NoMemory) => Err(NoMemory),
        }
    }
}
