//! What a reader believes of files that are written, each as the contract of a call that does nothing.
ghost use Rattle.std.specs.Prelude.{◌≡◌, ◌⊎◌, ℕ, List, Ok};
ghost use Rattle.fm_model.specs.Site.{IsPrototype};
ghost use Rattle.dap_model.specs.declared.projection.Sent.{Sent};
ghost use Rattle.fm_dataset.specs.Rows.{AreRows};
ghost use Rattle.fm_dataset.specs.Values.{Shown};
ghost use Rattle.dap_das.specs.Attributes.{containers_of};
ghost use Rattle.nc_writer.specs.Attributes.{attributes_under, shown_attributes};
ghost use Rattle.nc_writer.specs.Facts.{CanBeWritten};
ghost use Rattle.nc_writer.specs.File.{netcdf_of, File};
ghost use Rattle.nc_writer.specs.ReadBack.{ReadsBack};

use fm_model::{Proto, ViewName};

/// The attributes of a variable of a file, before those of numbers without values are left out, are those that the
/// attribute text of the view has under its name.
#[tactic(auto, using(crate::proofs::ContainerLemmas::containers))]
pub fn attributes_are_those_of_the_text(proto: &Proto, view: &ViewName, name: &[u8])
    ensures { shown_attributes proto.now view.now name.now
        ≡ attributes_under name.now (containers_of proto.now view.now) }
{}

/// The file of what is sent of a dataset is read back by the definitions of the header and of the layout: it begins
/// with the sound header of its variables, in the version that was asked for, and all data lies within it. There are no
/// records, its attributes are the prototype's, its dimensions those of the variables in the order of their first use,
/// and each variable that was written is there with its name, attributes, kind, dimensions and values.
pub fn a_file_is_read_back()
    ensures { (shown : Shown) (sent : List Sent) (version : ℕ) (file : File) → IsPrototype shown.proto
        → AreRows shown.proto shown.rows → CanBeWritten shown sent → (version ≡ 1) ⊎ (version ≡ 2)
        → netcdf_of shown sent version ≡ Ok file → ReadsBack version file }
{}
