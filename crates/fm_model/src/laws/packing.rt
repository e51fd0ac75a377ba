//! How the numbers of a file's variables are read.
ghost use Rattle.std.specs.Prelude.{◌≡◌, ◌↔◌, ℕ, All, Err, List, Ok};
ghost use Rattle.nc_model.specs.declared.header.Header.{Header as FileHeader};
ghost use Rattle.nc_model.specs.declared.header.NcVar.{NcVar};
ghost use Rattle.fm_model.specs.declared.loaded.Loaded.{Loaded};
ghost use Rattle.fm_model.specs.declared.loaded.LoadFault.TheVariants.{AttributeDiffers};
ghost use Rattle.fm_model.specs.declared.proto.Proto.{Proto};
ghost use Rattle.fm_model.specs.declared.proto.ProtoVar.{ProtoVar};
ghost use Rattle.fm_model.specs.Load.{Fits};
ghost use Rattle.fm_model.specs.LoadAxis.{file_header, file_var};
ghost use Rattle.fm_model.specs.LoadVars.{slotted_vars};
ghost use Rattle.fm_model.specs.Packing.{same_packing, HaveSamePacking, IsFirstOther};

/// A variable's numbers are read as the prototype's exactly where its unit, its packing and its missing values are the
/// same.
pub fn numbers_are_read_alike_where_five_attributes_are_the_same()
    ensures { (wanted : ProtoVar) (var : NcVar) →
        (same_packing wanted var ≡ Ok tt) ↔ HaveSamePacking wanted.attrs var.attrs }
{}

/// An attribute is refused exactly where it differs and none before it does, in the order unit, scale, offset, fill
/// value, missing value.
pub fn the_first_attribute_that_differs_is_refused()
    ensures { (wanted : ProtoVar) (var : NcVar) (name : List ℕ) →
        (same_packing wanted var ≡ Err (AttributeDiffers wanted.name name))
        ↔ IsFirstOther wanted.attrs var.attrs name }
{}

/// A file that fits has the prototype's unit, packing and missing values in each variable along the axis but the axis.
pub fn a_fit_file_is_packed_as_the_prototype()
    ensures { (file : Loaded) (proto : Proto) (header : FileHeader) → Fits file proto
        → file_header file.content ≡ Ok header
        → All (λ (wanted : ProtoVar). (var : NcVar) → file_var header wanted.name ≡ Ok var
        → HaveSamePacking wanted.attrs var.attrs) (slotted_vars proto) }
{}
