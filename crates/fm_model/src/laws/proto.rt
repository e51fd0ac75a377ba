//! Prototypes.
ghost use Rattle.std.specs.Prelude.{◌≡◌, ◌≢◌, ◌≤◌, ℕ, All, List, Ok, Some, codes, length};
ghost use Rattle.nc_model.specs.declared.header.Header.{Header as FileHeader};
ghost use Rattle.nc_model.specs.declared.header.NcVar.{NcVar};
ghost use Rattle.fm_model.specs.declared.proto.Proto.{Proto};
ghost use Rattle.fm_model.specs.declared.site.Site.{Site};
ghost use Rattle.fm_model.specs.Attribute.{text_of};
ghost use Rattle.fm_model.specs.Prototype.{kept_vars, proto_of, IsSound};
ghost use Rattle.fm_model.specs.Site.{IsPrototype, IsSite};

/// Bytes are at most one prototype at a site, which keeps the site.
pub fn bytes_are_one_prototype()
    ensures one { (bytes : List ℕ) (site : Site) (proto other : Proto) →
        proto_of bytes site ≡ Ok proto → proto_of bytes site ≡ Ok other → proto ≡ other }
    ensures site { (bytes : List ℕ) (site : Site) (proto : Proto) →
        proto_of bytes site ≡ Ok proto → proto.site ≡ site }
{}

/// A collection's prototype is that of a file of at most 536,870,912 bytes, at a site that a collection may have.
pub fn a_prototype_is_of_a_file_within_the_limit()
    ensures made { (bytes : List ℕ) (proto : Proto) → length bytes ≤ 536870912
        → IsSite proto.site → proto_of bytes proto.site ≡ Ok proto → IsPrototype proto }
    ensures few { (proto : Proto) (given : IsPrototype proto) → length given.bytes ≤ 536870912 }
{}

/// A prototype has its axis among its variables, of numbers; a variable along the axis has that dimension first and
/// only there, and any other has all its elements; names differ and are plain, and those that the views add are free;
/// and the dimensions of variables are there, and all but the axis's have a length.
pub fn a_prototype_is_sound()
    ensures read { (bytes : List ℕ) (site : Site) (proto : Proto) →
        proto_of bytes site ≡ Ok proto → IsSound proto }
    ensures given { (proto : Proto) → IsPrototype proto → IsSound proto }
{}

/// The views leave out the variable that the axis's attribute `bounds` or `climatology` names, unless it is the axis.
pub fn views_leave_out_the_bounds_of_the_axis()
    ensures bounds { (header : FileHeader) (axis : NcVar) (name : List ℕ) →
        text_of axis.attrs (codes "bounds") ≡ Some name → name ≢ axis.name
        → All (λ (var : NcVar). var.name ≢ name) (kept_vars header axis) }
    ensures climatology { (header : FileHeader) (axis : NcVar) (name : List ℕ) →
        text_of axis.attrs (codes "climatology") ≡ Some name → name ≢ axis.name
        → All (λ (var : NcVar). var.name ≢ name) (kept_vars header axis) }
{}
