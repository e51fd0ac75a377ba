//! What is sent for a constraint is what it names, in order and in range.
ghost use Rattle.std.specs.Prelude.{◌≡◌, ◌≢◌, ◌<◌, ◌↔◌, [], Ok, Err, length, map, filter, IsOk, IsTrue};
ghost use Rattle.std.specs.Prelude.{All, AllPairs, Contains};
ghost use Rattle.std.specs.List.{AllZip, flat_map};
ghost use Rattle.dap_model.specs.Box.{slab_count, EachPicks};
ghost use Rattle.dap_model.specs.Picking.{is_picked, name_of, parts_of, picked_by};
ghost use Rattle.dap_model.specs.Projection.{cut_array, cut_parts, decl_sent, is_sent};
ghost use Rattle.dap_model.specs.Projection.{projection_of};
ghost use Rattle.dap_model.specs.ProjectionFacts.{array_lengths, AreNamedApart, FitsDim, FitsPart};
ghost use Rattle.dap_model.specs.ProjectionFacts.{HasNoFault, IsAsked, IsCut, IsFirstFault, IsGridded, IsWhole};
ghost use Rattle.dap_model.specs.ProjectionFacts.{IsGridOf, Names, NamesAlone, StandsBefore};

use crate::declaration::{Array, Decl};
use crate::fault::ProjectFault;
use crate::projection::{Clause, Projected, Sent, Slab};
use fm_base::Bytes;
use nc_model::Dim;

/// A path picks something of a declaration exactly where it names the declaration, or a part of one that isn't a plain
/// array.
pub fn path_names(decl: &Decl, path: &[Bytes])
    ensures { IsTrue (is_picked (picked_by decl.now path.now)) ↔ Names decl.now path.now }
{}

/// A projection is accepted exactly where no clause has a fault.
pub fn projection_accepts(decls: &[Decl], clauses: &[Clause])
    ensures { IsOk (projection_of decls.now clauses.now) ↔ HasNoFault decls.now clauses.now }
{}

/// A projection is refused with the first fault of the first clause that has one.
pub fn projection_refuses(decls: &[Decl], clauses: &[Clause], fault: &ProjectFault)
    ensures { projection_of decls.now clauses.now ≡ Err fault.now
        ↔ IsFirstFault decls.now clauses.now fault.now }
{}

/// Without a clause all declarations are sent as they stand, and each part whole.
pub fn projection_of_all(decls: &[Decl], projected: &Projected, sent: &Sent)
    ensures decls { projection_of decls.now [] ≡ Ok projected.now
        → projected.now.decls ≡ decls.now }
    ensures sent { projection_of decls.now [] ≡ Ok projected.now
        → Contains projected.now.sent sent.now ↔ IsWhole decls.now sent.now }
{}

/// With clauses exactly the parts are sent that some clause names, with the slabs that each of these gives.
pub fn projection_sends(decls: &[Decl], clauses: &[Clause], projected: &Projected, sent: &Sent)
    requires apart { AreNamedApart decls.now }
    requires some { clauses.now ≢ [] }
    ensures { projection_of decls.now clauses.now ≡ Ok projected.now
        → Contains projected.now.sent sent.now ↔ IsAsked decls.now clauses.now sent.now }
{}

/// Declarations and parts are sent in the dataset's order, so each once.
pub fn projection_keeps_order(decls: &[Decl], clauses: &[Clause], projected: &Projected)
    ensures decls { projection_of decls.now clauses.now ≡ Ok projected.now
        → map name_of projected.now.decls
        ≡ map name_of (filter (is_sent clauses.now) decls.now) }
    ensures sent { projection_of decls.now clauses.now ≡ Ok projected.now
        → AllPairs StandsBefore projected.now.sent }
{}

/// Each part is sent with one slab for each of its dimensions, whose indices lie within the dimension.
pub fn projection_fits(decls: &[Decl], clauses: &[Clause], projected: &Projected)
    requires apart { AreNamedApart decls.now }
    requires gridded { All IsGridded decls.now }
    ensures { projection_of decls.now clauses.now ≡ Ok projected.now
        → All (FitsPart decls.now) projected.now.sent }
{}

/// An index list that fitting slabs pick lies within the dimensions.
pub fn fit_is_in_range(dims: &[Dim], slabs: &[Slab], index: &[u64])
    ensures { AllZip FitsDim dims.now slabs.now → EachPicks slabs.now index.now
        → AllZip (λ dim i. i < dim.size) dims.now index.now }
{}

/// A Grid is sent as one, with all its maps, where some clause names it alone or there is no clause, and else as a
/// Structure of its parts that are sent.
pub fn grid_is_kept(clauses: &[Clause], name: &[u8], array: &Array, maps: &[Array])
    ensures kept { NamesAlone clauses.now name.now → IsGridOf name.now maps.now
        (decl_sent clauses.now (Decl.Grid name.now array.now maps.now)) }
    ensures cut { (NamesAlone clauses.now name.now → ⊥)
        → decl_sent clauses.now (Decl.Grid name.now array.now maps.now)
        ≡ Decl.Structure name.now
        (cut_parts clauses.now (Decl.Grid name.now array.now maps.now)) }
{}

/// The arrays of the declarations that are sent are the parts that are sent, each cut by its slabs.
pub fn projection_cuts(decls: &[Decl], clauses: &[Clause], projected: &Projected)
    ensures { projection_of decls.now clauses.now ≡ Ok projected.now
        → AllZip (IsCut decls.now) (flat_map parts_of projected.now.decls)
        projected.now.sent }
{}

/// An array that is cut by a slab for each dimension is as long in each as the slab has indices.
pub fn cut_lengths(array: &Array, slabs: &[Slab])
    ensures { length slabs.now ≡ length array.now.dims
        → array_lengths (cut_array slabs.now array.now) ≡ map slab_count slabs.now }
{}
