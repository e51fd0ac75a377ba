//! Whole files as prototypes, and the first fault of a file that has two.
#![tactic(auto, unfolding(crate::proofs::Computing::layouts, crate::proofs::Computing::headers, crate::proofs::Computing::attributes, crate::proofs::Computing::variables, crate::proofs::Computing::prototypes))]

ghost use Rattle.std.specs.Prelude.{◌≡◌, [], ◌∷◌, Err, Ok, codes};
ghost use Rattle.nc_model.specs.declared.fault.HeaderFault.TheVariants.{BadVersion};
ghost use Rattle.nc_model.specs.declared.fault.LayoutFault.TheVariants.{DataOutside};
ghost use Rattle.fm_model.specs.declared.proto.ProtoFault.TheVariants.{Header, Layout, NoTimeAxis, TimeNotFirst, BadProtoName, NameTaken, EmptyDimension};
ghost use Rattle.fm_model.specs.Example.{site};
ghost use Rattle.fm_model.specs.ExampleFiles.{file_a, file_c, patched, proto_a, proto_c};
ghost use Rattle.fm_model.specs.Prototype.{proto_of};

/// A file as a prototype: the length of its record dimension is the number of records, and what has no time has its
/// elements.
pub fn a_file_is_a_prototype()
    ensures { proto_of file_a site ≡ Ok proto_a }
{}

/// Attributes stay as they stand in the file, those of the file and those of each variable. A character for each time
/// and the variable of the run are left out, and other characters stay.
pub fn a_prototype_keeps_attributes_and_names()
    ensures { proto_of file_c site ≡ Ok proto_c }
{}

/// A fault of the header comes before one of the layout, and that before a missing axis.
pub fn a_header_has_to_be_sound_before_its_axis()
    ensures header { proto_of (patched 3 (3 ∷ []) (patched 272 (1 ∷ []) file_a)) site
        ≡ Err (Header (BadVersion 3)) }
    ensures layout { proto_of (patched 272 (1 ∷ []) (patched 75 (codes "a") file_a)) site
        ≡ Err (Layout (DataOutside 3 16777568 352)) }
{}

/// A missing axis, and then a variable with time elsewhere than first, comes before a name that isn't plain.
pub fn an_axis_has_to_stand_first_before_names_are_plain()
    ensures axis { proto_of (patched 75 (codes "a") (patched 236 (codes ".") file_a)) site
        ≡ Err NoTimeAxis }
    ensures first { let fixed = patched 27 (3 ∷ []) file_a in
        proto_of (patched 247 (1 ∷ 0 ∷ 0 ∷ 0 ∷ 0 ∷ []) (patched 236 (codes ".") fixed)) site
        ≡ Err (TimeNotFirst (codes ".")) }
{}

/// The names of dimensions come before those of variables, those that aren't plain before those that the views take,
/// and names before a dimension without a length.
pub fn names_have_to_be_right_before_lengths()
    ensures dimensions { proto_of (patched 45 (codes ".") (patched 165 (codes ".") file_a)) site
        ≡ Err (BadProtoName (codes "l.n")) }
    ensures plain { let taken = patched 464 (codes "time_run") file_c in
        proto_of (patched 262 (codes ".") taken) site ≡ Err (BadProtoName (codes "fl.g")) }
    ensures taken { let empty = patched 7 (0 ∷ []) file_c in
        proto_of (patched 464 (codes "time_run") empty) site
        ≡ Err (NameTaken (codes "time_run")) }
    ensures empty { proto_of (patched 7 (0 ∷ []) file_c) site
        ≡ Err (EmptyDimension (codes "station")) }
{}
