//! Headers that are no prototypes. Each has the axis `time` over two times, and one more dimension and variable.
#![tactic(auto, unfolding(crate::proofs::Computing::headers, crate::proofs::Computing::attributes, crate::proofs::Computing::variables, crate::proofs::Computing::prototypes))]

ghost use Rattle.std.specs.Prelude.{◌≡◌, [], ◌∷◌, Err, codes, true, false};
ghost use Rattle.nc_model.specs.declared.kind.Kind.TheVariants.{Int};
ghost use Rattle.fm_model.specs.declared.proto.ProtoFault.TheVariants.{BadProtoName, EmptyDimension, NameTaken, TimeNotFirst};
ghost use Rattle.fm_model.specs.Example.{header_with, number_var, times_var};
ghost use Rattle.fm_model.specs.Prototype.{dims_have_lengths, is_plain_name, names_are_free, names_are_plain, time_stands_first};

/// A variable that has the axis's dimension second, or twice, is refused.
pub fn time_has_to_stand_first()
    ensures second { time_stands_first
        (header_with (codes "lat") 3 (number_var (codes "t") (1 ∷ 0 ∷ []))) (times_var Int [])
        ≡ Err (TimeNotFirst (codes "t")) }
    ensures twice { time_stands_first
        (header_with (codes "lat") 3 (number_var (codes "t") (0 ∷ 0 ∷ []))) (times_var Int [])
        ≡ Err (TimeNotFirst (codes "t")) }
{}

/// Names are of letters, digits, `_` and `-`. The name of a dimension is refused before that of a variable.
pub fn names_have_to_be_plain()
    ensures plain { is_plain_name (codes "Wind_10-m") ≡ true }
    ensures point { is_plain_name (codes "wind.10") ≡ false }
    ensures dimension_first { names_are_plain
        (header_with (codes "a b") 3 (number_var (codes "c/d") (1 ∷ [])))
        ≡ Err (BadProtoName (codes "a b")) }
{}

/// The names under which the views show runs and offsets are kept free.
pub fn names_of_the_views_have_to_be_free()
    ensures run { names_are_free
        (header_with (codes "lat") 3 (number_var (codes "time_run") (1 ∷ []))) (times_var Int [])
        ≡ Err (NameTaken (codes "time_run")) }
    ensures offset { names_are_free
        (header_with (codes "lat") 3 (number_var (codes "time_offset") (1 ∷ [])))
        (times_var Int [])
        ≡ Err (NameTaken (codes "time_offset")) }
{}

/// A record dimension without records is refused, unless it is the axis's.
pub fn other_dimensions_have_to_have_a_length()
    ensures { dims_have_lengths
        (header_with (codes "record") 0 (number_var (codes "n") (1 ∷ []))) (times_var Int [])
        ≡ Err (EmptyDimension (codes "record")) }
{}
