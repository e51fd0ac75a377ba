//! Examples of the definitions, each as the contract of a call that does nothing.
ghost use Rattle.std.specs.Prelude.{◌≡◌, [], ◌∷◌, ◌++◌, codes, slice_index, Ok, Err};
ghost use Rattle.dap_model.specs.Box.{box_of, index_at, slab_indices, whole_slab};
ghost use Rattle.dap_model.specs.ConstraintReading.{constraint_of};
ghost use Rattle.dap_model.specs.Example.{array, at, coordinate, dim, example_decls};
ghost use Rattle.dap_model.specs.Example.{example_sent, t_grid, vector};
ghost use Rattle.dap_model.specs.StructureText.{dds_of};
ghost use Rattle.dap_model.specs.Xdr.{array_bytes, number_bytes, text_bytes, texts_bytes};
ghost use Rattle.dap_model.specs.Xdr.{values_at, xdr_of};

use crate::declaration::{DapKind, Decl};
use crate::fault::{CeFault, ProjectFault};
use crate::projection::Slab;

/// Slabs with a stride, of one index, and with their stop before their start.
pub fn slabs()
    ensures every_second { slab_indices (record { start = 0; stride = 2; stop = 2 })
        ≡ 0 ∷ 2 ∷ [] }
    ensures not_to_the_stop { slab_indices (record { start = 1; stride = 3; stop = 9 })
        ≡ 1 ∷ 4 ∷ 7 ∷ [] }
    ensures one { slab_indices (record { start = 5; stride = 1; stop = 5 }) ≡ 5 ∷ [] }
    ensures turned { slab_indices (record { start = 1; stride = 1; stop = 0 }) ≡ [] }
{}

/// The box of two slabs, the last index varying fastest, and the index list of one of its elements.
pub fn boxes()
    ensures none { box_of [] ≡ [] ∷ [] }
    ensures rows { box_of (record { start = 0; stride = 2; stop = 2 }
        ∷ record { start = 1; stride = 1; stop = 3 } ∷ [])
        ≡ (0 ∷ 1 ∷ []) ∷ (0 ∷ 2 ∷ []) ∷ (0 ∷ 3 ∷ [])
        ∷ (2 ∷ 1 ∷ []) ∷ (2 ∷ 2 ∷ []) ∷ (2 ∷ 3 ∷ []) ∷ [] }
    ensures by_division { index_at (record { start = 0; stride = 2; stop = 2 }
        ∷ record { start = 1; stride = 1; stop = 3 } ∷ []) 4
        ≡ 2 ∷ 2 ∷ [] }
{}

/// Whole numbers of two bytes take four with their sign, bytes of an array are packed, and a byte alone takes four.
pub fn words()
    ensures shorts { array_bytes DapKind.Int16 (1 ∷ 0xfffe ∷ 3 ∷ [])
        ≡ 0 ∷ 0 ∷ 0 ∷ 3 ∷ 0 ∷ 0 ∷ 0 ∷ 3
        ∷ 0 ∷ 0 ∷ 0 ∷ 1 ∷ 0xff ∷ 0xff ∷ 0xff ∷ 0xfe ∷ 0 ∷ 0 ∷ 0 ∷ 3 ∷ [] }
    ensures bytes { array_bytes DapKind.Byte (1 ∷ 2 ∷ 3 ∷ 4 ∷ 255 ∷ [])
        ≡ 0 ∷ 0 ∷ 0 ∷ 5 ∷ 0 ∷ 0 ∷ 0 ∷ 5 ∷ 1 ∷ 2 ∷ 3 ∷ 4 ∷ 255 ∷ 0 ∷ 0 ∷ 0 ∷ [] }
    ensures byte_alone { number_bytes DapKind.Byte 0xff ≡ 0 ∷ 0 ∷ 0 ∷ 0xff ∷ [] }
    ensures double_alone { number_bytes DapKind.Float64 0x3f847ae147ae147b
        ≡ 0x3f ∷ 0x84 ∷ 0x7a ∷ 0xe1 ∷ 0x47 ∷ 0xae ∷ 0x14 ∷ 0x7b ∷ [] }
{}

/// A text has its length in front, and an array of texts how many they are.
pub fn texts()
    ensures alone { text_bytes (codes "ab") ≡ 0 ∷ 0 ∷ 0 ∷ 2 ∷ 97 ∷ 98 ∷ 0 ∷ 0 ∷ [] }
    ensures two { texts_bytes (codes "ab" ∷ codes "cdef" ∷ [])
        ≡ 0 ∷ 0 ∷ 0 ∷ 2 ∷ 0 ∷ 0 ∷ 0 ∷ 2 ∷ 97 ∷ 98 ∷ 0 ∷ 0
        ∷ 0 ∷ 0 ∷ 0 ∷ 4 ∷ 99 ∷ 100 ∷ 101 ∷ 102 ∷ [] }
{}

/// Every second of three times, as the values of a part.
pub fn part()
    ensures { xdr_of DapKind.Int32 (values_at DapKind.Int32
        (record { start = 0; stride = 2; stop = 2 } ∷ [])
        (λ index. slice_index (0x07861f80 ∷ 0x078673e0 ∷ 0x0786c840 ∷ [])
        (slice_index index 0))
        (λ index. []))
        ≡ 0 ∷ 0 ∷ 0 ∷ 2 ∷ 0 ∷ 0 ∷ 0 ∷ 2
        ∷ 0x07 ∷ 0x86 ∷ 0x1f ∷ 0x80 ∷ 0x07 ∷ 0x86 ∷ 0xc8 ∷ 0x40 ∷ [] }
{}

/// Constraints, and what they ask for.
pub fn constraints()
    ensures empty { constraint_of [] ≡ Ok [] }
    ensures strided { constraint_of (codes "time[0:2:3]") ≡ Ok (record {
      path = codes "time" ∷ [];
      slabs = record { start = 0; stride = 2; stop = 3 } ∷ [];
    } ∷ []) }
    ensures three { constraint_of (codes "t[1][0][007]") ≡ Ok (record {
      path = codes "t" ∷ [];
      slabs = record { start = 1; stride = 1; stop = 1 }
          ∷ record { start = 0; stride = 1; stop = 0 }
          ∷ record { start = 7; stride = 1; stop = 7 } ∷ [];
    } ∷ []) }
    ensures member { constraint_of (codes "t.lat,time_run[4:2]")
        ≡ Ok (record { path = codes "t" ∷ codes "lat" ∷ []; slabs = [] }
        ∷ record {
          path = codes "time_run" ∷ [];
          slabs = record { start = 4; stride = 1; stop = 2 } ∷ [];
        } ∷ []) }
{}

/// Texts that are no constraints, with the offset up to which some constraint begins so.
pub fn constraint_faults()
    ensures selection { constraint_of (codes "t&x>1") ≡ Err (CeFault.Selection 1) }
    ensures only_selection { constraint_of (codes "&x>1") ≡ Err (CeFault.Selection 0) }
    ensures no_clause { constraint_of (codes "t,") ≡ Err (CeFault.BadConstraint 2) }
    ensures in_slab { constraint_of (codes "t[1&") ≡ Err (CeFault.BadConstraint 3) }
    ensures no_number { constraint_of (codes "t[1:]") ≡ Err (CeFault.BadConstraint 4) }
    ensures four_numbers { constraint_of (codes "t[1:2:3:4]")
        ≡ Err (CeFault.BadConstraint 7) }
    ensures long_number { constraint_of (codes "t[1234567890123456789]")
        ≡ Err (CeFault.BadConstraint 20) }
    ensures name_after_slab { constraint_of (codes "t[1].lat")
        ≡ Err (CeFault.BadConstraint 4) }
{}

/// The structure text of a dataset with a Grid.
pub fn structure_text()
    ensures { dds_of (codes "gfs_best.ncd") example_decls ≡ codes "Dataset {\n"
        ++ codes "    Int32 time[time = 3];\n"
        ++ codes "    Float32 lat[lat = 2];\n"
        ++ codes "    Float32 lon[lon = 2];\n"
        ++ codes "    Grid {\n"
        ++ codes "        ARRAY:\n"
        ++ codes "            Float32 t[time = 3][lat = 2][lon = 2];\n"
        ++ codes "        MAPS:\n"
        ++ codes "            Int32 time[time = 3];\n"
        ++ codes "            Float32 lat[lat = 2];\n"
        ++ codes "            Float32 lon[lon = 2];\n"
        ++ codes "    } t;\n"
        ++ codes "    Int32 time_run[time = 3];\n"
        ++ codes "    Int32 time_offset[time = 3];\n"
        ++ codes "} gfs_best.ncd;\n" }
{}

/// The word of each kind, and a single value, which has no dimension.
pub fn structure_text_of_each_kind()
    ensures { dds_of (codes "each") (Decl.Plain (vector DapKind.Byte (codes "b"))
        ∷ Decl.Plain (vector DapKind.Int16 (codes "s"))
        ∷ Decl.Plain (vector DapKind.Int32 (codes "i"))
        ∷ Decl.Plain (vector DapKind.Float32 (codes "f"))
        ∷ Decl.Plain (vector DapKind.Float64 (codes "d"))
        ∷ Decl.Plain (vector DapKind.Text (codes "w"))
        ∷ Decl.Plain (array DapKind.Int16 (codes "alone") [])
        ∷ [])
        ≡ codes "Dataset {\n"
        ++ codes "    Byte b[x = 10];\n"
        ++ codes "    Int16 s[x = 10];\n"
        ++ codes "    Int32 i[x = 10];\n"
        ++ codes "    Float32 f[x = 10];\n"
        ++ codes "    Float64 d[x = 10];\n"
        ++ codes "    String w[x = 10];\n"
        ++ codes "    Int16 alone;\n"
        ++ codes "} each;\n" }
{}

/// A part of a Grid is sent in a Structure.
pub fn structure_text_of_a_member()
    ensures { dds_of (codes "gfs_best.ncd") (Decl.Structure (codes "t")
        (coordinate DapKind.Float32 (codes "lat") 2 ∷ []) ∷ [])
        ≡ codes "Dataset {\n"
        ++ codes "    Structure {\n"
        ++ codes "        Float32 lat[lat = 2];\n"
        ++ codes "    } t;\n"
        ++ codes "} gfs_best.ncd;\n" }
{}

/// What is sent of a dataset: a slab of a Grid goes to its array and to the maps of its dimensions, and a map named
/// alone is sent in a Structure.
pub fn projections()
    ensures grid { example_sent (codes "t[1][0][0]") ≡ Ok (record {
      decls = t_grid 1 1 1 ∷ [];
      sent = record { decl = 3; part = 0; slabs = at 1 ∷ at 0 ∷ at 0 ∷ [] }
          ∷ record { decl = 3; part = 1; slabs = at 1 ∷ [] }
          ∷ record { decl = 3; part = 2; slabs = at 0 ∷ [] }
          ∷ record { decl = 3; part = 3; slabs = at 0 ∷ [] } ∷ [];
    }) }
    ensures member { example_sent (codes "t.lat") ≡ Ok (record {
      decls = Decl.Structure (codes "t")
          (coordinate DapKind.Float32 (codes "lat") 2 ∷ []) ∷ [];
      sent = record { decl = 3; part = 2; slabs = whole_slab 2 ∷ [] } ∷ [];
    }) }
    ensures in_order { example_sent (codes "t.lon,lat[1],t.t[0:2:2][0][0]") ≡ Ok (record {
      decls = Decl.Plain (coordinate DapKind.Float32 (codes "lat") 1)
          ∷ Decl.Structure (codes "t") (array DapKind.Float32 (codes "t")
          (dim (codes "time") 2 ∷ dim (codes "lat") 1 ∷ dim (codes "lon") 1 ∷ [])
          ∷ coordinate DapKind.Float32 (codes "lon") 2 ∷ []) ∷ [];
      sent = record { decl = 1; part = 0; slabs = at 1 ∷ [] }
          ∷ record {
            decl = 3;
            part = 0;
            slabs = record { start = 0; stride = 2; stop = 2 } ∷ at 0 ∷ at 0 ∷ [];
          }
          ∷ record { decl = 3; part = 3; slabs = whole_slab 2 ∷ [] } ∷ [];
    }) }
    ensures same_twice { example_sent (codes "time,time[0:2]") ≡ example_sent (codes "time") }
{}

/// Constraints that don't fit a dataset.
pub fn projection_faults()
    ensures no_variable { example_sent (codes "q")
        ≡ Err (ProjectFault.NoSuchVariable (codes "q")) }
    ensures no_part { example_sent (codes "t.q[1],time[9]")
        ≡ Err (ProjectFault.NoSuchVariable (codes "t.q")) }
    ensures part_of_an_array { example_sent (codes "time.time")
        ≡ Err (ProjectFault.NoSuchVariable (codes "time.time")) }
    ensures rank { example_sent (codes "t[0][0]")
        ≡ Err (ProjectFault.SlabRank (codes "t") 2 3) }
    ensures rank_of_a_map { example_sent (codes "t.lat[0][0]")
        ≡ Err (ProjectFault.SlabRank (codes "t.lat") 2 1) }
    ensures past_the_end { example_sent (codes "time[0:2:3]")
        ≡ Err (ProjectFault.SlabRange (codes "time") 0 3) }
    ensures turned { example_sent (codes "time[1:0]")
        ≡ Err (ProjectFault.SlabRange (codes "time") 0 3) }
    ensures no_stride { example_sent (codes "time[0:0:1]")
        ≡ Err (ProjectFault.SlabRange (codes "time") 0 3) }
    ensures second_slab { example_sent (codes "t[0][2][9]")
        ≡ Err (ProjectFault.SlabRange (codes "t") 1 2) }
    ensures range_in_a_map { example_sent (codes "lat,t.lon[2]")
        ≡ Err (ProjectFault.SlabRange (codes "t.lon") 0 2) }
    ensures conflict { example_sent (codes "t[0][0][0],t")
        ≡ Err (ProjectFault.SlabConflict (codes "t")) }
    ensures conflict_in_a_map { example_sent (codes "t.lat[1],t")
        ≡ Err (ProjectFault.SlabConflict (codes "t")) }
    ensures conflict_on_a_map { example_sent (codes "t,t.lat[1]")
        ≡ Err (ProjectFault.SlabConflict (codes "t")) }
{}
