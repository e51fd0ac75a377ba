//! What made files are, each as the contract of a call that does nothing.
ghost use Rattle.std.specs.Prelude.{◌≡◌, ◌+◌, ◌*◌, ◌<◌, [], ◌∷◌, ℕ, List, Some, Ok, codes, pos};
ghost use Rattle.nc_model.specs.Layout.{element, elements_of};
ghost use Rattle.nc_model.specs.Sound.{sound_header};
ghost use Rattle.nc_model.specs.Stamp.{mark_of};
ghost use Rattle.fm_gen.specs.Fields.{word};
ghost use Rattle.fm_gen.specs.File.{made_file};
ghost use Rattle.fm_gen.specs.Values.{bits_of, number_at, steps_text};
ghost use Rattle.fm_made.specs.Made.{lat_var, lon_var, made_header, made_loaded, made_proto, time_var, v_var};
ghost use Rattle.fm_model.specs.declared.proto.Proto.{Proto};
ghost use Rattle.fm_model.specs.declared.site.Site.{Site};
ghost use Rattle.fm_model.specs.Load.{load_of};
ghost use Rattle.fm_model.specs.Prototype.{proto_of};

/// A made file has a sound header of 65 records, and each of its elements: the times from 21,600 k on, an hour apart,
/// the latitudes and the longitudes from 0 to 7, and for the value at a time, a latitude and a longitude the number of
/// the sequence at its index in row-major order.
#[tactic(auto, using(crate::proofs::HeaderLemmas::header_made, crate::proofs::LawLemmas::elements))]
pub fn a_made_file_has_these_elements()
    ensures header { (seed k : ℕ) → sound_header (made_file seed k) ≡ Ok made_header }
    ensures times { (seed k j : ℕ) → j < 65
        → element (made_file seed k) made_header time_var (j ∷ []) ≡ word (21600 * k + 3600 * j) }
    ensures latitudes { (seed k : ℕ) →
        elements_of (made_file seed k) made_header lat_var ≡ steps_text 8 }
    ensures longitudes { (seed k : ℕ) →
        elements_of (made_file seed k) made_header lon_var ≡ steps_text 8 }
    ensures values { (seed k j a b : ℕ) → j < 65 → a < 8 → b < 8
        → element (made_file seed k) made_header v_var (j ∷ a ∷ b ∷ [])
        ≡ word (bits_of (number_at seed k (64 * j + (8 * a + b)))) }
{}

/// Each made file is a prototype at any site, and at one site all are the same.
#[tactic(auto, using(crate::proofs::ProtoLemmas::made_prototype))]
pub fn a_made_file_is_a_prototype()
    ensures { (site : Site) (seed k : ℕ) → proto_of (made_file seed k) site ≡ Ok (made_proto site) }
{}

/// File k of a seed is taken over the prototype of file 0, under each name whose mark is its run time, 21,600 k seconds
/// after the epoch, 2020-01-01T00:00:00Z.
#[tactic(auto, using(crate::proofs::TakenLemmas::made_file_taken))]
pub fn a_made_file_is_taken()
    ensures { (site : Site) (proto : Proto) (name : List ℕ) (seed k : ℕ) → k < 400
        → site.epoch ≡ pos 1577836800 → mark_of name site.mark ≡ Some (pos (1577836800 + 21600 * k))
        → proto_of (made_file seed 0) site ≡ Ok proto
        → load_of name (made_file seed k) proto ≡ Ok (made_loaded name seed k) }
{}

/// Such names are there: those of the first file, of the file of a leap day, and of the last one.
#[tactic(auto, using(crate::proofs::NameLemmas::marks))]
pub fn names_have_these_marks()
    ensures first { mark_of (codes "load_20200101_0000.nc") (codes "load_") ≡ Some (pos (1577836800 + 21600 * 0)) }
    ensures leap { mark_of (codes "load_20200229_0600.nc") (codes "load_") ≡ Some (pos (1577836800 + 21600 * 237)) }
    ensures last { mark_of (codes "load_20200409_1800.nc") (codes "load_") ≡ Some (pos (1577836800 + 21600 * 399)) }
{}
