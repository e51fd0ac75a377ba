//! How long values are as XDR, where they stand, and that their bytes determine them.
ghost use Rattle.std.specs.Prelude.{◌≡◌, ◌≢◌, ℕ, ◌+◌, ◌*◌, ◌^◌, ◌<◌, List, [], length, map, take};
ghost use Rattle.std.specs.Prelude.{slice_get, slice_index, slice_index_or, All};
ghost use Rattle.dap_model.specs.Box.{box_len, box_of, index_at};
ghost use Rattle.dap_model.specs.Xdr.{array_bytes, element_bytes, element_len, elements_len};
ghost use Rattle.dap_model.specs.Xdr.{xdr_of, values_at, AreBitsOf, number_bytes, number_len};
ghost use Rattle.dap_model.specs.Xdr.{text_bytes, text_len, texts_bytes, texts_len};

use crate::declaration::DapKind;
use crate::projection::Slab;
use fm_base::Bytes;

/// A number alone takes as many bytes as its kind says.
pub fn number_layout(kind: DapKind, bits: u64)
    ensures { length (number_bytes kind bits) ≡ number_len kind }
{}

/// An array of numbers is two counts of four bytes and its elements one after the other, each in as many bytes as its
/// kind takes, with zero bytes up to a multiple of four.
pub fn array_layout(kind: DapKind, numbers: &[u64])
    ensures length { length (array_bytes kind numbers.now)
        ≡ 8 + elements_len kind (length numbers.now) }
    ensures element { (index offset : ℕ) → index < length numbers.now → offset < element_len kind
        → slice_get (array_bytes kind numbers.now) (8 + (index * element_len kind + offset))
        ≡ slice_get (element_bytes kind (slice_index numbers.now index)) offset }
{}

/// No two arrays of a kind have the same bytes.
pub fn bytes_determine_array(kind: DapKind, first: &[u64], second: &[u64])
    requires few { length first.now < 2 ^ 32 }
    requires fewer { length second.now < 2 ^ 32 }
    requires bits { All (AreBitsOf kind) first.now }
    requires other_bits { All (AreBitsOf kind) second.now }
    ensures { array_bytes kind first.now ≡ array_bytes kind second.now
        → first.now ≡ second.now }
{}

/// The numbers of a part are an array of as many as its slabs pick, and the index of each is found by division.
pub fn part_layout(kind: DapKind, slabs: &[Slab])
    requires number { kind ≢ DapKind.Text }
    requires dims { slabs.now ≢ [] }
    ensures length { (bits : List ℕ → ℕ) (words : List ℕ → List ℕ)
        → length (xdr_of kind (values_at kind slabs.now bits words))
        ≡ 8 + elements_len kind (box_len slabs.now) }
    ensures element { (bits : List ℕ → ℕ) (words : List ℕ → List ℕ) (element offset : ℕ)
        → element < box_len slabs.now → offset < element_len kind
        → slice_get (xdr_of kind (values_at kind slabs.now bits words))
        (8 + (element * element_len kind + offset))
        ≡ slice_get (element_bytes kind (bits (index_at slabs.now element))) offset }
{}

/// A text takes four bytes and its own with zero bytes up to a multiple of four.
pub fn text_layout(text: &[u8])
    ensures { length (text_bytes text.now) ≡ text_len (length text.now) }
{}

/// An array of texts takes four bytes and those of its texts, each after those before it.
pub fn texts_layout(texts: &[Bytes])
    ensures length { length (texts_bytes texts.now) ≡ 4 + texts_len texts.now }
    ensures text { (index offset : ℕ) → index < length texts.now
        → offset < text_len (length (slice_index_or texts.now index []))
        → slice_get (texts_bytes texts.now) (4 + (texts_len (take index texts.now) + offset))
        ≡ slice_get (text_bytes (slice_index_or texts.now index [])) offset }
{}

/// The texts of a part are an array of one for each index list that its slabs pick.
pub fn texts_part_layout(slabs: &[Slab])
    requires { slabs.now ≢ [] }
    ensures { (bits : List ℕ → ℕ) (words : List ℕ → List ℕ)
        → xdr_of DapKind.Text (values_at DapKind.Text slabs.now bits words)
        ≡ texts_bytes (map words (box_of slabs.now)) }
{}
