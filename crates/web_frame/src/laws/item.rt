//! The heads of a stream of bytes.
ghost use Rattle.std.specs.Prelude.{◌≡◌, ◌++◌, drop};
ghost use Rattle.web_frame.specs.Cut.{cut_of};
ghost use Rattle.web_frame.specs.Items.{AreFirst, heads_by, heads_of};

/// The heads of some bytes are what stands at their front, and then the heads of the bytes that follow it.
#[tactic(auto, using(crate::proofs::ItemLaws::items))]
pub fn heads_come_one_by_one(bytes: &[u8])
    ensures { heads_of bytes.now
        ≡ heads_by (cut_of bytes.now) bytes.now (λ len. heads_of (drop len bytes.now)) }
{}

/// Bytes that follow change none of the heads before them, so a stream has the same heads however it is cut.
#[tactic(auto, using(crate::proofs::ItemLaws::items))]
pub fn heads_stay_when_bytes_follow(bytes: &[u8], more: &[u8])
    ensures { AreFirst (heads_of bytes.now).items (heads_of (bytes.now ++ more.now)).items }
{}
