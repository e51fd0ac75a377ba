//! Which bytes are a head.
ghost use Rattle.std.specs.Prelude.{◌≡◌, ◌<◌, ◌≤◌, ℕ, [], length};
ghost use Rattle.httparse.specs.Grammar.{RequestHead, ReadsRequest};
ghost use Rattle.web_frame.specs.Items.{item_of, request, bad_head};
ghost use Rattle.web_frame.specs.Said.{request_of};

/// Bytes are read as a head exactly where they are one head of the grammar of `httparse`, with at most 64 header lines,
/// and nothing else; and as that head.
#[tactic(auto, using(crate::proofs::HeadLaws::heads))]
pub fn heads_are_those_of_the_grammar(bytes: &[u8])
    ensures head { (h : RequestHead) → ReadsRequest bytes.now h [] → length h.fields ≤ 64
        → item_of bytes.now ≡ request (request_of h) h.target }
    ensures bad { ((h : RequestHead) → ReadsRequest bytes.now h [] → 64 < length h.fields)
        → item_of bytes.now ≡ bad_head }
{}
