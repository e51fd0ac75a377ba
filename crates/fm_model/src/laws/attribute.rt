//! Texts of attributes.
ghost use Rattle.std.specs.Prelude.{◌≡◌, ◌≢◌, ◌-◌, ◌++◌, ◌∷◌, [], ℕ, List, length, replicate};
ghost use Rattle.fm_model.specs.Attribute.{trimmed};

/// A text is some bytes without the zero bytes at their end: only zeros are lost, and none is left there.
pub fn texts_lose_only_their_last_zeros()
    ensures lost { (bytes : List ℕ) →
        bytes ≡ trimmed bytes ++ replicate (length bytes - length (trimmed bytes)) 0 }
    ensures left { (bytes front : List ℕ) (last : ℕ) →
        trimmed bytes ≡ front ++ last ∷ [] → last ≢ 0 }
{}
