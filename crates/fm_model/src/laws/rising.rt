//! Rising lists of instants.
ghost use Rattle.std.specs.Prelude.{◌≡◌, ◌↔◌, List, ℤ, Contains};
ghost use Rattle.fm_model.specs.Rising.{rising, Rises};

/// A rising list has the members of the list that it is made from.
pub fn rising_keeps_the_members()
    ensures { (instants : List ℤ) (instant : ℤ) →
        Contains (rising instants) instant ↔ Contains instants instant }
{}

/// A rising list rises: it has each of its members once.
pub fn rising_rises()
    ensures { (instants : List ℤ) → Rises (rising instants) }
{}

/// Two lists that rise and have the same members are the same list.
pub fn rising_lists_differ_by_members()
    ensures { (a b : List ℤ) → Rises a → Rises b
        → ((instant : ℤ) → Contains a instant ↔ Contains b instant) → a ≡ b }
{}
