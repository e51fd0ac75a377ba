//! The knowledge of each seat at the two copies, and the rule that all seats keep.

use crate::name::Name;
use crate::shown::Shown;
use crossbeam_utils::rule::{Outcome, Protocol};
use fm_model::Op;
use std::collections::LinkedList;
use std::marker::PhantomData;

/// The operations that a seat has seen in a copy, and how many they were at each of its looks. No value of it is made.
pub struct Known {
    pub seen: LinkedList<Op>,
    pub looks: LinkedList<u64>,
}

/// The rule of the copy that readers enter, and of all seats.
pub struct Publication<N> {
    of: PhantomData<N>,
}

impl<N: Name> Protocol<Shown, Known> for Publication<N> {
    ghost use Rattle.std.specs.Prelude.{[]};
    ghost use Rattle.pub_pass.specs.Copies.{IsShown};

    ghost holds = { λ shown views. IsShown N.book N.proto shown views };

    ghost first = { record { seen = []; looks = [] } };
}

// Entering for a look.
pub struct Looks<N> {
    of: PhantomData<N>,
}

impl<N: Name> Outcome<Shown, Known> for Looks<N> {
    ghost use Rattle.std.specs.Prelude.{◌≡◌, [], ◌∷◌, ◌++◌, length};
    ghost use Rattle.pub_pass.specs.Copies.{Enters};

    ghost then = { λ before shown _ after. Enters N.book N.proto before shown after
        × (after.looks ≡ before.looks ++ length shown.log ∷ []) };
}

// Entering to see the shown copy, which is no look.
pub struct Meets<N> {
    of: PhantomData<N>,
}

impl<N: Name> Outcome<Shown, Known> for Meets<N> {
    ghost use Rattle.std.specs.Prelude.{◌≡◌};
    ghost use Rattle.pub_pass.specs.Copies.{Enters};

    ghost then = { λ before shown _ after. Enters N.book N.proto before shown after × (after.looks ≡ before.looks) };
}
