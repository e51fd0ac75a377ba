//! What a desk says of its log.
ghost use Rattle.std.specs.Prelude.{◌≡◌, length};
ghost use Rattle.pub_pass.specs.Copies.{IsOf};

use crate::log::Front;
use crate::name::Name;
use std::marker::{Model, PhantomData};

/// Says that the log of the desk begins so. Contracts see it as the operations. It can be learnt any number of times.
#[derive(Drop)]
pub struct Receipt<N: Name> {
    front: Front,
    of: PhantomData<N>,
}

impl<N: Name> Model for Receipt<N> {
    ghost use Rattle.std.specs.Prelude.{List};
    ghost use Rattle.fm_model.specs.declared.op.Op.{Op as Operation};
    ghost use Rattle.pub_pass.specs.Copies.{IsOf};

    ghost Value = { List Operation };

    ghost view = { λ receipt. receipt.front.seen.log };

    ghost invariant = { λ receipt. IsOf N.book N.proto receipt.front.seen.book receipt.front.seen.log };
}

impl<N: Name> Receipt<N> {
    /// The receipt that says a front.
    pub fn of(front: Front) -> Receipt<N>
        requires { IsOf N.book N.proto front.seen.book front.seen.log }
        ensures { result ≡ front.seen.log }
    {
        Receipt {
            front,
            of: PhantomData,
        }
    }

    /// How many operations the log had.
    pub fn revision(&self) -> u64
        ensures { result ≡ length self.now }
    {
        self.front.len()
    }

    pub(crate) fn front(&self) -> &Front
        ensures log { result.now.seen.log ≡ self.now }
        ensures known { IsOf N.book N.proto result.now.seen.book result.now.seen.log }
    {
        &self.front
    }
}
