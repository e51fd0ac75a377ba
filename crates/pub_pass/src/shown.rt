//! A copy that readers enter: an edition, and the log that it stands for.
ghost use Rattle.std.specs.Prelude.{◌≡◌, IfOk};
ghost use Rattle.pub_look.specs.History.{Keeps};

use crate::log::Front;
use fm_base::{Arc, NoMemory};
use fm_edition::Edition;
use left_right::Absorb;
use std::alloc::AllocError;
use std::marker::Model;

/// An edition, with the beginning of the log that it stands for. The next one replaces it as it is.
#[derive(Drop)]
pub struct Shown {
    edition: Arc<Edition>,
    front: Front,
}

impl Model for Shown {
    ghost use Rattle.pub_look.specs.History.{Keeps};
    ghost use Rattle.pub_pass.specs.Copies.{Copy};

    ghost Value = { Copy };

    ghost view = { λ shown. record { held = shown.edition; book = shown.front.seen.book; log = shown.front.seen.log } };

    ghost invariant = { λ shown. Keeps shown.edition shown.front.seen.log };
}

impl Absorb<Shown> for Shown {
    type State = Shown;

    ghost state = { λ shown. shown };

    ghost applied = { λ _ next. next };

    fn absorb_first(&mut self, next: &Shown, _other: &Shown) -> Result<(), AllocError> {
        match next.again() {
            Ok(next) => {
                *self = next;
                Ok(())
            }
            Err(_) => Err(AllocError),
        }
    }
}

impl Shown {
    /// An edition that stands for what the log of a front leaves.
    pub fn of(edition: Arc<Edition>, front: Front) -> Shown
        requires { Keeps edition front.seen.log }
        ensures { result ≡ record { held = edition; book = front.seen.book; log = front.seen.log } }
    {
        Shown { edition, front }
    }

    /// The edition, which stands for what the log leaves.
    pub fn edition(&self) -> &Edition
        ensures held { result.now ≡ self.now.held }
        ensures stands { Keeps self.now.held self.now.log }
    {
        self.edition.get()
    }

    /// One more owner of the edition. It fails only where no more can be counted.
    pub fn share(&self) -> Result<Arc<Edition>, NoMemory>
        ensures held { IfOk result (λ edition. edition ≡ self.now.held) }
        ensures stands { Keeps self.now.held self.now.log }
    {
        self.edition.share()
    }

    /// The beginning of the log.
    pub fn front(&self) -> &Front
        ensures log { result.now.seen.log ≡ self.now.log }
        ensures book { result.now.seen.book ≡ self.now.book }
    {
        &self.front
    }

    /// The same copy once more. It fails only where no more owners of the edition can be counted.
    pub fn again(&self) -> Result<Shown, NoMemory>
        ensures { IfOk result (λ shown. shown ≡ self.now) }
    {
        Ok(Shown {
            edition: self.edition.share()?,
            front: self.front.again(),
        })
    }
}
