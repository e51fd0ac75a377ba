//! One desk behind others.
ghost use Rattle.std.specs.Prelude.{◌≡◌, ◌<◌, ◌∷◌, [], drop, length};
ghost use Rattle.pub_snap.specs.Opening.{IsNamed};
ghost use Rattle.srv_workers.specs.Opened.{FirstAnd, IsSized};

use crate::behind::Behind;
use crate::given::Given;
use crate::one::OwnHand;
use crate::own::OwnPass;
use crate::places::{given_at, places_for};
use crate::slots::{Slots, take_off};
use fm_base::{Arc, List, NoMemory};
use fm_model::Proto;
use pub_look::Look;
use pub_snap::{Blank, Desk, Name, Receipt, Share};
use std::alloc::Global;
use std::sync::Wait;

// The first blank of a list. Any others are dropped.
fn first_blank(blanks: List<Blank>) -> Blank
    requires { 0 < length blanks }
    ensures { blanks ≡ result ∷ drop 1 blanks }
{
    let mut blanks = blanks;
    take_off(&mut blanks)
}

impl<N: Name + Send + Sync> Behind for Desk<N> {
    type Passes = OwnPass<N>;

    ghost are_blank = { λ doors clocks blanks. FirstAnd (λ blank.
        IsNamed blank N.book N.name N.proto N.parts × IsSized doors clocks blank) (λ others. others ≡ []) blanks };

    fn know() {}

    fn learn_passes(passes: &mut OwnPass<N>, all: &Receipt<N>) -> bool {
        passes.learn(all);
        passes.seen() == all.revision()
    }

    fn eyes(passes: OwnPass<N>, _protos: List<Arc<Proto>>) -> OwnPass<N> {
        passes
    }

    fn back(alloc: Global, shares: usize) -> Result<Slots<Share<N>>, NoMemory> {
        let back = Slots::with_room(alloc, shares)?;
        Ok(back)
    }

    fn open<R: Wait>(
        _rt: &R,
        alloc: Global,
        blanks: List<Blank>,
        protos: &[Arc<Proto>],
        doors: usize,
        clocks: usize,
    ) -> Result<(Desk<N>, Given<OwnPass<N>, OwnHand<N>>), NoMemory> {
        let places = match places_for(alloc, &protos[0], doors, 1, clocks) {
            Ok(places) => places,
            Err(NoMemory) => {
                drop(blanks);
                return Err(NoMemory);
            }
        };
        match first_blank(blanks).open::<N>(alloc) {
            Ok((desk, passes, shares)) => {
                let given = given_at(passes, shares, places, doors, 1, clocks);
                Ok((desk, given))
            }
            Err(NoMemory) => {
                drop(places);
                Err(NoMemory)
            }
        }
    }
}
