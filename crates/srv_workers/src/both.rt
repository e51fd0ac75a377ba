//! A desk, and others behind it.
ghost use Rattle.srv_workers.specs.Both.{all_means, first_then};

use crate::behind::Behind;
use crate::desks::Desks;
use crate::eyes::AllEyes;
use crate::one::OwnHand;
use crate::slots::Slots;
use dev_traits::{Clock, Door, Gate, Inbox};
use pub_snap::{Closed, Desk, Name, Receipt, Share};
use srv_door::DoorReport;
use srv_ingest::{ExpireReport, IngestReport};
use srv_many::serve_many_door;
use std::alloc::Global;
use std::sync::{Mutex, Wait};

// What there is of the first desk, and of the others.
#[derive(Drop)]
pub(crate) struct And<A, B> {
    pub first: A,
    pub others: B,
}

// What publishes at the first desk, or at one of the others.
#[derive(Drop)]
pub(crate) enum OneOf<A, B> {
    This(A),
    Other(B),
}

// The first desk has the number 0, and the others follow.
impl<N: Name + Send + Sync, X: Behind> Desks for And<Desk<N>, X> {
    type Eyes = AllEyes<N, X::Passes>;

    type Hand = OneOf<OwnHand<N>, X::Hand>;

    type Shared = And<Mutex<Desk<N>>, X::Shared>;

    type Receipts = And<Receipt<N>, X::Receipts>;

    type Back = And<Slots<Share<N>>, X::Back>;

    ghost means = { all_means N.proto X.means };

    ghost parts = { first_then N.parts X.parts };

    ghost logs = { λ desks. first_then desks.first (X.logs desks.others) };

    ghost told = { λ all. first_then all.first (X.told all.others) };

    ghost slots = { λ back. first_then back.first (X.slots back.others) };

    fn shared(self) -> And<Mutex<Desk<N>>, X::Shared> {
        let And { first, others } = self;
        And {
            first: Mutex::new(first),
            others: others.shared(),
        }
    }

    fn alone(shared: And<Mutex<Desk<N>>, X::Shared>) -> And<Desk<N>, X> {
        let And { first, others } = shared;
        And {
            first: first.into_inner(),
            others: X::alone(others),
        }
    }

    fn serve<R: Wait, D: Door, G: Gate>(
        rt: &R,
        alloc: Global,
        eyes: &mut AllEyes<N, X::Passes>,
        door: &mut D,
        number: u32,
        gate: &G,
    ) -> DoorReport {
        X::know();
        let AllEyes { passes, protos } = eyes;
        serve_many_door(rt, alloc, passes, door, number, gate, protos)
    }

    fn take_in<R: Wait, I: Inbox>(
        rt: &R,
        alloc: Global,
        shared: &And<Mutex<Desk<N>>, X::Shared>,
        hand: &mut OneOf<OwnHand<N>, X::Hand>,
        inbox: &mut I,
    ) -> IngestReport {
        X::know();
        match hand {
            OneOf::This(own) => <Desk<N> as Desks>::take_in(rt, alloc, &shared.first, own, inbox),
            OneOf::Other(other) => X::take_in(rt, alloc, &shared.others, other, inbox),
        }
    }

    fn let_go<R: Wait, C: Clock>(
        rt: &R,
        alloc: Global,
        shared: &And<Mutex<Desk<N>>, X::Shared>,
        hand: &mut OneOf<OwnHand<N>, X::Hand>,
        clock: &mut C,
        keep: u32,
    ) -> ExpireReport {
        X::know();
        match hand {
            OneOf::This(own) => <Desk<N> as Desks>::let_go(
                rt,
                alloc,
                &shared.first,
                own,
                clock,
                keep,
            ),
            OneOf::Other(other) => X::let_go(rt, alloc, &shared.others, other, clock, keep),
        }
    }

    fn receipts(&self) -> And<Receipt<N>, X::Receipts> {
        And {
            first: self.first.receipt(),
            others: self.others.receipts(),
        }
    }

    fn learn(hand: &mut OneOf<OwnHand<N>, X::Hand>, all: &And<Receipt<N>, X::Receipts>) -> bool {
        X::know();
        match hand {
            OneOf::This(own) => <Desk<N> as Desks>::learn(own, &all.first),
            OneOf::Other(other) => X::learn(other, &all.others),
        }
    }

    fn learn_all(eyes: &mut AllEyes<N, X::Passes>, all: &And<Receipt<N>, X::Receipts>) -> bool {
        X::know();
        And::<Desk<N>, X>::learn_passes(&mut eyes.passes, all)
    }

    fn give(back: &mut And<Slots<Share<N>>, X::Back>, hand: OneOf<OwnHand<N>, X::Hand>) {
        match hand {
            OneOf::This(own) => <Desk<N> as Desks>::give(&mut back.first, own),
            OneOf::Other(other) => X::give(&mut back.others, other),
        }
    }

    fn close<R: Wait>(
        self,
        rt: &R,
        back: And<Slots<Share<N>>, X::Back>,
        closed: &mut Slots<Closed>,
    ) {
        let And { first, others } = self;
        let end = Desk::close(first, rt, back.first.into_list());
        closed.put(end);
        others.close(rt, back.others, closed);
    }
}
