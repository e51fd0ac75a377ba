//! One desk.
ghost use Rattle.srv_workers.specs.One.{one_means};

use crate::desks::Desks;
use crate::own::OwnPass;
use crate::slots::Slots;
use dev_traits::{Clock, Door, Gate, Inbox};
use pub_look::Look;
use pub_snap::{Closed, Desk, Name, Receipt, Share};
use srv_door::{DoorReport, serve_door_looks};
use srv_ingest::{ExpireReport, IngestReport, expire_all, ingest_all};
use std::alloc::Global;
use std::sync::{Mutex, Wait};

// A pass and a share of one desk.
#[derive(Drop)]
pub(crate) struct OwnHand<N: Name> {
    pub own: OwnPass<N>,
    pub share: Share<N>,
}

// A desk is the only one, of number 0.
impl<N: Name + Send + Sync> Desks for Desk<N> {
    type Eyes = OwnPass<N>;

    type Hand = OwnHand<N>;

    type Shared = Mutex<Desk<N>>;

    type Receipts = Receipt<N>;

    type Back = Slots<Share<N>>;

    ghost means = { one_means N.proto };

    ghost parts = { λ _. N.parts };

    ghost logs = { λ desk _. desk };

    ghost told = { λ receipt _. receipt };

    ghost slots = { λ back _. back };

    fn shared(self) -> Mutex<Desk<N>> {
        Mutex::new(self)
    }

    fn alone(shared: Mutex<Desk<N>>) -> Desk<N> {
        shared.into_inner()
    }

    fn serve<R: Wait, D: Door, G: Gate>(
        rt: &R,
        alloc: Global,
        eyes: &mut OwnPass<N>,
        door: &mut D,
        number: u32,
        gate: &G,
    ) -> DoorReport {
        let OwnPass { pass, proto } = eyes;
        serve_door_looks(rt, alloc, pass, door, number, gate, &proto.get().site)
    }

    fn take_in<R: Wait, I: Inbox>(
        rt: &R,
        alloc: Global,
        shared: &Mutex<Desk<N>>,
        hand: &mut OwnHand<N>,
        inbox: &mut I,
    ) -> IngestReport {
        let OwnPass { pass, proto } = &mut hand.own;
        ingest_all(rt, alloc, shared, pass, inbox, proto, &mut hand.share)
    }

    fn let_go<R: Wait, C: Clock>(
        rt: &R,
        alloc: Global,
        shared: &Mutex<Desk<N>>,
        hand: &mut OwnHand<N>,
        clock: &mut C,
        keep: u32,
    ) -> ExpireReport {
        let OwnPass { pass, proto } = &mut hand.own;
        let site = &proto.get().site;
        expire_all(rt, alloc, shared, pass, clock, keep, site, &mut hand.share)
    }

    fn receipts(&self) -> Receipt<N> {
        self.receipt()
    }

    fn learn(hand: &mut OwnHand<N>, all: &Receipt<N>) -> bool {
        hand.own.learn(all);
        hand.own.seen() == all.revision()
    }

    fn learn_all(eyes: &mut OwnPass<N>, all: &Receipt<N>) -> bool {
        eyes.learn(all);
        eyes.seen() == all.revision()
    }

    fn give(back: &mut Slots<Share<N>>, hand: OwnHand<N>) {
        let OwnHand { own, share } = hand;
        drop(own);
        back.put(share);
    }

    fn close<R: Wait>(self, rt: &R, back: Slots<Share<N>>, closed: &mut Slots<Closed>) {
        let end = Desk::close(self, rt, back.into_list());
        closed.put(end);
    }
}
