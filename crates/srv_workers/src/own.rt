//! A pass with the prototype of its desk.
ghost use Rattle.std.specs.Prelude.{◌≡◌, IfOk, replicate};
ghost use Rattle.pub_look.specs.History.{Continues};

use fm_base::{Arc, List, NoMemory};
use fm_model::Proto;
use pub_look::{Look, Query};
use pub_snap::{Name, Pass, Receipt};
use srv_many::Row;
use std::alloc::Global;
use std::marker::Model;

// A pass and its prototype, which are known to be those of one desk. Contracts see it as the pass.
#[derive(Drop)]
pub(crate) struct OwnPass<N: Name> {
    pub pass: Pass<N>,
    pub proto: Arc<Proto>,
}

impl<N: Name> Model for OwnPass<N> {
    ghost use Rattle.std.specs.Prelude.{◌≡◌};
    ghost use Rattle.pub_look.specs.History.{History};

    ghost Value = { History };

    ghost view = { λ own. own.pass };

    ghost invariant = { λ own. (own.pass.proto ≡ N.proto) × (own.proto ≡ N.proto) };
}

impl<N: Name> OwnPass<N> {
    pub fn of(pass: Pass<N>, proto: Arc<Proto>) -> OwnPass<N>
        requires pass { pass.proto ≡ N.proto }
        requires proto { proto ≡ N.proto }
        ensures { result ≡ pass }
    {
        OwnPass { pass, proto }
    }

    // Sees the longer of its list and the log.
    pub fn learn(&mut self, log: &Receipt<N>)
        ensures own { Continues self.old.seen self.new.seen }
        ensures told { Continues log.now self.new.seen }
    {
        self.pass.learn(log);
    }
}

// Its prototype is known by its type.
impl<N: Name> Look for OwnPass<N> {
    ghost use Rattle.std.specs.Prelude.{false};

    ghost proto = { λ _. N.proto };

    ghost still = { λ _. false };

    ghost log = { λ own. own.seen };

    ghost looks = { λ own. own.looks };

    fn seen(&self) -> u64 {
        self.pass.seen()
    }

    fn ask<Q: Query>(&mut self, alloc: Global, query: &Q) -> Result<(Q::Out, u64), NoMemory> {
        self.pass.ask(alloc, query)
    }
}

// A pass is a row of one.
impl<N: Name> Row for OwnPass<N> {
    ghost use Rattle.srv_workers.specs.One.{row_of_one};

    ghost known = { row_of_one N.proto };

    fn seen_at(&self, index: usize) -> u64 {
        if index == 0 {
            self.seen()
        } else {
            unreachable!()
        }
    }

    fn ask_at<Q: Query>(
        &mut self,
        alloc: Global,
        index: usize,
        query: &Q,
    ) -> Result<(Q::Out, u64), NoMemory> {
        if index == 0 {
            self.ask(alloc, query)
        } else {
            unreachable!()
        }
    }
}

// `count` copies of a prototype.
pub(crate) fn copies_of(
    alloc: Global,
    proto: &Arc<Proto>,
    count: usize,
) -> Result<List<Arc<Proto>>, NoMemory>
    ensures { IfOk result (λ copies. copies ≡ replicate count proto.now) }
{
    let mut copies = List::new(alloc);
    for _made in 0..count {
        copies.push(proto.share()?)?;
    }
    Ok(copies)
}
