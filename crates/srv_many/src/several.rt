//! What gives looks at several collections, one after the other.
ghost use Rattle.srv_many.specs.Several.{collections_with, row_with, views_with, AreProtos};

use crate::choice::choose;
use crate::row::Row;
use fm_base::{Arc, List, NoMemory};
use fm_model::{Proto, Site};
use pub_look::{Look, Query};
use srv_conn::Looks;
use std::alloc::Global;
use web_session::Asked;

/// What gives looks at one collection, and at the others in a row: a list, or again one and others. So each may be of a
/// type of its own.
#[derive(Drop)]
pub struct Several<K, F> {
    pub first: K,
    pub others: F,
}

impl<K: Look, F: Row> Row for Several<K, F> {
    ghost known = { row_with K.proto K.still K.log K.looks F.known };

    fn seen_at(&self, index: usize) -> u64 {
        if index == 0 {
            self.first.seen()
        } else {
            self.others.seen_at(index - 1)
        }
    }

    fn ask_at<Q: Query>(
        &mut self,
        alloc: Global,
        index: usize,
        query: &Q,
    ) -> Result<(Q::Out, u64), NoMemory> {
        if index == 0 {
            self.first.ask(alloc, query)
        } else {
            self.others.ask_at(alloc, index - 1, query)
        }
    }
}

impl<K: Look, F: Row> Looks for Several<K, F> {
    type Sites = List<Arc<Proto>>;

    ghost them = { collections_with K.proto K.still K.log K.looks F.known };

    ghost views = { views_with K.proto K.still K.log K.looks F.known };

    ghost fits = { AreProtos };

    fn count(&self, sites: &List<Arc<Proto>>) -> usize {
        sites.len()
    }

    fn choose(&self, sites: &List<Arc<Proto>>, asked: Asked, target: &[u8]) -> usize {
        match asked {
            Asked::Head(_) => choose(target, sites),
            Asked::BadHead | Asked::HeadTooLong => 0,
        }
    }

    fn site<'a>(&self, sites: &'a List<Arc<Proto>>, number: usize) -> &'a Site {
        &sites.items[number].get().site
    }

    fn seen_in(&self, number: usize) -> u64 {
        self.seen_at(number)
    }

    fn ask_in<Q: Query>(
        &mut self,
        alloc: Global,
        number: usize,
        query: &Q,
    ) -> Result<(Q::Out, u64), NoMemory> {
        self.ask_at(alloc, number, query)
    }
}
