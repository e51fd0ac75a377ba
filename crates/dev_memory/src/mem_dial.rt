//! A dialer in memory.
ghost use Rattle.std.specs.Prelude.{◌≡◌, ◌+◌, ◌≤◌, IfOk, IfSome, Some, vec_capacity, vec_len};
ghost use Rattle.std.specs.Option.{ForSome};
ghost use Rattle.dev_traits.specs.Dial.{fresh_exchange};
ghost use Rattle.dev_traits.specs.Door.{IsFresh};
ghost use Rattle.dev_memory.specs.Dialling.{links_left, links_out};

use crate::calls::Calls;
use crate::mem_link::MemLink;
use dev_traits::{Dial, Failed, Link};
use fm_base::{Bytes, Fail, List, NoMemory};
use std::alloc::Global;

/// A dialer in memory, with the link that it gives and room for it when it is given back. Without a link a dial fails.
#[derive(Drop)]
pub struct MemDial {
    link: Option<MemLink>,
    out: bool,
    dialled: List<Bytes>,
    given: Vec<MemLink>,
    calls: Calls,
    ghost room: { links_left link + links_out out + vec_len given ≤ vec_capacity given },
    ghost fresh: { ForSome link (λ link. IsFresh (⟦<MemLink as Link>⟧.shown link)) },
}

#[tactic(auto, using(crate::proofs::DialLemmas::dials))]
impl MemDial {
    /// A dialer that gives this link, which wasn't used before. The dials with these numbers, counted from 1, fail.
    pub fn new(
        alloc: Global,
        link: Option<MemLink>,
        failing: List<u64>,
    ) -> Result<MemDial, NoMemory>
        requires fresh { ForSome link (λ link. IsFresh (⟦<MemLink as Link>⟧.shown link)) }
        ensures shown { IfOk result (λ dial.
            ⟦<MemDial as Dial>⟧.shown dial ≡ record { held = Some (fresh_exchange link); faults = 0 }) }
    {
        let given = Vec::with_capacity(alloc, 1)?;
        Ok(MemDial {
            link,
            out: false,
            dialled: List::new(alloc),
            given,
            calls: Calls::new(failing),
        })
    }

    /// The links that were given back.
    pub fn given(&self) -> &[MemLink]
        ensures { IfSome (⟦<MemDial as Dial>⟧.shown self.now).held (λ exchange. result.now ≡ exchange.given) }
    {
        self.given.as_slice()
    }

    /// The addresses that were dialled.
    pub fn dialled(&self) -> &[Bytes]
        ensures { IfSome (⟦<MemDial as Dial>⟧.shown self.now).held (λ exchange. result.now ≡ exchange.dialled) }
    {
        self.dialled.as_slice()
    }
}

#[tactic(auto, using(crate::proofs::DialLemmas::dials))]
impl Dial for MemDial {
    type L = MemLink;

    ghost shown = { λ dial. record {
      held = Some (record {
        link = dial.link;
        out = dial.out;
        dialled = dial.dialled;
        given = dial.given.items;
      });
      faults = dial.calls.faults;
    } };

    fn faults(&self) -> u64 {
        self.calls.faults
    }

    fn dial(&mut self, alloc: Global, address: &[u8]) -> Result<MemLink, Fail<Failed>> {
        let address = Bytes::copy_of(alloc, address)?;
        self.dialled.push(address)?;
        if self.calls.due() {
            return Err(Fail::Fault(self.calls.fail()));
        }
        let Some(link) = self.link.take() else {
            return Err(Fail::Fault(self.calls.fail()));
        };
        self.out = true;
        Ok(link)
    }

    fn done(&mut self, link: MemLink) {
        self.out = false;
        self.given.push_reserved(link);
    }
}
