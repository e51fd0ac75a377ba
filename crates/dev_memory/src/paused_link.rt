//! A link in memory whose calls would wait at times.
ghost use Rattle.std.specs.Prelude.{◌≡◌};

use crate::mem_link::MemLink;
use crate::pauses::Pauses;
use dev_traits::{Failed, Link, Sent, Taken};

/// A link in memory whose takes and puts would wait at some offsets.
#[derive(Drop)]
pub struct PausedLink {
    pub link: MemLink,
    takes: Pauses,
    puts: Pauses,
}

impl PausedLink {
    /// This link, with pauses of its takes and of its puts.
    pub fn new(link: MemLink, takes: Pauses, puts: Pauses) -> PausedLink
        ensures { ⟦<PausedLink as Link>⟧.shown result ≡ ⟦<MemLink as Link>⟧.shown link }
    {
        PausedLink { link, takes, puts }
    }
}

#[tactic(auto, using(dev_traits::proofs::LinkLemmas::after_take_nothing, dev_traits::proofs::LinkLemmas::after_put_nothing))]
impl Link for PausedLink {
    ghost shown = { λ paused. ⟦<MemLink as Link>⟧.shown paused.link };

    fn faults(&self) -> u64 {
        self.link.faults()
    }

    fn take(&mut self, buf: &mut [u8]) -> Result<Taken, Failed> {
        let Some(most) = self.takes.next(self.link.taken()) else {
            return Ok(Taken::Later);
        };
        let (front, _) = buf.split_at_mut(most.min(buf.len()));
        self.link.take(front)
    }

    fn put(&mut self, bytes: &[u8]) -> Result<Sent, Failed> {
        let Some(most) = self.puts.next(self.link.output().len()) else {
            return Ok(Sent::Later);
        };
        let (front, _) = bytes.split_at(most.min(bytes.len()));
        self.link.put(front)
    }
}
