//! The command that sends the two-dimensional view of a collection.
ghost use Rattle.std.specs.Prelude.{◌≡◌};
ghost use Rattle.fm_base.specs.Answer.{Answers};
ghost use Rattle.srv_words.specs.Stepping.{IsChanging};
ghost use Rattle.srv_views.specs.Views as spec;

use crate::running::{View, run};
use crate::sending::{Whole, send};
use dev_traits::{Files, Link, Sink};
use fm_base::Fail;
use fm_twod::{Twod, TwodAsk};
use pub_look::{Look, Plain};
use srv_alone::End;
use srv_words::Stepping;
use std::alloc::Global;

impl Whole for Twod {
    ghost use Rattle.fm_twod.specs.Parts.{bytes_of};

    ghost bytes = { bytes_of };

    fn len(&self) -> u64 {
        Twod::len(self)
    }

    fn piece(&self, from: u64, out: &mut [u8]) -> usize {
        Twod::piece(self, from, out)
    }

    fn lent(&self, _from: u64) -> &[u8] {
        b""
    }
}

// The view of a collection that is asked for, or the number of the first fault.
fn view_of(alloc: Global, plain: &mut Plain, ask: &TwodAsk) -> Result<Twod, Fail<u16>>
    ensures { Answers (spec.twod_body ask.now plain.old) result }
{
    let (answer, _revision) = plain.ask(alloc, ask)?;
    match answer {
        Ok(twod) => Ok(twod),
        Err(fault) => Err(Fail::Fault(fault.code())),
    }
}

#[tactic(auto, using(crate::proofs::ViewLemmas::delivered))]
impl View for TwodAsk {
    ghost use Rattle.std.specs.Prelude.{codes};
    ghost use Rattle.srv_views.specs.Views.{twod_bytes};

    ghost word = { codes "twod" };

    ghost bytes = { twod_bytes };

    fn command<'a>(&self) -> &'a [u8] {
        b"twod"
    }

    fn send<L: Link>(&self, alloc: Global, plain: &mut Plain, link: &mut L) -> End {
        match view_of(alloc, plain, self) {
            Ok(twod) => {
                let end = send(link, &twod);
                drop(twod);
                end
            }
            Err(Fail::Fault(code)) => End::Refused(code),
            Err(Fail::NoMemory) => End::NoMemory,
        }
    }
}

/// Runs `twod`: reads the prototype, does the steps in their order on a collection over it, and sends the
/// two-dimensional view of what they leave over the link, as much of it as is asked for. Nothing is taken from the
/// link. Reports how that ended. The clause says what was sent at each end, and what the line names.
pub fn twod<F: Files, L: Link, S: Sink>(
    alloc: Global,
    stepping: Stepping,
    ask: &TwodAsk,
    files: &mut F,
    link: &mut L,
    sink: &mut S,
) -> End
    requires blocks { L.blocks }
    requires changing { IsChanging stepping }
    ensures { spec.RunsTwod stepping ask.now result
        (record { files = F.shown files.old; link = L.shown link.old; sink = S.shown sink.old })
        (record { files = F.shown files.new; link = L.shown link.new; sink = S.shown sink.new }) }
{
    run(alloc, stepping, ask, files, link, sink)
}
