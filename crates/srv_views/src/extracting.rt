//! The command that writes a view as a netCDF file.
ghost use Rattle.std.specs.Prelude.{◌≡◌};
ghost use Rattle.fm_base.specs.Answer.{Answers};
ghost use Rattle.srv_words.specs.Stepping.{IsChanging};
ghost use Rattle.srv_views.specs.Extract as spec;
ghost use Rattle.srv_views.specs.Sending.{Delivers};

use crate::picked::{ExtractAsk, Picked};
use crate::running::{View, run};
use crate::sending::{Whole, send};
use dev_traits::{Files, Link, Sink};
use fm_base::Fail;
use nc_writer::NcFile;
use pub_look::{Look, Plain};
use srv_alone::End;
use srv_words::Stepping;
use std::alloc::Global;

impl<'a> Whole for NcFile<'a> {
    ghost use Rattle.nc_writer.specs.File.{bytes_of};

    ghost bytes = { bytes_of };

    fn len(&self) -> u64 {
        NcFile::len(self)
    }

    fn piece(&self, from: u64, out: &mut [u8]) -> usize {
        NcFile::piece(self, from, out)
    }

    fn lent(&self, from: u64) -> &[u8] {
        NcFile::lent(self, from)
    }
}

// What is sent of a collection, or the number of the first fault.
fn picked_in(alloc: Global, plain: &mut Plain, ask: &ExtractAsk) -> Result<Picked, Fail<u16>>
    ensures { Answers (spec.picked_in ask.now plain.old) result }
{
    let (answer, _revision) = plain.ask(alloc, ask)?;
    match answer {
        Ok(picked) => Ok(picked),
        Err(fault) => Err(Fail::Fault(fault.code())),
    }
}

// Sends what was picked as a netCDF file in a version of the format.
#[tactic(auto, using(crate::proofs::ExtractLemmas::written))]
fn send_file<L: Link>(alloc: Global, picked: &Picked, version: u8, link: &mut L) -> End
    requires { L.blocks }
    ensures { Delivers result (spec.file_bytes version picked.now) (L.shown link.old) (L.shown link.new) }
{
    match picked.file(alloc, version) {
        Ok(file) => {
            let end = send(link, &file);
            drop(file);
            end
        }
        Err(Fail::Fault(fault)) => End::Refused(fault.code()),
        Err(Fail::NoMemory) => End::NoMemory,
    }
}

#[tactic(auto, using(crate::proofs::ExtractLemmas::delivered))]
impl View for ExtractAsk {
    ghost use Rattle.std.specs.Prelude.{codes};
    ghost use Rattle.srv_views.specs.Extract.{extract_bytes};

    ghost word = { codes "extract" };

    ghost bytes = { extract_bytes };

    fn command<'a>(&self) -> &'a [u8] {
        b"extract"
    }

    fn send<L: Link>(&self, alloc: Global, plain: &mut Plain, link: &mut L) -> End {
        match picked_in(alloc, plain, self) {
            Ok(picked) => {
                let end = send_file(alloc, &picked, self.version, link);
                drop(picked);
                end
            }
            Err(Fail::Fault(code)) => End::Refused(code),
            Err(Fail::NoMemory) => End::NoMemory,
        }
    }
}

/// Runs `extract`: reads the prototype, does the steps in their order on a collection over it, and sends the view of
/// what they leave that is asked for over the link as a netCDF classic file. The file is made in pieces, as they are
/// sent; of it the header alone takes memory. Nothing is taken from the link. Reports how that ended. The clause says
/// what was sent at each end, and what the line names.
pub fn extract<F: Files, L: Link, S: Sink>(
    alloc: Global,
    stepping: Stepping,
    ask: &ExtractAsk,
    files: &mut F,
    link: &mut L,
    sink: &mut S,
) -> End
    requires blocks { L.blocks }
    requires changing { IsChanging stepping }
    ensures { spec.RunsExtract stepping ask.now result
        (record { files = F.shown files.old; link = L.shown link.old; sink = S.shown sink.old })
        (record { files = F.shown files.new; link = L.shown link.new; sink = S.shown sink.new }) }
{
    run(alloc, stepping, ask, files, link, sink)
}
