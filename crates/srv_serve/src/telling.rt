//! The line of a server that is open.
ghost use Rattle.std.specs.Prelude.{◌≡◌, ◌∷◌, [], IfOk, OnErr, OnOk};
ghost use Rattle.srv_open.specs.Devices.{wanted_of};
ghost use Rattle.srv_serve.specs.Many as many;
ghost use Rattle.srv_serve.specs.Telling as spec;

use dev_traits::Machine;
use fm_base::{Bytes, List, NoMemory};
use itoa::Buffer;
use srv_open::Asked;
use srv_words::ServingMany;
use std::alloc::Global;

// The folders, each behind a blank.
fn folders_text(alloc: Global, folders: &[Bytes]) -> Result<Bytes, NoMemory>
    ensures { IfOk result (λ text. text ≡ spec.folders_text folders.now) }
{
    let mut text = List::new(alloc);
    for folder in folders {
        text.append(b" ")?;
        text.append(folder.as_slice())?;
    }
    Ok(text)
}

// Tells an opener that a collection is served at an address, from these folders.
fn tell_with<'a, M: Machine>(
    opener: &mut M,
    name: &'a [u8],
    listen: &'a [u8],
    workers: u32,
    folders: &'a [u8],
)
    ensures { spec.TellsLines (spec.open_line name.now listen.now workers folders.now ∷ [])
        (M.shown opener.old) (M.shown opener.new) }
{
    let mut digits = Buffer::new();
    opener.note(&[
        b"serving ".as_slice(),
        name,
        b" at ",
        listen,
        b", ",
        digits.format(workers).as_bytes(),
        b" workers, folders",
        folders,
    ]);
}

// Tells an opener that one of the collections is served, with one folder. It takes no memory.
fn tell_spec<'a, M: Machine>(
    opener: &mut M,
    serving: &ServingMany,
    name: &'a [u8],
    folder: &'a [u8],
)
    ensures { spec.TellsLines (spec.open_line name.now serving.now.listen serving.now.workers
        (spec.folders_text (folder.now ∷ [])) ∷ []) (M.shown opener.old) (M.shown opener.new) }
{
    let mut digits = Buffer::new();
    opener.note(&[
        b"serving ".as_slice(),
        name,
        b" at ",
        serving.listen.as_slice(),
        b", ",
        digits.format(serving.workers).as_bytes(),
        b" workers, folders ",
        folder,
    ]);
}

// Tells an opener that all collections are served, each in a line of its own. It takes no memory.
pub(crate) fn tell_each<M: Machine>(opener: &mut M, serving: &ServingMany)
    ensures { spec.TellsLines (many.serving_lines serving.now) (M.shown opener.old) (M.shown opener.new) }
{
    let specs = serving.specs.as_slice();
    for number in 0..specs.len() {
        let spec = &specs[number];
        tell_spec(
            opener,
            serving,
            spec.site.name.as_slice(),
            spec.inbox.as_slice(),
        );
    }
}

// Tells an opener that all is open that is asked for, with a collection of this name, where memory suffices for the
// line.
pub(crate) fn tell_serving<M: Machine>(
    alloc: Global,
    opener: &mut M,
    name: &[u8],
    asked: &Asked<'_>,
) -> Result<(), NoMemory>
    ensures ok { OnOk result
        (spec.TellsServing name.now (wanted_of asked.now) (M.shown opener.old) (M.shown opener.new)) }
    ensures err { OnErr result (M.shown opener.new ≡ M.shown opener.old) }
{
    let folders = folders_text(alloc, asked.inboxes)?;
    tell_with(
        opener,
        name,
        asked.listen,
        asked.workers,
        folders.as_slice(),
    );
    Ok(())
}
