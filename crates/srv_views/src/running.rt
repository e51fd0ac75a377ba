//! A run of a command that sends a view of a collection.
ghost use Rattle.std.specs.Prelude.{◌≡◌, ℕ, IsTrue, List, Result};
ghost use Rattle.std.specs.List.{list_all};
ghost use Rattle.fm_model.specs.Site.{IsSite};
ghost use Rattle.pub_look.specs.History.{History};
ghost use Rattle.srv_words.specs.Stepping.{IsChanging, is_change};
ghost use Rattle.srv_views.specs.Sending.{Delivers};
ghost use Rattle.srv_views.specs.Views as spec;

use dev_traits::{Files, Link, Sink};
use fm_model::Site;
use pub_look::Plain;
use srv_alone::{End, collect, report};
use srv_words::{Step, Stepping};
use std::alloc::Global;

/// A view of a collection, as a command asks for it.
pub(crate) trait View {
    /// The word of the command.
    ghost word: { List ℕ };

    /// The bytes of the view, or the number of the first fault.
    ghost bytes: { Self → History → Result (List ℕ) ℕ };

    /// The word of the command.
    fn command<'a>(&self) -> &'a [u8]
        ensures { result.now ≡ word };

    /// Sends the bytes of the view over the link, and returns how that ends.
    fn send<L: Link>(&self, alloc: Global, plain: &mut Plain, link: &mut L) -> End
        requires { L.blocks }
        ensures { Delivers result (bytes self.now plain.old) (L.shown link.old) (L.shown link.new) };
}

// Does the steps and sends the view. Returns how that ends, and the path of the file at which it does, or the command.
fn send_after<'a, V: View, F: Files, L: Link>(
    alloc: Global,
    site: Site,
    path: &'a [u8],
    steps: &'a [Step],
    ask: &V,
    files: &mut F,
    link: &mut L,
) -> (End, &'a [u8])
    requires blocks { L.blocks }
    requires site { IsSite site }
    requires changes { IsTrue (list_all is_change steps.now) }
    ensures { spec.Sends V.word (V.bytes ask.now)
        (record { site = site; proto = path.entry.now; steps = steps.entry.now }) result.0 result.1.now
        (F.shown files.old) (F.shown files.new) (L.shown link.old) (L.shown link.new) }
{
    let mut plain = match collect(alloc, site, path, steps, files, link) {
        Ok(plain) => plain,
        Err(stop) => return stop,
    };
    let end = ask.send(alloc, &mut plain, link);
    drop(plain);
    (end, ask.command())
}

/// Reads the prototype, does the steps in their order on a collection over it, and sends the view of what they leave
/// over the link. Nothing is taken from the link. Reports how that ended.
pub(crate) fn run<V: View, F: Files, L: Link, S: Sink>(
    alloc: Global,
    stepping: Stepping,
    ask: &V,
    files: &mut F,
    link: &mut L,
    sink: &mut S,
) -> End
    requires blocks { L.blocks }
    requires changing { IsChanging stepping }
    ensures { spec.RunsView V.word (V.bytes ask.now) stepping result
        (record { files = F.shown files.old; link = L.shown link.old; sink = S.shown sink.old })
        (record { files = F.shown files.new; link = L.shown link.new; sink = S.shown sink.new }) }
{
    let Stepping { site, proto, steps } = stepping;
    let (end, at) = send_after(
        alloc,
        site,
        proto.as_slice(),
        steps.as_slice(),
        ask,
        files,
        link,
    );
    report(sink, end, at);
    end
}
