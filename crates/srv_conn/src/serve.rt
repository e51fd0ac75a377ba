//! Serving a link that blocks.
ghost use Rattle.std.specs.Prelude.{◌≡◌, []};
ghost use Rattle.dap_reply.specs.Served.{IsAtRest};
ghost use Rattle.srv_conn.specs.Serves.{moment_of, Serves};
ghost use Rattle.srv_conn.specs.ServesMany.{point_of, ServesMany};

use crate::answer::{Request, choice_of};
use crate::looks::Looks;
use crate::reading::next_asked;
use crate::replying::reply;
use crate::trail::Trail;
use dap_reply::Stop;
use dev_traits::Link;
use fm_model::Site;
use pub_look::Look;
use std::alloc::Global;
use web_session::Session;

/// The bytes that whoever serves a link has for its own use.
pub const ROOM: usize = 65_536;

/// Serves a link that blocks until `most` replies were written in this call, or the link has ended: the requests that
/// come are answered in order, each whole, over collections that never get older. It waits for nobody but the link.
pub fn serve_link<L: Link, K: Look>(
    alloc: Global,
    look: &mut K,
    link: &mut L,
    session: &mut Session,
    site: &Site,
    most: u32,
) -> (Stop, Trail)
    requires site { site.now ≡ (K.proto look.old).site }
    requires rests { IsAtRest session.old }
    requires blocks { L.blocks }
    ensures serves { Serves (K.proto look.old) (K.still look.old)
        (moment_of (L.shown link.old) (K.log look.old) (K.looks look.old) session.old [])
        (moment_of (L.shown link.new) (K.log look.new) (K.looks look.new) session.new result.1)
        most result.0 }

    // With `most` 0 nothing is touched.
    ensures nothing { most ≡ 0 → result ≡ (Stop.Enough, []) }
    ensures untouched { most ≡ 0 → (link.new ≡ link.old) × (look.new ≡ look.old) × (session.new ≡ session.old) }

    // So the session can be handed in again.
    ensures rests { result.0 ≡ Stop.Enough → IsAtRest session.new }
    ensures same_proto { K.proto look.new ≡ K.proto look.old }
    ensures same_still { K.still look.new ≡ K.still look.old }
{
    serve_looks(alloc, look, link, session, site, most)
}

/// The same over several collections, each request from the one that it is for. What a reply shows of the other
/// collections is nothing.
pub fn serve_looks<L: Link, K: Looks>(
    alloc: Global,
    looks: &mut K,
    link: &mut L,
    session: &mut Session,
    sites: &K::Sites,
    most: u32,
) -> (Stop, Trail)
    requires fits { K.fits (K.them looks.old) sites.now }
    requires rests { IsAtRest session.old }
    requires blocks { L.blocks }
    ensures serves { ServesMany (K.them looks.old)
        (point_of (L.shown link.old) (K.views looks.old) session.old [])
        (point_of (L.shown link.new) (K.views looks.new) session.new result.1)
        most result.0 }

    // With `most` 0 nothing is touched.
    ensures nothing { most ≡ 0 → result ≡ (Stop.Enough, []) }
    ensures untouched { most ≡ 0 → (link.new ≡ link.old) × (looks.new ≡ looks.old) × (session.new ≡ session.old) }

    // So the session can be handed in again.
    ensures rests { result.0 ≡ Stop.Enough → IsAtRest session.new }
    ensures same { K.them looks.new ≡ K.them looks.old }
{
    let mut trail = Trail::new(alloc);
    let mut room = [0; ROOM];
    while trail.len() < most as usize {
        let asked = match next_asked(link, session, &mut room) {
            Ok(asked) => asked,
            Err(end) => return (Stop::Ended(end), trail),
        };
        let number = choice_of(looks, sites, session, asked);
        let request = Request {
            asked,
            number,
            site: looks.site(sites, number),
            revision: looks.seen_in(number),
        };
        if let Some(end) = reply(alloc, looks, link, session, &request, &mut room, &mut trail) {
            return (Stop::Ended(end), trail);
        }
    }
    (Stop::Enough, trail)
}
