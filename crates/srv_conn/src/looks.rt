//! What gives looks at several collections.
ghost use Rattle.std.specs.Prelude.{◌≡◌, ◌∷◌, ◌++◌, ◌<◌, ◌≤◌, [], ℕ, IfOk, OnErr, OnOk, length, true};
ghost use Rattle.fm_edition.specs.Log.{held_of};
ghost use Rattle.pub_look.specs.History.{Continues, MayHaveLooked};
ghost use Rattle.dap_reply.specs.Collections.{alone, Collections, Views};
ghost use Rattle.dap_reply.specs.Order.{item_by};
ghost use Rattle.srv_conn.specs.Sight.{views_of, OthersStay};

use fm_base::NoMemory;
use fm_model::Site;
use pub_look::{Look, Query};
use std::alloc::Global;
use web_session::Asked;

/// The most collections at one link.
pub const MOST_COLLECTIONS: usize = 8;

/// Looks at collections by their number from 0, and the choice of the one that a request is for. What gives looks at
/// one collection gives looks at it alone.
pub trait Looks {
    /// The sites of the collections, which whoever serves hands in.
    type Sites;

    /// The collections, which never change.
    ghost them: { Self → Collections };

    /// What is seen of each.
    ghost views: { Self → Views };

    /// These are the sites of the collections, which are no more than there may be.
    ghost fits: { Collections → Self.Sites → Type 0 };

    /// How many there are.
    fn count(&self, sites: &Self::Sites) -> usize
        requires fits { fits (them self.now) sites.now }
        ensures count { result ≡ (them self.now).count }
        ensures few { result ≤ 8 };

    /// The collection that a session's question is for, by its present target.
    fn choose(&self, sites: &Self::Sites, asked: Asked, target: &[u8]) -> usize
        requires fits { fits (them self.now) sites.now }
        ensures choice { result ≡ (them self.now).choice (item_by asked target.now) }
        ensures some { result < (them self.now).count }
        ensures few { result < 8 };

    /// The site of a collection.
    fn site<'a>(&self, sites: &'a Self::Sites, number: usize) -> &'a Site
        requires fits { fits (them self.now) sites.now }
        requires some { number < (them self.now).count }
        ensures { result.now ≡ ((them self.now).proto number).site };

    /// The number of operations seen of a collection.
    fn seen_in(&self, number: usize) -> u64
        requires some { number < (them self.now).count }
        ensures { result ≡ length ((views self.now).seen number) };

    /// Makes one look at a collection, and answers over the edition that all operations seen of it by then leave.
    /// Returns the answer and the number of these operations. Nothing is done to the other collections.
    fn ask_in<Q: Query>(
        &mut self,
        alloc: Global,
        number: usize,
        query: &Q,
    ) -> Result<(Q::Out, u64), NoMemory>
        requires some { number < (them self.old).count }
        ensures answer { IfOk result (λ found. Q.says query.now
            (held_of ((them self.new).proto number) ((views self.new).seen number)) found.1 found.0) }
        ensures number { IfOk result (λ found. found.1 ≡ length ((views self.new).seen number)) }
        ensures looked { OnOk result ((views self.new).looks number
            ≡ (views self.old).looks number ++ length ((views self.new).seen number) ∷ []) }
        ensures err { OnErr result (MayHaveLooked ((views self.old).looks number)
            (length ((views self.new).seen number)) ((views self.new).looks number)) }
        ensures later { Continues ((views self.old).seen number) ((views self.new).seen number) }
        ensures stays { (them self.old).still number ≡ true
            → (views self.new).seen number ≡ (views self.old).seen number }
        ensures others { OthersStay number (views self.old) (views self.new) }
        ensures same { them self.new ≡ them self.old };
}

impl<K: Look> Looks for K {
    type Sites = Site;

    ghost them = { λ look. alone (K.proto look) (K.still look) };

    ghost views = { λ look. views_of (record { seen = K.log look; looks = K.looks look }) };

    ghost fits = { λ them site. site ≡ (them.proto 0).site };

    fn count(&self, _sites: &Site) -> usize {
        1
    }

    fn choose(&self, _sites: &Site, _asked: Asked, _target: &[u8]) -> usize {
        0
    }

    fn site<'a>(&self, sites: &'a Site, _number: usize) -> &'a Site {
        sites
    }

    fn seen_in(&self, _number: usize) -> u64 {
        self.seen()
    }

    fn ask_in<Q: Query>(
        &mut self,
        alloc: Global,
        _number: usize,
        query: &Q,
    ) -> Result<(Q::Out, u64), NoMemory> {
        self.ask(alloc, query)
    }
}
