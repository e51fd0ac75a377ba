//! A pass, which looks at the published operations.
ghost use Rattle.std.specs.Prelude.{◌≡◌, ◌∷◌, [], ◌++◌, length, true, false, IsTrue, IfOk, IfSome, IfNone, MatchResult};
ghost use Rattle.left_right.specs.Sides.{view};
ghost use Rattle.fm_edition.specs.Log.{held_of, IsLog};
ghost use Rattle.pub_look.specs.History.{Continues};
ghost use Rattle.pub_pass.specs.Opening.{unused};
ghost use Rattle.pub_pass.specs.Copies.{longer, IsOf};

use crate::log::Front;
use crate::name::Name;
use crate::receipt::Receipt;
use crate::rule::{Known, Looks, Meets, Publication};
use crate::shown::Shown;
use fm_base::{Arc, NoMemory};
use fm_edition::Edition;
use left_right::reader::{Factory, Reader};
use pub_look::{Look, Query};
use std::alloc::Global;
use std::marker::Model;

// A reader under the rule.
pub(crate) type Seat<N> = Reader<Shown, Known, Publication<N>>;

/// Looks at what a desk publishes, and waits for nobody. Contracts see the operations that it has seen, and how many
/// they were at each of its looks.
#[derive(Drop)]
pub struct Pass<N: Name> {
    // `None` where the copies had no seat left.
    seat: Option<Seat<N>>,
    front: Front,
    // More may have been learnt than the seat has seen.
    ahead: bool,
}

impl<N: Name> Model for Pass<N> {
    ghost use Rattle.std.specs.Prelude.{◌≡◌, [], false, option_map, unwrap_or, IfSome};
    ghost use Rattle.left_right.specs.Sides.{view as view_of};
    ghost use Rattle.pub_look.specs.History.{History};
    ghost use Rattle.pub_pass.specs.declared.rule.Known.{Known};
    ghost use Rattle.pub_pass.specs.Copies.{IsOf};

    ghost Value = { History };

    ghost view = { λ pass. record {
      proto = N.proto;
      seen = pass.front.seen.log;
      looks = unwrap_or (option_map (λ seat. (view_of {V = Known} seat.place).looks) pass.seat) [];
    } };

    ghost invariant = { λ pass. IsOf N.book N.proto pass.front.seen.book pass.front.seen.log
        × (pass.ahead ≡ false → IfSome pass.seat (λ seat.
        (view_of {V = Known} seat.place).seen ≡ pass.front.seen.log)) };
}

#[tactic(auto, using(pub_look::proofs::HistoryLemmas::same_length))]
impl<N: Name> Pass<N> {
    /// A pass that has no seat yet.
    pub fn unseated(front: Front) -> Pass<N>
        requires known { IsOf N.book N.proto front.seen.book front.seen.log }
        requires empty { front.seen.log ≡ [] }
        ensures { result ≡ unused N.proto }
    {
        Pass {
            seat: None,
            front,
            ahead: true,
        }
    }

    /// Gives a pass without a seat one that has looked at nothing yet, if one is left.
    pub fn sit(&mut self, factory: &Factory<Shown, Known, Publication<N>>)
        ensures { self.new ≡ self.old }
    {
        if self.seat.is_none() {
            self.ahead = true;
            self.seat = factory.reader().ok();
        }
    }

    /// Sees the longer of the two lists. It makes no look.
    pub fn learn(&mut self, receipt: &Receipt<N>)
        ensures exact { self.new
            ≡ record { proto = self.old.proto; seen = longer self.old.seen receipt.now; looks = self.old.looks } }

        // Both lists are beginnings of what is then seen.
        ensures own { Continues self.old.seen self.new.seen }
        ensures told { Continues receipt.now self.new.seen }
        ensures alike { length self.old.seen ≡ length receipt.now → self.old.seen ≡ receipt.now }
    {
        if !receipt.front().begins(&self.front) {
            self.front = receipt.front().again();
            self.ahead = true;
        }
    }
}

#[tactic(auto, using(pub_look::proofs::HistoryLemmas::continues_itself))]
impl<N: Name> Look for Pass<N> {
    ghost proto = { λ pass. pass.proto };

    ghost still = { λ _. false };

    ghost log = { λ pass. pass.seen };

    ghost looks = { λ pass. pass.looks };

    fn seen(&self) -> u64 {
        self.front.len()
    }

    fn ask<Q: Query>(&mut self, alloc: Global, query: &Q) -> Result<(Q::Out, u64), NoMemory> {
        let Some(seat) = self.seat.take() else {
            return Err(NoMemory);
        };
        let (seat, found) = meet_and_look(alloc, seat, &self.front, self.ahead, query);
        self.ahead = true;
        self.seat = Some(seat);
        let Some((front, out)) = found else {
            return Err(NoMemory);
        };
        self.ahead = false;
        self.front = front;
        out
    }
}

// Brings the seat up to all that is known, and makes a look. `None` where the seat couldn't do either, and then no look
// was made.
fn meet_and_look<N: Name, Q: Query>(
    alloc: Global,
    seat: Seat<N>,
    known: &Front,
    ahead: bool,
    query: &Q,
) -> (Seat<N>, Option<(Front, Result<(Q::Out, u64), NoMemory>)>)
    requires known { known.now.seen.book ≡ N.book }
    requires level { ahead ≡ false → (view seat.place).seen ≡ known.now.seen.log }
    ensures answer { IfSome result.1 (λ found. IfOk found.1 (λ out.
        Q.says query.now (held_of N.proto found.0.seen.log) out.1 out.0)) }
    ensures number { IfSome result.1 (λ found. IfOk found.1 (λ out. out.1 ≡ length found.0.seen.log)) }
    ensures known { IfSome result.1 (λ found. IsOf N.book N.proto found.0.seen.book found.0.seen.log) }
    ensures later { IfSome result.1 (λ found. Continues known.now.seen.log found.0.seen.log) }
    ensures seen { IfSome result.1 (λ found. (view result.0.place).seen ≡ found.0.seen.log) }
    ensures looked { IfSome result.1 (λ found.
        (view result.0.place).looks ≡ (view seat.place).looks ++ length found.0.seen.log ∷ []) }
    ensures none { IfNone result.1 ((view result.0.place).looks ≡ (view seat.place).looks) }
{
    let (seat, met) = meet(seat, known, ahead);
    if !met {
        return (seat, None);
    }
    let (seat, found) = look(alloc, seat, query);
    (seat, found)
}

// Brings the seat up to all that is known: where more may have been learnt, it enters once, without a look. Returns
// whether the seat has seen all of it.
fn meet<N: Name>(seat: Seat<N>, known: &Front, ahead: bool) -> (Seat<N>, bool)
    requires known { known.now.seen.book ≡ N.book }
    requires level { ahead ≡ false → (view seat.place).seen ≡ known.now.seen.log }
    ensures looks { (view result.0.place).looks ≡ (view seat.place).looks }
    ensures met { IsTrue result.1 → Continues known.now.seen.log (view result.0.place).seen }
{
    if !ahead {
        return (seat, true);
    }
    match seat.enter_as::<Meets<N>>() {
        Ok(reading) => {
            let met = known.begins(reading.get().front());
            (reading.leave(), met)
        }
        Err(seat) => (seat, false),
    }
}

// Makes a look, and answers once the seat has left the copy. `None` where it couldn't enter, and then no look was made.
fn look<N: Name, Q: Query>(
    alloc: Global,
    seat: Seat<N>,
    query: &Q,
) -> (Seat<N>, Option<(Front, Result<(Q::Out, u64), NoMemory>)>)
    ensures answer { IfSome result.1 (λ found. IfOk found.1 (λ out.
        Q.says query.now (held_of N.proto found.0.seen.log) out.1 out.0)) }
    ensures number { IfSome result.1 (λ found. IfOk found.1 (λ out. out.1 ≡ length found.0.seen.log)) }
    ensures known { IfSome result.1 (λ found. IsOf N.book N.proto found.0.seen.book found.0.seen.log) }
    ensures later { IfSome result.1 (λ found. Continues (view seat.place).seen found.0.seen.log) }
    ensures seen { IfSome result.1 (λ found. (view result.0.place).seen ≡ found.0.seen.log) }
    ensures looked { IfSome result.1 (λ found.
        (view result.0.place).looks ≡ (view seat.place).looks ++ length found.0.seen.log ∷ []) }
    ensures none { IfNone result.1 ((view result.0.place).looks ≡ (view seat.place).looks) }
{
    let (seat, found) = take_share(seat);
    let Some((front, edition)) = found else {
        return (seat, None);
    };
    let out = answer_over(alloc, query, edition, front.len());
    (seat, Some((front, out)))
}

// Enters for a look, and takes a share of the edition that is shown, with the log that it stands for: two counts, so
// that nobody waits long for a reader to leave. `None` where the seat couldn't enter. No share comes only where no more
// owners of the edition can be counted.
fn take_share<N: Name>(seat: Seat<N>) -> (Seat<N>, Option<(Front, Result<Arc<Edition>, NoMemory>)>)
    ensures held { IfSome result.1 (λ found. IfOk found.1 (λ edition.
        edition ≡ held_of N.proto found.0.seen.log)) }
    ensures known { IfSome result.1 (λ found. IsOf N.book N.proto found.0.seen.book found.0.seen.log) }
    ensures later { IfSome result.1 (λ found. Continues (view seat.place).seen found.0.seen.log) }
    ensures seen { IfSome result.1 (λ found. (view result.0.place).seen ≡ found.0.seen.log) }
    ensures looked { IfSome result.1 (λ found.
        (view result.0.place).looks ≡ (view seat.place).looks ++ length found.0.seen.log ∷ []) }
    ensures none { IfNone result.1 ((view result.0.place).looks ≡ (view seat.place).looks) }
{
    match seat.enter_as::<Looks<N>>() {
        Ok(reading) => {
            let shown = reading.get();
            let front = shown.front().again();
            let edition = shown.share();
            (reading.leave(), Some((front, edition)))
        }
        Err(seat) => (seat, None),
    }
}

// The answer over an edition, where there is one, with the number of the operations that left it.
fn answer_over<Q: Query>(
    alloc: Global,
    query: &Q,
    edition: Result<Arc<Edition>, NoMemory>,
    count: u64,
) -> Result<(Q::Out, u64), NoMemory>
    ensures answer { IfOk result (λ out. MatchResult edition (λ held. Q.says query.now held out.1 out.0) (λ _. ⊥)) }
    ensures number { IfOk result (λ out. out.1 ≡ count) }
{
    let edition = edition?;
    let out = query.answer(alloc, edition.get(), count)?;
    Ok((out, count))
}
