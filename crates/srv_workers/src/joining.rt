//! What the workers at a desk are given, and those at others, as one.
ghost use Rattle.std.specs.Prelude.{◌≡◌, ◌++◌, ◌+◌, ◌-◌, ◌≤◌, [], length, map};
ghost use Rattle.srv_workers.specs.declared.both.OneOf.TheVariants.{Other, This};
ghost use Rattle.srv_workers.specs.Given.{IsVacant};
ghost use Rattle.srv_workers.specs.Joined.{rows};

use crate::both::OneOf;
use crate::given::{Given, Vacant};
use crate::slots::{Slots, take_off};
use fm_base::List;
use srv_many::Several;

// What looks at the first desk, each with what looks at the others.
fn rows_of<A: Drop, B: Drop>(
    first: List<A>,
    others: List<B>,
    room: Slots<Several<A, B>>,
) -> List<Several<A, B>>
    requires each { length others ≡ length first }
    requires empty { room.items ≡ [] }
    requires free { length first ≤ room.free }
    ensures { result ≡ rows first others }
{
    let mut row = room;
    let mut first = first;
    let mut others = others;
    let count = first.len();
    for _number in 0..count {
        let one = take_off(&mut first);
        let other = take_off(&mut others);
        row.put(Several {
            first: one,
            others: other,
        });
    }
    row.into_list()
}

// Puts hands of the first desk behind those that are there.
fn put_first<A: Drop, B: Drop>(hands: List<A>, all: &mut Slots<OneOf<A, B>>)
    requires { length hands ≤ all.old.free }
    ensures items { all.new.items ≡ all.old.items ++ map (λ hand. This hand) hands }
    ensures free { all.new.free ≡ all.old.free - length hands }
{
    let mut hands = hands;
    let count = hands.len();
    for _number in 0..count {
        let hand = take_off(&mut hands);
        all.put(OneOf::This(hand));
    }
}

// Puts hands of the other desks there.
fn put_others<A: Drop, B: Drop>(hands: List<B>, all: &mut Slots<OneOf<A, B>>)
    requires { length hands ≤ all.old.free }
    ensures items { all.new.items ≡ all.old.items ++ map (λ hand. Other hand) hands }
    ensures free { all.new.free ≡ all.old.free - length hands }
{
    let mut hands = hands;
    let count = hands.len();
    for _number in 0..count {
        let hand = take_off(&mut hands);
        all.put(OneOf::Other(hand));
    }
}

// The hands of the first desk, and behind them those of the others.
fn hands_in<A: Drop, B: Drop>(
    first: List<A>,
    others: List<B>,
    room: Slots<OneOf<A, B>>,
) -> List<OneOf<A, B>>
    requires empty { room.items ≡ [] }
    requires free { length first + length others ≤ room.free }
    ensures { result ≡ map (λ hand. This hand) first ++ map (λ hand. Other hand) others }
{
    let mut all = room;
    put_first(first, &mut all);
    put_others(others, &mut all);
    all.into_list()
}

// What all workers are given, in the order of the desks. It takes no memory.
pub(crate) fn given_all<A: Drop, B: Drop, K: Drop, H: Drop>(
    first: Given<A, K>,
    others: Given<B, H>,
    vacant: Vacant<Several<A, B>, OneOf<K, H>>,
) -> Given<Several<A, B>, OneOf<K, H>>
    requires each { length others.eyes ≡ length first.eyes }
    requires vacant { IsVacant (length first.eyes) (length first.at_inboxes + length others.at_inboxes)
        (length first.at_clocks + length others.at_clocks) vacant }
    ensures eyes { result.eyes ≡ rows first.eyes others.eyes }
    ensures at_inboxes { result.at_inboxes
        ≡ map (λ hand. This hand) first.at_inboxes ++ map (λ hand. Other hand) others.at_inboxes }
    ensures at_clocks { result.at_clocks
        ≡ map (λ hand. This hand) first.at_clocks ++ map (λ hand. Other hand) others.at_clocks }
{
    let eyes = rows_of(first.eyes, others.eyes, vacant.eyes);
    let at_inboxes = hands_in(first.at_inboxes, others.at_inboxes, vacant.at_inboxes);
    let at_clocks = hands_in(first.at_clocks, others.at_clocks, vacant.at_clocks);
    Given {
        eyes,
        at_inboxes,
        at_clocks,
    }
}
