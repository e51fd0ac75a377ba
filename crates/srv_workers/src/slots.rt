//! Lists with room that was made beforehand.
ghost use Rattle.std.specs.Prelude.{◌≡◌, ◌-◌, ◌<◌, ◌≤◌, ◌++◌, ◌∷◌, [], length, IfOk};

use fm_base::{List, NoMemory};
use std::alloc::Global;
use std::marker::Model;

// Items, and room for more, so that a put takes no memory. Contracts see the items, and for how many more there is
// room.
#[derive(Drop)]
pub(crate) struct Slots<T> {
    items: Vec<T>,
}

impl<T> Model for Slots<T> {
    ghost use Rattle.std.specs.Prelude.{◌-◌, vec_capacity, vec_len};
    ghost use Rattle.srv_workers.specs.Slots.{Slotted};

    ghost Value = { Slotted T };

    ghost view = { λ slots. record {
      items = slots.items.items;
      free = vec_capacity slots.items - vec_len slots.items;
    } };
}

impl<T: Drop> Slots<T> {
    // No items yet, and room for `count`.
    pub fn with_room(alloc: Global, count: usize) -> Result<Slots<T>, NoMemory>
        ensures items { IfOk result (λ slots. slots.items ≡ []) }
        ensures free { IfOk result (λ slots. count ≤ slots.free) }
    {
        let items = Vec::with_capacity(alloc, count)?;
        Ok(Slots { items })
    }

    // Puts an item behind the others. It takes no memory.
    pub fn put(&mut self, item: T)
        requires { 0 < self.old.free }
        ensures items { self.new.items ≡ self.old.items ++ item ∷ [] }
        ensures free { self.new.free ≡ self.old.free - 1 }
    {
        self.items.push_reserved(item);
    }

    pub fn into_list(self) -> List<T>
        ensures { result ≡ self.items }
    {
        let Slots { items } = self;
        List { items }
    }
}

// Two lists with room.
#[derive(Drop)]
pub(crate) struct SlotPair<A, B> {
    pub first: Slots<A>,
    pub second: Slots<B>,
}

// No items yet, and room for `some` items in the first list and for `more` in the second.
pub(crate) fn pair_with_room<A: Drop, B: Drop>(
    alloc: Global,
    some: usize,
    more: usize,
) -> Result<SlotPair<A, B>, NoMemory>
    ensures items { IfOk result (λ pair. (pair.first.items ≡ []) × (pair.second.items ≡ [])) }
    ensures free { IfOk result (λ pair. (some ≤ pair.first.free) × (more ≤ pair.second.free)) }
{
    let first = Slots::with_room(alloc, some)?;
    match Slots::with_room(alloc, more) {
        Ok(second) => Ok(SlotPair { first, second }),
        Err(NoMemory) => {
            drop(first);
            Err(NoMemory)
        }
    }
}

// Two such pairs: room for `some` items in each list of the first, and for `more` in each of the second.
pub(crate) fn pairs_with_room<A: Drop, B: Drop, E: Drop, F: Drop>(
    alloc: Global,
    some: usize,
    more: usize,
) -> Result<(SlotPair<A, B>, SlotPair<E, F>), NoMemory>
    ensures items { IfOk result (λ pairs. (pairs.0.first.items ≡ []) × (pairs.0.second.items ≡ [])) }
    ensures free { IfOk result (λ pairs. (some ≤ pairs.0.first.free) × (some ≤ pairs.0.second.free)) }
    ensures more_items { IfOk result (λ pairs. (pairs.1.first.items ≡ []) × (pairs.1.second.items ≡ [])) }
    ensures more_free { IfOk result (λ pairs. (more ≤ pairs.1.first.free) × (more ≤ pairs.1.second.free)) }
{
    let first = pair_with_room(alloc, some, some)?;
    match pair_with_room(alloc, more, more) {
        Ok(second) => Ok((first, second)),
        Err(NoMemory) => {
            drop(first);
            Err(NoMemory)
        }
    }
}

// Takes the first item off a list.
pub(crate) fn take_off<T>(list: &mut List<T>) -> T
    requires { 0 < length list.old }
    ensures { list.old ≡ result ∷ list.new }
{
    list.items.remove(0)
}
