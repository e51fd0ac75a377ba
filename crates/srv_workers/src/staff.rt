//! A worker for each device.
ghost use Rattle.std.specs.Prelude.{◌≡◌, ◌-◌, ◌≤◌, ◌^◌, ◌<◌, [], length, All};
ghost use Rattle.srv_workers.specs.Desks.{IsUnseen, Means};
ghost use Rattle.srv_workers.specs.Done.{IsHired};
ghost use Rattle.srv_workers.specs.Given.{AreNewHands, IsGiven};
ghost use Rattle.srv_workers.specs.Room.{device_count};
ghost use Rattle.srv_workers.specs.Workers.{Adds};

use crate::desks::Desks;
use crate::given::Given;
use crate::slots::{Slots, take_off};
use crate::worker::{NO_LINKS, NO_MOMENTS, NO_NAMES, Worker};
use dev_traits::Devices;
use fm_base::List;

// Puts a worker for each door behind the others, with eyes that have seen nothing. Doors are numbered from 0.
fn serve_each<D: Drop, I: Drop, C: Drop, X: Desks>(
    doors: &mut List<D>,
    eyes: List<X::Eyes>,
    staff: &mut Slots<Worker<D, I, C, X::Eyes, X::Hand>>,
)
    requires few { length doors.old < 2 ^ 32 }
    requires eyes { length eyes ≡ length doors.old }
    requires unseen { All (λ those. IsUnseen (X.means.views those)) eyes }
    requires free { length doors.old ≤ staff.old.free }
    ensures adds { Adds X.means staff.old.items staff.new.items doors.old [] [] [] [] }
    ensures free { staff.new.free ≡ staff.old.free - length doors.old }
    ensures none { doors.new ≡ [] }
{
    let mut eyes = eyes;
    let count = doors.len() as u32;
    for number in 0..count {
        let door = take_off(doors);
        let eyes = take_off(&mut eyes);
        staff.put(Worker::Serve {
            door,
            number,
            eyes,
            report: NO_LINKS,
        });
    }
}

// Puts a worker for each inbox behind the others, with its hand.
fn take_in_each<D: Drop, I: Drop, C: Drop, X: Desks>(
    inboxes: &mut List<I>,
    hands: List<X::Hand>,
    staff: &mut Slots<Worker<D, I, C, X::Eyes, X::Hand>>,
)
    requires hands { AreNewHands X.means (length inboxes.old) hands }
    requires free { length inboxes.old ≤ staff.old.free }
    ensures adds { Adds X.means staff.old.items staff.new.items [] inboxes.old [] hands [] }
    ensures free { staff.new.free ≡ staff.old.free - length inboxes.old }
    ensures none { inboxes.new ≡ [] }
{
    let mut hands = hands;
    let count = inboxes.len();
    for _number in 0..count {
        let inbox = take_off(inboxes);
        let hand = take_off(&mut hands);
        staff.put(Worker::TakeIn {
            inbox,
            hand,
            report: NO_NAMES,
        });
    }
}

// Puts a worker for each clock behind the others, with its hand.
fn let_go_each<D: Drop, I: Drop, C: Drop, X: Desks>(
    clocks: &mut List<C>,
    hands: List<X::Hand>,
    staff: &mut Slots<Worker<D, I, C, X::Eyes, X::Hand>>,
)
    requires hands { AreNewHands X.means (length clocks.old) hands }
    requires free { length clocks.old ≤ staff.old.free }
    ensures adds { Adds X.means staff.old.items staff.new.items [] [] clocks.old [] hands }
    ensures none { clocks.new ≡ [] }
{
    let mut hands = hands;
    let count = clocks.len();
    for _number in 0..count {
        let clock = take_off(clocks);
        let hand = take_off(&mut hands);
        staff.put(Worker::LetGo {
            clock,
            hand,
            report: NO_MOMENTS,
        });
    }
}

// A worker for each device: the doors first, then the inboxes, then the clocks. It takes no memory.
pub(crate) fn hire<D: Drop, I: Drop, C: Drop, X: Desks>(
    devices: &mut Devices<D, I, C>,
    given: Given<X::Eyes, X::Hand>,
    room: Slots<Worker<D, I, C, X::Eyes, X::Hand>>,
) -> List<Worker<D, I, C, X::Eyes, X::Hand>>
    requires few { length devices.old.doors < 2 ^ 32 }
    requires given { IsGiven X.means X.parts devices.old given }
    requires empty { room.items ≡ [] }
    requires free { device_count devices.old ≤ room.free }
    ensures { IsHired X.means devices.old given result }
{
    let mut staff = room;
    let Given {
        eyes,
        at_inboxes,
        at_clocks,
    } = given;
    serve_each::<D, I, C, X>(&mut devices.doors, eyes, &mut staff);
    take_in_each::<D, I, C, X>(&mut devices.inboxes, at_inboxes, &mut staff);
    let_go_each::<D, I, C, X>(&mut devices.clocks, at_clocks, &mut staff);
    staff.into_list()
}
