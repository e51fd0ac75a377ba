//! What devices of a run did, and for whom they wait.

use dev_traits::{Gate, Place};
use row_text::Said;
use std::sync::atomic::{AtomicU64, Ordering};

// For how many turns one waits for the other.
const TURNS: u64 = 1_000_000_000;

/// How the devices of a run wait for each other.
#[derive(Clone, Copy)]
pub enum Order {
    /// None waits.
    Free,
    /// A name comes once a link was served for each verdict, a link goes on once there is a verdict more than links
    /// were served, and a moment comes once two links were served.
    InStep,
    /// Each link waits until two have come.
    Meeting,
}

/// The number of verdicts on names, of links that came and that were served, and of waits that were given up. What
/// passed the gate of each of two doors is a digit for each place in turn: 1 where a link was accepted, 2 where one was
/// finished. A door alone changes what is noted of it.
#[derive(Drop)]
pub struct Course {
    order: Order,
    settled: AtomicU64,
    accepted: AtomicU64,
    served: AtomicU64,
    gave_up: AtomicU64,
    first: AtomicU64,
    second: AtomicU64,
    others: AtomicU64,
}

impl Course {
    /// The course of a run that didn't begin.
    pub fn new(order: Order) -> Course {
        Course {
            order,
            settled: AtomicU64::new(0),
            accepted: AtomicU64::new(0),
            served: AtomicU64::new(0),
            gave_up: AtomicU64::new(0),
            first: AtomicU64::new(0),
            second: AtomicU64::new(0),
            others: AtomicU64::new(0),
        }
    }

    // Waits until a count has come to a number.
    fn wait(&self, count: &AtomicU64, number: u64) {
        for _ in 0..TURNS {
            if count.load(Ordering::SeqCst) >= number {
                return;
            }
        }
        self.gave_up.fetch_add(1, Ordering::SeqCst);
    }

    /// Waits before a name comes.
    pub fn wait_for_name(&self) {
        if let Order::InStep = self.order {
            self.wait(&self.served, self.settled.load(Ordering::SeqCst));
        }
    }

    /// Waits before a moment comes.
    pub fn wait_for_moment(&self) {
        if let Order::InStep = self.order {
            self.wait(&self.served, 2);
        }
    }

    /// Counts a verdict on a name.
    pub fn count_verdict(&self) {
        self.settled.fetch_add(1, Ordering::SeqCst);
    }

    // Counts a link that came, or was served, at the door with this number, which comes before what is noted of it.
    fn pass(&self, place: Place) {
        match place {
            Place::Accepted(number) => {
                self.note(number, 1);
                self.accepted.fetch_add(1, Ordering::SeqCst);
                self.wait_for_link();
            }
            Place::Finished(number) => {
                self.note(number, 2);
                self.served.fetch_add(1, Ordering::SeqCst);
            }
        }
    }

    fn note(&self, number: u32, digit: u64) {
        let noted = match number {
            0 => &self.first,
            1 => &self.second,
            _ => &self.others,
        };
        let before = noted.load(Ordering::SeqCst);
        noted.store(
            before.wrapping_mul(10).wrapping_add(digit),
            Ordering::SeqCst,
        );
    }

    // Waits before a link goes on.
    fn wait_for_link(&self) {
        match self.order {
            Order::Free => {}
            Order::InStep => {
                let served = self.served.load(Ordering::SeqCst);
                self.wait(&self.settled, served.saturating_add(1));
            }
            Order::Meeting => self.wait(&self.accepted, 2),
        }
    }

    /// Puts what was noted of the first door, of the second and of others where links meet, and how many waits were
    /// given up, where any was.
    pub fn put(&self, out: &mut Said) {
        if let Order::Meeting = self.order {
            out.put_number("-- passed ", self.first.load(Ordering::SeqCst));
            out.put_number(" ", self.second.load(Ordering::SeqCst));
            out.put_number(" ", self.others.load(Ordering::SeqCst));
            out.put("\n");
        }
        let gave_up = self.gave_up.load(Ordering::SeqCst);
        if gave_up > 0 {
            out.put_number("-- given up ", gave_up);
            out.put("\n");
        }
    }
}

/// The gate of a run with a course.
#[derive(Clone, Copy)]
pub struct Watch<'a> {
    pub course: &'a Course,
}

impl Gate for Watch<'_> {
    fn pass(&self, place: Place) {
        self.course.pass(place);
    }
}
