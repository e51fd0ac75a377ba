//! The revisions of a link's last replies.
ghost use Rattle.std.specs.Prelude.{◌≡◌, ◌≢◌, ◌<◌, ℕ};
ghost use Rattle.srv_conn.specs.Revisions.{revision_at};

use crate::looks::MOST_COLLECTIONS;

/// Of each collection the revision of a link's last reply, or of what was seen when the link came.
#[derive(Clone, Copy)]
pub struct Revisions {
    numbers: [u64; MOST_COLLECTIONS],
}

impl Revisions {
    pub fn new() -> Revisions {
        let numbers = [0; MOST_COLLECTIONS];
        Revisions { numbers }
    }

    /// The revision of a collection.
    pub fn of(&self, number: usize) -> u64
        requires { number < 8 }
        ensures { result ≡ revision_at self.now number }
    {
        self.numbers[number]
    }

    /// Sets the revision of a collection.
    pub fn set(&mut self, number: usize, revision: u64)
        requires { number < 8 }
        ensures own { revision_at self.new number ≡ revision }
        ensures others { (other : ℕ) → other ≢ number → revision_at self.new other ≡ revision_at self.old other }
    {
        let mut numbers = self.numbers;
        numbers[number] = revision;
        self.numbers = numbers;
    }
}
