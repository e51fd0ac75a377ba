//! The operations that one publisher has published.
ghost use Rattle.std.specs.Prelude.{◌≡◌, ◌+◌, ◌<◌, ◌^◌, length, replicate, sum, IfOk, OnOk};

use fm_base::{List, NoMemory};
use pub_pass::Name;
use std::alloc::Global;
use std::marker::Model;
use std::sync::ledger;

/// The right to publish at a desk, which counts what it published. Contracts see it as that number.
#[derive(Drop)]
pub struct Share<N: Name> {
    count: u64,
    part: ledger::Share<N>,
}

impl<N: Name> Model for Share<N> {
    ghost use Rattle.std.specs.Prelude.{◌≡◌, ℕ};

    ghost Value = { ℕ };

    ghost view = { λ share. share.count };

    ghost invariant = { λ share. (share.part.amount ≡ share.count) × (share.part.parts ≡ 1) };
}

impl<N: Name> Share<N> {
    /// The number of operations that were published with it.
    pub fn count(&self) -> u64
        ensures { result ≡ self.now }
    {
        self.count
    }

    pub(crate) fn of(part: ledger::Share<N>) -> Share<N>
        requires { (part.amount ≡ 0) × (part.parts ≡ 1) }
        ensures { result ≡ 0 }
    {
        Share { count: 0, part }
    }

    // Books one more operation.
    pub(crate) fn add(&mut self, book: &mut ledger::Book<N>)
        requires { book.old.total + 1 < 2 ^ 64 }
        ensures own { self.new ≡ self.old + 1 }
        ensures total { book.new.total ≡ book.old.total + 1 }
    {
        book.audit(&mut self.part);
        book.add(&mut self.part, 1);
        self.count += 1;
    }

    // Puts the share to others of the ledger, and says what it counted.
    pub(crate) fn put_to(self, all: &mut ledger::Share<N>) -> u64
        ensures count { result ≡ self }
        ensures amount { all.new.amount ≡ all.old.amount + self }
        ensures parts { all.new.parts ≡ all.old.parts + 1 }
    {
        let Share { count, part } = self;
        all.merge(part);
        count
    }
}

// Cuts `count` shares off the unshared rest of the ledger.
pub(crate) fn cut<N: Name>(
    alloc: Global,
    rest: &mut ledger::Share<N>,
    count: u32,
) -> Result<List<Share<N>>, NoMemory>
    requires { (rest.old.parts ≡ count) × (rest.old.amount ≡ 0) }
    ensures shares { IfOk result (λ shares. shares ≡ replicate count 0) }
    ensures rest { OnOk result ((rest.new.parts ≡ 0) × (rest.new.amount ≡ 0)) }
{
    let mut shares = List::new(alloc);
    for _made in 0..count {
        shares.push(Share::of(rest.split_off(1, 0)))?;
    }
    Ok(shares)
}

// The sum of all shares' counts, which is the total of the book.
pub(crate) fn count_all<N: Name>(
    book: &mut ledger::Book<N>,
    rest: ledger::Share<N>,
    shares: List<Share<N>>,
) -> u64
    requires rest { (rest.parts ≡ 0) × (rest.amount ≡ 0) }
    requires all { length shares ≡ N.parts }
    requires few { book.old.total < 2 ^ 64 }
    ensures sum { result ≡ sum shares }
    ensures whole { result ≡ book.old.total }
{
    let mut all = rest;
    let mut total = 0u64;
    let mut items = shares.items;
    while let Some(share) = items.pop() {
        let count = share.put_to(&mut all);
        book.audit(&mut all);
        total += count;
    }
    book.audit(&mut all);
    total
}
