//! Rows of a shared list that stand one after the other.

use fm_base::{Arc, List};
use fm_model::Row;
use std::marker::Model;

// Some rows of a list that others may share, from one index up to another. A clause sees the rows alone.
#[derive(Drop)]
pub(crate) struct Stretch {
    list: Arc<List<Row>>,
    from: usize,
    to: usize,
}

impl Model for Stretch {
    ghost use Rattle.std.specs.Prelude.{List, drop, take};
    ghost use Rattle.fm_model.specs.declared.row.Row.{Row as TheRow};
    ghost use Rattle.fm_rows.specs.Stretches.{LiesIn};

    ghost Value = { List TheRow };

    ghost view = { λ rows. drop rows.from (take rows.to rows.list) };

    ghost invariant = { λ rows. LiesIn rows.list rows.from rows.to };
}

impl Stretch {
    ghost use Rattle.std.specs.Prelude.{◌≡◌, ◌≤◌, drop, length, take};

    // All rows of a list.
    pub(crate) fn whole(list: Arc<List<Row>>) -> Stretch
        ensures { result ≡ list }
    {
        let to = list.get().len();
        Stretch { list, from: 0, to }
    }

    // The rows from one index up to another.
    pub(crate) fn part(list: Arc<List<Row>>, from: usize, to: usize) -> Stretch
        requires order { from ≤ to }
        requires within { to ≤ length list }
        ensures { result ≡ drop from (take to list) }
    {
        Stretch { list, from, to }
    }

    pub(crate) fn len(&self) -> usize
        ensures { result ≡ length self.now }
    {
        self.to - self.from
    }

    pub(crate) fn get(&self) -> &[Row]
        ensures { result.now ≡ self.now }
    {
        let (front, _) = self.list.get().as_slice().split_at(self.to);
        let (_, rows) = front.split_at(self.from);
        rows
    }
}
