//! The two-dimensional view of a collection, as it is laid out.
ghost use Rattle.std.specs.Prelude.{◌≡◌, MatchOption, None, Some, slice_get};
ghost use Rattle.fm_twod.specs.Laid.{decls_in, IsGrid};

use crate::cells::RunCells;
use dap_model::Decl;
use fm_base::List;
use fm_dataset::Dataset;
use fm_model::{Proto, ProtoVar};
use std::marker::Model;

/// The two-dimensional view of a collection. A clause sees the dataset of all cells, the cells of each run and the
/// offsets. It holds each cell's file by its owner, and copies nothing of a file.
#[derive(Drop)]
pub struct Grid {
    pub(crate) cells: Dataset,
    pub(crate) runs: List<RunCells>,
    pub(crate) offsets: List<i64>,
    pub(crate) decls: List<Decl>,
}

impl Model for Grid {
    ghost use Rattle.fm_twod.specs.Laid.{IsGrid, Laid};

    ghost Value = { Laid };

    ghost view = { λ grid. record { cells = grid.cells; runs = grid.runs; offsets = grid.offsets } };

    ghost invariant = { λ grid.
        IsGrid (record { cells = grid.cells; runs = grid.runs; offsets = grid.offsets }) grid.decls };
}

impl Grid {
    // The prototype, and what each view keeps.
    pub(crate) fn proto(&self) -> &Proto
        ensures value { result.now ≡ self.now.cells.proto }
        ensures keeps { IsGrid self.now (decls_in self.now) }
    {
        self.cells.proto().get()
    }

    // The variable of a declaration.
    pub(crate) fn var(&self, decl: u32) -> Option<&ProtoVar>
        ensures { MatchOption result (slice_get self.now.cells.proto.vars decl ≡ None)
            (λ var. slice_get self.now.cells.proto.vars decl ≡ Some var.now) }
    {
        self.proto().vars.as_slice().get(decl as usize)
    }

    // The declarations, in their order.
    pub(crate) fn decls(&self) -> &[Decl]
        ensures { result.now ≡ decls_in self.now }
    {
        self.decls.as_slice()
    }
}
