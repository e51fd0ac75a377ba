//! A dataset, and what it shows.
ghost use Rattle.std.specs.Prelude.{◌≡◌, length};
ghost use Rattle.fm_model.specs.Site.{IsPrototype};
ghost use Rattle.fm_dataset.specs.Declarations.{decls_of};
ghost use Rattle.fm_dataset.specs.Rows.{AreRows};

use dap_model::Decl;
use fm_base::{Arc, Bytes, List};
use fm_model::{Proto, ViewName};
use fm_rows::Rows;
use std::marker::Model;

/// The dataset of a view: its rows over a prototype, under a label. A clause sees these four. It holds rows
/// that others may share, and each row's file by its owner, and copies nothing of a row or a file.
#[derive(Drop)]
pub struct Dataset {
    pub(crate) proto: Arc<Proto>,
    pub(crate) rows: Arc<Rows>,
    pub(crate) view: ViewName,
    pub(crate) label: Bytes,
    pub(crate) decls: List<Decl>,
    pub(crate) coordinates: List<usize>,
    pub(crate) slots: List<usize>,
}

impl Model for Dataset {
    ghost use Rattle.fm_dataset.specs.Kept.{IsKept};
    ghost use Rattle.fm_dataset.specs.Values.{Shown};

    ghost Value = { Shown };

    ghost view = { λ d. record { proto = d.proto; rows = d.rows; view = d.view; label = d.label } };

    ghost invariant = { λ d. IsKept d.proto d.rows d.decls d.coordinates d.slots };
}

impl Dataset {
    /// The prototype, of whose collection the rows are.
    pub fn proto(&self) -> &Arc<Proto>
        ensures value { result.now ≡ self.now.proto }
        ensures prototype { IsPrototype self.now.proto }
        ensures rows { AreRows self.now.proto self.now.rows }
    {
        &self.proto
    }

    // The rows.
    pub(crate) fn rows(&self) -> &Rows
        ensures { result.now ≡ self.now.rows }
    {
        self.rows.get()
    }

    /// The view.
    pub fn view(&self) -> &ViewName
        ensures { result.now ≡ self.now.view }
    {
        &self.view
    }

    /// The label, which ends the structure text.
    pub fn label(&self) -> &[u8]
        ensures { result.now ≡ self.now.label }
    {
        self.label.as_slice()
    }

    /// The declarations, in their order.
    pub fn decls(&self) -> &List<Decl>
        ensures { result.now ≡ decls_of self.now.proto (length self.now.rows) }
    {
        &self.decls
    }
}
