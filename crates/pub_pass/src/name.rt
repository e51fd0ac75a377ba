//! Which desk it is.
ghost use Rattle.fm_model.specs.declared.proto.Proto.{Proto as Prototype};

use std::marker::Brand;
use std::sync::ledger::Ledger;

/// One desk: its book, its prototype, and by the ledger the number of its shares. What one `open` returns has one name,
/// so that parts of different desks have different types. A caller passes `Brand`, and its proof picks the name.
pub trait Name: Ledger {
    ghost use Rattle.logbook.specs.Pages.{Book};

    /// The book of the log.
    ghost book: { Book };

    /// The prototype of the collection.
    ghost proto: { Prototype };
}

impl Name for Brand {
    ghost use Rattle.pub_pass.specs.Opening.{no_proto};

    ghost book = { record { number = 0; log_name = 0; cells_name = 0 } };

    ghost proto = { no_proto };
}
