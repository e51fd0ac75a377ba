//! Rows of a text file, each with its given values and the wanted answer: reading them, and running each through a
//! call. A row is a test and no clause; `docs/ROWS.md` describes the format.
#![tactic(auto)]

mod described;
mod grown;
mod reading;
mod running;
mod said;
mod text;
mod values;

pub use described::{File, content};
pub use reading::{Inputs, Text, read_inputs};
pub use running::{Answers, Count, end, run};
pub use said::Said;
pub use text::{Field, Row, put_rows, rows};
pub use values::{bytes, hex};
