//! What runs left, by the rows that describe them.

use row_text::{Answers, Row, Said};
use std::alloc::{AllocError, Global};

// What the run of a row left, or `None` where the row isn't one, by the number of the row's first line.
#[derive(Drop)]
struct Left {
    line: usize,
    shown: Option<String>,
}

/// What the runs of a text's rows left. They are run before they are compared, since threads start from functions
/// alone.
#[derive(Drop)]
pub struct Runs {
    left: Vec<Left>,
}

impl Runs {
    /// No runs yet.
    pub fn new(alloc: Global) -> Runs {
        Runs {
            left: Vec::new(alloc),
        }
    }

    /// Adds what the run of the row at a line left, or `None` where the row isn't one.
    pub fn add(&mut self, line: usize, shown: Option<String>) -> Result<(), AllocError> {
        Ok(self.left.push(Left { line, shown })?)
    }
}

impl Answers for Runs {
    fn answer(&self, _alloc: Global, row: &Row<'_>, out: &mut Said) -> Result<bool, AllocError> {
        for left in &self.left {
            if left.line == row.line
                && let Some(shown) = &left.shown
            {
                out.put(shown.as_str());
                return Ok(true);
            }
        }
        Ok(false)
    }
}
