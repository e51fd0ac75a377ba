//! An inbox that a row describes.

use crate::values::{append, entry, put_numbers};
use dev_memory::Entry;
use fm_base::{Bytes, List, NoMemory};
use row_text::{Field, File};
use std::alloc::Global;

/// The names that come to an inbox, the files that lie there, and the calls that fail.
#[derive(Drop)]
pub struct Arriving {
    pub names: List<Bytes>,
    pub files: List<Entry>,
    pub failing: List<u64>,
}

impl Arriving {
    /// An inbox in which nothing arrives.
    pub fn new(alloc: Global) -> Arriving {
        Arriving {
            names: List::new(alloc),
            files: List::new(alloc),
            failing: List::new(alloc),
        }
    }

    /// Adds what a field says of the inbox. It is false where the field says nothing of one.
    pub fn add(
        &mut self,
        alloc: Global,
        bases: &[File],
        field: &Field<'_>,
    ) -> Result<bool, NoMemory> {
        let value = field.value.as_str();
        match field.key {
            "arrives" => self.add_name(alloc, bases, value),
            "inbox fails" => put_numbers(alloc, value, &mut self.failing),
            _ => Ok(false),
        }
    }

    // Adds a name that comes, with the file that lies there where a description stands behind it.
    fn add_name(&mut self, alloc: Global, bases: &[File], value: &str) -> Result<bool, NoMemory> {
        if value.contains(' ') {
            let Some(file) = entry(alloc, bases, value)? else {
                return Ok(false);
            };
            self.names
                .push(Bytes::copy_of(alloc, file.path.as_slice())?)?;
            self.files.push(file)?;
            return Ok(true);
        }
        let mut name = Bytes::new(alloc);
        let known = append(alloc, value, &mut name)?;
        self.names.push(name)?;
        Ok(known)
    }
}
