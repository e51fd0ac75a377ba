//! A door that a row describes.

use crate::values::put_numbers;
use dev_memory::DoorEvent;
use fm_base::{List, NoMemory};
use row_text::Field;
use std::alloc::Global;

/// The calls of a door that fail, and what it says.
#[derive(Drop)]
pub struct Doored {
    pub failing: List<u64>,
    pub events: List<DoorEvent>,
}

impl Doored {
    /// A door no call of which fails, without a script.
    pub fn new(alloc: Global) -> Doored {
        Doored {
            failing: List::new(alloc),
            events: List::new(alloc),
        }
    }

    /// Adds what a field says of the door. It is false where the field says nothing of one.
    pub fn add(&mut self, alloc: Global, field: &Field<'_>) -> Result<bool, NoMemory> {
        let value = field.value.as_str();
        match field.key {
            "door fails" => put_numbers(alloc, value, &mut self.failing),
            "door says" => self.add_events(value),
            _ => Ok(false),
        }
    }

    // Adds events: that the next link comes, or that the link of a key may go on.
    fn add_events(&mut self, value: &str) -> Result<bool, NoMemory> {
        for word in value.split_whitespace() {
            let event = match (word, word.parse::<u32>()) {
                ("comes", _) => DoorEvent::Comes,
                (_, Ok(key)) => DoorEvent::Ready(key as usize),
                _ => return Ok(false),
            };
            self.events.push(event)?;
        }
        Ok(!self.events.is_empty())
    }
}
