//! A link that a row describes.

use crate::values::{append, numbers, put_numbers};
use crate::world::ROOM;
use dev_memory::Hold;
use fm_base::{Bytes, List, NoMemory};
use row_text::Field;
use std::alloc::Global;

/// The input of a link, how many bytes it takes, the calls that fail, in which pieces bytes come and go, where calls
/// would wait, and the number of its door; 0 stands for none.
#[derive(Drop)]
pub struct Linked {
    pub door: usize,
    pub input: Bytes,
    pub room: usize,
    pub failing: List<u64>,
    pub most_taken: usize,
    pub most_put: usize,
    pub hold: Option<Hold>,
    /// How many bytes were taken or put before a take or a put would wait.
    pub pauses: List<usize>,
    pub put_pauses: List<usize>,
    /// Whether each second call would wait.
    pub is_halting: bool,
}

impl Linked {
    /// A link without input.
    pub fn new(alloc: Global, door: usize) -> Linked {
        Linked {
            door,
            input: Bytes::new(alloc),
            room: ROOM,
            failing: List::new(alloc),
            most_taken: usize::MAX,
            most_put: usize::MAX,
            hold: None,
            pauses: List::new(alloc),
            put_pauses: List::new(alloc),
            is_halting: false,
        }
    }

    /// Adds what a field says of the link. It is false where the field says nothing of one.
    pub fn add(&mut self, alloc: Global, field: &Field<'_>) -> Result<bool, NoMemory> {
        let value = field.value.as_str();
        match field.key {
            "ask" => self.add_request(alloc, value),
            "input" => append(alloc, value, &mut self.input),
            "fill" => self.add_filling(alloc, value),
            "link fails" => put_numbers(alloc, value, &mut self.failing),
            "pause" | "pause puts" | "pause each" if self.door > 0 => {
                self.add_pause(alloc, field.key, value)
            }
            _ => self.add_pieces(alloc, field.key, value),
        }
    }

    // Appends the lines of a head and an empty one, each with its CRLF.
    fn add_request(&mut self, alloc: Global, value: &str) -> Result<bool, NoMemory> {
        for line in value.lines() {
            if !append(alloc, line, &mut self.input)? {
                return Ok(false);
            }
            self.input.append(b"\r\n")?;
        }
        self.input.append(b"\r\n")?;
        Ok(true)
    }

    // Appends bytes so often as the number before them says.
    fn add_filling(&mut self, alloc: Global, value: &str) -> Result<bool, NoMemory> {
        let (count, text) = value.split_once(' ').unwrap_or(("", ""));
        let Ok(count) = count.parse::<u32>() else {
            return Ok(false);
        };
        for _ in 0..count {
            if !append(alloc, text, &mut self.input)? {
                return Ok(false);
            }
        }
        Ok(true)
    }

    // Takes where calls would wait: a take that comes to the end of the input so far, puts after a number of bytes, or
    // each second call.
    fn add_pause(&mut self, alloc: Global, key: &str, value: &str) -> Result<bool, NoMemory> {
        match (key, value) {
            ("pause", "") => self.pauses.push(self.input.len())?,
            ("pause each", "") => self.is_halting = true,
            ("pause puts", _) => {
                for number in numbers(alloc, value)?
                    .unwrap_or(List::new(alloc))
                    .as_slice()
                {
                    self.put_pauses.push(*number as usize)?;
                }
                return Ok(!self.put_pauses.is_empty());
            }
            _ => return Ok(false),
        }
        Ok(true)
    }

    // Takes the numbers that say how many bytes go, and in which pieces bytes come and go.
    fn add_pieces(&mut self, alloc: Global, key: &str, value: &str) -> Result<bool, NoMemory> {
        let numbers = numbers(alloc, value)?.unwrap_or(List::new(alloc));
        match (key, numbers.as_slice()) {
            ("room", [room]) => self.room = *room as usize,
            ("take", [most]) => self.most_taken = *most as usize,
            ("put", [most]) => self.most_put = *most as usize,
            ("hold", [offset, put]) => {
                self.hold = Some(Hold {
                    offset: *offset as usize,
                    put: *put as usize,
                })
            }
            _ => return Ok(false),
        }
        Ok(true)
    }
}
