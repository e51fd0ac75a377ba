//! What a row gives.

use crate::arriving::Arriving;
use crate::course::Order;
use crate::doored::Doored;
use crate::linked::Linked;
use crate::values::{append, entry, numbers, put_numbers};
use dev_memory::Entry;
use fm_base::{Bytes, List, NoMemory};
use row_text::{Field, File, Row};
use std::alloc::Global;

// The keys of a row beside `name` and `want`.
const KEYS: [&str; 31] = [
    "words",
    "word",
    "lines",
    "turns",
    "sent by",
    "file",
    "files fail",
    "sink fails",
    "opener fails",
    "ask",
    "input",
    "fill",
    "link fails",
    "room",
    "take",
    "put",
    "hold",
    "pause",
    "pause puts",
    "pause each",
    "door",
    "door fails",
    "door says",
    "link",
    "peer",
    "dial fails",
    "inbox",
    "inbox fails",
    "arrives",
    "clock",
    "moments",
];

// Whether a row has the keys of a command alone.
fn is_command(row: &Row<'_>) -> bool {
    row.has_only(&KEYS)
}

/// The words of a run, and its world.
#[derive(Drop)]
pub struct Given {
    pub words: List<Bytes>,
    /// Whether the lines of the journal are shown.
    pub shows_lines: bool,
    /// How the devices wait for each other.
    pub order: Order,
    /// In pieces of how many bytes it is shown what was sent.
    pub piece: usize,
    pub files: List<Entry>,
    pub failing_files: List<u64>,
    pub failing_sink: List<u64>,
    pub failing_opener: List<u64>,
    pub failing_dial: List<u64>,
    /// The link of the run itself, and then those of the doors.
    pub links: Vec<Linked>,
    /// The link that the dialer gives, if it gives one.
    pub peer: Option<Linked>,
    pub doors: Vec<Doored>,
    pub inboxes: Vec<Arriving>,
    pub clocks: Vec<List<u64>>,
}

impl Given {
    fn new(alloc: Global) -> Result<Given, NoMemory> {
        let mut links = Vec::new(alloc);
        links.push(Linked::new(alloc, 0))?;
        Ok(Given {
            words: List::new(alloc),
            shows_lines: false,
            order: Order::Free,
            piece: usize::MAX,
            files: List::new(alloc),
            failing_files: List::new(alloc),
            failing_sink: List::new(alloc),
            failing_opener: List::new(alloc),
            failing_dial: List::new(alloc),
            links,
            peer: None,
            doors: Vec::new(alloc),
            inboxes: Vec::new(alloc),
            clocks: Vec::new(alloc),
        })
    }

    /// What a row gives, or `None` where it is of another form.
    pub fn read(alloc: Global, bases: &[File], row: &Row<'_>) -> Result<Option<Given>, NoMemory> {
        if !is_command(row) {
            return Ok(None);
        }
        let mut given = Given::new(alloc)?;
        match given.add_all(alloc, bases, row) {
            Ok(true) => Ok(Some(given)),
            Ok(false) => {
                drop(given);
                Ok(None)
            }
            Err(NoMemory) => {
                drop(given);
                Err(NoMemory)
            }
        }
    }

    // Adds what all fields say. It is false where one isn't known.
    fn add_all(&mut self, alloc: Global, bases: &[File], row: &Row<'_>) -> Result<bool, NoMemory> {
        for field in &row.fields {
            if !self.add(alloc, bases, field)? {
                return Ok(false);
            }
        }
        Ok(true)
    }

    // Adds what a field says. It is false where that isn't known.
    fn add(&mut self, alloc: Global, bases: &[File], field: &Field<'_>) -> Result<bool, NoMemory> {
        let value = field.value.as_str();
        match field.key {
            "name" | "want" => Ok(true),
            "words" | "word" => self.add_words(alloc, field.key, value),
            "lines" | "turns" | "sent by" => Ok(self.add_mode(field.key, value)),
            "file" => self.add_file(alloc, bases, value),
            "files fail" => put_numbers(alloc, value, &mut self.failing_files),
            "sink fails" => put_numbers(alloc, value, &mut self.failing_sink),
            "opener fails" => put_numbers(alloc, value, &mut self.failing_opener),
            "dial fails" => put_numbers(alloc, value, &mut self.failing_dial),
            _ => self.add_device(alloc, bases, field),
        }
    }

    // Takes how devices wait for each other, or how it is shown what they are left with.
    fn add_mode(&mut self, key: &str, value: &str) -> bool {
        match (key, value, value.parse::<u32>()) {
            ("lines", "shown", _) => self.shows_lines = true,
            ("turns", "in step", _) => self.order = Order::InStep,
            ("turns", "meeting", _) => self.order = Order::Meeting,
            ("sent by", _, Ok(bytes)) => self.piece = bytes as usize,
            _ => return false,
        }
        true
    }

    // Adds a word, or the words between blanks.
    fn add_words(&mut self, alloc: Global, key: &str, value: &str) -> Result<bool, NoMemory> {
        if key == "word" {
            return self.add_word(alloc, value);
        }
        for word in value.split_whitespace() {
            if !self.add_word(alloc, word)? {
                return Ok(false);
            }
        }
        Ok(true)
    }

    fn add_word(&mut self, alloc: Global, value: &str) -> Result<bool, NoMemory> {
        let mut word = Bytes::new(alloc);
        let known = append(alloc, value, &mut word)?;
        self.words.push(word)?;
        Ok(known)
    }

    fn add_file(&mut self, alloc: Global, bases: &[File], value: &str) -> Result<bool, NoMemory> {
        let Some(file) = entry(alloc, bases, value)? else {
            return Ok(false);
        };
        self.files.push(file)?;
        Ok(true)
    }

    // Begins a device, or adds what a field says of the last one of its kind.
    fn add_device(
        &mut self,
        alloc: Global,
        bases: &[File],
        field: &Field<'_>,
    ) -> Result<bool, NoMemory> {
        match (field.key, field.value.as_str()) {
            ("door", "") => self.doors.push(Doored::new(alloc))?,
            ("link", "") if !self.doors.is_empty() => {
                self.links.push(Linked::new(alloc, self.doors.len()))?
            }
            ("peer", "") => self.peer = Some(Linked::new(alloc, 0)),
            ("inbox", "") => self.inboxes.push(Arriving::new(alloc))?,
            ("clock", "") => self.clocks.push(List::new(alloc))?,
            _ => return self.add_to_last(alloc, bases, field),
        }
        Ok(true)
    }

    fn add_to_last(
        &mut self,
        alloc: Global,
        bases: &[File],
        field: &Field<'_>,
    ) -> Result<bool, NoMemory> {
        let value = field.value.as_str();
        match (field.key, self.doors.last_mut(), self.inboxes.last_mut()) {
            ("door fails" | "door says", Some(door), _) => door.add(alloc, field),
            ("arrives" | "inbox fails", _, Some(inbox)) => inbox.add(alloc, bases, field),
            ("moments", _, _) => match self.clocks.last_mut() {
                Some(clock) => put_numbers(alloc, value, clock),
                None => Ok(false),
            },
            _ => add_to_link(alloc, &mut self.peer, &mut self.links, field),
        }
    }
}

// Adds a field to the peer of the dialer where there is one, and else to the last link.
fn add_to_link(
    alloc: Global,
    peer: &mut Option<Linked>,
    links: &mut Vec<Linked>,
    field: &Field<'_>,
) -> Result<bool, NoMemory> {
    if let Some(link) = peer {
        return link.add(alloc, field);
    }
    match links.last_mut() {
        Some(link) => link.add(alloc, field),
        None => Ok(false),
    }
}
