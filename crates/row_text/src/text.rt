//! A text as rows of fields.

use crate::values::bytes;
use std::alloc::{AllocError, Global};

/// A line `key: value`, with the lines `| ..` below it. A line without a colon has the empty key.
#[derive(Drop)]
pub struct Field<'a> {
    pub key: &'a str,
    pub value: String,
}

/// The fields of a paragraph, and the number of its first line.
#[derive(Drop)]
pub struct Row<'a> {
    pub line: usize,
    pub fields: Vec<Field<'a>>,
}

impl<'a> Row<'a> {
    fn new(alloc: Global, line: usize) -> Row<'a> {
        let fields = Vec::new(alloc);
        Row { line, fields }
    }

    /// The value of the first field with this key.
    pub fn value(&self, key: &str) -> Option<&str> {
        for field in &self.fields {
            if field.key == key {
                return Some(field.value.as_str());
            }
        }
        None
    }

    /// Whether there is one `name` and one `want`, and each other key is one of these.
    pub fn has_only(&self, keys: &[&str]) -> bool {
        let mut names = 0usize;
        let mut wants = 0usize;
        for field in &self.fields {
            match field.key {
                "name" => names = names.saturating_add(1),
                "want" => wants = wants.saturating_add(1),
                key if is_among(key, keys) => {}
                _ => return false,
            }
        }
        names == 1 && wants == 1
    }

    /// Whether each of these keys stands once, and no other beside one `name` and one `want`.
    pub fn has_each(&self, keys: &[&str]) -> bool {
        for key in keys {
            if self.value(key).is_none() {
                return false;
            }
        }
        self.has_only(keys) && self.fields.len() == keys.len() + 2
    }

    /// The bytes that the value of a key stands for; `None` where there is no such key, or its value stands for none.
    pub fn bytes(&self, alloc: Global, key: &str) -> Result<Option<Vec<u8>>, AllocError> {
        match self.value(key) {
            Some(value) => bytes(alloc, value),
            None => Ok(None),
        }
    }

    // Adds a line: a field, or behind a bar more of the value of the last one.
    fn add_line(&mut self, alloc: Global, line: &'a str) -> Result<(), AllocError> {
        match (line.strip_prefix('|'), self.fields.last_mut()) {
            (Some(more), Some(field)) => {
                append_line(&mut field.value, more.strip_prefix(' ').unwrap_or(more))
            }
            _ => self.add_field(alloc, line.split_once(':').unwrap_or(("", line))),
        }
    }

    fn add_field(
        &mut self,
        alloc: Global,
        (key, value): (&'a str, &str),
    ) -> Result<(), AllocError> {
        let value = String::from_str(alloc, value.trim())?;
        Ok(self.fields.push(Field { key, value })?)
    }
}

fn append_line(text: &mut String, line: &str) -> Result<(), AllocError> {
    if !text.is_empty() {
        text.push('\n')?;
    }
    text.push_str(line)
}

fn is_among(key: &str, keys: &[&str]) -> bool {
    for other in keys {
        if key == *other {
            return true;
        }
    }
    false
}

/// The paragraphs of a text. Each line that is neither empty nor a comment (`#`) stands in a row; a line `| ..` goes on
/// with the value above it.
pub fn rows(alloc: Global, text: &str) -> Result<Vec<Row<'_>>, AllocError> {
    let mut rows = Vec::new(alloc);
    put_rows(alloc, text, &mut rows)?;
    Ok(rows)
}

/// Appends the paragraphs of a text.
pub fn put_rows<'a>(
    alloc: Global,
    text: &'a str,
    rows: &mut Vec<Row<'a>>,
) -> Result<(), AllocError> {
    let mut first = Some(1);
    for (number, line) in text.lines().enumerate() {
        if line.trim_end().is_empty() {
            first = Some(number.saturating_add(2));
        } else if !line.starts_with('#') {
            add_line(alloc, rows, first.take(), line)?;
        }
    }
    Ok(())
}

// Adds a line to the last row, or to a new one that begins at this line.
fn add_line<'a>(
    alloc: Global,
    rows: &mut Vec<Row<'a>>,
    first: Option<usize>,
    line: &'a str,
) -> Result<(), AllocError> {
    if let Some(first) = first {
        rows.push(Row::new(alloc, first))?;
    }
    match rows.last_mut() {
        Some(row) => row.add_line(alloc, line),
        None => Ok(()),
    }
}
