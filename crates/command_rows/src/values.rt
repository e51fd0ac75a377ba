//! Values of a row as lists.

use dev_memory::Entry;
use fm_base::{Bytes, List, NoMemory};
use row_text::{File, bytes, content};
use std::alloc::{AllocError, Global};

/// The numbers of a text, of which there is at least one.
pub fn numbers(alloc: Global, text: &str) -> Result<Option<List<u64>>, NoMemory> {
    let mut numbers = List::new(alloc);
    for word in text.split_whitespace() {
        match word.parse::<u64>() {
            Ok(number) => numbers.push(number)?,
            Err(_) => return Ok(None),
        }
    }
    Ok(if numbers.is_empty() {
        None
    } else {
        Some(numbers)
    })
}

/// Puts the numbers of a text into `list`, instead of those it had. It is false where the text has none.
pub fn put_numbers(alloc: Global, text: &str, list: &mut List<u64>) -> Result<bool, NoMemory> {
    match numbers(alloc, text) {
        Ok(Some(numbers)) => {
            *list = numbers;
            Ok(true)
        }
        Ok(None) => Ok(false),
        Err(NoMemory) => Err(NoMemory),
    }
}

/// Appends the bytes that a text stands for. It is false where it stands for none.
pub fn append(alloc: Global, text: &str, out: &mut Bytes) -> Result<bool, NoMemory> {
    match bytes(alloc, text) {
        Ok(Some(bytes)) => match out.append(bytes.as_slice()) {
            Ok(()) => Ok(true),
            Err(NoMemory) => Err(NoMemory),
        },
        Ok(None) => Ok(false),
        Err(AllocError) => Err(NoMemory),
    }
}

/// The file that a path with a description behind it is.
pub fn entry(alloc: Global, bases: &[File], text: &str) -> Result<Option<Entry>, NoMemory> {
    let Some((path, description)) = text.split_once(' ') else {
        return Ok(None);
    };
    let Some(path) = bytes(alloc, path)? else {
        return Ok(None);
    };
    match content(alloc, bases, description) {
        Ok(Some(content)) => Ok(Some(Entry {
            path: List { items: path },
            content: List { items: content },
        })),
        Ok(None) => Ok(None),
        Err(AllocError) => Err(NoMemory),
    }
}
