//! Bodies of data replies: a structure text with the line `Data:`, and values in hexadecimal digits.

use dap_client::{Column, Message, read_message};
use fm_base::{Bytes, Fail};
use row_text::{Said, hex};
use std::alloc::{AllocError, Global};

/// Puts the label and the columns of the message that a body spells, or the offset up to which some message begins so.
/// The body is a text and the bytes of some digits; it is false where these are none.
pub fn put_message(alloc: Global, text: &[u8], digits: &str, out: &mut Said) -> bool {
    match hex(alloc, digits) {
        Ok(Some(data)) => put_joined(alloc, text, data.as_slice(), out),
        Ok(None) => return false,
        Err(AllocError) => out.run_short(),
    }
    true
}

fn put_joined(alloc: Global, text: &[u8], data: &[u8], out: &mut Said) {
    let mut body = Bytes::new(alloc);
    if body.append(text).is_err() || body.append(data).is_err() {
        out.run_short();
    }
    put_read(alloc, body.as_slice(), out);
}

fn put_read(alloc: Global, body: &[u8], out: &mut Said) {
    match read_message(alloc, body) {
        Ok(message) => {
            put_columns(&message, out);
            drop(message);
        }
        Err(Fail::Fault(at)) => out.put_number("bad data at ", at),
        Err(Fail::NoMemory) => out.run_short(),
    }
}

// Puts the label, and a semicolon before the values of each array.
fn put_columns(message: &Message, out: &mut Said) {
    out.put_shown(message.label.as_slice());
    for column in message.columns.as_slice() {
        out.put(";");
        put_column(column, out);
    }
}

fn put_column(column: &Column, out: &mut Said) {
    match column {
        Column::Numbers(bits) => put_numbers(bits.as_slice(), out),
        Column::Texts(words) => put_words(words.as_slice(), out),
    }
}

fn put_numbers(bits: &[u64], out: &mut Said) {
    for number in bits {
        out.put_number(" ", *number);
    }
}

fn put_words(words: &[Bytes], out: &mut Said) {
    for word in words {
        out.put(" ");
        out.put_shown(word.as_slice());
    }
}
