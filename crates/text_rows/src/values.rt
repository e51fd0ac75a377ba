//! Values of a file from their bits: as texts, and as seconds.
ghost use Rattle.nc_model.specs.Pattern.{IsPattern};

use super::times::put_seconds;
use fm_base::{Bytes, NoMemory};
use fm_bits::{pattern_at, put_quoted, text_of, whole_seconds};
use nc_model::{Kind, Pattern};
use row_text::{Said, hex};
use std::alloc::{AllocError, Global};

/// Puts the text of a value, or its whole seconds in a unit of `per` seconds. The value is a kind's name and the bytes
/// in hexadecimal digits behind it; false where it is something else.
pub fn put_value(alloc: Global, value: &str, per: Option<u32>, out: &mut Said) -> bool {
    let (name, digits) = value.split_once(' ').unwrap_or((value, ""));
    match kind_of(name) {
        Some(kind) => put_digits(alloc, kind, digits, per, out),
        None => false,
    }
}

// The same of the bytes in hexadecimal digits of a value of a kind.
fn put_digits(alloc: Global, kind: Kind, digits: &str, per: Option<u32>, out: &mut Said) -> bool {
    match hex(alloc, digits) {
        Ok(Some(bits)) => put_bits(alloc, kind, bits.as_slice(), per, out),
        Ok(None) => return false,
        Err(AllocError) => out.run_short(),
    }
    true
}

fn put_bits(alloc: Global, kind: Kind, bits: &[u8], per: Option<u32>, out: &mut Said) {
    match pattern_at(kind, bits) {
        Some(pattern) => put_pattern(alloc, pattern, per, out),
        None => out.put("no pattern"),
    }
}

// Puts the text of a pattern, or its whole seconds in a unit.
fn put_pattern(alloc: Global, pattern: Pattern, per: Option<u32>, out: &mut Said)
    requires { IsPattern pattern }
{
    match per {
        Some(per) => put_seconds(whole_seconds(pattern, per), out),
        None => put_text_of(alloc, pattern, out),
    }
}

fn put_text_of(alloc: Global, pattern: Pattern, out: &mut Said)
    requires { IsPattern pattern }
{
    let mut text = Bytes::new(alloc);
    match text_of(alloc, pattern, &mut text) {
        Ok(()) => out.put_shown(text.as_slice()),
        Err(NoMemory) => out.run_short(),
    }
}

fn kind_of(name: &str) -> Option<Kind> {
    match name {
        "Byte" => Some(Kind::Byte),
        "Char" => Some(Kind::Char),
        "Short" => Some(Kind::Short),
        "Int" => Some(Kind::Int),
        "Float" => Some(Kind::Float),
        "Double" => Some(Kind::Double),
        _ => None,
    }
}

/// Puts a text between quotation marks.
pub fn put_quote(alloc: Global, text: &[u8], out: &mut Said) {
    let mut quoted = Bytes::new(alloc);
    match put_quoted(alloc, text, &mut quoted) {
        Ok(()) => out.put_shown(quoted.as_slice()),
        Err(NoMemory) => out.run_short(),
    }
}
