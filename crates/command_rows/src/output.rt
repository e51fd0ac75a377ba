//! Bytes that were sent, as text.

use row_text::Said;

// How many bytes stand on a line of words.
const ON_A_LINE: usize = 32;

/// Appends the bytes of a link or a sink, so that each is determined by what is shown. A line feed ends a line, and a
/// last line without one ends in a backslash. What comes after `Data:` and a line feed stands as words of eight
/// hexadecimal digits, eight on a line, until `HTTP/1.1` begins the next reply; so does a netCDF file. A `-` at the
/// front of a line is `\x2d`, and a blank at the end of one `\x20`.
pub fn put_output(bytes: &[u8], out: &mut Said) {
    let mut data = if bytes.starts_with(b"CDF") {
        Some(0)
    } else {
        None
    };
    for (index, byte) in bytes.iter().enumerate() {
        let (before, rest) = bytes.split_at(index);
        data = match data {
            None if before.ends_with(b"Data:\n") => Some(0),
            Some(_) if rest.starts_with(b"HTTP/1.1 ") => {
                out.put("\n");
                None
            }
            same => same,
        };
        match data {
            Some(count) => {
                put_data(*byte, count, out);
                data = Some(count.saturating_add(1));
            }
            None => put_text(*byte, before, rest, out),
        }
    }
    match data {
        Some(_) => out.put("\n"),
        None if bytes.is_empty() || bytes.ends_with(b"\n") => {}
        None => out.put("\\\n"),
    }
}

// Appends a byte of data that `count` bytes of data stand before.
fn put_data(byte: u8, count: usize, out: &mut Said) {
    if count > 0 && count % ON_A_LINE == 0 {
        out.put("\n");
    } else if count > 0 && count % 4 == 0 {
        out.put(" ");
    }
    out.put_hex(&[byte]);
}

// Appends a byte that comes after some, and is the first of the rest.
fn put_text(byte: u8, before: &[u8], rest: &[u8], out: &mut Said) {
    match byte {
        b'-' if before.is_empty() || before.ends_with(b"\n") => out.put("\\x2d"),
        b' ' if rest.len() == 1 || rest.starts_with(b" \n") => out.put("\\x20"),
        _ => out.put_shown(&[byte]),
    }
}
