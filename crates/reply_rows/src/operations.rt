//! Files that are published.

use super::collection::{described, put_file};
use fm_base::Bytes;
use pub_look::Plain;
use row_text::{File, Said};
use std::alloc::Global;

/// Publishes the file that words describe under the name of the first.
pub fn put_one(
    alloc: Global,
    files: &[File],
    plain: &mut Plain,
    words: &str,
    out: &mut Said,
) -> Option<()> {
    let (name, words) = words.split_once(' ')?;
    put_file(
        alloc,
        plain,
        name.as_bytes(),
        described(alloc, files, words)?,
        out,
    )
}

/// Publishes a file so often, under the names that begin so and end in four digits, from 0000 on. What is said of the
/// last one is all that is then put.
pub fn put_many(
    alloc: Global,
    files: &[File],
    plain: &mut Plain,
    words: &str,
    out: &mut Said,
) -> Option<()> {
    let (count, words) = words.split_once(' ')?;
    let (front, words) = words.split_once(' ')?;
    let content = described(alloc, files, words)?;
    let put = put_each(alloc, plain, front, count, &content, out);
    drop(content);
    put
}

// Publishes a file so often, and puts what is said of the last one.
fn put_each(
    alloc: Global,
    plain: &mut Plain,
    front: &str,
    count: &str,
    content: &Bytes,
    out: &mut Said,
) -> Option<()> {
    for number in 0..count.parse::<u16>().ok()? {
        out.clear();
        put_numbered(alloc, plain, front, number, content, out)?;
    }
    Some(())
}

fn put_numbered(
    alloc: Global,
    plain: &mut Plain,
    front: &str,
    number: u16,
    content: &Bytes,
    out: &mut Said,
) -> Option<()> {
    let name = format!(in alloc; "{front}{number:04}").ok()?;
    let bytes = Bytes::copy_of(alloc, content.as_slice()).ok()?;
    put_file(alloc, plain, name.as_str().as_bytes(), bytes, out)
}
