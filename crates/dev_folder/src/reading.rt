//! Files that are read from a folder.
ghost use Rattle.std.specs.Prelude.{◌≡◌, IfOk, false};
ghost use Rattle.dev_traits.specs.Files.{KeepsLimit};

use crate::paths::path_inside;
use dev_std::read_open;
use dev_traits::Found;
use fm_base::{Fail, List};
use std::alloc::Global;
use std::fs::{self, File};
use std::io::{self, Error, ErrorKind};
use std::{rt, str};

// What was found of a name. A relative link holds its own text, since it would be broken where it is moved.
#[derive(Drop)]
pub(crate) struct Read {
    pub found: Found,
    pub is_relative: bool,
}

// What was found of a file, or where there is none.
fn read_of(found: Found) -> Read
    ensures { result ≡ record { found = found; is_relative = false } }
{
    Read {
        found,
        is_relative: false,
    }
}

// The text of a link as what a file holds.
fn text_of(text: String, limit: u64) -> Found
    ensures { KeepsLimit limit result }
{
    let items = text.into_bytes();
    let len = items.len() as u64;
    if len > limit {
        Found::TooLong(len)
    } else {
        Found::Content(List { items })
    }
}

// The file at a path. Where a pipe or a folder lies, there is none, and nothing is opened that might wait.
fn read_file<R: rt::Files>(rt: &R, alloc: Global, path: &str, limit: u64) -> io::Result<Read>
    ensures { IfOk result (λ read. KeepsLimit limit read.found) }
{
    if !fs::metadata(rt, path)?.is_file() {
        return Ok(read_of(Found::Absent));
    }
    match read_open(alloc, File::open(rt, path)?, limit) {
        Ok(found) => Ok(read_of(found)),
        Err(Fail::NoMemory) => Err(Error::from(ErrorKind::OutOfMemory)),
        Err(Fail::Fault(_)) => Err(Error::other("reading failed")),
    }
}

// What a link at a path leads to. One that leads to no file is as where there is none.
fn read_link<R: rt::Files>(rt: &R, alloc: Global, path: &str, limit: u64) -> io::Result<Read>
    ensures { IfOk result (λ read. KeepsLimit limit read.found) }
{
    let text = rt.read_link(alloc, path)?.into_string();
    if text.as_str().starts_with('/') {
        drop(text);
        return read_file(rt, alloc, path, limit);
    }
    Ok(Read {
        found: text_of(text, limit),
        is_relative: true,
    })
}

// What lies at a path.
fn read_at<R: rt::Files>(rt: &R, alloc: Global, path: &str, limit: u64) -> io::Result<Read>
    ensures { IfOk result (λ read. KeepsLimit limit read.found) }
{
    if fs::symlink_metadata(rt, path)?.is_symlink() {
        read_link(rt, alloc, path, limit)
    } else {
        read_file(rt, alloc, path, limit)
    }
}

// The file of a name inside a folder. A name that isn't text has none.
pub(crate) fn read_inside<R: rt::Files>(
    rt: &R,
    alloc: Global,
    folder: &str,
    name: &[u8],
    limit: u64,
) -> io::Result<Read>
    ensures { IfOk result (λ read. KeepsLimit limit read.found) }
{
    let Ok(name) = str::from_utf8(name) else {
        return Ok(read_of(Found::Absent));
    };
    let path = path_inside(alloc, folder, name)?;
    let read = read_at(rt, alloc, path.as_str(), limit);
    drop(path);
    match read {
        Err(error) if error.kind() == ErrorKind::NotFound => Ok(read_of(Found::Absent)),
        read => read,
    }
}
