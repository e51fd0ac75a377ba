//! Inboxes over folders of the machine.

use crate::calls::{put_found, put_shown_line};
use crate::hearing::Heard;
use crate::stepped::{Stepped, put_steps};
use dev_host::{FolderInbox, Stops};
use dev_traits::{Arrival, Failed, Inbox, Verdict};
use fm_base::Fail;
use row_text::Said;
use std::alloc::Global;
use std::io::{self, Error, ErrorKind};
use std::marker::Send;
use std::{env, fs, process, rt};

/// Puts what the inbox of a folder does that has these files and folders at first, which end in `/`.
pub fn put_folder(
    rt: HostRuntime,
    alloc: Global,
    names: &str,
    steps: &str,
    out: &mut Said,
) -> bool {
    match path_of(&rt, alloc) {
        Ok(path) => {
            let known = put_at(rt, alloc, path.as_str(), (names, steps), out);
            drop(path);
            known
        }
        Err(_) => false,
    }
}

// The path of a folder below that for temporary files, which no other process has.
fn path_of(rt: &HostRuntime, alloc: Global) -> io::Result<String> {
    let folder = env::temp_dir(rt)?;
    let path = format!(in alloc;
        "{}/fmrcd-rows-{}",
        folder.as_str(),
        process::id(rt.process())
    );
    drop(folder);
    Ok(path?)
}

// Makes the folder, and takes it away at the end.
fn put_at<R: rt::Files + rt::Clock + Copy + Drop + Send>(
    rt: R,
    alloc: Global,
    path: &str,
    (names, steps): (&str, &str),
    out: &mut Said,
) -> bool {
    if rt.create_dir(path).is_err() {
        return false;
    }
    let folder = Folder { rt, alloc, path };
    let known = begin(&folder, names, out) && put_opened(folder, steps, out);
    rt.remove_dir_all(alloc, path).is_ok() && known
}

// Puts the files there, and makes the folders.
fn begin<R: rt::Files + Drop>(folder: &Folder<'_, R>, names: &str, out: &mut Said) -> bool {
    for name in names.split_whitespace() {
        if !folder.begin(name, out) {
            return false;
        }
    }
    true
}

// Opens the inbox of a folder, and does the steps.
fn put_opened<R: rt::Files + rt::Clock + Copy + Drop + Send>(
    folder: Folder<'_, R>,
    steps: &str,
    out: &mut Said,
) -> bool {
    match opened(&folder) {
        Ok((inbox, stops)) => put_steps(
            Foldered {
                folder,
                inbox,
                stops,
            },
            steps,
            out,
        ),
        Err(_) => {
            out.put("can't be opened");
            true
        }
    }
}

// The inbox of a folder, and what it shares with other folders.
fn opened<R: rt::Files + rt::Clock + Copy + Drop + Send>(
    folder: &Folder<'_, R>,
) -> Result<(FolderInbox<R, Heard>, Stops), Fail<Failed>> {
    let alloc = folder.alloc;
    let stops = Stops::new(alloc)?;
    match FolderInbox::open(
        folder.rt,
        Heard::new(alloc),
        stops.share()?,
        alloc,
        folder.path.as_bytes(),
    ) {
        Ok(inbox) => Ok((inbox, stops)),
        Err(fail) => {
            drop(stops);
            Err(fail)
        }
    }
}

// A folder, its inbox, and what it shares with other folders.
#[derive(Drop)]
struct Foldered<'a, R: rt::Files + rt::Clock + Drop> {
    folder: Folder<'a, R>,
    inbox: FolderInbox<R, Heard>,
    stops: Stops,
}

// `next`; `said` for the lines since the last one; steps on a name; what another folder does; changes.
impl<R: rt::Files + rt::Clock + Copy + Drop + Send> Stepped for Foldered<'_, R> {
    fn put_step(&mut self, line: &str, out: &mut Said) -> bool {
        match line.split_once(' ') {
            Some((word, words)) => {
                put_named(self.folder.alloc, &mut self.inbox, word, words, out)
                    || change_others(&self.stops, line)
                    || self.folder.change(word, words, out)
            }
            None if line == "said" => {
                self.inbox.teller().put_lines(self.folder.path, out);
                true
            }
            None => line == "next" && put_next(self.folder.alloc, &mut self.inbox, out),
        }
    }
}

// Appends what a step on a name does: `fetch LIMIT NAME`, `settle VERDICT NAME`.
fn put_named<I: Judged>(
    alloc: Global,
    inbox: &mut I,
    word: &str,
    words: &str,
    out: &mut Said,
) -> bool {
    match (word, words.split_once(' ')) {
        ("fetch", Some((limit, name))) => put_fetched(alloc, inbox, limit, name, out),
        ("settle", Some((word, name))) => match verdict_of(word) {
            Some(verdict) => inbox.settles(name.as_bytes(), verdict),
            None => false,
        },
        _ => false,
    }
}

fn put_next<I: Inbox>(alloc: Global, inbox: &mut I, out: &mut Said) -> bool {
    let next = inbox.next(alloc);
    match &next {
        Ok(Arrival::Name(name)) => put_shown_line(name.as_slice(), out),
        Ok(Arrival::Idle) => out.put("nothing yet\n"),
        Ok(Arrival::Done) => out.put("done\n"),
        Err(_) => out.put("fault\n"),
    }
    drop(next);
    true
}

fn put_fetched<I: Inbox>(
    alloc: Global,
    inbox: &mut I,
    limit: &str,
    name: &str,
    out: &mut Said,
) -> bool {
    let Ok(limit) = limit.parse::<u64>() else {
        return false;
    };
    let found = inbox.fetch(alloc, name.as_bytes(), limit);
    put_found(&found, out);
    drop(found);
    true
}

// An inbox that takes a verdict on any name.
trait Judged: Inbox {
    // It is false where that fails.
    fn settles(&mut self, name: &[u8], verdict: Verdict) -> bool;
}

impl<R: rt::Files + rt::Clock + Drop + Send> Judged for FolderInbox<R, Heard> {
    fn settles(&mut self, name: &[u8], verdict: Verdict) -> bool {
        self.settle(name, verdict).is_ok()
    }
}

// The verdict that a word says.
fn verdict_of(word: &str) -> Option<Verdict> {
    match word {
        "published" => Some(Verdict::Published(1)),
        "refused" => Some(Verdict::Refused(62)),
        "full" => Some(Verdict::Full(1)),
        "not-held" => Some(Verdict::NotHeld(1)),
        "gone" => Some(Verdict::Gone),
        "short" => Some(Verdict::Short),
        _ => None,
    }
}

// What another folder does: it comes, stops, or goes on.
fn change_others(stops: &Stops, line: &str) -> bool {
    match line {
        "other comes" => stops.add(),
        "other stops" => stops.stop(),
        "other goes on" => stops.go_on(),
        _ => return false,
    }
    true
}

// A folder of a machine.
#[derive(Drop)]
struct Folder<'a, R: rt::Files + Drop> {
    rt: R,
    alloc: Global,
    path: &'a str,
}

impl<R: rt::Files + Drop> Folder<'_, R> {
    // Puts a file there, or makes a folder whose name ends in a slash.
    fn begin(&self, name: &str, out: &mut Said) -> bool {
        match name.strip_suffix('/') {
            Some(name) => self.change("mkdir", name, out),
            None => self.change("put", name, out),
        }
    }

    // Changes what lies under a name, or looks at it. It is false where that fails.
    fn change(&self, word: &str, name: &str, out: &mut Said) -> bool {
        let Ok(path) = format!(in self.alloc; "{}/{name}", self.path) else {
            return false;
        };
        let changed = change_at(&self.rt, word, name, path.as_str(), out);
        drop(path);
        changed.is_ok()
    }
}

// Does what a word says at the path of a name: `put`, a file that has its name as its content; `link`, a link to
// `source`; `remove`; `mkdir`; `rmdir`; `has`.
fn change_at<R: rt::Files>(
    rt: &R,
    word: &str,
    name: &str,
    path: &str,
    out: &mut Said,
) -> io::Result<()> {
    match word {
        "put" => fs::write(rt, path, name.as_bytes()),
        "link" => rt.symlink("source", path),
        "remove" => rt.remove_file(path),
        "mkdir" => rt.create_dir(path),
        "rmdir" => rt.remove_dir(path),
        "has" => put_there(rt, path, out),
        _ => Err(Error::from(ErrorKind::Unsupported)),
    }
}

// Appends whether anything lies at a path, as a link does that leads nowhere.
fn put_there<R: rt::Files>(rt: &R, path: &str, out: &mut Said) -> io::Result<()> {
    match rt.symlink_metadata(path) {
        Ok(_) => out.put("there\n"),
        Err(error) if error.kind() == ErrorKind::NotFound => out.put("not there\n"),
        Err(error) => return Err(error),
    }
    Ok(())
}
