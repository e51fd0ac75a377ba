//! The files that a program of rows is given by its words.

use crate::described::File;
use std::alloc::{Alloc, Global};
use std::env::{self, Env};
use std::fs::{self, Files};
use std::io;

/// Files with rows, and files that rows begin from.
#[derive(Drop)]
pub struct Inputs {
    pub texts: Vec<Text>,
    pub files: Vec<File>,
}

/// A file with rows.
#[derive(Drop)]
pub struct Text {
    pub path: String,
    pub text: String,
}

impl Text {
    /// The name of the folder in which the file lies.
    pub fn folder(&self) -> &str {
        self.path.as_str().rsplit('/').nth(1).unwrap_or("")
    }
}

/// Reads the files that the words after the first name: one whose name ends in `.rows` has rows, and each other is a
/// file that rows begin from.
pub fn read_inputs<R: Env + Files + Alloc<A = Global>>(rt: &R) -> io::Result<Inputs> {
    let alloc = rt.alloc();
    let mut inputs = Inputs {
        texts: Vec::new(alloc),
        files: Vec::new(alloc),
    };
    match inputs.read_each(rt) {
        Ok(()) => Ok(inputs),
        Err(error) => {
            drop(inputs);
            Err(error)
        }
    }
}

impl Inputs {
    // Reads each file.
    fn read_each<R: Env + Files + Alloc<A = Global>>(&mut self, rt: &R) -> io::Result<()> {
        for path in env::args(rt)?.skip(1) {
            self.read(rt, path)?;
        }
        Ok(())
    }

    // Reads one more file.
    fn read<R: Files + Alloc<A = Global>>(&mut self, rt: &R, path: String) -> io::Result<()> {
        if path.ends_with(".rows") {
            self.read_text(rt, path)
        } else {
            self.read_file(rt, path)
        }
    }

    fn read_text<R: Files + Alloc<A = Global>>(&mut self, rt: &R, path: String) -> io::Result<()> {
        match fs::read_to_string(rt, path.as_str()) {
            Ok(text) => Ok(self.texts.push(Text { path, text })?),
            Err(error) => {
                drop(path);
                Err(error)
            }
        }
    }

    fn read_file<R: Files + Alloc<A = Global>>(&mut self, rt: &R, path: String) -> io::Result<()> {
        match fs::read(rt, path.as_str()) {
            Ok(content) => Ok(self.files.push(File { path, content })?),
            Err(error) => {
                drop(path);
                Err(error)
            }
        }
    }
}
