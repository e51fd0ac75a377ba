//! Lines on standard error, for who looks after a server.

use crate::collections::Prefix;
use dev_net::is_writable;
use dev_std::{Line, Tell};
use jiff_core::civil::Date;
use std::alloc::AllocError;
use std::io::{Print, Stderr};
use std::net::Net;
use std::rt;

/// Lines on standard error, each behind the time in UTC, and behind the name of the collection that it is about where
/// there are several. A line is lost where standard error takes none at once, as a full pipe.
#[derive(Drop)]
pub struct Teller<R> {
    rt: R,
    errors: Stderr,
    is_quiet: bool,
    prefix: Prefix,
}

impl<R: rt::Clock + Net + AllocGlobal> Teller<R> {
    /// One that is quiet tells nothing.
    pub fn new(rt: R, errors: Stderr, is_quiet: bool) -> Teller<R> {
        Teller {
            rt,
            errors,
            is_quiet,
            prefix: Prefix::none(),
        }
    }
}

impl<R: Clone + Drop> Teller<R> {
    // One more, whose lines begin so.
    pub(crate) fn about(&self, prefix: Prefix) -> Result<Teller<R>, AllocError> {
        Ok(Teller {
            rt: self.rt.clone()?,
            errors: self.errors,
            is_quiet: self.is_quiet,
            prefix,
        })
    }
}

impl<R: rt::Clock + Net + AllocGlobal> Tell for Teller<R> {
    fn tell(&self, line: &[&[u8]]) {
        if self.is_quiet {
            return;
        }
        let mut text = Line::new();
        put_time(&self.rt, &mut text);
        text.put(self.prefix.as_slice());
        text.put_parts(line);
        text.end();
        if !takes_now(&self.rt) {
            return;
        }
        let _written = self.errors.write_some(text.as_slice());
    }
}

// The descriptor of standard error.
const ERRORS: i32 = 2;

// Whether standard error takes a line at once. What can't be asked, as a file, is taken to.
fn takes_now<R: Net + AllocGlobal>(rt: &R) -> bool {
    is_writable(rt, ERRORS).unwrap_or(true)
}

// The seconds of a day.
const DAY: u64 = 86_400;

// Puts the present time, where it is known, and a blank.
fn put_time<R: rt::Clock>(rt: &R, line: &mut Line) {
    match rt.since_1970() {
        Ok(passed) => {
            let seconds = passed.as_secs();
            put_date(seconds / DAY, line);
            put_second(seconds % DAY, line);
        }
        Err(_) => line.put(b"- "),
    }
}

// The last decimal digit of a number.
fn digit(number: u64) -> u8 {
    b'0' + (number % 10) as u8
}

// Puts the date of a day, counted from 1970-01-01.
fn put_date(day: u64, line: &mut Line) {
    match Date::from_unix_epoch_day(i64::try_from(day).unwrap_or(i64::MAX)) {
        Ok(date) => {
            let year = u64::from(date.year.unsigned_abs());
            let (month, day) = (u64::from(date.month), u64::from(date.day));
            line.put(&[
                digit(year / 1_000),
                digit(year / 100),
                digit(year / 10),
                digit(year),
                b'-',
                digit(month / 10),
                digit(month),
                b'-',
                digit(day / 10),
                digit(day),
            ]);
        }
        Err(_) => line.put(b"-"),
    }
}

// Puts the time of day of a second, and a blank.
fn put_second(second: u64, line: &mut Line) {
    let (hour, minute, second) = (second / 3_600, second / 60 % 60, second % 60);
    line.put(&[
        b'T',
        digit(hour / 10),
        digit(hour),
        b':',
        digit(minute / 10),
        digit(minute),
        b':',
        digit(second / 10),
        digit(second),
        b'Z',
        b' ',
    ]);
}
