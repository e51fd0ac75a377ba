//! A scanner over a text that knows its offset.
ghost use Rattle.std.specs.Prelude.{◌≡◌, ◌==◌, ◌≤◌, length, take};
ghost use Rattle.std.specs.Char.{is_ascii_digit, is_ascii_alphabetic};
ghost use Rattle.std.specs.List.{prefix_len};
ghost use Rattle.fm_base.specs.Input.{whole};
ghost use Rattle.nc_model.specs.UnitsReading as spec;
ghost use Rattle.tm_units.specs.Scanning.{Reads};

use std::marker::Model;

// The text goes wrong at this offset.
#[derive(Clone, Copy)]
pub(crate) struct BadOffset {
    pub(crate) at: u64,
}

// The bytes of a text that are left, and the offset of the first.
#[derive(Drop)]
pub(crate) struct Scanner<'a> {
    at: u64,
    rest: &'a [u8],
}

impl<'a> Model for Scanner<'a> {
    ghost use Rattle.std.specs.Prelude.{◌+◌, ◌<◌, ◌^◌, length};
    ghost use Rattle.fm_base.specs.Input.{Input, input_code};

    ghost Value = { Input };

    ghost coded = { input_code };

    ghost view = { λ scanner. record { at = scanner.at; rest = scanner.rest.now } };

    ghost invariant = { λ scanner. scanner.at + length scanner.rest.now < 2 ^ 64 };
}

// The number of bytes in front that are this one.
fn count_of(text: &[u8], byte: u8) -> usize
    ensures count { result ≡ prefix_len (λ other. other == byte) text.now }
    ensures bound { result ≤ length text.now }
{
    text.iter().take_while(|other| **other == byte).count()
}

// The number of digits in front.
fn count_of_digits(text: &[u8]) -> usize
    ensures count { result ≡ prefix_len is_ascii_digit text.now }
    ensures bound { result ≤ length text.now }
{
    text.iter().take_while(|byte| byte.is_ascii_digit()).count()
}

// The number of letters in front.
fn count_of_letters(text: &[u8]) -> usize
    ensures count { result ≡ prefix_len is_ascii_alphabetic text.now }
    ensures bound { result ≤ length text.now }
{
    text.iter()
        .take_while(|byte| byte.is_ascii_alphabetic())
        .count()
}

impl<'a> Scanner<'a> {
    // All of a text.
    pub(crate) fn new(text: &'a [u8]) -> Scanner<'a>
        ensures { result ≡ whole text.now }
    {
        Scanner { at: 0, rest: text }
    }

    // The offset of the next byte.
    pub(crate) fn at(&self) -> u64
        ensures { result ≡ self.now.at }
    {
        self.at
    }

    // Whether the text has ended.
    pub(crate) fn has_ended(&self) -> bool
        ensures { result ≡ spec.has_ended self.now }
    {
        self.rest.is_empty()
    }

    // Whether the next byte is this one.
    pub(crate) fn next_is(&self, byte: u8) -> bool
        ensures { result ≡ spec.next_is byte self.now }
    {
        match self.rest.first() {
            Some(next) => *next == byte,
            None => false,
        }
    }

    // Whether the next byte is this letter in either case.
    pub(crate) fn next_is_letter(&self, letter: u8) -> bool
        ensures { result ≡ spec.next_is_letter letter self.now }
    {
        match self.rest.first() {
            Some(next) => next.eq_ignore_ascii_case(&letter),
            None => false,
        }
    }

    // Whether a digit follows, where one may.
    pub(crate) fn digit_follows(&self, may: bool) -> bool
        ensures { result ≡ spec.digit_follows may self.now }
    {
        match self.rest.first() {
            Some(next) => may && next.is_ascii_digit(),
            None => false,
        }
    }

    // Takes the next bytes.
    pub(crate) fn take(&mut self, count: usize) -> &'a [u8]
        requires { count ≤ length self.old.rest }
        ensures taken { result.now ≡ take count self.old.rest }
        ensures rest { self.new ≡ spec.past count self.old }
    {
        let (front, rest) = self.rest.split_at(count);
        self.at += count as u64;
        self.rest = rest;
        front
    }

    // Takes the longest run of digits, up to `most` of them.
    pub(crate) fn digits(&mut self, most: usize) -> &'a [u8]
        ensures taken { let parser = spec.run_at is_ascii_digit most in
            Reads (λ digits. digits.now) (parser self.old) (Ok result) self.new }
        ensures bound { length result.now ≤ most }
    {
        let (front, _) = self.rest.split_at(most.min(self.rest.len()));
        self.take(count_of_digits(front))
    }

    // Takes the longest run of letters.
    pub(crate) fn letters(&mut self) -> &'a [u8]
        ensures { let parser = spec.run_at is_ascii_alphabetic (length self.old.rest) in
            Reads (λ letters. letters.now) (parser self.old) (Ok result) self.new }
    {
        self.take(count_of_letters(self.rest))
    }

    // Passes over the end of the text.
    #[tactic(auto, unfolding(nc_model::specs::UnitsReading::end_at))]
    pub(crate) fn end(&mut self) -> Result<(), BadOffset>
        ensures { Reads (λ u. u) (spec.end_at self.old) result self.new }
    {
        if self.has_ended() {
            Ok(())
        } else {
            Err(BadOffset { at: self.at })
        }
    }

    // Passes over this byte.
    #[tactic(auto, unfolding(nc_model::specs::UnitsReading::byte_at))]
    pub(crate) fn byte(&mut self, byte: u8) -> Result<(), BadOffset>
        ensures { Reads (λ u. u) (spec.byte_at byte self.old) result self.new }
    {
        if !self.next_is(byte) {
            return Err(BadOffset { at: self.at });
        }
        self.take(1);
        Ok(())
    }

    // Passes over this letter in either case.
    #[tactic(auto, unfolding(nc_model::specs::UnitsReading::letter_at))]
    pub(crate) fn letter(&mut self, letter: u8) -> Result<(), BadOffset>
        ensures { Reads (λ u. u) (spec.letter_at letter self.old) result self.new }
    {
        if !self.next_is_letter(letter) {
            return Err(BadOffset { at: self.at });
        }
        self.take(1);
        Ok(())
    }

    // Passes over this byte as often as it stands there.
    #[tactic(auto, unfolding(nc_model::specs::UnitsReading::many_at))]
    pub(crate) fn many(&mut self, byte: u8) -> usize
        ensures { Reads (λ n. n) (spec.many_at byte self.old) (Ok result) self.new }
    {
        let count = count_of(self.rest, byte);
        self.take(count);
        count
    }

    // The same, where it stands there at least once.
    #[tactic(auto, unfolding(nc_model::specs::UnitsReading::some_at))]
    pub(crate) fn some(&mut self, byte: u8) -> Result<usize, BadOffset>
        ensures { Reads (λ n. n) (spec.some_at byte self.old) result self.new }
    {
        let count = self.many(byte);
        if count == 0 {
            return Err(BadOffset { at: self.at });
        }
        Ok(count)
    }
}
