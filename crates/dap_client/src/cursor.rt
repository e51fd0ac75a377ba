//! A cursor over bytes that knows its offset.
ghost use Rattle.std.specs.Prelude.{◌≡◌, ◌==◌, ◌+◌, ◌<◌, ◌≤◌, length, take, slice_get, true, false, IfSome};
ghost use Rattle.std.specs.List.{prefix_len};
ghost use Rattle.fm_base.specs.Input.{whole};
ghost use Rattle.fm_base.specs.Name.{is_name_byte};
ghost use Rattle.nc_model.specs.UnitsReading as scan;
ghost use Rattle.dap_client.specs.Message.{is_label_byte};
ghost use Rattle.dap_client.specs.Reading as spec;
ghost use Rattle.dap_client.specs.Reading.{Reads};

use fm_base::{Fail, is_name_byte};
use std::marker::Model;

// The bytes that are left, and the offset of the first in the whole.
#[derive(Drop)]
pub(crate) struct Cursor<'a> {
    at: u64,
    rest: &'a [u8],
}

impl<'a> Model for Cursor<'a> {
    ghost use Rattle.std.specs.Prelude.{◌+◌, ◌<◌, ◌^◌, length};
    ghost use Rattle.fm_base.specs.Input.{Input, input_code};

    ghost Value = { Input };

    ghost coded = { input_code };

    ghost view = { λ cursor. record { at = cursor.at; rest = cursor.rest.now } };

    ghost invariant = { λ cursor. cursor.at + length cursor.rest.now < 2 ^ 64 };
}

// Whether a byte may stand in a label.
#[tactic(auto, unfolding(crate::specs::Message::is_label_byte))]
fn is_label_byte(byte: u8) -> bool
    ensures { result ≡ is_label_byte byte }
{
    is_name_byte(byte) || byte == b'.' || byte == b':'
}

// The number of bytes in front that may stand in a name.
fn count_of_name(text: &[u8]) -> usize
    ensures count { result ≡ prefix_len is_name_byte text.now }
    ensures bound { result ≤ length text.now }
{
    text.iter().take_while(|byte| is_name_byte(**byte)).count()
}

// The number of bytes in front that may stand in a label.
fn count_of_label(text: &[u8]) -> usize
    ensures count { result ≡ prefix_len is_label_byte text.now }
    ensures bound { result ≤ length text.now }
{
    text.iter().take_while(|byte| is_label_byte(**byte)).count()
}

impl<'a> Cursor<'a> {
    pub(crate) fn new(bytes: &'a [u8]) -> Cursor<'a>
        ensures { result ≡ whole bytes.now }
    {
        Cursor { at: 0, rest: bytes }
    }

    // The offset of the next byte.
    pub(crate) fn at(&self) -> u64
        ensures { result ≡ self.now.at }
    {
        self.at
    }

    // How many bytes are left.
    pub(crate) fn left(&self) -> usize
        ensures { result ≡ length self.now.rest }
    {
        self.rest.len()
    }

    // The offset behind the last byte.
    pub(crate) fn end_offset(&self) -> u64
        ensures { result ≡ self.now.at + length self.now.rest }
    {
        self.at + self.rest.len() as u64
    }

    // The next byte, if there is one.
    pub(crate) fn peek(&self) -> Option<u8>
        ensures byte { result ≡ slice_get self.now.rest 0 }
        ensures some { IfSome result (λ byte. 1 ≤ length self.now.rest) }
    {
        self.rest.first().copied()
    }

    // Whether the next byte is this one.
    pub(crate) fn next_is(&self, byte: u8) -> bool
        ensures { result ≡ scan.next_is byte self.now }
    {
        match self.rest.first() {
            Some(next) => *next == byte,
            None => false,
        }
    }

    // Passes over the next bytes.
    pub(crate) fn take(&mut self, count: usize) -> &'a [u8]
        requires { count ≤ length self.old.rest }
        ensures taken { result.now ≡ take count self.old.rest }
        ensures rest { self.new ≡ scan.past count self.old }
    {
        let (front, rest) = self.rest.split_at(count);
        self.at += count as u64;
        self.rest = rest;
        front
    }

    // Passes over the next byte.
    pub(crate) fn step(&mut self)
        requires { 1 ≤ length self.old.rest }
        ensures { self.new ≡ scan.past 1 self.old }
    {
        self.take(1);
    }

    // Passes over the end.
    #[tactic(auto, unfolding(nc_model::specs::UnitsReading::end_at))]
    pub(crate) fn end(&mut self) -> Result<(), Fail<u64>>
        ensures { Reads (λ u. u) (scan.end_at self.old) result self.new }
    {
        if self.rest.is_empty() {
            Ok(())
        } else {
            Err(Fail::Fault(self.at))
        }
    }

    // Passes over this byte.
    #[tactic(auto, unfolding(nc_model::specs::UnitsReading::byte_at))]
    pub(crate) fn byte(&mut self, byte: u8) -> Result<(), Fail<u64>>
        ensures { Reads (λ u. u) (scan.byte_at byte self.old) result self.new }
    {
        if !self.next_is(byte) {
            return Err(Fail::Fault(self.at));
        }
        self.take(1);
        Ok(())
    }

    // Passes over one of two bytes, and says whether it is the first.
    #[tactic(auto, unfolding(crate::specs::Reading::mark_at))]
    pub(crate) fn mark(&mut self, first: u8, other: u8) -> Result<bool, Fail<u64>>
        ensures { Reads (λ mark. mark) (spec.mark_at first other self.old) result self.new }
    {
        if self.next_is(first) {
            self.take(1);
            return Ok(true);
        }
        if self.next_is(other) {
            self.take(1);
            return Ok(false);
        }
        Err(Fail::Fault(self.at))
    }

    // Passes over these bytes.
    #[tactic(auto, using(crate::proofs::TurnLemmas::bytes_in_turn))]
    pub(crate) fn fixed(&mut self, bytes: &[u8]) -> Result<(), Fail<u64>>
        ensures { Reads (λ u. u) (spec.fixed_at bytes.now self.old) result self.new }
    {
        for byte in bytes {
            self.byte(*byte)?;
        }
        Ok(())
    }

    // Takes the next bytes, whatever they are.
    #[tactic(auto, unfolding(crate::specs::Reading::bytes_at))]
    pub(crate) fn bytes(&mut self, count: u64) -> Result<&'a [u8], Fail<u64>>
        ensures { Reads (λ bytes. bytes.now) (spec.bytes_at count self.old) result self.new }
    {
        let left = self.rest.len() as u64;
        if left < count {
            return Err(Fail::Fault(self.at + left));
        }
        Ok(self.take(count as usize))
    }

    // Takes the bytes of a name.
    #[tactic(auto, unfolding(crate::specs::Reading::run_at))]
    fn name(&mut self) -> Result<&'a [u8], Fail<u64>>
        ensures { Reads (λ word. word.now) (spec.run_at is_name_byte self.old) result self.new }
    {
        let count = count_of_name(self.rest);
        if count == 0 {
            return Err(Fail::Fault(self.at));
        }
        Ok(self.take(count))
    }

    // Takes the bytes of a label.
    #[tactic(auto, unfolding(crate::specs::Reading::run_at))]
    fn label(&mut self) -> Result<&'a [u8], Fail<u64>>
        ensures { Reads (λ word. word.now) (spec.run_at is_label_byte self.old) result self.new }
    {
        let count = count_of_label(self.rest);
        if count == 0 {
            return Err(Fail::Fault(self.at));
        }
        Ok(self.take(count))
    }

    // Takes a name, and one of two bytes behind it.
    #[tactic(auto, unfolding(crate::specs::Reading::word_at))]
    pub(crate) fn name_word(&mut self, first: u8, other: u8) -> Result<(&'a [u8], bool), Fail<u64>>
        ensures { Reads (λ found. (found.0.now, found.1))
            (spec.word_at is_name_byte first other self.old) result self.new }
    {
        let word = self.name()?;
        let mark = self.mark(first, other)?;
        Ok((word, mark))
    }

    // Takes a label, and the semicolon behind it.
    #[tactic(auto, unfolding(crate::specs::Reading::word_at))]
    pub(crate) fn label_word(&mut self) -> Result<(&'a [u8], bool), Fail<u64>>
        ensures { Reads (λ found. (found.0.now, found.1))
            (spec.word_at is_label_byte 59 59 self.old) result self.new }
    {
        let word = self.label()?;
        let mark = self.mark(b';', b';')?;
        Ok((word, mark))
    }
}
