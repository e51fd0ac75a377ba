//! A reason in parts.
ghost use Rattle.std.specs.Prelude.{◌≡◌};
ghost use Rattle.std.specs.Fmt.{decimal};
ghost use Rattle.srv_reason.specs.Reason as spec;
ghost use Rattle.srv_reason.specs.Reason.{part_text, parts_of};

use itoa::Buffer;

/// What a reason speaks of: nothing, a name, or a number.
#[derive(Clone, Copy)]
pub enum Part<'a> {
    Nothing,
    Name(&'a [u8]),
    Number(u128),
    Signed(i128),
}

/// A reason: three texts, with what they speak of between them. It holds no memory of its own.
#[derive(Clone, Copy)]
pub struct Reason<'a> {
    pub before: &'a [u8],
    pub first: Part<'a>,
    pub between: &'a [u8],
    pub second: Part<'a>,
    pub after: &'a [u8],
}

impl<'a> Part<'a> {
    /// Its text. The digits of a number stand in the buffer.
    pub fn text(self, digits: &'a mut Buffer) -> &'a [u8]
        ensures { result.now ≡ part_text self.entry }
    {
        match self {
            Part::Nothing => b"",
            Part::Name(name) => name,
            Part::Number(number) => digits.format(number).as_bytes(),
            Part::Signed(number) => digits.format(number).as_bytes(),
        }
    }
}

/// A reason of one text.
pub fn plain(text: &[u8]) -> Reason<'_>
    ensures { parts_of result ≡ spec.plain text.now }
{
    about(text, Part::Nothing, b"")
}

// A part between two texts.
pub(crate) fn about<'a>(before: &'a [u8], first: Part<'a>, between: &'a [u8]) -> Reason<'a>
    ensures { parts_of result ≡ spec.about before.now (part_text first.entry) between.now }
{
    Reason {
        before,
        first,
        between,
        second: Part::Nothing,
        after: b"",
    }
}

// A number between two texts.
pub(crate) fn numbered<'a>(before: &'a [u8], number: u64, after: &'a [u8]) -> Reason<'a>
    ensures { parts_of result ≡ spec.about before.now (decimal number) after.now }
{
    about(before, Part::Number(u128::from(number)), after)
}
