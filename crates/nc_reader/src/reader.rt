//! A reader over bytes that knows its offset, and the fields that are one number.
ghost use Rattle.std.specs.Prelude.{◌≡◌, ◌+◌, ◌<◌, ◌^◌, length};
ghost use Rattle.fm_base.specs.Input.{whole};
ghost use Rattle.nc_model.specs.Reading as spec;
ghost use Rattle.nc_model.specs.Reading.{Reads};

use fm_base::Fail;
use nc_model::{HeaderFault, Kind};
use std::marker::Model;

/// The bytes that are left, and the offset of the first in the whole. Each call takes one field of the format (netCDF
/// Classic Format Specification): numbers stand with their most significant byte first. Where a field is cut or at
/// fault, the error says the fault with the field's offset.
#[derive(Drop)]
pub struct Reader<'a> {
    at: u64,
    rest: &'a [u8],
}

impl<'a> Model for Reader<'a> {
    ghost use Rattle.std.specs.Prelude.{◌+◌, ◌<◌, ◌^◌, length};
    ghost use Rattle.fm_base.specs.Input.{Input, input_code};

    ghost Value = { Input };

    ghost coded = { input_code };

    ghost view = { λ r. record { at = r.at; rest = r.rest.now } };

    ghost invariant = { λ r. r.at + length r.rest.now < 2 ^ 64 };
}

// The first number that is no count.
const COUNT_LIMIT: u32 = 0x8000_0000;

// The number of records of a file that is still being written.
const STREAMING: u32 = 0xffff_ffff;

// The greatest rank of a variable.
const MAX_RANK: u32 = 1024;

impl<'a> Reader<'a> {
    /// A reader over bytes, at their first.
    pub fn new(bytes: &'a [u8]) -> Reader<'a>
        ensures { result ≡ whole bytes.now }
    {
        Reader { at: 0, rest: bytes }
    }

    /// The offset of the next byte.
    pub fn at(&self) -> u64
        ensures { result ≡ self.now.at }
    {
        self.at
    }

    /// Takes `count` bytes, which are one field.
    pub fn take(&mut self, count: u64) -> Result<&'a [u8], Fail<HeaderFault>>
        ensures { Reads (λ bytes. bytes.now) (spec.field count self.old) result self.new }
    {
        if (self.rest.len() as u64) < count {
            return Err(Fail::Fault(HeaderFault::Truncated(self.at)));
        }
        let (front, rest) = self.rest.split_at(count as usize);
        self.at += count;
        self.rest = rest;
        Ok(front)
    }

    /// Takes `len` bytes with padding to a multiple of four, which are one field.
    #[tactic(auto, unfolding(nc_model::specs::Reading::padded))]
    pub fn padded(&mut self, len: u64) -> Result<&'a [u8], Fail<HeaderFault>>
        requires { len < 2 ^ 62 }
        ensures { Reads (λ bytes. bytes.now) (spec.padded len self.old) result self.new }
    {
        let field = self.take((len + 3) / 4 * 4)?;
        let (bytes, _) = field.split_at(len as usize);
        Ok(bytes)
    }

    /// Takes a number of four bytes.
    #[tactic(auto, unfolding(nc_model::specs::Reading::word))]
    pub fn word(&mut self) -> Result<u32, Fail<HeaderFault>>
        ensures { Reads (λ n. n) (spec.word self.old) result self.new }
    {
        let field = self.take(4)?;
        Ok(u32::from_be_bytes([field[0], field[1], field[2], field[3]]))
    }

    /// Takes a number of eight bytes.
    #[tactic(auto, unfolding(nc_model::specs::Reading::long_word))]
    pub fn long_word(&mut self) -> Result<u64, Fail<HeaderFault>>
        ensures { Reads (λ n. n) (spec.long_word self.old) result self.new }
    {
        let field = self.take(8)?;
        Ok(u64::from_be_bytes([
            field[0], field[1], field[2], field[3], field[4], field[5], field[6], field[7],
        ]))
    }

    /// Takes a count, which is below 2^31.
    #[tactic(auto, unfolding(nc_model::specs::Reading::count))]
    pub fn count(&mut self) -> Result<u32, Fail<HeaderFault>>
        ensures { Reads (λ n. n) (spec.count self.old) result self.new }
    {
        let offset = self.at;
        let count = self.word()?;
        if COUNT_LIMIT <= count {
            return Err(Fail::Fault(HeaderFault::BadCount(offset)));
        }
        Ok(count)
    }

    /// Takes `CDF` and the version.
    #[tactic(auto, unfolding(nc_model::specs::Reading::version_at))]
    pub fn version(&mut self) -> Result<u8, Fail<HeaderFault>>
        ensures { Reads (λ n. n) (spec.version_at self.old) result self.new }
    {
        if self.rest.len() < 4 || !self.rest.starts_with(b"CDF") {
            return Err(Fail::Fault(HeaderFault::BadMagic));
        }
        let version = self.rest[3];
        if version != 1 && version != 2 {
            return Err(Fail::Fault(HeaderFault::BadVersion(version)));
        }
        let (_, rest) = self.rest.split_at(4);
        self.at += 4;
        self.rest = rest;
        Ok(version)
    }

    /// Takes the number of records, which is known.
    #[tactic(auto, unfolding(nc_model::specs::Reading::numrecs_at))]
    pub fn numrecs(&mut self) -> Result<u32, Fail<HeaderFault>>
        ensures { Reads (λ n. n) (spec.numrecs_at self.old) result self.new }
    {
        let offset = self.at;
        let count = self.word()?;
        if count == STREAMING {
            return Err(Fail::Fault(HeaderFault::Streaming));
        }
        if COUNT_LIMIT <= count {
            return Err(Fail::Fault(HeaderFault::BadCount(offset)));
        }
        Ok(count)
    }

    /// Takes the tag of a list, or 0 where the list is left out.
    #[tactic(auto, unfolding(nc_model::specs::Reading::tag_at))]
    pub fn tag(&mut self, tag: u32) -> Result<u32, Fail<HeaderFault>>
        ensures { Reads (λ n. n) (spec.tag_at tag self.old) result self.new }
    {
        let offset = self.at;
        let found = self.word()?;
        if found != tag && found != 0 {
            return Err(Fail::Fault(HeaderFault::BadTag(offset)));
        }
        Ok(found)
    }

    /// Takes the number of items of a list with this tag, which is 0 where the list is left out.
    #[tactic(auto, unfolding(nc_model::specs::Reading::list_count))]
    pub fn list_count(&mut self, tag: u32) -> Result<u32, Fail<HeaderFault>>
        ensures { Reads (λ n. n) (spec.list_count tag self.old) result self.new }
    {
        let offset = self.at;
        let count = self.word()?;
        if COUNT_LIMIT <= count || tag == 0 && count != 0 {
            return Err(Fail::Fault(HeaderFault::BadCount(offset)));
        }
        Ok(count)
    }

    /// Takes the number of a kind.
    #[tactic(auto, unfolding(nc_model::specs::Reading::kind_at))]
    pub fn kind(&mut self) -> Result<Kind, Fail<HeaderFault>>
        ensures { Reads (λ kind. kind) (spec.kind_at self.old) result self.new }
    {
        let offset = self.at;
        let code = self.word()?;
        kind_of(code).ok_or(Fail::Fault(HeaderFault::BadType(offset)))
    }

    /// Takes the rank of a variable.
    #[tactic(auto, unfolding(nc_model::specs::Reading::rank_at))]
    pub fn rank(&mut self) -> Result<u32, Fail<HeaderFault>>
        ensures { Reads (λ n. n) (spec.rank_at self.old) result self.new }
    {
        let offset = self.at;
        let rank = self.word()?;
        if MAX_RANK < rank {
            return Err(Fail::Fault(HeaderFault::BadCount(offset)));
        }
        Ok(rank)
    }

    /// Takes the offset of a variable's data: four bytes in version 1, eight in version 2.
    #[tactic(auto, unfolding(nc_model::specs::Reading::begin_at))]
    pub fn begin(&mut self, version: u8) -> Result<u64, Fail<HeaderFault>>
        ensures { Reads (λ n. n) (spec.begin_at version self.old) result self.new }
    {
        if version == 1 {
            Ok(u64::from(self.word()?))
        } else {
            self.long_word()
        }
    }
}

fn kind_of(code: u32) -> Option<Kind>
    ensures { result ≡ spec.kind_of code }
{
    match code {
        1 => Some(Kind::Byte),
        2 => Some(Kind::Char),
        3 => Some(Kind::Short),
        4 => Some(Kind::Int),
        5 => Some(Kind::Float),
        6 => Some(Kind::Double),
        _ => None,
    }
}
