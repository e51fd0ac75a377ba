//! Names.
ghost use Rattle.std.specs.Prelude.{◌≡◌, map};
ghost use Rattle.std.specs.Str.{is_utf8};
ghost use Rattle.std.specs.List.{list_any};
ghost use Rattle.nc_model.specs.Format.{is_barred, is_name_text};
ghost use Rattle.nc_model.specs.Reading as spec;
ghost use Rattle.nc_model.specs.Reading.{Reads};

use crate::found::{Found, Named};
use fm_base::Fail;
use nc_model::HeaderFault;
use nc_reader::Reader;

#[tactic(auto, using(crate::proofs::NameLemmas::utf8_laws))]
fn is_utf8(text: &[u8]) -> bool
    ensures { result ≡ is_utf8 text.now }
{
    str::from_utf8(text).is_ok()
}

fn has_barred(text: &[u8]) -> bool
    ensures { result ≡ list_any is_barred text.now }
{
    text.iter().any(|byte| *byte == 0 || *byte == b'/')
}

// Whether a text may be a name: UTF-8, not empty, without a zero byte and without a slash.
#[tactic(auto, unfolding(nc_model::specs::Format::is_name_text))]
fn is_name(text: &[u8]) -> bool
    ensures { result ≡ is_name_text text.now }
{
    !text.is_empty() && is_utf8(text) && !has_barred(text)
}

// Reads a name that none of the items has.
#[tactic(auto, unfolding(nc_model::specs::Reading::name_at))]
pub(crate) fn read_name<'a, T: Named>(
    reader: &mut Reader<'a>,
    found: &Found<'_, T>,
) -> Result<&'a [u8], Fail<HeaderFault>>
    ensures { Reads (λ name. name.now)
        (spec.name_at (map T.name_of found.now) reader.old) result reader.new }
{
    let offset = reader.at();
    let len = reader.count()?;
    let name = reader.padded(u64::from(len))?;
    if !is_name(name) {
        return Err(Fail::Fault(HeaderFault::BadName(offset)));
    }
    if found.has(name) {
        return Err(Fail::Fault(HeaderFault::RepeatedName(offset)));
    }
    Ok(name)
}
