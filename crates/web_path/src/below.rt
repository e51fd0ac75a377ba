//! Which collection's root a target is below.
ghost use Rattle.std.specs.Prelude.{◌≡◌, ◌++◌, ◌&&◌, ℕ, List};
ghost use Rattle.percent_encoding.specs.Iter.{decoded_bytes};
ghost use Rattle.web_path.specs.Below.{is_below};
ghost use Rattle.web_path.specs.Begins.{begins};

use crate::read::path_and_query;
use crate::scan::first_of;
use fm_model::Site;
use percent_encoding::{PercentDecode, percent_decode};

// Whether these are the next of the decoded bytes, which then are those after them.
fn takes(left: &mut PercentDecode<'_>, front: &[u8]) -> bool
    ensures { (more : List ℕ) → begins (front.now ++ more) (decoded_bytes left.old)
        ≡ (result && begins more (decoded_bytes left.new)) }
{
    let mut wanted = front;
    while let [byte, rest @ ..] = wanted {
        match left.next() {
            Some(next) => {
                if next != *byte {
                    return false;
                }
            }
            None => return false,
        }
        wanted = rest;
    }
    true
}

// Whether all three hold.
fn all(first: bool, second: bool, third: bool) -> bool
    ensures { result ≡ (first && second && third) }
{
    first && second && third
}

/// Whether the path of a target is below the root of a collection. It takes no memory.
pub fn is_below(target: &[u8], site: &Site) -> bool
    ensures { result ≡ is_below target.now site.now }
{
    let text = path_and_query(target);
    let question = first_of(b'?', text);
    let mut left = percent_decode(&text[..question]);
    let has_front = takes(&mut left, b"/thredds/dodsC/".as_slice());
    let has_name = takes(&mut left, site.name.as_slice());
    let has_end = takes(&mut left, b"/".as_slice());
    all(has_front, has_name, has_end)
}
