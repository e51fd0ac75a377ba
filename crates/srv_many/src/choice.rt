//! Which of several collections a target is for.
ghost use Rattle.std.specs.Prelude.{◌≡◌, ◌≢◌, ◌<◌, [], length};
ghost use Rattle.srv_many.specs.Choice.{chosen};

use fm_base::{Arc, List};
use fm_model::Proto;
use web_path::is_below;

/// The first of some collections below whose root the path of a target lies, by its number from 0, or 0 where there is
/// none. It takes no memory.
pub fn choose(target: &[u8], protos: &List<Arc<Proto>>) -> usize
    ensures choice { result ≡ chosen protos.now target.now }
    ensures some { protos.now ≢ [] → result < length protos.now }
{
    let mut left = protos.as_slice();
    let mut number = 0usize;
    while let [proto, rest @ ..] = left {
        if is_below(target, &proto.get().site) {
            return number;
        }
        left = rest;
        number += 1;
    }
    0
}
