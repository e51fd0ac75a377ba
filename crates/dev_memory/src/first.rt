//! The first of a list.
ghost use Rattle.std.specs.Prelude.{◌≡◌, drop};
ghost use Rattle.dev_traits.specs.Door.{first_of};

use fm_base::List;

/// Takes the first item off, if there is one. It takes no memory.
pub(crate) fn take_first<T>(list: &mut List<T>) -> Option<T>
    ensures first { result ≡ first_of list.old }
    ensures rest { list.new ≡ drop 1 list.old }
{
    if list.is_empty() {
        return None;
    }
    Some(list.items.remove(0))
}
