//! The replies that were begun on a link.
ghost use Rattle.std.specs.Prelude.{◌≡◌, ◌∷◌, ◌++◌, [], List as Lists};
ghost use Rattle.dap_reply.specs.declared.served.Mark.{Mark as Begun};

use dap_reply::Mark;
use fm_base::List;

/// A mark for each reply that was begun, in order.
pub type Trail = List<Mark>;

/// Notes the number of bytes sent of the reply that was begun last. It takes no memory.
pub(crate) fn note(trail: &mut Trail, sent: u64)
    ensures { (front : Lists Begun) (mark : Begun) → trail.old ≡ front ++ mark ∷ []
        → trail.new ≡ front ++ record mark { sent = sent } ∷ [] }
{
    if let [.., last] = trail.items.as_mut_slice() {
        last.sent = sent;
    }
}
