//! Links that come to one of the doors at a socket.

use crate::stepped::{Stepped, put_number_line, put_steps, word_and_number};
use dev_host::Share;
use row_text::Said;

/// Puts what a door that has no link does: `come MOMENT` has a link come, where one may, `wait OUT MOMENT` ends a wait
/// with so many links out, and `due OUT MOMENT` is the moment of the accept that is due at this one.
pub fn put_share(steps: &str, out: &mut Said) -> bool {
    put_steps(Share::new(), steps, out)
}

impl Stepped for Share {
    fn put_step(&mut self, line: &str, out: &mut Said) -> bool {
        let (words, Some(moment)) = word_and_number(line) else {
            return false;
        };
        match word_and_number(words) {
            ("come", None) => put_coming(self, moment, out),
            ("wait", Some(links)) => self.renew(links as usize, moment),
            ("due", Some(links)) => {
                put_number_line("due at ", self.due(links as usize, moment), out)
            }
            _ => return false,
        }
        true
    }
}

fn put_coming(share: &mut Share, moment: u64, out: &mut Said) {
    if share.is_left() {
        share.take(moment);
        out.put("comes\n");
    } else {
        out.put("is left\n");
    }
}
