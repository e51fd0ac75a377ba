//! How a run ends.
ghost use Rattle.std.specs.Prelude.{◌≡◌};
ghost use Rattle.srv_alone.specs.Report as spec;

use fm_base::NoMemory;

/// How a run ended, beside the path of the file that it ended at.
#[derive(Clone, Copy)]
pub enum End {
    /// Every step was done.
    Done,
    /// The words aren't those of a command.
    BadWords,
    /// A file was refused, with the number of the refusal.
    Refused(u16),
    /// Memory ran out.
    NoMemory,
    /// A file couldn't be read.
    FileFault,
    /// The line of what was done couldn't be written.
    SinkFault,
    /// The link failed.
    LinkFault,
    /// A door failed, or couldn't be opened; its number, from 0.
    DoorFault(u32),
    /// An inbox failed, or couldn't be opened; its number, from 0.
    InboxFault(u32),
    /// No file lies at the path.
    NoFile,
    /// The length of the file in bytes, which is over the limit.
    TooLong(u64),
    /// The link ended before a step had its replies.
    InputEnded,
    /// A reply that was pulled has a fault, with its number.
    BadReply(u16),
}

// The number of the refusal of a file for which a collection has no room.
pub(crate) const NO_ROOM: u16 = 61;

impl End {
    /// The status of a program that ends so.
    pub fn status(self) -> u8
        ensures { result ≡ spec.status_of self }
    {
        match self {
            End::Done => 0,
            End::BadWords => 2,
            End::Refused(_) => 3,
            End::NoMemory => 4,
            End::FileFault => 5,
            End::DoorFault(_) => 6,
            End::SinkFault => 7,
            End::InboxFault(_) => 8,
            End::LinkFault => 9,
            End::NoFile | End::TooLong(_) => 10,
            End::InputEnded => 11,
            End::BadReply(_) => 12,
        }
    }
}

impl From<NoMemory> for End {
    ghost use Rattle.std.specs.Prelude.{◌≡◌};
    ghost use Rattle.srv_alone.specs.declared.end.End.TheVariants as ends;

    ghost from_gives = { λ _ end. end ≡ ends.NoMemory };

    fn from(_error: NoMemory) -> End {
        End::NoMemory
    }
}
