//! Reading a message.
ghost use Rattle.std.specs.Prelude.{IfOk};
ghost use Rattle.fm_base.specs.Answer.{Answers, ForFault, IsReadAs};
ghost use Rattle.dap_client.specs.DataReading.{body_at, message_at, message_or_fault};
ghost use Rattle.dap_client.specs.Message.{IsBadData, Spells};
ghost use Rattle.dap_client.specs.Reading.{Reads};

use crate::column::read_columns;
use crate::cursor::Cursor;
use crate::declaration::read_dataset;
use crate::message::Message;
use fm_base::Fail;
use std::alloc::Global;

// Reads a message, whatever stands behind it.
#[tactic(auto, unfolding(crate::specs::DataReading::body_at))]
fn read_body(alloc: Global, cursor: &mut Cursor<'_>) -> Result<Message, Fail<u64>>
    ensures { Reads (λ message. message) (body_at cursor.old) result cursor.new }
{
    let (label, decls) = read_dataset(alloc, cursor)?;
    cursor.fixed(b"Data:\n")?;
    let columns = read_columns(alloc, cursor, decls.as_slice())?;
    Ok(Message {
        label,
        decls,
        columns,
    })
}

// Reads a message and the end behind it.
#[tactic(auto, unfolding(crate::specs::DataReading::message_at))]
fn read_whole(alloc: Global, cursor: &mut Cursor<'_>) -> Result<Message, Fail<u64>>
    ensures { Reads (λ message. message) (message_at cursor.old) result cursor.new }
{
    let message = read_body(alloc, cursor)?;
    cursor.end()?;
    Ok(message)
}

/// The message that the body of a data reply spells, or the greatest offset up to which some message begins so.
///
/// A count in the body takes no memory by itself: room is made for what is known to be there.
#[tactic(auto, unfolding(crate::specs::DataReading::message_or_fault))]
pub fn read_message(alloc: Global, bytes: &[u8]) -> Result<Message, Fail<u64>>
    ensures exact { Answers (message_or_fault bytes.now) result }
    ensures spelled { IfOk result (Spells bytes.now) }
    ensures read { (message : _) → Spells bytes.now message → IsReadAs message result }
    ensures refused { ForFault result (IsBadData bytes.now) }
{
    let mut cursor = Cursor::new(bytes);
    read_whole(alloc, &mut cursor)
}
