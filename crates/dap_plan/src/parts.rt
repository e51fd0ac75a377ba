//! The bytes of a reply, of which the data stays in the files.
ghost use Rattle.std.specs.Prelude.{◌≡◌, ◌<◌, ◌≤◌, ◌^◌, ◌-◌, ◌++◌, All, IfOk, OnOk, Some, drop, length, min, take};
ghost use Rattle.dap_number.specs.Overlay.{overlay};
ghost use Rattle.dap_xdr.specs.Datasets.{content_of};
ghost use Rattle.dap_plan.specs.Laid.{AreLaid};
ghost use Rattle.dap_plan.specs.Parts.{bytes_of, ready, IsSentOf};

use crate::data::{lent_data, put_data};
use crate::laid::{Laid, no_parts};
use dap_model::Sent;
use dap_number::put;
use fm_base::{Bytes, List, NoMemory};
use fm_dataset::Dataset;
use std::alloc::Global;
use std::marker::Model;

// How many bytes stand ready. A list in memory has fewer than 2^63.
fn ready_len(front: &Bytes) -> u64
    ensures exact { result ≡ length front.now }
    ensures small { result < 2 ^ 63 }
{
    front.items.len() as u64
}

// Puts bytes before others, which stay where they are in memory if there is room behind them. No more room is made than
// they take.
fn put_before(head: &[u8], text: &mut Bytes) -> Result<(), NoMemory>
    ensures { OnOk result (text.new ≡ head.now ++ text.old) }
{
    let len = text.len();
    text.items.reserve_exact(head.len())?;
    text.append(head)?;
    text.items.rotate_left(len);
    Ok(())
}

/// The bytes of a reply: those before the first byte of its data, and what is sent of a dataset behind them. It holds
/// the files that it needs, and no data.
#[derive(Drop)]
pub struct Plan {
    /// The bytes before the data.
    pub front: Bytes,
    /// The dataset whose data is sent.
    pub source: Option<Dataset>,
    /// What is sent of it; nothing where there is none.
    pub sent: List<Sent>,
    laid: Laid,
    len: u64,
}

impl Model for Plan {
    ghost use Rattle.dap_plan.specs.Laid.{AreLaidOf};
    ghost use Rattle.dap_plan.specs.Parts.{IsPlan, Parts};

    ghost Value = { Parts };

    ghost view = { λ plan. record { front = plan.front; source = plan.source; sent = plan.sent } };

    ghost invariant = { λ plan.
        IsPlan (record { front = plan.front; source = plan.source; sent = plan.sent }) plan.len
        × AreLaidOf plan.source plan.sent plan.laid };
}

impl Plan {
    /// The bytes all stand ready.
    pub fn ready(alloc: Global, front: Bytes) -> Plan
        ensures { result ≡ ready front }
    {
        let len = front.len() as u64;
        Plan {
            front,
            source: None,
            sent: List::new(alloc),
            laid: no_parts(alloc),
            len,
        }
    }

    /// Some bytes stand ready, and behind them is the data of what is sent of a dataset, `len` bytes with them. The
    /// caller has laid out this data.
    pub fn with_data(front: Bytes, source: Dataset, sent: List<Sent>, laid: Laid, len: u64) -> Plan
        requires sent { All (IsSentOf source) sent }
        requires laid { AreLaid source sent laid }
        requires len { len ≡ length (bytes_of (record { front = front; source = Some source; sent = sent })) }
        requires few { len < 2 ^ 63 }
        ensures { result ≡ record { front = front; source = Some source; sent = sent } }
    {
        Plan {
            front,
            source: Some(source),
            sent,
            laid,
            len,
        }
    }

    /// The same bytes behind others. These are moved in front of those that stand ready, which are not copied elsewhere
    /// if there is room behind them.
    pub fn behind(self, front: Bytes) -> Result<Plan, NoMemory>
        ensures { IfOk result (λ plan. plan ≡ record {
          front = front ++ self.front;
          source = self.source;
          sent = self.sent;
        }) }
    {
        let data = self.len - self.front.len() as u64;
        let mut text = self.front;
        put_before(front.as_slice(), &mut text)?;
        let len = ready_len(&text) + data;
        Ok(Plan {
            front: text,
            source: self.source,
            sent: self.sent,
            laid: self.laid,
            len,
        })
    }

    /// How many bytes there are.
    pub fn len(&self) -> u64
        ensures { result ≡ length (bytes_of self.now) }
    {
        self.len
    }

    /// Writes the bytes from an offset on over the front of a buffer, as many as fit, and returns how many that are. It
    /// takes no memory. The offset is at most `len`.
    pub fn piece(&self, from: u64, out: &mut [u8]) -> usize
        requires { from ≤ length (bytes_of self.now) }
        ensures count { result ≡ min (length out.old) (length (bytes_of self.now) - from) }
        ensures bytes { out.new ≡ overlay (drop from (bytes_of self.now)) out.old }
    {
        let count = put(self.front.as_slice(), from, out);
        match &self.source {
            None => count,
            Some(source) => {
                let from = from.saturating_sub(self.front.len() as u64);
                let (_, rest) = out.split_at_mut(count);
                count + put_data(source, self.sent.as_slice(), &self.laid, from, rest)
            }
        }
    }

    /// Lends the longest stretch from an offset on that stands in the front or in a file as it is sent. It is a front
    /// of the bytes from that offset on, and may be empty. It takes no memory.
    pub fn lent(&self, from: u64) -> &[u8]
        ensures { take (length result.now) (drop from (bytes_of self.now)) ≡ result.now }
    {
        let ready = self.front.len() as u64;
        if from < ready {
            let (_, rest) = self.front.as_slice().split_at(from as usize);
            return rest;
        }
        match &self.source {
            None => &[],
            Some(source) => lent_data(source, self.sent.as_slice(), &self.laid, from - ready),
        }
    }
}
