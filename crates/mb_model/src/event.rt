//! What happens to a device, and what it answers.

ghost use Rattle.std.specs.Prelude.{◌≡◌, IfOk};

use crate::bytes::Bytes;
use crate::items::Items;
use crate::memory::NoMemory;
use crate::reply::Reply;
use std::alloc::Global;

/// What a power loss leaves of the write that it falls in: the first `keep` bytes are written, and each byte after
/// them is one of the first `fill_length` bytes of `fill` (1 to 16), repeated in order.
#[derive(Clone, Copy, PartialEq, Eq)]
pub struct Tear {
    pub keep: u32,
    pub fill: [u8; 16],
    pub fill_length: u8,
}

/// An event of a script.
#[derive(Drop)]
pub enum Event {
    /// Power comes on.
    Boot,
    /// Power goes off.
    Off,
    /// Someone opens the case.
    Tamper,
    /// Asks how the layers stand.
    Status,
    /// Hands control to the next layer.
    Go,
    /// Power will fail in the write call with this number, from 1, counted from now on.
    Cut {
        count: u32,
        tear: Tear,
    },
    /// An owner's order as bytes, and the noise for the keys that it makes.
    Order {
        text: Bytes,
        draw: [u8; 32],
    },
    /// Keeps a secret under a name in region 2 or 3.
    Put {
        region: u8,
        name: Bytes,
        value: Bytes,
    },
    /// Reads the secret with this name.
    Get {
        region: u8,
        name: Bytes,
    },
    /// Drops the secret with this name.
    Drop {
        region: u8,
        name: Bytes,
    },
    /// Signs a message with the region's key of this number.
    Sign {
        region: u8,
        key: u32,
        message: Bytes,
    },
    /// Runs the stored code of the region's layer on an input of at most 4,096 bytes. If a key is named, the region's key
    /// of this number signs the answer.
    Call {
        region: u8,
        key: Option<u32>,
        input: Bytes,
    },
}

/// Events in order.
pub type Events = Items<Event>;

/// An event and the reply to it.
#[derive(Drop)]
pub struct Answered {
    pub event: Event,
    pub reply: Reply,
}

impl Event {
    /// A copy of the event, or `NoMemory`.
    pub fn copy(&self, alloc: Global) -> Result<Event, NoMemory>
        ensures { IfOk result (λ event. event ≡ self.now) }
    {
        Ok(match self {
            Event::Boot => Event::Boot,
            Event::Off => Event::Off,
            Event::Tamper => Event::Tamper,
            Event::Status => Event::Status,
            Event::Go => Event::Go,
            Event::Cut { count, tear } => Event::Cut {
                count: *count,
                tear: *tear,
            },
            Event::Order { text, draw } => Event::Order {
                text: Bytes::copy(alloc, text.as_slice())?,
                draw: *draw,
            },
            Event::Put {
                region,
                name,
                value,
            } => Event::Put {
                region: *region,
                name: Bytes::copy(alloc, name.as_slice())?,
                value: Bytes::copy(alloc, value.as_slice())?,
            },
            Event::Get { region, name } => Event::Get {
                region: *region,
                name: Bytes::copy(alloc, name.as_slice())?,
            },
            Event::Drop { region, name } => Event::Drop {
                region: *region,
                name: Bytes::copy(alloc, name.as_slice())?,
            },
            Event::Sign {
                region,
                key,
                message,
            } => Event::Sign {
                region: *region,
                key: *key,
                message: Bytes::copy(alloc, message.as_slice())?,
            },
            Event::Call { region, key, input } => Event::Call {
                region: *region,
                key: *key,
                input: Bytes::copy(alloc, input.as_slice())?,
            },
        })
    }
}
