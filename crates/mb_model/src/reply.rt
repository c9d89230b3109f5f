//! What a device answers.

ghost use Rattle.std.specs.Prelude.{◌≡◌};
ghost use Rattle.mb_model.specs.machine.Refusals.{order_refusal_number, refusal_number, refusal_reply};

use crate::bytes::Bytes;

/// How a layer stands.
#[derive(Clone, Copy, PartialEq, Eq)]
pub enum Standing {
    /// The layer has no owner.
    Unowned,
    /// The layer has an owner and is not reliable.
    Unreliable,
    /// The layer is reliable, and a layer beneath it is not.
    Reliable,
    /// The layer and each layer beneath it are reliable.
    Runnable,
}

/// The reply to an event.
#[derive(Drop)]
pub enum Reply {
    /// Power is on and the device is ready.
    Booted,
    /// Power is off.
    Off,
    /// The device has been opened, and has forgotten its secrets.
    Tampered,
    /// The cut is armed.
    Armed,
    /// The layer with this number runs now.
    At(u8),
    /// The order is done; the configuration number and the length of the log afterwards.
    Done {
        number: u32,
        length: u32,
    },
    /// The secret is kept.
    Kept,
    /// The secret is forgotten.
    Dropped,
    /// The secret's value.
    Value(Bytes),
    /// No secret has that name.
    Absent,
    /// A statement, signed by the key with this number at this index.
    Signed {
        key: u32,
        index: u32,
        statement: Bytes,
    },
    /// What the code of a layer answered to a call, without a key's signature.
    Called(Bytes),
    /// The device's serial, its configuration number, the length of its log, and how its layers stand.
    Status {
        serial: [u8; 16],
        number: u32,
        length: u32,
        one: Standing,
        two: Standing,
        three: Standing,
    },
    /// Refused for the reason with this number.
    Refused(u8),
    /// Power failed during the event.
    Stopped,
    /// An allocation failed; nothing has changed.
    NoMemory,
}

/// Why an order is refused: a check that it fails. If it fails several, the first in this list is meant.
#[derive(Clone, Copy, PartialEq, Eq)]
pub enum OrderRefusal {
    /// The target of the order at this index, from 0, does not hold.
    WrongTarget(u8),
    /// The order may not be given as the layers stand.
    WrongState,
    /// The order is not signed by the owner in charge, or there is none.
    WrongSignature,
    /// The order is not countersigned by the owner of this layer, 2 or 3, or there is none.
    WrongCountersignature(u8),
    /// The log has no room for the order's entries.
    LogFull,
    /// The region holds as many keys as it can.
    KeysFull,
}

/// Why an event is refused.
#[derive(Clone, Copy, PartialEq, Eq)]
pub enum Refusal {
    /// Power is off.
    PoweredOff,
    /// The event does not fit the phase: a boot while a layer runs, a go from layer 3, or an order past layer 1.
    WrongPhase,
    /// The device has been opened, and keeps nothing.
    Zeroised,
    /// Control is past this layer, or the layer may not run.
    WrongLayer,
    /// The region holds as many secrets as it can.
    RegionFull,
    /// The region has no such key.
    NoSuchKey,
    /// All indices of the key are used.
    KeySpent,
    /// The layer's code takes calls, so that only calls reach its region; or it is called and takes none.
    WrongCode,
    /// The run of a call did not halt within its steps, its output is no action, or the region has no room for it.
    RunFailed,
    /// The bytes spell no order.
    BadText,
    /// The order fails a check.
    Order(OrderRefusal),
}

impl OrderRefusal {
    /// The number that a reply gives for this reason.
    pub fn number(self) -> u8
        ensures { result ≡ order_refusal_number self }
    {
        match self {
            OrderRefusal::WrongTarget(_) => 11,
            OrderRefusal::WrongState => 12,
            OrderRefusal::WrongSignature => 13,
            OrderRefusal::WrongCountersignature(_) => 14,
            OrderRefusal::LogFull => 15,
            OrderRefusal::KeysFull => 16,
        }
    }
}

impl Refusal {
    /// The number that a reply gives for this reason.
    pub fn number(self) -> u8
        ensures { result ≡ refusal_number self }
    {
        match self {
            Refusal::PoweredOff => 1,
            Refusal::WrongPhase => 2,
            Refusal::Zeroised => 3,
            Refusal::WrongLayer => 4,
            Refusal::RegionFull => 5,
            Refusal::NoSuchKey => 6,
            Refusal::KeySpent => 7,
            Refusal::WrongCode => 8,
            Refusal::RunFailed => 9,
            Refusal::BadText => 10,
            Refusal::Order(refusal) => refusal.number(),
        }
    }

    /// The reply to an event that is refused for this reason.
    pub fn reply(self) -> Reply
        ensures { result ≡ refusal_reply self }
    {
        Reply::Refused(self.number())
    }
}
