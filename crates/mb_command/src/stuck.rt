//! Why a survey of the first bytes of an order found no value, and what it has found by then.

use mb_model::{BadRecord, OrderKind};

/// Why no value was found.
#[derive(Clone, Copy)]
pub enum Stuck {
    /// Whatever bytes follow, the field at this offset fails.
    Lost { at: u32 },
    /// The bytes end within the value, and some bytes that follow complete it.
    Open,
}

impl From<BadRecord> for Stuck {
    ghost use Rattle.std.specs.Prelude.{◌≡◌};
    ghost use Rattle.mb_command.specs.declared.stuck.Stuck.TheVariants.{Lost};

    ghost from_gives = { λ bad e. e ≡ Lost bad.at };

    fn from(bad: BadRecord) -> Stuck {
        Stuck::Lost { at: bad.at }
    }
}

/// The kind of an order and the layer that it is for: what decides who may countersign it.
#[derive(Clone, Copy)]
pub struct Heading {
    pub kind: OrderKind,
    pub layer: u8,
}
