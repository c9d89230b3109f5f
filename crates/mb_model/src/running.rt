//! How a run of an application ends.

use crate::bytes::Bytes;
use crate::trap::Trap;

/// How a run ends. The output is what was emitted until then.
#[derive(Drop)]
pub enum AppEnd {
    /// A `halt`, the last of this many steps.
    Halted {
        steps: u32,
        output: Bytes,
    },
    /// A trap of the instruction at this place.
    Trap {
        cause: Trap,
        place: u32,
        output: Bytes,
    },
    /// As many steps as were allowed, without an end.
    OutOfSteps {
        output: Bytes,
    },
}
