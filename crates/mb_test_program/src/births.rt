//! Devices of the plays, with which most tests begin.

use crate::play::program_of;
use mb_host::MemoryHost;
use mb_test_plays::Step;
use std::test::Fail;

/// A host on which all three layers of the device have owners and code.
pub fn owned(rt: &impl AllocGlobal) -> Result<MemoryHost, Fail> {
    mb_test_plays::owned(&program_of(rt))
}

/// A new device goes through the parts.
pub fn new_device_goes_through(rt: &impl AllocGlobal, parts: &[&[Step]]) -> Result<(), Fail> {
    mb_test_plays::new_device_goes_through(&program_of(rt), parts)
}

/// A device whose layers all have owners and code goes through the parts.
pub fn owned_device_goes_through(rt: &impl AllocGlobal, parts: &[&[Step]]) -> Result<(), Fail> {
    mb_test_plays::owned_device_goes_through(&program_of(rt), parts)
}
