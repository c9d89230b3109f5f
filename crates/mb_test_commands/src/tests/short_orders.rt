//! What the device answers to orders that end early.

use super::births::owned_device_goes_through;
use super::failures::FILES_ARE_MADE;
use super::{A_NEW_DEVICE, A_WHOLE_LIFE, Part, Step};
use std::test::Fail;

/// Orders that end where a field begins are no orders, for the device.
const SHORT_ORDERS_ARE_REFUSED: &[Step] = &[Step::Serves(
    &[
        Part::Text("boot\ncommand -\n"),
        Part::Slice("order1", 0, 10),
        Part::Text("\n"),
        Part::Slice("order1", 0, 12),
        Part::Text("\n"),
        Part::Slice("order1", 0, 14),
        Part::Text("\n"),
        Part::Slice("order1", 0, 22),
        Part::Text("\n"),
        Part::Slice("order1", 0, 30),
        Part::Text("\n"),
        Part::Slice("order1", 0, 62),
        Part::Text("\n"),
        Part::Slice("order1", 0, 126),
        Part::Text("\n"),
        Part::Slice("order1", 0, 128),
        Part::Text("\n"),
        Part::Slice("order1", 0, 132),
        Part::Text("\n"),
        Part::Slice("order1", 0, 4_828),
        Part::Text("\n"),
        Part::Slice("order5", 0, 10),
        Part::Text("\n"),
        Part::Slice("order5", 0, 12),
        Part::Text("\n"),
        Part::Slice("order5", 0, 14),
        Part::Text("\n"),
        Part::Slice("order5", 0, 16),
        Part::Text("\n"),
        Part::Slice("order5", 0, 20),
        Part::Text("\n"),
        Part::Slice("order5", 0, 4_716),
        Part::Text("\n"),
        Part::Slice("order6", 0, 10),
        Part::Text("\n"),
        Part::Slice("order6", 0, 12),
        Part::Text("\n"),
        Part::Slice("order6", 0, 14),
        Part::Text("\n"),
        Part::Slice("order6", 0, 22),
        Part::Text("\n"),
        Part::Slice("order6", 0, 24),
        Part::Text("\n"),
        Part::Slice("order6", 0, 32),
        Part::Text("\n"),
        Part::Slice("order6", 0, 38),
        Part::Text("\n"),
        Part::Slice("order6", 0, 42),
        Part::Text("\n"),
        Part::Slice("order6", 0, 4_738),
        Part::Text("\n"),
        Part::Slice("order6", 0, 4_740),
        Part::Text("\n"),
        Part::Slice("order6", 0, 4_742),
        Part::Text("\n"),
        Part::Slice("order6", 0, 4_746),
        Part::Text("\n"),
        Part::Slice("order6", 0, 9_442),
        Part::Text("\n"),
        Part::Slice("order6", 0, 9_444),
        Part::Text("\n"),
        Part::Slice("order6", 0, 9_448),
        Part::Text("\n"),
        Part::Slice("targets", 0, 10),
        Part::Text("\n"),
        Part::Slice("targets", 0, 12),
        Part::Text("\n"),
        Part::Slice("targets", 0, 14),
        Part::Text("\n"),
        Part::Slice("targets", 0, 16),
        Part::Text("\n"),
        Part::Slice("targets", 0, 48),
        Part::Text("\n"),
        Part::Slice("targets", 0, 50),
        Part::Text("\n"),
        Part::Slice("targets", 0, 58),
        Part::Text("\n"),
        Part::Slice("targets", 0, 60),
        Part::Text("\n"),
        Part::Slice("targets", 0, 62),
        Part::Text("\n"),
        Part::Slice("targets", 0, 126),
        Part::Text("\n"),
        Part::Slice("targets", 0, 128),
        Part::Text("\n"),
        Part::Slice("targets", 0, 130),
        Part::Text("\n"),
        Part::Slice("targets", 0, 194),
        Part::Text("\n"),
        Part::Slice("targets", 0, 202),
        Part::Text("\n"),
        Part::Slice("targets", 0, 204),
        Part::Text("\n"),
        Part::Slice("targets", 0, 206),
        Part::Text("\n"),
        Part::Slice("targets", 0, 214),
        Part::Text("\n"),
        Part::Slice("targets", 0, 220),
        Part::Text("\n"),
        Part::Slice("targets", 0, 224),
        Part::Text("\n"),
        Part::Slice("targets", 0, 4_920),
        Part::Text("\n"),
    ],
    "noise",
    "booted\n\
        refused 10 text\nrefused 10 text\nrefused 10 text\nrefused 10 text\nrefused 10 text\n\
        refused 10 text\nrefused 10 text\nrefused 10 text\nrefused 10 text\nrefused 10 text\n\
        refused 10 text\nrefused 10 text\nrefused 10 text\nrefused 10 text\nrefused 10 text\n\
        refused 10 text\nrefused 10 text\nrefused 10 text\nrefused 10 text\nrefused 10 text\n\
        refused 10 text\nrefused 10 text\nrefused 10 text\nrefused 10 text\nrefused 10 text\n\
        refused 10 text\nrefused 10 text\nrefused 10 text\nrefused 10 text\nrefused 10 text\n\
        refused 10 text\nrefused 10 text\nrefused 10 text\nrefused 10 text\nrefused 10 text\n\
        refused 10 text\nrefused 10 text\nrefused 10 text\nrefused 10 text\nrefused 10 text\n\
        refused 10 text\nrefused 10 text\nrefused 10 text\nrefused 10 text\nrefused 10 text\n\
        refused 10 text\nrefused 10 text\nrefused 10 text\nrefused 10 text\nrefused 10 text\n\
        refused 10 text\nrefused 10 text\n",
)];

#[test]
fn orders_end_early(rt: HostRuntime) -> Result<(), Fail> {
    owned_device_goes_through(
        &rt,
        &[
            A_NEW_DEVICE,
            A_WHOLE_LIFE,
            FILES_ARE_MADE,
            SHORT_ORDERS_ARE_REFUSED,
        ],
    )
}
