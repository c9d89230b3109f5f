//! The state that an image means, whether it is that of another, and whether the image is clean.

ghost use Rattle.std.specs.Prelude.{◌≡◌, ◌≤◌, length, IfOk};
ghost use Rattle.mb_test_cuts.specs.Staged.{IsLiveImage};

use mb_image::stand_for;
use mb_layout::root_in;
use mb_lms::HashCount;
use mb_model::{Bytes, Codes, FLASH_LENGTH, Region, Secret, State};
use std::alloc::Global;
use std::sync::ledger::Ledger;
use std::test::Fail;

/// An image, and the state that it means.
#[derive(Drop)]
pub struct Device {
    pub image: Vec<u8>,
    pub state: State,
}

/// The device whose image this is.
#[tactic(auto, using(crate::proofs::Staging::is_live))]
pub fn read<L: Ledger>(
    alloc: Global,
    image: Vec<u8>,
    hashes: &mut HashCount<L>,
) -> Result<Box<Device>, Fail>
    ensures { IfOk result (λ device. IsLiveImage device.value.image.items) }
{
    match stand_for(alloc, &image, hashes) {
        Ok(Some(state)) => Ok(Box::new(alloc, Device { image, state })?),
        _ => Err("the image stands for no state")?,
    }
}

fn is_same_code(code: &Option<Bytes>, like: &Option<Bytes>) -> bool {
    match (code, like) {
        (None, None) => true,
        (Some(code), Some(like)) => code.as_slice() == like.as_slice(),
        _ => false,
    }
}

fn are_same_codes(codes: &Codes, like: &Codes) -> bool {
    is_same_code(&codes.one, &like.one)
        && is_same_code(&codes.two, &like.two)
        && is_same_code(&codes.three, &like.three)
}

fn is_same_secret(secret: &Secret, like: &Secret) -> bool {
    secret.name.as_slice() == like.name.as_slice()
        && secret.value.as_slice() == like.value.as_slice()
        && secret.born == like.born
}

fn are_same_secrets(secrets: &[Secret], like: &[Secret]) -> bool {
    if secrets.len() != like.len() {
        return false;
    }
    for (i, secret) in secrets.iter().enumerate() {
        if !is_same_secret(secret, &like[i]) {
            return false;
        }
    }
    true
}

fn is_same_region(region: &Region, like: &Region) -> bool {
    are_same_secrets(region.secrets.as_slice(), like.secrets.as_slice())
        && region.keys.as_slice() == like.keys.as_slice()
}

/// Whether a state is like another, but for these regions.
pub fn is_like(state: &State, like: &State, two: &Region, three: &Region) -> bool {
    state.serial == like.serial
        && state.device == like.device
        && state.uses == like.uses
        && state.layers == like.layers
        && state.log.as_slice() == like.log.as_slice()
        && are_same_codes(&state.codes, &like.codes)
        && is_same_region(&state.two, two)
        && is_same_region(&state.three, three)
}

/// Whether two states are the same.
pub fn is_same(state: &State, like: &State) -> bool {
    is_like(state, like, &like.two, &like.three)
}

/// How many bytes an area of the battery-backed memory has.
const AREA: usize = 4096;

fn is_blank(bytes: &[u8]) -> bool {
    bytes.iter().all(|byte| *byte == 0)
}

/// The two areas of a slot: the one that the selector makes current, and the other.
fn areas_of(bbram: &[u8], slot: usize) -> (&[u8], &[u8])
    requires sized { length bbram.now ≡ 28672 }
    requires first { 1 ≤ slot }
    requires last { slot ≤ 3 }
{
    let at = AREA + (slot - 1) * 2 * AREA;
    let first = &bbram[at..at + AREA];
    let second = &bbram[at + AREA..at + 2 * AREA];
    if bbram[slot] % 2 == 0 {
        (first, second)
    } else {
        (second, first)
    }
}

/// Whether an image of a live device has no pending work, and its battery-backed memory is zero but for the life byte,
/// the selectors and the current areas.
pub fn is_clean(image: &[u8]) -> bool
    requires { length image.now ≡ 1077248 }
{
    let (_, bbram) = image.split_at(FLASH_LENGTH);
    let (root, other_root) = areas_of(bbram, 1);
    let (_, other_two) = areas_of(bbram, 2);
    let (_, other_three) = areas_of(bbram, 3);
    let is_settled = match root_in(root) {
        Some(root) => root.pending.is_none(),
        None => false,
    };
    is_settled
        && bbram[0] == 0xa5
        && is_blank(&bbram[4..AREA])
        && is_blank(other_root)
        && is_blank(other_two)
        && is_blank(other_three)
}
