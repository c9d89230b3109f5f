//! A new device: its first entry, its state, and its image.

ghost use Rattle.std.specs.Prelude.{◌≡◌, ◌↔◌, ◌+◌, ◌≤◌, [], ◌∷◌, length, None, Some, IfOk, OnOk, OnErr, IsErrOf};
ghost use Rattle.std.specs.Vec.{vec_len, vec_capacity};
ghost use Rattle.mb_officer.specs.declared.birth.TheConstants.{LONGEST_ENTRY};
ghost use Rattle.mb_model.specs.declared.limits.TheConstants.{CODE_LIMIT, KEY_USES, LAST_INDEX};
ghost use Rattle.mb_model.specs.declared.entry.Entry.TheVariants as entry;
ghost use Rattle.mb_model.specs.signatures.Key.{IsSized};
ghost use Rattle.mb_model.specs.records.EntryFormat.{entry_format};
ghost use Rattle.mb_model.specs.owners.Regions.{empty_region};
ghost use Rattle.mb_model.specs.signatures.Signing.{public_of};
ghost use Rattle.mb_model.specs.machine.OrderEffects.{entry_signed_by};
ghost use Rattle.mb_model.specs.machine.SignedOrders.{keyfile_after_use};
ghost use Rattle.mb_model.specs.memories.Meaning.{IsWellFormed};
ghost use Rattle.mb_model.specs.memories.Factory.{serial_from, first_key, layers_at_birth, codes_at_birth, state_at_birth, IsFactoryImage};
ghost use Rattle.mb_lms.specs.declared.hash_count.TheConstants.{SIGNING_HASHES, TREE_HASHES};

use crate::signing::{SignEnd, sign_at};
use mb_image::ImageRoom;
use mb_layout::write_entry;
use mb_lms::HashCount;
use mb_log::born;
use mb_model::separators::ENTRY_TEXT;
use mb_model::{
    Bytes, CodeName, Codes, DRAW_LENGTH, Entry, Items, KeySeed, Keyfile, Layer, Layers, Log,
    NoMemory, PublicKey, Region, SignedEntry, State, Trust, Trusts,
};
use mb_signer::public;
use sha2::{Digest, Sha256};
use std::alloc::Global;
use std::sync::ledger::Ledger;

/// The longest entry, in bytes.
const LONGEST_ENTRY: usize = 358;

/// The serial and the first key of a new device.
#[derive(Clone, Copy)]
pub(crate) struct Device {
    pub(crate) serial: [u8; 16],
    pub(crate) key: KeySeed,
}

/// Makes the image of a new device from the noise. Its layer 1 has this owner and this code, of at most 32,768 bytes.
/// The maker's key `k` signs the device's birth at its next index, in at most 69,872 hashes.
///
/// Errors: `Spent` exactly if all indices of the key are used, and `NoMemory`.
pub fn factory<L: Ledger>(
    alloc: Global,
    k: &mut Keyfile,
    owner: &PublicKey,
    code: &[u8],
    noise: &[u8; 48],
    hashes: &mut HashCount<L>,
) -> Result<Vec<u8>, SignEnd>
    requires code { length code.now ≤ CODE_LIMIT }
    ensures image { IfOk result (λ image. IsFactoryImage k.old.seed k.old.next owner.now code.now noise.now image.items) }
    ensures stands { IfOk result (λ image. IsWellFormed image.items (Some (state_at_birth k.old.seed k.old.next owner.now code.now noise.now))) }
    ensures used { OnOk result (k.new ≡ keyfile_after_use k.old) }
    ensures spent { IsErrOf result SignEnd.Spent ↔ (k.old.next ≡ KEY_USES) }
    ensures countersignable { IsErrOf result SignEnd.NotCountersignable → ⊥ }
    ensures unchanged { OnErr result ((k.new ≡ k.old) × (hashes.new ≡ hashes.old)) }
    ensures cost { hashes.new ≤ hashes.old + TREE_HASHES + SIGNING_HASHES }
{
    let mut next = k.next;
    let Some(index) = next.take() else {
        return Err(SignEnd::Spent);
    };
    key_sizes(owner);
    let kept_code = Bytes::copy(alloc, code)?;
    let mut text = room_for_text(alloc)?;
    let entries = room_for_entry(alloc)?;
    let image = ImageRoom::new(alloc)?;
    let device = device_of(noise);
    let layers = layers_of(owner, code);
    let birth = birth_of(&device, layers, hashes);
    let signed = sign_birth(&k.seed, index, birth, &mut text, hashes);
    let state = state_of(alloc, &device, layers, kept_code, log_of(entries, signed));
    k.next = next;
    Ok(image.write(&Some(state)))
}

/// Shows that the fields of a public key have the sizes that their types say.
fn key_sizes(key: &PublicKey)
    ensures { IsSized key.now }
{
    let _identifier: &[u8] = &key.identifier;
    let _root: &[u8] = &key.root;
}

/// The serial and the first key of a device that is made from the noise.
fn device_of(noise: &[u8; 48]) -> Device
    ensures long { length noise.now ≡ 48 }
    ensures serial { result.serial ≡ serial_from noise.now }
    ensures key { result.key ≡ first_key noise.now }
{
    let mut draw = [0; DRAW_LENGTH];
    draw.copy_from_slice(&noise[..DRAW_LENGTH]);
    let mut serial = [0; 16];
    serial.copy_from_slice(&noise[DRAW_LENGTH..]);
    Device {
        serial,
        key: born(&draw, &serial, 0),
    }
}

/// Room for the bytes of an entry.
fn room_for_text(alloc: Global) -> Result<Vec<u8>, NoMemory>
    ensures empty { IfOk result (λ room. room.items ≡ []) }
    ensures room { IfOk result (λ room. vec_len room + LONGEST_ENTRY ≤ vec_capacity room) }
{
    Ok(Vec::with_capacity(alloc, LONGEST_ENTRY)?)
}

/// A list with room for one entry.
fn room_for_entry(alloc: Global) -> Result<Vec<SignedEntry>, NoMemory>
    ensures empty { IfOk result (λ room. room.items ≡ []) }
    ensures room { IfOk result (λ room. vec_len room + 1 ≤ vec_capacity room) }
{
    Ok(Vec::with_capacity(alloc, 1)?)
}

/// The layers of a new device: layer 1 has this owner, this code as version 1, and both trusts always, and nobody owns
/// the others.
fn layers_of(owner: &PublicKey, code: &[u8]) -> Layers
    ensures { result ≡ layers_at_birth owner.now code.now }
{
    let name = CodeName {
        hash: Sha256::digest(code),
        version: 1,
    };
    let one = Layer {
        owner: Some(*owner),
        code: Some(name),
        reliable: true,
        trust: Trusts::equal(Trust::Always),
    };
    Layers {
        one,
        two: Layer::unowned(),
        three: Layer::unowned(),
    }
}

/// The first entry of a new device's log.
fn birth_of<L: Ledger>(device: &Device, layers: Layers, hashes: &mut HashCount<L>) -> Entry
    ensures birth { result ≡ entry.Birth 2 device.now.serial (public_of device.now.key) layers }
    ensures cost { hashes.new ≡ hashes.old + TREE_HASHES }
{
    Entry::Birth {
        version: 2,
        serial: device.serial,
        key: public(&device.key, hashes),
        layers,
    }
}

/// Signs the first entry by the maker's key at an index, and writes its bytes, for which there is room.
fn sign_birth<L: Ledger>(
    seed: &KeySeed,
    index: u32,
    birth: Entry,
    text: &mut Vec<u8>,
    hashes: &mut HashCount<L>,
) -> SignedEntry
    requires index { index ≤ LAST_INDEX }
    requires spelled { entry_format.Allowed birth }
    requires empty { text.old.items ≡ [] }
    requires room { vec_len text.old + LONGEST_ENTRY ≤ vec_capacity text.old }
    ensures text { text.new.items ≡ entry_format.spelling birth }
    ensures signed { result ≡ entry_signed_by seed.now index birth }
    ensures cost { hashes.new ≤ hashes.old + SIGNING_HASHES }
{
    let Ok(()) = write_entry(&birth, text) else {
        unreachable!();
    };
    SignedEntry {
        entry: birth,
        signature: sign_at(seed, index, &[ENTRY_TEXT], text, hashes),
    }
}

/// The log of one entry, in a list that has room for it.
fn log_of(mut room: Vec<SignedEntry>, signed: SignedEntry) -> Log
    requires empty { room.items ≡ [] }
    requires room { vec_len room + 1 ≤ vec_capacity room }
    ensures { result ≡ signed ∷ [] }
{
    let Ok(()) = room.push(signed) else {
        unreachable!();
    };
    Log::from_vec(room)
}

/// The state of a new device, with two empty regions.
fn state_of(alloc: Global, device: &Device, layers: Layers, code: Bytes, log: Log) -> State
    ensures { result ≡ record {
      serial = device.now.serial;
      layers = layers;
      codes = codes_at_birth code;
      log = log;
      device = device.now.key;
      uses = 0;
      two = empty_region;
      three = empty_region;
    } }
{
    State {
        serial: device.serial,
        layers,
        codes: Codes {
            one: Some(code),
            two: None,
            three: None,
        },
        log,
        device: device.key,
        uses: 0,
        two: no_region(alloc),
        three: no_region(alloc),
    }
}

/// A region without secrets and keys.
fn no_region(alloc: Global) -> Region
    ensures { result ≡ empty_region }
{
    Region {
        secrets: Items::new(alloc),
        keys: Items::new(alloc),
    }
}
