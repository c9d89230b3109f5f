//! Unsigned entries, signed for their sectors of the log, and the header that counts them as signed.

ghost use Rattle.std.specs.Prelude.{◌≡◌, ◌+◌, ◌-◌, ◌*◌, ◌≤◌, ◌∷◌, ◌⊎◌, IfSome, IsSome, length, vec_len, vec_capacity};
ghost use Rattle.std.specs.Option.{option_copied};
ghost use Rattle.mb_format.specs.Format.{Spells};
ghost use Rattle.mb_model.specs.declared.limits.TheConstants.{ENTRY_LIMIT, ENTRY_TEXT_LIMIT, KEY_USES, LAST_INDEX, SECTOR_LENGTH, SIGNATURE_LENGTH};
ghost use Rattle.mb_model.specs.declared.separators.TheConstants.{ENTRY_TEXT};
ghost use Rattle.mb_model.specs.declared.stored.Header.{Header};
ghost use Rattle.mb_model.specs.records.HeaderFormat.{header_format};
ghost use Rattle.mb_model.specs.memories.Sectors.{BeginsAs};
ghost use Rattle.mb_model.specs.signatures.Signing.{signature_of};
ghost use Rattle.mb_model.specs.memories.StoredLog.{outgoing_of, signer_of};
ghost use Rattle.mb_model_memory.specs.NextHeaders.{header_settled};
ghost use Rattle.mb_segments.specs.Uncopied.{header_of};
ghost use Rattle.mb_area.specs.Flashes.{IsPlan};
ghost use Rattle.mb_boot.specs.Calls.{SignsOnce};
ghost use Rattle.mb_boot.specs.Completions.{BeginsWithHeader, text_at_place, count_of, unsigned_count, IsSignedSector, SignsTextAt};
ghost use Rattle.mb_boot.specs.Signers.{HasSigner, IsUsedAtMost};
ghost use Rattle.mb_signer.specs.Benches.{HasTree};

use mb_layout::Room;
use mb_lms::HashCount;
use mb_model::separators::ENTRY_TEXT;
use mb_model::{Header, KeySeed, Outgoing, Root, SIGNATURE_LENGTH, Signer};
use mb_segments::{StoredHeader, header_at, put_log, write_header};
use mb_signer::{Bench, Uses, take_index};
use std::sync::ledger::Ledger;

// ---- headers

/// The header at the beginning of a sector.
fn held_header(sector: &[u8]) -> StoredHeader<'_>
    requires { BeginsWithHeader sector.now }
    ensures holds { BeginsAs header_format sector.now (header_of result) }
    ensures only { (any : Header) → BeginsAs header_format sector.now any → any ≡ header_of result }
    ensures few { result.signed + unsigned_count (header_of result) ≤ ENTRY_LIMIT }
{
    let Some(header) = header_at(sector) else {
        unreachable!()
    };
    header
}

/// The unsigned entry at a place of a header, 0 or 1.
fn text_in<'a>(header: StoredHeader<'a>, place: u32) -> Option<&'a [u8]>
    ensures { option_copied result ≡ text_at_place (header_of header.entry) place }
{
    if place == 0 {
        header.first
    } else {
        header.second
    }
}

/// 1 if there is an entry, 0 if there is none.
fn count_of(text: Option<&[u8]>) -> u32
    ensures { result ≡ count_of (option_copied text.entry) }
{
    match text {
        Some(_) => 1,
        None => 0,
    }
}

/// The header that counts the unsigned entries of another as signed.
fn settled_header(stored: StoredHeader<'_>) -> Header
    requires { stored.signed ≤ ENTRY_LIMIT }
    ensures { result ≡ header_settled (header_of stored.entry) (unsigned_count (header_of stored.entry)) }
{
    Header {
        one: stored.one,
        two: stored.two,
        three: stored.three,
        signed: stored.signed + count_of(stored.first) + count_of(stored.second),
        first: None,
        second: None,
    }
}

/// Replaces the header in `room.header` by the one that counts its unsigned entries as signed. No code is written next.
pub(crate) fn settle_header(room: &mut Room)
    requires header { BeginsWithHeader room.old.header.items }
    ensures settled { (header : Header) → BeginsAs header_format room.old.header.items header
        → Spells header_format room.new.header.items (header_settled header (unsigned_count header)) }
    ensures layer { room.new.code_layer ≡ 0 }
    ensures plan { IsPlan room.new }
{
    let header = settled_header(held_header(room.header.as_slice()));
    room.code.clear();
    room.code_layer = 0;
    room.header.clear();
    let _ = write_header(&header, &mut room.header);
}

// ---- signatures

/// The key that signs the unsigned entry at a place, 0 or 1, and its index.
fn signer_of(root: &Root, place: u32) -> Signer
    requires { IsUsedAtMost KEY_USES root.now }
    ensures signer { result ≡ signer_of root.now place }
    ensures index { result.index ≤ LAST_INDEX }
{
    match outgoing_of(root) {
        None => Signer {
            key: root.device,
            index: last_of(root.uses),
        },
        Some(outgoing) => {
            if place == 0 {
                Signer {
                    key: outgoing.seed,
                    index: last_of(outgoing.uses),
                }
            } else {
                Signer {
                    key: root.device,
                    index: 0,
                }
            }
        }
    }
}

/// The device key that gives way.
fn outgoing_of(root: &Root) -> Option<Outgoing>
    ensures { result ≡ outgoing_of root.now.pending }
{
    match &root.pending {
        Some(pending) => pending.outgoing,
        None => None,
    }
}

/// The last index that a key with this many uses has used.
fn last_of(uses: u32) -> u32
    ensures { result ≡ uses - 1 }
{
    uses.saturating_sub(1)
}

/// Signs the bytes of an entry with the key at the index, by the key's tree on the bench.
fn sign_entry<L: Ledger>(
    key: &KeySeed,
    index: u32,
    entry: &[u8],
    signature: &mut [u8; SIGNATURE_LENGTH],
    bench: &mut Bench,
    hashes: &mut HashCount<L>,
)
    requires { index ≤ LAST_INDEX }
    ensures signature { signature.new ≡ signature_of key.now index (ENTRY_TEXT ∷ entry.now) }
    ensures kept { HasTree bench.new key.now }
    ensures signing { SignsOnce key.now bench.old bench.new hashes.old hashes.new }
{
    let mut uses = Uses::stored(index);
    let Some(right) = take_index(&mut uses) else {
        unreachable!();
    };
    bench.sign(right, key, &[ENTRY_TEXT], entry, signature, hashes);
}

/// Replaces `log` by the content of the sector of the log for an unsigned entry: its bytes and its signature.
fn sign_text<L: Ledger>(
    signer: &Signer,
    text: &[u8],
    log: &mut Vec<u8>,
    bench: &mut Bench,
    hashes: &mut HashCount<L>,
)
    requires index { signer.now.index ≤ LAST_INDEX }
    requires text { (1 ≤ length text.now) × (length text.now ≤ ENTRY_TEXT_LIMIT) }
    requires room { SECTOR_LENGTH ≤ vec_capacity log.old }
    ensures signed { IsSignedSector signer.now text.now log.new.items }
    ensures room { SECTOR_LENGTH ≤ vec_capacity log.new }
    ensures kept { HasTree bench.new signer.now.key }
    ensures signing { SignsOnce signer.now.key bench.old bench.new hashes.old hashes.new }
{
    let mut signature = [0; SIGNATURE_LENGTH];
    sign_entry(
        &signer.key,
        signer.index,
        text,
        &mut signature,
        bench,
        hashes,
    );
    log.clear();
    let _ = put_log(text, &signature, log);
}

/// Signs the unsigned entry at a place, 0 or 1, of the header in `room.header`, once. Replaces `room.log` by the
/// content of its sector of the log, and returns its position in the log. `None` if the header has no entry at the
/// place.
pub(crate) fn sign_next<L: Ledger>(
    root: &Root,
    place: u32,
    room: &mut Room,
    bench: &mut Bench,
    hashes: &mut HashCount<L>,
) -> Option<u32>
    requires uses { IsUsedAtMost KEY_USES root.now }
    requires place { place ≤ 1 }
    requires header { BeginsWithHeader room.old.header.items }
    ensures signed { SignsTextAt root.now place room.old.header.items result room.new.log.items }
    ensures header { room.new.header ≡ room.old.header }
    ensures kept { (header : Header) → BeginsAs header_format room.old.header.items header
        → IsSome (text_at_place header place) → HasSigner bench.new root.now place }
    ensures signing { SignsOnce (signer_of root.now place).key bench.old bench.new hashes.old
        hashes.new }
{
    let header = held_header(room.header.as_slice());
    let Some(text) = text_in(header, place) else {
        return None;
    };
    let signer = signer_of(root, place);
    sign_text(&signer, text, &mut room.log, bench, hashes);
    Some(header.signed + place)
}
