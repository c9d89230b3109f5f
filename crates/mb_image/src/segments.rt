//! What the sectors of a flash hold: headers, code, and entries of the log.

ghost use Rattle.std.specs.Prelude.{◌≡◌, ◌≤◌, ◌<◌, ◌↔◌, length, IfOk, IfSome, IsTrue, MatchOption};
ghost use Rattle.std.specs.Option.{option_copied};
ghost use Rattle.mb_format.specs.Format.{Spells};
ghost use Rattle.mb_model.specs.declared.limits.TheConstants.{CODE_LIMIT, ENTRY_LIMIT, FILE_LIMIT, FLASH_LENGTH, SECTOR_LENGTH};
ghost use Rattle.mb_model.specs.records.EntryFormat.{entry_format};
ghost use Rattle.mb_model.specs.records.HeaderFormat.{header_format};
ghost use Rattle.mb_model.specs.memories.Sectors.{header_sector, log_sector};
ghost use Rattle.mb_model.specs.memories.StoredLog.{how_many_unsigned, CanSign};
ghost use Rattle.mb_model.specs.memories.Flash.{sector, HoldsCode, HoldsEntry, AreBytesOf, HoldsPublic};
ghost use Rattle.mb_model.specs.memories.Faults.{SomePublic};
ghost use Rattle.mb_model_lemmas.specs.SegmentLaws.{HoldsNoEntry};
ghost use Rattle.mb_layout.specs.Found.{FindsBy};
ghost use Rattle.mb_segments.specs.Beginnings.{FindsBeginning};
ghost use Rattle.mb_segments.specs.Uncopied.{header_of};
ghost use Rattle.mb_image.specs.Segments.{IsReadable, LacksEntry, IsLogOf, text_count};

use crate::form::{FlashForm, PublicParts};
use mb_bytes::Cursor;
use mb_layout::read_entry;
use mb_model::{
    Bytes, Codes, Entries, Entry, Items, Log, NoMemory, Pending, Root, SECTOR_LENGTH, SignedEntry,
};
use mb_segments::{Slot, StoredHeader, code_sector, header_at, header_sector, log_at, log_sector};
use std::alloc::Global;

/// A sector of the flash, by its number, 0 to 255.
#[tactic(auto, unfolding(mb_model::specs::memories::Flash::sector))]
fn sector(flash: &[u8], number: u16) -> &[u8]
    requires sized { length flash.now ≡ FLASH_LENGTH }
    requires number { number < 256 }
    ensures found { result.now ≡ sector flash.now number }
    ensures whole { length result.now ≡ SECTOR_LENGTH }
{
    let start = SECTOR_LENGTH * usize::from(number);
    &flash[start..start + SECTOR_LENGTH]
}

// ---- the header

/// The header that a header area, 0 or 1, begins with; `None` exactly if it begins with none.
pub(crate) fn header_in(flash: &[u8], area: u8) -> Option<StoredHeader<'_>>
    requires sized { length flash.now ≡ FLASH_LENGTH }
    requires area { area ≤ 1 }
    ensures found { FindsBeginning header_of header_format
        (sector flash.now (header_sector area)) result }
    ensures readable { IfSome result (λ header. IsReadable (header_of header)) }
{
    header_at(sector(flash, header_sector(area)))
}

/// The number of unsigned entries of a header, none to two. There is no second without a first.
pub(crate) fn text_count(header: &StoredHeader<'_>) -> u16
    ensures { result ≡ text_count (header_of header.now) }
{
    match (header.first, header.second) {
        (None, _) => 0,
        (Some(_), None) => 1,
        (Some(_), Some(_)) => 2,
    }
}

/// Whether as many entries are unsigned as the pending work says, with an outgoing key if there are two.
fn are_counted(pending: &Option<Pending>, count: u16) -> bool
    ensures { IsTrue result ↔ ((count ≡ how_many_unsigned pending.now) × CanSign pending.now) }
{
    match pending {
        None => count == 0,
        Some(pending) => {
            count == u16::from(pending.unsigned)
                && (pending.outgoing.is_some() || pending.unsigned == 1)
        }
    }
}

// ---- code

/// The code of a layer, 1 to 3, in the slot that a header names for it.
#[tactic(auto, unfolding(mb_model::specs::memories::Flash::code_slot))]
fn code_in(alloc: Global, flash: &[u8], layer: u8, slot: Slot) -> Result<Option<Bytes>, NoMemory>
    requires sized { length flash.now ≡ FLASH_LENGTH }
    requires layer { (1 ≤ layer) × (layer ≤ 3) }
    requires which { slot.which ≤ 2 }
    requires length { slot.length ≤ CODE_LIMIT }
    ensures { IfOk result (λ code. HoldsCode flash.now layer slot code) }
{
    if slot.which == 0 {
        return Ok(None);
    }
    let start = SECTOR_LENGTH * usize::from(code_sector(layer, slot.which));
    let code = &flash[start..start + slot.length as usize];
    Ok(Some(Bytes::copy(alloc, code)?))
}

/// The code of each layer, in the slots that a header names.
fn codes_in(alloc: Global, flash: &[u8], header: &StoredHeader<'_>) -> Result<Codes, NoMemory>
    requires sized { length flash.now ≡ FLASH_LENGTH }
    requires readable { IsReadable (header_of header.now) }
    ensures one { IfOk result (λ codes. HoldsCode flash.now 1 header.now.one codes.one) }
    ensures two { IfOk result (λ codes. HoldsCode flash.now 2 header.now.two codes.two) }
    ensures three { IfOk result (λ codes. HoldsCode flash.now 3 header.now.three codes.three) }
{
    Ok(Codes {
        one: code_in(alloc, flash, 1, header.one)?,
        two: code_in(alloc, flash, 2, header.two)?,
        three: code_in(alloc, flash, 3, header.three)?,
    })
}

// ---- entries

/// The entry that these bytes spell; `None` exactly if they spell none.
fn entry_in(text: &[u8]) -> Option<Entry>
    requires { length text.now ≤ FILE_LIMIT }
    ensures { FindsBy (λ entry. entry) (Spells entry_format text.now) result }
{
    let mut cursor = Cursor::new(text);
    let Ok(entry) = read_entry(&mut cursor) else {
        return None;
    };
    if cursor.left() > 0 {
        return None;
    }
    Some(entry)
}

/// The signed entry in the log's sector of a position, 0 to 127; `None` exactly if the sector holds none.
fn signed_at(flash: &[u8], position: u32) -> Option<SignedEntry>
    requires sized { length flash.now ≡ FLASH_LENGTH }
    requires position { position < ENTRY_LIMIT }
    ensures { MatchOption result (HoldsNoEntry flash.now position)
        (λ signed. HoldsEntry (sector flash.now (log_sector position)) signed) }
{
    let Some(stored) = log_at(sector(flash, log_sector(position))) else {
        return None;
    };
    let Some(entry) = entry_in(stored.text) else {
        return None;
    };
    let signature = stored.signature;
    Some(SignedEntry { entry, signature })
}

/// The signed entries of a log that has `count` of them, at most 128; `None` if a sector of the log below `count` holds
/// no entry.
fn signed_in(alloc: Global, flash: &[u8], count: u32) -> Result<Option<Log>, NoMemory>
    requires sized { length flash.now ≡ FLASH_LENGTH }
    requires count { count ≤ ENTRY_LIMIT }
    ensures { IfOk result (λ found. MatchOption found (LacksEntry flash.now count)
        (λ log. IsLogOf flash.now count log)) }
{
    let mut log = Items::new(alloc);
    for position in 0..count {
        let Some(signed) = signed_at(flash, position) else {
            return Ok(None);
        };
        log.push(signed)?;
    }
    Ok(Some(log))
}

/// The unsigned entries that the texts of a header spell; `None` exactly if the texts spell no such entries.
fn unsigned_in(alloc: Global, header: &StoredHeader<'_>) -> Result<Option<Entries>, NoMemory>
    requires { IsReadable (header_of header.now) }
    ensures { IfOk result (λ found. FindsBy (λ entries. entries)
        (AreBytesOf (option_copied header.now.first) (option_copied header.now.second)) found) }
{
    let mut entries = Items::new(alloc);
    let Some(text) = header.first else {
        return Ok(if header.second.is_none() {
            Some(entries)
        } else {
            None
        });
    };
    let Some(first) = entry_in(text) else {
        return Ok(None);
    };
    entries.push(first)?;
    let Some(text) = header.second else {
        return Ok(Some(entries));
    };
    let Some(second) = entry_in(text) else {
        return Ok(None);
    };
    entries.push(second)?;
    Ok(Some(entries))
}

// ---- all of it

/// Codes and entries of the header area that the root names; `None` if the area begins with no header, a sector of the
/// log that the header counts holds no entry, a text of the header spells none, or not as many entries are unsigned as
/// the root says.
fn public_in(alloc: Global, flash: &[u8], root: &Root) -> Result<Option<PublicParts>, NoMemory>
    requires sized { length flash.now ≡ FLASH_LENGTH }
    requires area { root.now.area ≤ 1 }
    ensures { IfOk result (λ found. MatchOption found (SomePublic flash.now root.now → ⊥)
        (λ parts. HoldsPublic flash.now root.now parts.codes parts.signed parts.unsigned)) }
{
    let Some(header) = header_in(flash, root.area) else {
        return Ok(None);
    };
    if !are_counted(&root.pending, text_count(&header)) {
        return Ok(None);
    }
    let Some(unsigned) = unsigned_in(alloc, &header)? else {
        return Ok(None);
    };
    let Some(signed) = signed_in(alloc, flash, header.signed)? else {
        return Ok(None);
    };
    let codes = codes_in(alloc, flash, &header)?;
    Ok(Some(PublicParts {
        codes,
        signed,
        unsigned,
    }))
}

/// The form of a flash in segments: headers, slots for code, and a sector for each signed entry of the log.
pub struct Segments;

impl FlashForm for Segments {
    ghost use Rattle.mb_model.specs.memories.Flash.{HoldsPublic};
    ghost use Rattle.mb_model_lemmas.proofs.OneFlash.{one_list};
    ghost use Rattle.mb_model_lemmas.proofs.HeldSegments.{segments_parts_fit};

    ghost form = { HoldsPublic };

    fn public_in(
        alloc: Global,
        flash: &[u8],
        root: &Root,
    ) -> Result<Option<PublicParts>, NoMemory> {
        public_in(alloc, flash, root)
    }

    ghost one = { one_list };

    ghost fits = { segments_parts_fit };

    ghost counted = { λ flash root codes signed unsigned holds. holds.counted };
}
