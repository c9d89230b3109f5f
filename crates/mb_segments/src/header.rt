//! Headers of a flash in segments, read from bytes and written to bytes.

ghost use Rattle.std.specs.Prelude.{◌≡◌, ◌≤◌, length, IfOk};
ghost use Rattle.mb_model.specs.declared.limits.TheConstants.{ENTRY_LIMIT, ENTRY_TEXT_LIMIT, FILE_LIMIT};
ghost use Rattle.mb_model.specs.records.HeaderFormat.{code_length_format, slot_format, entry_bytes_format, unsigned_limit, unsigned_format, header_format};
ghost use Rattle.mb_bytes.specs.Reads.{bad_at, Reads, ReadsAs};
ghost use Rattle.mb_bytes.specs.Puts.{Puts, Writes};
ghost use Rattle.std.specs.Option.{option_copied};
ghost use Rattle.mb_segments.specs.Beginnings.{FindsBeginning, ReadsBeginning};
ghost use Rattle.mb_segments.specs.Bounds.{TextsFit, HeaderFits};
ghost use Rattle.mb_bytes.specs.Ends.{end_at};
ghost use Rattle.mb_segments.specs.Uncopied.{texts_of, header_of};

use mb_bytes::{
    Cursor, ReadEnd, bytes_after_u16, put_after_u16, put_slice, put_u8, put_u16, put_u32,
    u8_between, u16_between, u32_between, word_at,
};
use mb_model::{
    BadRecord, Bytes, CODE_LIMIT, ENTRY_LIMIT, ENTRY_TEXT_LIMIT, Header, NoMemory, Slot,
};
use std::alloc::Global;

/// The word that a header begins with.
const WORD: [u8; 4] = *b"MBH1";

/// The unsigned entries of a header as bytes, in place.
#[derive(Clone, Copy)]
pub struct StoredTexts<'a> {
    pub first: Option<&'a [u8]>,
    pub second: Option<&'a [u8]>,
}

/// A header whose unsigned entries are borrowed from the bytes that were read.
#[derive(Clone, Copy)]
pub struct StoredHeader<'a> {
    /// Where the code of layer 1 stands.
    pub one: Slot,
    /// Where the code of layer 2 stands.
    pub two: Slot,
    /// Where the code of layer 3 stands.
    pub three: Slot,
    /// The number of signed entries, 1 to 128.
    pub signed: u32,
    /// The first unsigned entry as bytes, 1 to 400 of them; none if every entry is signed.
    pub first: Option<&'a [u8]>,
    /// The second unsigned entry as bytes, 1 to 400 of them; none if at most one entry is unsigned.
    pub second: Option<&'a [u8]>,
}

// ---- reading

/// Reads the length of the code in a slot: 0 if no slot is named.
#[tactic(auto, unfolding(mb_model::specs::records::HeaderFormat::code_length_format))]
fn code_length_at(cursor: &mut Cursor<'_>, which: u8) -> Result<u32, BadRecord>
    ensures { Reads bad_at (code_length_format which) cursor.old result cursor.new }
{
    if which == 0 {
        u32_between(cursor, 0, 0)
    } else {
        u32_between(cursor, 0, CODE_LIMIT)
    }
}

#[tactic(auto, unfolding(mb_model::specs::records::HeaderFormat::slot_format))]
fn slot_at(cursor: &mut Cursor<'_>) -> Result<Slot, BadRecord>
    ensures { Reads bad_at slot_format cursor.old result cursor.new }
{
    let which = u8_between(cursor, 0, 2)?;
    let length = code_length_at(cursor, which)?;
    Ok(Slot { which, length })
}

/// Reads the bytes of an entry, after their number.
#[tactic(auto, unfolding(mb_model::specs::records::HeaderFormat::entry_bytes_format))]
pub(crate) fn text_at<'a>(cursor: &mut Cursor<'a>) -> Result<&'a [u8], BadRecord>
    ensures { ReadsAs (λ text. text.now) bad_at entry_bytes_format cursor.old result cursor.new }
{
    bytes_after_u16(cursor, 1, ENTRY_TEXT_LIMIT)
}

/// The most unsigned entries beside this many signed ones.
fn most_unsigned(signed: u16) -> u8
    requires { signed ≤ ENTRY_LIMIT }
    ensures { result ≡ unsigned_limit signed }
{
    if signed <= ENTRY_LIMIT - 2 {
        2
    } else {
        (ENTRY_LIMIT - signed) as u8
    }
}

#[tactic(auto, unfolding(mb_model::specs::records::HeaderFormat::unsigned_format, mb_format::specs::Combinators::items))]
fn texts_at<'a>(cursor: &mut Cursor<'a>, signed: u16) -> Result<StoredTexts<'a>, BadRecord>
    requires { signed ≤ ENTRY_LIMIT }
    ensures { ReadsAs texts_of bad_at (unsigned_format signed) cursor.old result cursor.new }
{
    let count = u8_between(cursor, 0, most_unsigned(signed))?;
    if count == 0 {
        return Ok(StoredTexts {
            first: None,
            second: None,
        });
    }
    let first = text_at(cursor)?;
    if count == 1 {
        return Ok(StoredTexts {
            first: Some(first),
            second: None,
        });
    }
    let second = text_at(cursor)?;
    Ok(StoredTexts {
        first: Some(first),
        second: Some(second),
    })
}

#[tactic(auto, unfolding(mb_model::specs::records::HeaderFormat::header_format))]
fn stored_header_at<'a>(cursor: &mut Cursor<'a>) -> Result<StoredHeader<'a>, BadRecord>
    ensures { ReadsAs header_of bad_at header_format cursor.old result cursor.new }
{
    word_at(cursor, &WORD)?;
    let one = slot_at(cursor)?;
    let two = slot_at(cursor)?;
    let three = slot_at(cursor)?;
    let signed = u16_between(cursor, 1, ENTRY_LIMIT)?;
    let texts = texts_at(cursor, signed)?;
    Ok(StoredHeader {
        one,
        two,
        three,
        signed: signed as u32,
        first: texts.first,
        second: texts.second,
    })
}

/// Finds the header at the beginning of a sector, whatever bytes follow it; `None` exactly if there is none. Takes no
/// memory: the unsigned entries are borrowed from the sector, which has at most 4,194,304 bytes. There is no offset: a
/// device can do nothing with one. `read_header` gives it.
pub fn header_at(sector: &[u8]) -> Option<StoredHeader<'_>>
    requires { length sector.now ≤ FILE_LIMIT }
    ensures { FindsBeginning header_of header_format sector.now result }
{
    let mut cursor = Cursor::new(sector);
    match stored_header_at(&mut cursor) {
        Ok(header) => Some(header),
        Err(_) => None,
    }
}

fn copy_text(alloc: Global, text: Option<&[u8]>) -> Result<Option<Bytes>, NoMemory>
    ensures { IfOk result (λ copied. copied ≡ option_copied text.entry) }
{
    match text {
        Some(bytes) => Ok(Some(Bytes::copy(alloc, bytes)?)),
        None => Ok(None),
    }
}

fn copy_header(alloc: Global, stored: StoredHeader<'_>) -> Result<Header, NoMemory>
    ensures { IfOk result (λ header. header ≡ header_of stored.entry) }
{
    Ok(Header {
        one: stored.one,
        two: stored.two,
        three: stored.three,
        signed: stored.signed,
        first: copy_text(alloc, stored.first)?,
        second: copy_text(alloc, stored.second)?,
    })
}

/// Reads the header at the beginning of a sector, whatever bytes follow it. Else `Bad` with the offset of the first
/// field that lacks bytes or is not allowed, or `NoMemory`. The sector has at most 4,194,304 bytes; nothing here
/// depends on the length of a sector.
pub fn read_header(alloc: Global, sector: &[u8]) -> Result<Header, ReadEnd>
    requires { length sector.now ≤ FILE_LIMIT }
    ensures { ReadsBeginning end_at header_format sector.now result }
{
    let mut cursor = Cursor::new(sector);
    let stored = stored_header_at(&mut cursor)?;
    Ok(copy_header(alloc, stored)?)
}

// ---- writing

#[tactic(auto, unfolding(mb_model::specs::records::HeaderFormat::slot_format))]
fn put_slot(out: &mut Vec<u8>, slot: Slot) -> Result<(), NoMemory>
    ensures { Puts (slot_format.spelling slot) out.old result out.new }
{
    put_u8(out, slot.which)?;
    put_u32(out, slot.length)
}

/// Appends the bytes of an entry, 1 to 400, after their number.
#[tactic(auto, unfolding(mb_model::specs::records::HeaderFormat::entry_bytes_format))]
pub(crate) fn put_text(out: &mut Vec<u8>, text: &[u8]) -> Result<(), NoMemory>
    requires { length text.now ≤ ENTRY_TEXT_LIMIT }
    ensures { Puts (entry_bytes_format.spelling text.now) out.old result out.new }
{
    put_after_u16(out, text)
}

#[tactic(auto, unfolding(mb_model::specs::records::HeaderFormat::unsigned_format, mb_format::specs::Combinators::items))]
fn put_texts(out: &mut Vec<u8>, header: &Header) -> Result<(), NoMemory>
    requires { TextsFit header.now.first header.now.second }
    ensures { Puts ((unsigned_format header.now.signed).spelling
        (header.now.first, header.now.second))
        out.old result out.new }
{
    match (&header.first, &header.second) {
        (Some(first), Some(second)) => {
            put_u8(out, 2)?;
            put_text(out, first.as_slice())?;
            put_text(out, second.as_slice())
        }
        (Some(first), None) => {
            put_u8(out, 1)?;
            put_text(out, first.as_slice())
        }
        (None, _) => put_u8(out, 0),
    }
}

#[tactic(auto, unfolding(mb_model::specs::records::HeaderFormat::header_format))]
fn put_header(out: &mut Vec<u8>, header: &Header) -> Result<(), NoMemory>
    requires { HeaderFits header.now }
    ensures { Puts (header_format.spelling header.now) out.old result out.new }
{
    put_slice(out, &WORD)?;
    put_slot(out, header.one)?;
    put_slot(out, header.two)?;
    put_slot(out, header.three)?;
    put_u16(out, header.signed as u16)?;
    put_texts(out, header)
}

/// Appends the bytes of a header that has a spelling, at most 826, or leaves `out` as it was. `Ok` if the capacity of
/// `out` holds them.
pub fn write_header(header: &Header, out: &mut Vec<u8>) -> Result<(), NoMemory>
    requires { header_format.Allowed header.now }
    ensures { Writes (header_format.spelling header.now) out.old result out.new }
{
    let length = out.len();
    match put_header(out, header) {
        Ok(()) => Ok(()),
        Err(error) => {
            out.truncate(length);
            Err(error)
        }
    }
}
