//! Sectors of the log, read from bytes and written to bytes.

ghost use Rattle.std.specs.Prelude.{◌≤◌, length};
ghost use Rattle.mb_model.specs.declared.limits.TheConstants.{ENTRY_TEXT_LIMIT, FILE_LIMIT};
ghost use Rattle.mb_model.specs.records.HeaderFormat.{log_format};
ghost use Rattle.mb_bytes.specs.Reads.{bad_at, ReadsAs};
ghost use Rattle.mb_bytes.specs.Puts.{Puts, Writes};
ghost use Rattle.mb_segments.specs.Beginnings.{FindsBeginning};
ghost use Rattle.mb_segments.specs.Uncopied.{log_of};

use crate::header::{put_text, text_at};
use mb_bytes::{Cursor, put_slice};
use mb_model::{BadRecord, NoMemory, SIGNATURE_LENGTH};

/// The content of a sector of the log. The entry is borrowed from the bytes that were read. It is one entry with its
/// signature, and no log.
#[derive(Clone, Copy)]
pub struct LogSector<'a> {
    /// The entry as bytes, 1 to 400 of them.
    pub text: &'a [u8],
    /// The signature of the entry (RFC 8554, section 5.4), of types 5 and 3.
    pub signature: [u8; SIGNATURE_LENGTH],
}

#[tactic(auto, unfolding(mb_model::specs::records::HeaderFormat::log_format))]
fn log_sector_at<'a>(cursor: &mut Cursor<'a>) -> Result<LogSector<'a>, BadRecord>
    ensures { ReadsAs log_of bad_at log_format cursor.old result cursor.new }
{
    let text = text_at(cursor)?;
    let signature = cursor.take_array()?;
    Ok(LogSector { text, signature })
}

/// Finds the entry and signature at the beginning of a sector, whatever bytes follow them; `None` exactly if there are
/// none. Takes no memory: the entry is borrowed from the sector, which has at most 4,194,304 bytes.
pub fn log_at(sector: &[u8]) -> Option<LogSector<'_>>
    requires { length sector.now ≤ FILE_LIMIT }
    ensures { FindsBeginning log_of log_format sector.now result }
{
    let mut cursor = Cursor::new(sector);
    match log_sector_at(&mut cursor) {
        Ok(stored) => Some(stored),
        Err(_) => None,
    }
}

#[tactic(auto, unfolding(mb_model::specs::records::HeaderFormat::log_format))]
fn put_parts(
    out: &mut Vec<u8>,
    text: &[u8],
    signature: &[u8; SIGNATURE_LENGTH],
) -> Result<(), NoMemory>
    requires { length text.now ≤ ENTRY_TEXT_LIMIT }
    ensures { Puts (log_format.spelling (text.now, signature.now)) out.old result out.new }
{
    put_text(out, text)?;
    put_slice(out, signature)
}

/// Appends the content of a sector of the log, at most 2,750 bytes, or leaves `out` as it was: the length of the entry,
/// its bytes, 1 to 400, and its signature. `Ok` if the capacity of `out` holds them.
pub fn put_log(
    text: &[u8],
    signature: &[u8; SIGNATURE_LENGTH],
    out: &mut Vec<u8>,
) -> Result<(), NoMemory>
    requires { (1 ≤ length text.now) × (length text.now ≤ ENTRY_TEXT_LIMIT) }
    ensures { Writes (log_format.spelling (text.now, signature.now)) out.old result out.new }
{
    let length = out.len();
    match put_parts(out, text, signature) {
        Ok(()) => Ok(()),
        Err(error) => {
            out.truncate(length);
            Err(error)
        }
    }
}
