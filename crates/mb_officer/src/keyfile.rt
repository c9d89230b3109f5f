//! The file of an officer's key.

ghost use Rattle.std.specs.Prelude.{◌≡◌, ◌≤◌, length};
ghost use Rattle.std.specs.Int.{w32};
ghost use Rattle.mb_model.specs.declared.limits.TheConstants.{FILE_LIMIT, KEY_USES};
ghost use Rattle.mb_format.specs.Combinators.{between};
ghost use Rattle.mb_model.specs.records.KeyFormat.{keyfile_format};
ghost use Rattle.mb_bytes.specs.Reads.{Reads, ReadsWhole, bad_at};

use mb_bytes::{Cursor, Field, key_seed_at, put_at, read_whole, word_at};
use mb_model::{BadRecord, Keyfile, NextIndex};

/// The word that a key file begins with.
const WORD: [u8; 4] = *b"MBK1";

/// Reads the next index of a key file.
fn next_at(cursor: &mut Cursor) -> Result<NextIndex, BadRecord>
    ensures { Reads bad_at (between w32 0 KEY_USES) cursor.old result cursor.new }
{
    let at = cursor.offset();
    match NextIndex::new(cursor.take_u32()?) {
        Some(next) => Ok(next),
        None => Err(BadRecord { at }),
    }
}

/// A key file.
struct KeyfileField;

#[tactic(auto, unfolding(mb_model::specs::records::KeyFormat::keyfile_format))]
impl Field for KeyfileField {
    ghost use Rattle.mb_model.specs.records.KeyFormat.{keyfile_format};
    ghost use Rattle.mb_model.proofs.KeyFormatLaws.{keyfile_exact};

    type Value = Keyfile;

    type Needs = ();

    type End = BadRecord;

    ghost format = { keyfile_format };

    fn read_at(_needs: (), cursor: &mut Cursor<'_>) -> Result<Keyfile, BadRecord> {
        word_at(cursor, &WORD)?;
        let seed = key_seed_at(cursor)?;
        let next = next_at(cursor)?;
        Ok(Keyfile { seed, next })
    }

    ghost exact = { keyfile_exact };
}

/// Reads a key file of at most 4,194,304 bytes.
///
/// Errors: `BadRecord` with the offset of the first field that is not in its form, or of the first byte after the last
/// field.
pub fn read_keyfile(bytes: &[u8]) -> Result<Keyfile, BadRecord>
    requires { length bytes.now ≤ FILE_LIMIT }
    ensures { ReadsWhole bad_at keyfile_format bytes.now result }
{
    read_whole::<KeyfileField>((), bytes)
}

/// The bytes of a key file: its word, the identifier, the secret and the next index.
#[tactic(auto, unfolding(mb_model::specs::records::KeyFormat::key_seed_format, mb_model::specs::records::KeyFormat::keyfile_format, mb_format::specs::Combinators::number_bytes))]
pub fn write_keyfile(k: &Keyfile) -> [u8; 56]
    ensures { result ≡ keyfile_format.spelling k.now }
{
    let mut file = [0; 56];
    put_at(&mut file, 0, &WORD);
    put_at(&mut file, 4, &k.seed.identifier);
    put_at(&mut file, 20, &k.seed.seed);
    put_at(&mut file, 52, &k.next.number().to_be_bytes());
    file
}
