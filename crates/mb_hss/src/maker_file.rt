//! The file of a maker's key.

ghost use Rattle.std.specs.Prelude.{◌^◌, ◌≤◌, length, IfOk};
ghost use Rattle.std.specs.Int.{w64};
ghost use Rattle.mb_format.specs.Format.{Spells};
ghost use Rattle.mb_format.specs.Combinators.{number, between};
ghost use Rattle.mb_model.specs.declared.limits.TheConstants.{FILE_LIMIT};
ghost use Rattle.mb_bytes.specs.Reads.{Reads, ReadsWhole, short_at, bad_at};
ghost use Rattle.mb_hss.specs.declared.limits.TheConstants.{LEVEL_LIMIT};
ghost use Rattle.mb_hss.specs.MakerKeys.{IsMaker};
ghost use Rattle.mb_hss.specs.MakerFormat.{maker_format};

use crate::limits::LEVEL_LIMIT;
use crate::maker::{Maker, number_count};
use mb_bytes::{Cursor, Field, Short, put_at, read_whole, u8_between, word_at};
use mb_model::BadRecord;

/// The first four bytes of a maker's file.
const WORD: [u8; 4] = *b"MBK2";

/// The number in the next eight bytes, big-endian.
fn take_u64(cursor: &mut Cursor) -> Result<u64, Short>
    ensures { Reads short_at (number w64) cursor.old result cursor.new }
{
    Ok(u64::from_be_bytes(cursor.take_array()?))
}

/// The next number of a maker of at most 8 levels.
fn next_at(cursor: &mut Cursor, levels: u8) -> Result<u64, BadRecord>
    requires { levels ≤ LEVEL_LIMIT }
    ensures { Reads bad_at (between w64 0 (32 ^ levels)) cursor.old result cursor.new }
{
    let at = cursor.offset();
    let next = take_u64(cursor)?;
    if next > number_count(levels) {
        return Err(BadRecord { at });
    }
    Ok(next)
}

/// The file of a maker.
struct MakerField;

#[tactic(auto, unfolding(crate::specs::MakerFormat::maker_format))]
impl Field for MakerField {
    ghost use Rattle.mb_hss.specs.MakerFormat.{maker_format};
    ghost use Rattle.mb_hss.specs.ExactFormats.{maker_exact};

    type Value = Maker;

    type Needs = ();

    type End = BadRecord;

    ghost format = { maker_format };

    fn read_at(_needs: (), cursor: &mut Cursor<'_>) -> Result<Maker, BadRecord> {
        word_at(cursor, &WORD)?;
        let levels = u8_between(cursor, 1, LEVEL_LIMIT)?;
        let seed = cursor.take_array()?;
        let next = next_at(cursor, levels)?;
        Ok(Maker { levels, seed, next })
    }

    ghost exact = { maker_exact };
}

/// The maker that the bytes spell; else the offset of the first field that is not in its form, or of the first byte
/// after the last field. The fields begin at 0, 4, 5 and 37. There are at most 4,194,304 bytes.
pub fn read_maker(bytes: &[u8]) -> Result<Maker, BadRecord>
    requires { length bytes.now ≤ FILE_LIMIT }
    ensures reads { ReadsWhole bad_at maker_format bytes.now result }
    ensures valid { IfOk result IsMaker }
{
    read_whole::<MakerField>((), bytes)
}

/// The maker as 45 bytes: the word MBK2, the number of levels, the seed and the next number.
pub fn write_maker(maker: &Maker) -> [u8; 45]
    requires { IsMaker maker.now }
    ensures { Spells maker_format result maker.now }
{
    let mut file = [0; 45];
    put_at(&mut file, 0, &WORD);
    put_at(&mut file, 4, &maker.levels.to_be_bytes());
    put_at(&mut file, 5, &maker.seed);
    put_at(&mut file, 37, &maker.next.to_be_bytes());
    file
}
