//! Types that name their own format: numbers, raw bytes, flags and public keys.

use crate::{
    Cursor, Field, WriteField, flag_at, public_key_at, put_flag, put_public_key, put_slice, put_u8,
    put_u16, put_u32,
};
use mb_model::{BadRecord, NoMemory, PublicKey};

/// Any number of one byte.
impl Field for u8 {
    ghost use Rattle.std.specs.Int.{w8};
    ghost use Rattle.mb_format.specs.Combinators.{number};
    ghost use Rattle.mb_format.proofs.Fields.{wide8, number_exact};

    type Value = u8;

    type Needs = ();

    type End = BadRecord;

    ghost format = { number w8 };

    fn read_at(_needs: (), cursor: &mut Cursor<'_>) -> Result<u8, BadRecord> {
        Ok(cursor.take_u8()?)
    }

    ghost exact = { number_exact wide8 };
}

impl WriteField for u8 {
    ghost Fits = { λ _. Unit {0} };

    fn put(value: &u8, out: &mut Vec<u8>) -> Result<(), NoMemory> {
        put_u8(out, *value)
    }
}

/// Any number of two bytes, big-endian.
impl Field for u16 {
    ghost use Rattle.std.specs.Int.{w16};
    ghost use Rattle.mb_format.specs.Combinators.{number};
    ghost use Rattle.mb_format.proofs.Fields.{wide16, number_exact};

    type Value = u16;

    type Needs = ();

    type End = BadRecord;

    ghost format = { number w16 };

    fn read_at(_needs: (), cursor: &mut Cursor<'_>) -> Result<u16, BadRecord> {
        Ok(cursor.take_u16()?)
    }

    ghost exact = { number_exact wide16 };
}

impl WriteField for u16 {
    ghost Fits = { λ _. Unit {0} };

    fn put(value: &u16, out: &mut Vec<u8>) -> Result<(), NoMemory> {
        put_u16(out, *value)
    }
}

/// Any number of four bytes, big-endian.
impl Field for u32 {
    ghost use Rattle.std.specs.Int.{w32};
    ghost use Rattle.mb_format.specs.Combinators.{number};
    ghost use Rattle.mb_format.proofs.Fields.{wide32, number_exact};

    type Value = u32;

    type Needs = ();

    type End = BadRecord;

    ghost format = { number w32 };

    fn read_at(_needs: (), cursor: &mut Cursor<'_>) -> Result<u32, BadRecord> {
        Ok(cursor.take_u32()?)
    }

    ghost exact = { number_exact wide32 };
}

impl WriteField for u32 {
    ghost Fits = { λ _. Unit {0} };

    fn put(value: &u32, out: &mut Vec<u8>) -> Result<(), NoMemory> {
        put_u32(out, *value)
    }
}

/// N arbitrary bytes.
impl<const N: usize> Field for [u8; N] {
    ghost use Rattle.mb_format.specs.Combinators.{raw};
    ghost use Rattle.mb_format.proofs.Fields.{raw_exact};

    type Value = [u8; N];

    type Needs = ();

    type End = BadRecord;

    ghost format = { raw N };

    fn read_at(_needs: (), cursor: &mut Cursor<'_>) -> Result<[u8; N], BadRecord> {
        Ok(cursor.take_array()?)
    }

    ghost exact = { raw_exact N };
}

impl<const N: usize> WriteField for [u8; N] {
    ghost Fits = { λ _. Unit {0} };

    fn put(value: &[u8; N], out: &mut Vec<u8>) -> Result<(), NoMemory> {
        put_slice(out, value)
    }
}

/// A byte that is 0 for false or 1 for true.
impl Field for bool {
    ghost use Rattle.mb_format.specs.Combinators.{flag};
    ghost use Rattle.mb_format.proofs.Compositions.{flag_exact};

    type Value = bool;

    type Needs = ();

    type End = BadRecord;

    ghost format = { flag };

    fn read_at(_needs: (), cursor: &mut Cursor<'_>) -> Result<bool, BadRecord> {
        flag_at(cursor)
    }

    ghost exact = { flag_exact };
}

impl WriteField for bool {
    ghost Fits = { λ _. Unit {0} };

    fn put(value: &bool, out: &mut Vec<u8>) -> Result<(), NoMemory> {
        put_flag(out, *value)
    }
}

/// A public key (RFC 8554, section 5.3).
impl Field for PublicKey {
    ghost use Rattle.mb_model.specs.records.KeyFormat.{public_key_format};
    ghost use Rattle.mb_model.proofs.KeyFormatLaws.{public_key_exact};

    type Value = PublicKey;

    type Needs = ();

    type End = BadRecord;

    ghost format = { public_key_format };

    fn read_at(_needs: (), cursor: &mut Cursor<'_>) -> Result<PublicKey, BadRecord> {
        public_key_at(cursor)
    }

    ghost exact = { public_key_exact };
}

impl WriteField for PublicKey {
    ghost Fits = { λ _. Unit {0} };

    fn put(value: &PublicKey, out: &mut Vec<u8>) -> Result<(), NoMemory> {
        put_public_key(out, value)
    }
}
