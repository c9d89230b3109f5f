//! Number fields in bytes: a cursor that reads them and calls that append them.
//!
//! Numbers are big-endian. The contracts speak of the formats of `mb_format`: `specs/Reads.antt` says what a reader of
//! a format gives, `specs/Puts.antt` what a writer appends. Readers and writers of whole records, in the crates above,
//! have the same contracts and are composed of these by `?`. Fields that several of those records share stand here too:
//! magic words, numbers within bounds, flags, names, length-prefixed bytes, keys, trust and kinds of keys. A record is
//! a type that implements `Field`, which says how one value is read; the calls for other crates then follow
//! (`read_whole`, `write_field`, ..).
#![tactic(auto)]

mod cursor;
mod end;
pub mod example;
mod field;
mod fields;
mod keys;
mod own;
mod puts;

pub use cursor::{Cursor, Short};
pub use end::ReadEnd;
pub use field::{
    Field, ReadError, WriteField, items_at, optional_at, put_items, put_optional, read_field,
    read_whole, write_field,
};
pub use fields::{
    bytes_after_u8, bytes_after_u16, bytes_after_u32, flag_at, is_name, put_after_u8,
    put_after_u16, put_after_u32, put_flag, u8_between, u16_between, u32_between, word_at,
};
pub use keys::{
    chains_type, key_kind_at, key_seed_at, one_trust_at, public_key_at, put_key_kind, put_key_seed,
    put_public_key, put_trust, read_public_key, tree_type, trust_at,
};
pub use puts::{put_at, put_slice, put_u8, put_u16, put_u32};
