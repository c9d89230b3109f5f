//! Bytes with an offset among them, and the fields that are read from there.

ghost use Rattle.std.specs.Prelude.{◌≡◌, ◌+◌, ◌≤◌, length};
ghost use Rattle.mb_format.specs.Format.{IsBytes};
ghost use Rattle.mb_model.specs.declared.limits.TheConstants.{FILE_LIMIT};

use mb_model::BadRecord;

/// Too few bytes are left for the field at this offset.
#[derive(Clone, Copy, Debug, PartialEq, Eq)]
pub struct Short {
    /// The offset in the cursor's bytes, from 0.
    pub at: u32,
}

impl From<Short> for BadRecord {
    ghost from_gives = { λ short e. e ≡ record { at = short.at } };

    fn from(short: Short) -> BadRecord {
        BadRecord { at: short.at }
    }
}

/// Bytes and an offset among them, from which fields are read.
#[derive(Clone, Copy)]
pub struct Cursor<'a> {
    bytes: &'a [u8],
    offset: u32,
    ghost are_bytes: { IsBytes bytes.now },
    ghost within: { offset ≤ length bytes.now },
    ghost short: { length bytes.now ≤ FILE_LIMIT },
}

impl<'a> Cursor<'a> {
    ghost use Rattle.std.specs.Int.{w8, w16, w32};
    ghost use Rattle.mb_format.specs.Combinators.{number, raw};
    ghost use Rattle.mb_bytes.specs.Reads.{short_at, Reads, ReadsAs, ReadsExactly, ReadsExactlyAs};

    /// A cursor at offset 0 of these bytes, at most 4,194,304 of them.
    pub fn new(bytes: &'a [u8]) -> Cursor<'a>
        requires { length bytes.now ≤ FILE_LIMIT }
        ensures all { result.bytes.now ≡ bytes.now }
        ensures first { result.offset ≡ 0 }
    {
        Cursor { bytes, offset: 0 }
    }

    /// The offset, as the number of bytes before it.
    pub fn offset(&self) -> u32
        ensures { result ≡ self.now.offset }
    {
        self.offset
    }

    /// The number of bytes from the offset on.
    pub fn left(&self) -> u32
        ensures { self.now.offset + result ≡ length self.now.bytes.now }
    {
        self.bytes.len() as u32 - self.offset
    }

    /// The number in the next byte; `Short` exactly if none is left, and the cursor is then unchanged.
    pub fn take_u8(&mut self) -> Result<u8, Short>
        ensures reads { Reads short_at (number w8) self.old result self.new }
        ensures exactly { ReadsExactly short_at (number w8) self.old result self.new }
    {
        Ok(u8::from_be_bytes(self.take_array()?))
    }

    /// The number in the next two bytes, big-endian; `Short` exactly if fewer are left, and the cursor is then
    /// unchanged.
    pub fn take_u16(&mut self) -> Result<u16, Short>
        ensures reads { Reads short_at (number w16) self.old result self.new }
        ensures exactly { ReadsExactly short_at (number w16) self.old result self.new }
    {
        Ok(u16::from_be_bytes(self.take_array()?))
    }

    /// The number in the next four bytes, big-endian; `Short` exactly if fewer are left, and the cursor is then
    /// unchanged.
    pub fn take_u32(&mut self) -> Result<u32, Short>
        ensures reads { Reads short_at (number w32) self.old result self.new }
        ensures exactly { ReadsExactly short_at (number w32) self.old result self.new }
    {
        Ok(u32::from_be_bytes(self.take_array()?))
    }

    /// The next N bytes; `Short` exactly if fewer are left, and the cursor is then unchanged.
    pub fn take_array<const N: usize>(&mut self) -> Result<[u8; N], Short>
        ensures reads { Reads short_at (raw N) self.old result self.new }
        ensures exactly { ReadsExactly short_at (raw N) self.old result self.new }
    {
        match self.bytes[self.offset as usize..].first_chunk::<N>() {
            Some(field) => {
                self.offset += N as u32;
                Ok(*field)
            }
            None => Err(Short { at: self.offset }),
        }
    }

    /// The next `length` bytes; `Short` exactly if fewer are left, and the cursor is then unchanged.
    pub fn take_slice(&mut self, length: u32) -> Result<&'a [u8], Short>
        ensures reads { ReadsAs (λ slice. slice.now) short_at (raw length) self.old result self.new }
        ensures exactly { ReadsExactlyAs (λ slice. slice.now) short_at (raw length) self.old result self.new }
    {
        if self.left() < length {
            return Err(Short { at: self.offset });
        }
        let bytes = self.bytes;
        let start = self.offset;
        self.offset += length;
        Ok(&bytes[start as usize..self.offset as usize])
    }
}
