//! Fields appended to bytes. Each call appends its field, or leaves the bytes as they were if an allocation fails. One
//! call writes in place.

ghost use Rattle.std.specs.Prelude.{◌≡◌, ◌+◌, ◌≤◌, ◌++◌, length, take, drop};
ghost use Rattle.std.specs.Int.{w8, w16, w32};
ghost use Rattle.mb_format.specs.Combinators.{number};
ghost use Rattle.mb_bytes.specs.Puts.{Puts, Writes};

use mb_model::NoMemory;

/// Appends the number as one byte. It does not fail if the capacity holds it.
pub fn put_u8(out: &mut Vec<u8>, value: u8) -> Result<(), NoMemory>
    ensures puts { Puts ((number w8).spelling value) out.old result out.new }
    ensures writes { Writes ((number w8).spelling value) out.old result out.new }
{
    put_slice(out, &value.to_be_bytes())
}

/// Appends the number as two bytes, big-endian. It does not fail if the capacity holds them.
pub fn put_u16(out: &mut Vec<u8>, value: u16) -> Result<(), NoMemory>
    ensures puts { Puts ((number w16).spelling value) out.old result out.new }
    ensures writes { Writes ((number w16).spelling value) out.old result out.new }
{
    put_slice(out, &value.to_be_bytes())
}

/// Appends the number as four bytes, big-endian. It does not fail if the capacity holds them.
pub fn put_u32(out: &mut Vec<u8>, value: u32) -> Result<(), NoMemory>
    ensures puts { Puts ((number w32).spelling value) out.old result out.new }
    ensures writes { Writes ((number w32).spelling value) out.old result out.new }
{
    put_slice(out, &value.to_be_bytes())
}

/// Appends the bytes. It does not fail if the capacity holds them.
pub fn put_slice(out: &mut Vec<u8>, bytes: &[u8]) -> Result<(), NoMemory>
    ensures puts { Puts bytes.now out.old result out.new }
    ensures writes { Writes bytes.now out.old result out.new }
{
    out.extend_from_slice(bytes)?;
    Ok(())
}

/// Writes the piece in place, from `at` on.
pub fn put_at(out: &mut [u8], at: usize, piece: &[u8])
    requires { at + length piece.now ≤ length out.old }
    ensures written { take (at + length piece.now) out.new ≡ take at out.old ++ piece.now }
    ensures beyond { drop (at + length piece.now) out.new ≡ drop (at + length piece.now) out.old }
{
    out[at..at + piece.len()].copy_from_slice(piece);
}
