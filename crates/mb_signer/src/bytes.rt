//! The first bytes of a hashed text.

ghost use Rattle.std.specs.Prelude.{◌≡◌, ◌++◌};
ghost use Rattle.std.specs.Int.{w32, to_be_bytes};

use mb_bytes::put_at;

/// The first bytes of a hashed text: the identifier, a number and a mark (RFC 8554, section 7.1).
pub(crate) fn marked(identifier: &[u8; 16], number: u32, mark: [u8; 2]) -> [u8; 22]
    ensures { result ≡ identifier.now ++ to_be_bytes w32 number ++ mark }
{
    let mut start = [0; 22];
    put_at(&mut start, 0, identifier);
    put_at(&mut start, 16, &number.to_be_bytes());
    put_at(&mut start, 20, &mark);
    start
}
