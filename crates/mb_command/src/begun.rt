//! The bytes of an order that is not whole yet.

ghost use Rattle.std.specs.Prelude.{◌≤◌, vec_len};

/// Bytes that some more can complete into an order, no more than `ORDER_LIMIT`.
#[derive(Drop)]
pub struct Begun {
    pub text: Vec<u8>,
    ghost short: { vec_len text ≤ 65536 },
}
