//! The names of stored codes.

ghost use Rattle.std.specs.Prelude.{◌↔◌, IsTrue};
ghost use Rattle.mb_model.specs.memories.Valid.{IsNamed, AreNamed};

use mb_model::{Bytes, CodeName, Codes, Layers};
use sha2::{Digest, Sha256};

/// Whether each layer has code exactly if it has a code name, with the hash of that code.
pub(crate) fn are_named(layers: &Layers, codes: &Codes) -> bool
    ensures { IsTrue result ↔ AreNamed layers.now codes.now }
{
    is_named(&layers.one.code, &codes.one)
        && is_named(&layers.two.code, &codes.two)
        && is_named(&layers.three.code, &codes.three)
}

/// Whether there is code exactly if there is a name, and the name has the hash of the code.
fn is_named(name: &Option<CodeName>, code: &Option<Bytes>) -> bool
    ensures { IsTrue result ↔ IsNamed name.now code.now }
{
    match (name, code) {
        (None, None) => true,
        (Some(name), Some(code)) => name.hash == Sha256::digest(code.as_slice()),
        _ => false,
    }
}
