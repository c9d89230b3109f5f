//! Laws of signing by a key of types 5 and 3: what the definitions of a key's tree and of its signatures give.

ghost use Rattle.std.specs.Prelude.{◌≡◌, ℕ, List, length};
ghost use Rattle.mb_model.specs.declared.key.KeySeed.{KeySeed};
ghost use Rattle.mb_model.specs.signatures.Key.{IsSized};
ghost use Rattle.mb_model.specs.signatures.Signing.{public_of, signature_of};
ghost use Rattle.mb_model.specs.owners.Born.{born_key, officer_key};
ghost use Rattle.mb_model_lemmas.specs.SigningLaws.{SignaturesVerify, SignaturesBearTheirIndex, LeavesAreOfOneTimeKeys, InnerNodesHashTwo, IsSizedSeed};

/// What a key's seed signs at an index of its tree verifies under its public key.
pub fn signatures_verify()
    ensures { SignaturesVerify }
{}

/// A signature bears its index, and has 2,348 bytes.
pub fn signatures_bear_their_index()
    ensures index { SignaturesBearTheirIndex }
    ensures sized { (key : KeySeed) (q : ℕ) (text : List ℕ) → length (signature_of key q text) ≡ 2348 }
{}

/// A node of a key's tree is the leaf of a one-time key if its number is 32 or more, and else the hash of the two nodes
/// under it (RFC 8554, section 5.3).
pub fn nodes_are_leaves_or_inner()
    ensures leaf { LeavesAreOfOneTimeKeys }
    ensures inner { InnerNodesHashTwo }
{}

/// Keys that are derived from noise have an identifier of 16 bytes and a seed of 32. The public key of a key with such
/// an identifier has the right sizes.
pub fn keys_are_sized()
    ensures born { (draw serial : List ℕ) (n : ℕ) → IsSizedSeed (born_key draw serial n) }
    ensures officer { (noise : List ℕ) → IsSizedSeed (officer_key noise) }
    ensures public { (key : KeySeed) → length key.identifier ≡ 16 → IsSized (public_of key) }
{}
