//! The public keys of HSS (RFC 8554, section 6.1).

ghost use Rattle.std.specs.Prelude.{◌≡◌, ◌≤◌, length, IfOk, MatchOption};
ghost use Rattle.mb_format.specs.Format.{Spells};
ghost use Rattle.mb_model.specs.declared.limits.TheConstants.{FILE_LIMIT};
ghost use Rattle.mb_hss.specs.declared.limits.TheConstants.{LEVEL_LIMIT};
ghost use Rattle.mb_hss.specs.declared.key.HssKey.{HssKey};
ghost use Rattle.mb_hss.specs.HssKeyFormat.{hss_key_format};
ghost use Rattle.mb_bytes.specs.Reads.{ReadsWhole, bad_at};

use crate::limits::LEVEL_LIMIT;
use mb_bytes::{Cursor, Field, public_key_at, put_at, read_whole, u32_between};
use mb_lms::key_bytes;
use mb_model::{BadRecord, PublicKey};

/// A public key of HSS (RFC 8554, section 6.1).
#[derive(Clone, Copy, PartialEq, Eq)]
pub struct HssKey {
    /// The number of levels, 1 to 8.
    pub levels: u8,
    /// The key of the first level, which is the root of the others.
    pub top: PublicKey,
}

/// A public key of HSS.
struct HssKeyField;

#[tactic(auto, unfolding(crate::specs::HssKeyFormat::hss_key_format))]
impl Field for HssKeyField {
    ghost use Rattle.mb_hss.specs.HssKeyFormat.{hss_key_format};
    ghost use Rattle.mb_hss.specs.ExactFormats.{hss_key_exact};

    type Value = HssKey;

    type Needs = ();

    type End = BadRecord;

    ghost format = { hss_key_format };

    fn read_at(_needs: (), cursor: &mut Cursor<'_>) -> Result<HssKey, BadRecord> {
        let levels = u32_between(cursor, 1, u32::from(LEVEL_LIMIT))?;
        let top = public_key_at(cursor)?;
        Ok(HssKey {
            levels: levels as u8,
            top,
        })
    }

    ghost exact = { hss_key_exact };
}

/// The key that the bytes spell, of any of the twenty pairs of types; else the offset of the first field that is not in
/// its form, or of the first byte after the last field. The fields begin at 0, 4, 8, 12 and 28. There are at most
/// 4,194,304 bytes.
pub fn read_hss_key(bytes: &[u8]) -> Result<HssKey, BadRecord>
    requires { length bytes.now ≤ FILE_LIMIT }
    ensures reads { ReadsWhole bad_at hss_key_format bytes.now result }
    ensures levels { IfOk result (λ key. (1 ≤ key.levels) × (key.levels ≤ LEVEL_LIMIT)) }
{
    read_whole::<HssKeyField>((), bytes)
}

/// The key that 60 bytes spell; `None` exactly if they spell no key: the number of levels is not 1 to 8, or a type
/// number is not in the tables (RFC 8554, sections 4.1 and 5.1).
pub fn parse(bytes: &[u8; 60]) -> Option<HssKey>
    ensures { MatchOption result ((key : HssKey) → Spells hss_key_format bytes.now key → ⊥)
        (λ key. Spells hss_key_format bytes.now key) }
{
    match read_hss_key(bytes) {
        Ok(key) => Some(key),
        Err(_) => None,
    }
}

/// The key as 60 bytes: the number of levels, and the 56 bytes of the first level's key (RFC 8554, section 6.1).
pub fn hss_key_bytes(key: &HssKey) -> [u8; 60]
    ensures { result ≡ hss_key_format.spelling key.now }
{
    let mut bytes = [0; 60];
    put_at(&mut bytes, 0, &u32::from(key.levels).to_be_bytes());
    put_at(&mut bytes, 4, &key_bytes(&key.top));
    bytes
}
