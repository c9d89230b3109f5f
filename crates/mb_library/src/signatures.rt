//! Signatures of LMS and HSS.

ghost use Rattle.std.specs.Prelude.{◌↔◌, IsTrue};
ghost use Rattle.mb_library.specs.Signatures.{IsLmsSigned, IsHssSigned, LmsAnswer};

use crate::codes::{ACCEPTED, BAD_SIGNATURE, NO_KEY};
use mb_hss::{read_hss_key, verify as verify_hss};
use mb_lms::{parse_key, verify as verify_lms};

/// Whether `sig` is a signature of `text` under the LMS key that the 56 bytes spell (RFC 8554, section 5.4.2). Bytes
/// that spell no key have no signatures.
#[unsafe(no_mangle)]
pub extern "C" fn mb_lms_verify(key: &[u8; 56], text: &[u8], sig: &[u8]) -> bool
    ensures { IsTrue result ↔ IsLmsSigned key.now text.now sig.now }
{
    match parse_key(key) {
        Some(key) => verify_lms(&key, text, &[], sig),
        None => false,
    }
}

/// Why `sig` is or is not a signature of `text` under the LMS key that the bytes, of whatever length, spell: `ACCEPTED`,
/// `NO_KEY` or `BAD_SIGNATURE`.
#[unsafe(no_mangle)]
pub extern "C" fn mb_lms_verdict(key: &[u8], text: &[u8], sig: &[u8]) -> u32
    ensures { LmsAnswer key.now text.now sig.now result }
{
    if key.len() != 56 {
        return NO_KEY;
    }
    let mut bytes = [0; 56];
    bytes.copy_from_slice(key);
    match parse_key(&bytes) {
        Some(key) => {
            if verify_lms(&key, text, &[], sig) {
                ACCEPTED
            } else {
                BAD_SIGNATURE
            }
        }
        None => NO_KEY,
    }
}

/// Whether `sig` is a signature of `text` under the HSS key that the 60 bytes spell, of 1 to 8 levels (RFC 8554, section
/// 6.3). Bytes that spell no key have no signatures.
#[unsafe(no_mangle)]
pub extern "C" fn mb_hss_verify(key: &[u8; 60], text: &[u8], sig: &[u8]) -> bool
    ensures { IsTrue result ↔ IsHssSigned key.now text.now sig.now }
{
    match read_hss_key(key) {
        Ok(key) => verify_hss(&key, text, &[], sig),
        Err(_) => false,
    }
}
