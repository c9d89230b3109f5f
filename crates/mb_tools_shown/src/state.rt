//! The lines that show a device which is alive.

ghost use Rattle.std.specs.Prelude.{◌≡◌, ◌≤◌, ◌++◌, [], ◌∷◌, length, map, IfOk, OnOk, string_bytes};
ghost use Rattle.mb_model.specs.declared.limits.TheConstants.{ENTRY_LIMIT};
ghost use Rattle.mb_model.specs.outside.Texts.{line_with_lf};
ghost use Rattle.mb_model.specs.chains.Lines.{text_of};
ghost use Rattle.mb_tools_shown.specs.StateShown.{serial_shown, number_shown, length_shown, pending_shown, device_shown, counts_shown};
ghost use Rattle.mb_tools_shown.specs.StateShown.{secret_shown, key_shown, state_shown};

use crate::lines::{put, put_layers};
use mb_log::figures_of;
use mb_model::{ENTRY_LIMIT, KEY_USES, NoMemory, RegionKey, Secret, SignedEntry, State};
use mb_verifier::kind_word;
use mb_words::hex_word;
use std::alloc::Global;

/// The lines that show a state, whose memory has pending work or has none.
pub(crate) fn state_text(alloc: Global, pending: bool, state: &State) -> Result<Vec<u8>, NoMemory>
    requires { length state.now.log ≤ ENTRY_LIMIT }
    ensures { IfOk result (λ text. text.items ≡ text_of (state_shown pending state.now)) }
{
    let mut out = Vec::new(alloc);
    put_counts(alloc, pending, state, &mut out)?;
    put_layers(alloc, &state.layers, &mut out)?;
    put_secrets(alloc, 2, state.two.secrets.as_slice(), &mut out)?;
    put_secrets(alloc, 3, state.three.secrets.as_slice(), &mut out)?;
    put_keys(alloc, 2, state.two.keys.as_slice(), &mut out)?;
    put_keys(alloc, 3, state.three.keys.as_slice(), &mut out)?;
    Ok(out)
}

/// Appends the serial, the configuration number, the length of the log, whether work is pending, and the uses of the
/// device key.
fn put_counts(
    alloc: Global,
    pending: bool,
    state: &State,
    out: &mut Vec<u8>,
) -> Result<(), NoMemory>
    requires { length state.now.log ≤ ENTRY_LIMIT }
    ensures { OnOk result (out.new.items ≡ out.old.items ++ text_of (counts_shown pending state.now)) }
{
    let log = state.log.as_slice();
    let serial = serial_line(alloc, &state.serial)?;
    let number = number_line(alloc, log)?;
    let length = length_line(alloc, log)?;
    let device = device_line(alloc, state.uses)?;
    put(serial.as_str(), out)?;
    put(number.as_str(), out)?;
    put(length.as_str(), out)?;
    put(pending_line(pending), out)?;
    put(device.as_str(), out)
}

/// The line of a serial, with its LF.
pub(crate) fn serial_line(alloc: Global, serial: &[u8]) -> Result<String, NoMemory>
    ensures { IfOk result (λ line. string_bytes line ≡ line_with_lf (serial_shown serial.now)) }
{
    let word = hex_word(alloc, serial)?;
    Ok(format!(in alloc; "serial {word}\n")?)
}

/// The line of the configuration number, with its LF.
fn number_line(alloc: Global, log: &[SignedEntry]) -> Result<String, NoMemory>
    requires { length log.now ≤ ENTRY_LIMIT }
    ensures { IfOk result (λ line. string_bytes line ≡ line_with_lf (number_shown log.now)) }
{
    let number = figures_of(log).number;
    Ok(format!(in alloc; "number {number}\n")?)
}

/// The line of how many entries there are and how many there can be, with its LF.
fn length_line(alloc: Global, log: &[SignedEntry]) -> Result<String, NoMemory>
    ensures { IfOk result (λ line. string_bytes line ≡ line_with_lf (length_shown log.now)) }
{
    let count = log.len();
    let most = ENTRY_LIMIT;
    Ok(format!(in alloc; "length {count} {most}\n")?)
}

/// The line of whether work is pending, with its LF.
fn pending_line(pending: bool) -> &'static str
    ensures { result.now ≡ line_with_lf (pending_shown pending) }
{
    if pending {
        "pending 1\n"
    } else {
        "pending 0\n"
    }
}

/// The line of the uses of the device key, with its LF.
fn device_line(alloc: Global, uses: u32) -> Result<String, NoMemory>
    ensures { IfOk result (λ line. string_bytes line ≡ line_with_lf (device_shown uses)) }
{
    let left = u32::from(KEY_USES).saturating_sub(uses);
    Ok(format!(in alloc; "device {uses} {left}\n")?)
}

/// Appends a line for each secret of a region.
fn put_secrets(
    alloc: Global,
    region: u8,
    secrets: &[Secret],
    out: &mut Vec<u8>,
) -> Result<(), NoMemory>
    ensures { OnOk result (out.new.items ≡ out.old.items ++ text_of (map (secret_shown region) secrets.now)) }
{
    for secret in secrets {
        put_secret(alloc, region, secret, out)?;
    }
    Ok(())
}

/// Appends the line of a secret: its name, and how many bytes its value has.
fn put_secret(alloc: Global, region: u8, secret: &Secret, out: &mut Vec<u8>) -> Result<(), NoMemory>
    ensures { OnOk result (out.new.items ≡ out.old.items ++ line_with_lf (secret_shown region secret.now)) }
{
    let count = secret.value.as_slice().len();
    let first = format!(in alloc; "secret {region} ")?;
    let last = format!(in alloc; " {count}\n")?;
    put(first.as_str(), out)?;
    out.extend_from_slice(secret.name.as_slice())?;
    put(last.as_str(), out)
}

/// Appends a line for each key of a region.
fn put_keys(
    alloc: Global,
    region: u8,
    keys: &[RegionKey],
    out: &mut Vec<u8>,
) -> Result<(), NoMemory>
    ensures { OnOk result (out.new.items ≡ out.old.items ++ text_of (map (key_shown region) keys.now)) }
{
    for key in keys {
        let line = key_line(alloc, region, key)?;
        put(line.as_str(), out)?;
    }
    Ok(())
}

/// The line of a key of a region, with its LF.
fn key_line(alloc: Global, region: u8, key: &RegionKey) -> Result<String, NoMemory>
    ensures { IfOk result (λ line. string_bytes line ≡ line_with_lf (key_shown region key.now)) }
{
    let number = key.number;
    let kind = kind_word(key.kind);
    let uses = key.uses;
    let left = u32::from(KEY_USES).saturating_sub(uses);
    Ok(format!(in alloc; "key {number} {kind} layer {region} {uses} {left}\n")?)
}
