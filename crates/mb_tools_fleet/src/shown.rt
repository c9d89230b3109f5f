//! What is shown of the devices of a register.

ghost use Rattle.std.specs.Prelude.{◌≡◌, ◌∷◌, [], codes, length, IfOk, string_bytes};
ghost use Rattle.std.specs.Fmt.{decimal};
ghost use Rattle.mb_model.specs.outside.Texts.{line_with_lf};
ghost use Rattle.mb_model.specs.chains.Lines.{spaced_words, text_of};
ghost use Rattle.mb_tools_fleet.specs.RegisterCommands.{hash_word, row_line, devices_lines};

use mb_fleet::Row;
use mb_model::NoMemory;
use mb_words::hex_word;
use std::alloc::Global;

/// The text of how many devices there are, and of the line of each.
pub(crate) fn devices_text(alloc: Global, rows: &[Row]) -> Result<Vec<u8>, NoMemory>
    ensures { IfOk result (λ text. text.items ≡ text_of (devices_lines rows.now)) }
{
    let mut text = count_line(alloc, rows.len())?.into_bytes();
    for row in rows {
        let line = row_line(alloc, row)?;
        text.extend_from_slice(line.as_bytes())?;
    }
    Ok(text)
}

/// The line of how many devices there are, with its LF.
fn count_line(alloc: Global, count: usize) -> Result<String, NoMemory>
    ensures { IfOk result (λ line. string_bytes line ≡ line_with_lf (spaced_words (codes "devices" ∷ decimal count ∷ []))) }
{
    Ok(format!(in alloc; "devices {count}\n")?)
}

/// The line of a device, with its LF.
fn row_line(alloc: Global, row: &Row) -> Result<String, NoMemory>
    ensures { IfOk result (λ line. string_bytes line ≡ line_with_lf (row_line row.now)) }
{
    let serial = hex_word(alloc, &row.serial)?;
    let length = row.hashes.as_slice().len();
    let number = row.number;
    let one = hash_word(alloc, &row.code.one)?;
    let two = hash_word(alloc, &row.code.two)?;
    let three = hash_word(alloc, &row.code.three)?;
    Ok(format!(in alloc; "device {serial} {length} {number} {one} {two} {three}\n")?)
}

/// The hash of a layer's code in hexadecimal, or a dash if there is none.
fn hash_word(alloc: Global, hash: &Option<[u8; 32]>) -> Result<String, NoMemory>
    ensures { IfOk result (λ word. string_bytes word ≡ hash_word hash.now) }
{
    match hash {
        Some(hash) => Ok(hex_word(alloc, hash)?),
        None => Ok(String::from_str(alloc, "-")?),
    }
}
