//! The lines of answers, each with its LF, appended to a text. Each call appends its line or lines, or a prefix of them
//! if an allocation fails. Lines are written into the text of all answers: a text for each word and each line would be
//! two allocations a line, in millions of lines.

ghost use Rattle.std.specs.Prelude.{◌≡◌, ◌<◌, ◌*◌, ◌++◌, ◌∷◌, [], IfSome, OnOk, codes};
ghost use Rattle.std.specs.Fmt.{decimal};
ghost use Rattle.mb_model.specs.outside.Texts.{line_with_lf};
ghost use Rattle.mb_model.specs.chains.Lines.{hex_word, spaced_words, text_of};
ghost use Rattle.mb_model_commands.specs.VerifyCommand.{chain_refusal_line};
ghost use Rattle.mb_bytes.specs.Puts.{Puts};
ghost use Rattle.mb_verifier.specs.Ends.{chain_refusal_of};
ghost use Rattle.mb_fleet.specs.Ends.{answer_of, refused_place_words, TellsEnd};
ghost use Rattle.mb_fleet.specs.Serving.{device_line, answer_line, serial_line, count_line, found_lines, count_lines};

use crate::end::{Added, FleetEnd};
use crate::question::CodeCount;
use mb_bytes::put_slice;
use mb_model::NoMemory;
use mb_verifier::ChainRefusal;

/// Appends the line of a chain that was taken.
pub(crate) fn put_added(out: &mut Vec<u8>, added: &Added) -> Result<(), NoMemory>
    ensures { Puts (line_with_lf (answer_line (answer_of added.now))) out.old result out.new }
{
    match added {
        Added::Added { serial, length } => put_device(out, b"added", serial, *length),
        Added::Same { serial, length } => put_device(out, b"same", serial, *length),
        Added::Extended { serial, length } => put_device(out, b"extended", serial, *length),
    }
}

/// Appends the line of a chain that was not taken.
pub(crate) fn put_end(out: &mut Vec<u8>, end: &FleetEnd) -> Result<(), NoMemory>
    ensures { TellsEnd end.now out.old result out.new }
{
    match end {
        FleetEnd::Chain(refusal) => put_refused(out, refusal),
        FleetEnd::Older { serial, have } => put_device(out, b"refused 31 older", serial, *have),
        FleetEnd::Fork { serial, place } => put_device(out, b"refused 30 fork", serial, *place),
        FleetEnd::Full => put_slice(out, b"refused 32 full\n"),
        FleetEnd::NoMemory => Err(NoMemory),
    }
}

/// Appends how many devices were found, and the serial of each.
pub(crate) fn put_found(out: &mut Vec<u8>, serials: &[[u8; 16]]) -> Result<(), NoMemory>
    ensures { OnOk result (out.new.items ≡ out.old.items ++ text_of (found_lines serials.now)) }
{
    put_counted(out, b"found", serials.len())?;
    for serial in serials {
        put_serial(out, serial)?;
    }
    Ok(())
}

/// Appends how many codes there are, and each with the number of its devices.
pub(crate) fn put_codes(out: &mut Vec<u8>, counts: &[CodeCount]) -> Result<(), NoMemory>
    ensures { OnOk result (out.new.items ≡ out.old.items ++ text_of (count_lines counts.now)) }
{
    put_counted(out, b"codes", counts.len())?;
    for count in counts {
        put_count(out, count)?;
    }
    Ok(())
}

/// Appends the line of words, the serial of a device, and a number.
fn put_device(
    out: &mut Vec<u8>,
    words: &[u8],
    serial: &[u8; 16],
    number: u32,
) -> Result<(), NoMemory>
    ensures { Puts (line_with_lf (device_line words.now serial.now number)) out.old result out.new }
{
    put_device_words(out, words, serial, number)?;
    put_slice(out, b"\n")
}

/// Appends words, the serial of a device, and a number.
fn put_device_words(
    out: &mut Vec<u8>,
    words: &[u8],
    serial: &[u8; 16],
    number: u32,
) -> Result<(), NoMemory>
    ensures { Puts (device_line words.now serial.now number) out.old result out.new }
{
    put_slice(out, words)?;
    put_word(out, &hex_digits::<16, 32>(serial))?;
    put_number(out, number as usize)
}

/// Appends the line of a chain that the verifier refuses.
fn put_refused(out: &mut Vec<u8>, refusal: &ChainRefusal) -> Result<(), NoMemory>
    ensures { IfSome (chain_refusal_of refusal.now) (λ why. Puts (line_with_lf (chain_refusal_line why)) out.old result out.new) }
{
    match *refusal {
        ChainRefusal::Form { at } => put_code(out, 20, Some(at)),
        ChainRefusal::Signature { entry } => put_code(out, 21, Some(entry)),
        ChainRefusal::Order { entry } => put_code(out, 22, Some(entry)),
        ChainRefusal::Rules { entry } => put_code(out, 23, Some(entry)),
        ChainRefusal::KeyUnknown => put_code(out, 24, None),
        ChainRefusal::StatementSignature => put_code(out, 25, None),
        ChainRefusal::StatementNumber { .. } => put_code(out, 26, None),
        ChainRefusal::NotAlive => put_code(out, 27, None),
        ChainRefusal::NoMemory => Err(NoMemory),
    }
}

/// Appends the line of a refusal with this number, and where the chain is wrong, if it is in one place.
fn put_code(out: &mut Vec<u8>, code: u8, place: Option<u32>) -> Result<(), NoMemory>
    ensures { Puts (line_with_lf (codes "refused " ++ decimal code ++ refused_place_words place)) out.old result out.new }
{
    put_code_words(out, code, place)?;
    put_slice(out, b"\n")
}

/// Appends the words of a refusal.
fn put_code_words(out: &mut Vec<u8>, code: u8, place: Option<u32>) -> Result<(), NoMemory>
    ensures { Puts (codes "refused " ++ decimal code ++ refused_place_words place) out.old result out.new }
{
    put_slice(out, b"refused")?;
    put_number(out, code as usize)?;
    put_refused_place(out, place)
}

/// Appends where a chain is wrong, if it is in one place.
fn put_refused_place(out: &mut Vec<u8>, place: Option<u32>) -> Result<(), NoMemory>
    ensures { Puts (refused_place_words place) out.old result out.new }
{
    match place {
        Some(place) => put_number(out, place as usize),
        None => Ok(()),
    }
}

/// Appends the line of a word and a count.
fn put_counted(out: &mut Vec<u8>, word: &[u8], count: usize) -> Result<(), NoMemory>
    ensures { Puts (line_with_lf (spaced_words (word.now ∷ decimal count ∷ []))) out.old result out.new }
{
    put_counted_words(out, word, count)?;
    put_slice(out, b"\n")
}

/// Appends a word and a count.
fn put_counted_words(out: &mut Vec<u8>, word: &[u8], count: usize) -> Result<(), NoMemory>
    ensures { Puts (spaced_words (word.now ∷ decimal count ∷ [])) out.old result out.new }
{
    put_slice(out, word)?;
    put_number(out, count)
}

/// Appends the line of a serial.
fn put_serial(out: &mut Vec<u8>, serial: &[u8; 16]) -> Result<(), NoMemory>
    ensures { Puts (line_with_lf (serial_line serial.now)) out.old result out.new }
{
    put_serial_words(out, serial)?;
    put_slice(out, b"\n")
}

/// Appends the words of a serial.
fn put_serial_words(out: &mut Vec<u8>, serial: &[u8; 16]) -> Result<(), NoMemory>
    ensures { Puts (serial_line serial.now) out.old result out.new }
{
    put_slice(out, b"serial")?;
    put_word(out, &hex_digits::<16, 32>(serial))
}

/// Appends the line of a code.
fn put_count(out: &mut Vec<u8>, count: &CodeCount) -> Result<(), NoMemory>
    ensures { Puts (line_with_lf (count_line count.now)) out.old result out.new }
{
    put_count_words(out, count)?;
    put_slice(out, b"\n")
}

/// Appends the words of a code.
fn put_count_words(out: &mut Vec<u8>, count: &CodeCount) -> Result<(), NoMemory>
    ensures { Puts (count_line count.now) out.old result out.new }
{
    put_slice(out, b"code")?;
    put_word(out, &hex_digits::<32, 64>(&count.hash))?;
    put_number(out, count.count as usize)
}

/// The bytes in hexadecimal, two digits for each.
fn hex_digits<const N: usize, const DIGITS: usize>(bytes: &[u8; N]) -> [u8; DIGITS]
    requires some { 0 < N }
    requires digits { DIGITS ≡ 2 * N }
    ensures { result ≡ hex_word bytes.now }
{
    let mut digits = [0; DIGITS];
    // there are as many digits as the bytes need, so the call does not fail
    let _ = hex::encode_to_slice(bytes.as_slice(), &mut digits);
    digits
}

/// Appends a space and a number in decimal.
fn put_number(out: &mut Vec<u8>, number: usize) -> Result<(), NoMemory>
    ensures { Puts (32 ∷ decimal number) out.old result out.new }
{
    let mut digits = itoa::Buffer::new();
    put_word(out, digits.format(number).as_bytes())
}

/// Appends a space and a word.
fn put_word(out: &mut Vec<u8>, word: &[u8]) -> Result<(), NoMemory>
    ensures { Puts (32 ∷ word.now) out.old result out.new }
{
    put_slice(out, b" ")?;
    put_slice(out, word)
}
