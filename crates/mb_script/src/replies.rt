//! The lines of the replies.

ghost use Rattle.std.specs.Prelude.{◌≡◌, ◌++◌, ◌∷◌, [], ◌<◌, unwrap_or};
ghost use Rattle.std.specs.Fmt.{decimal};
ghost use Rattle.hex.specs.Hex.{encode_lower};
ghost use Rattle.mb_model.specs.outside.Texts.{line_with_lf};
ghost use Rattle.mb_model.specs.chains.Lines.{hex_word};
ghost use Rattle.mb_model.specs.machine.Refusals.{refusal_words};
ghost use Rattle.mb_model.specs.chains.Replies.{standing_word, reply_line};
ghost use Rattle.mb_bytes.specs.Puts.{Puts, Writes};

use mb_bytes::put_slice;
use mb_model::{NoMemory, Reply, Standing};

/// Appends the line of a reply and its LF, or leaves `out` as it was. It does not fail if the capacity of `out` holds
/// them. The line of a refusal whose number no device gives ends after the number and a space.
pub fn write_reply(reply: &Reply, out: &mut Vec<u8>) -> Result<(), NoMemory>
    ensures { Writes (line_with_lf (reply_line reply.now)) out.old result out.new }
{
    let length = out.len();
    match put_line(reply, out) {
        Ok(()) => Ok(()),
        Err(error) => {
            out.truncate(length);
            Err(error)
        }
    }
}

/// Appends the line of a reply and its LF.
fn put_line(reply: &Reply, out: &mut Vec<u8>) -> Result<(), NoMemory>
    ensures { Puts (line_with_lf (reply_line reply.now)) out.old result out.new }
{
    put_reply(reply, out)?;
    put_slice(out, b"\n")
}

/// Appends the line of a reply.
fn put_reply(reply: &Reply, out: &mut Vec<u8>) -> Result<(), NoMemory>
    ensures { Puts (reply_line reply.now) out.old result out.new }
{
    match reply {
        Reply::Booted => put_slice(out, b"booted"),
        Reply::Off => put_slice(out, b"off"),
        Reply::Tampered => put_slice(out, b"tampered"),
        Reply::Armed => put_slice(out, b"armed"),
        Reply::At(layer) => put_at(*layer, out),
        Reply::Done { number, length } => put_done(*number, *length, out),
        Reply::Kept => put_slice(out, b"kept"),
        Reply::Dropped => put_slice(out, b"dropped"),
        Reply::Value(value) => put_value(value.as_slice(), out),
        Reply::Absent => put_slice(out, b"absent"),
        Reply::Signed {
            key,
            index,
            statement,
        } => put_signed(*key, *index, statement.as_slice(), out),
        Reply::Called(answer) => put_called(answer.as_slice(), out),
        Reply::Status {
            serial,
            number,
            length,
            one,
            two,
            three,
        } => put_status(serial, (*number, *length), (*one, *two, *three), out),
        Reply::Refused(number) => put_refused(*number, out),
        Reply::Stopped => put_slice(out, b"stopped"),
        Reply::NoMemory => put_slice(out, b"no memory"),
    }
}

/// Appends the line of the layer that runs now.
fn put_at(layer: u8, out: &mut Vec<u8>) -> Result<(), NoMemory>
    ensures { Puts (reply_line (Reply.At layer)) out.old result out.new }
{
    put_slice(out, b"at")?;
    put_number_word(u32::from(layer), out)
}

/// Appends the line of an order that is done.
fn put_done(number: u32, length: u32, out: &mut Vec<u8>) -> Result<(), NoMemory>
    ensures { Puts (reply_line (Reply.Done number length)) out.old result out.new }
{
    put_slice(out, b"done")?;
    put_number_word(number, out)?;
    put_number_word(length, out)
}

/// Appends the line of a secret's value.
fn put_value(value: &[u8], out: &mut Vec<u8>) -> Result<(), NoMemory>
    ensures { Puts (reply_line (Reply.Value value.now)) out.old result out.new }
{
    put_slice(out, b"value")?;
    put_hex_word(value, out)
}

/// Appends the line of a signed statement.
fn put_signed(key: u32, index: u32, statement: &[u8], out: &mut Vec<u8>) -> Result<(), NoMemory>
    ensures { Puts (reply_line (Reply.Signed key index statement.now)) out.old result out.new }
{
    put_slice(out, b"signed")?;
    put_number_word(key, out)?;
    put_number_word(index, out)?;
    put_hex_word(statement, out)
}

/// Appends the line of what a call was answered without a signature.
fn put_called(answer: &[u8], out: &mut Vec<u8>) -> Result<(), NoMemory>
    ensures { Puts (reply_line (Reply.Called answer.now)) out.old result out.new }
{
    put_slice(out, b"called")?;
    put_hex_word(answer, out)
}

/// Appends the line of a refusal.
fn put_refused(number: u8, out: &mut Vec<u8>) -> Result<(), NoMemory>
    ensures { Puts (reply_line (Reply.Refused number)) out.old result out.new }
{
    put_slice(out, b"refused")?;
    put_number_word(u32::from(number), out)?;
    put_slice(out, b" ")?;
    put_slice(out, reason(number).as_bytes())
}

/// Appends the line of a status: the serial, the configuration number, the log's length, and how each layer stands.
fn put_status(
    serial: &[u8; 16],
    numbers: (u32, u32),
    layers: (Standing, Standing, Standing),
    out: &mut Vec<u8>,
) -> Result<(), NoMemory>
    ensures { Puts (reply_line (Reply.Status serial.now numbers.0 numbers.1 layers.0 layers.1 layers.2)) out.old result out.new }
{
    put_slice(out, b"status")?;
    put_hex_word(serial, out)?;
    put_number_word(numbers.0, out)?;
    put_number_word(numbers.1, out)?;
    put_layers(layers, out)
}

/// Appends the words for how the layers stand, each with a space before it.
fn put_layers(layers: (Standing, Standing, Standing), out: &mut Vec<u8>) -> Result<(), NoMemory>
    ensures { Puts (32 ∷ (standing_word layers.0 ++ 32 ∷ (standing_word layers.1 ++ 32 ∷ standing_word layers.2))) out.old result out.new }
{
    put_standing(layers.0, out)?;
    put_standing(layers.1, out)?;
    put_standing(layers.2, out)
}

/// Appends a space and the word for how a layer stands.
fn put_standing(layer: Standing, out: &mut Vec<u8>) -> Result<(), NoMemory>
    ensures { Puts (32 ∷ standing_word layer) out.old result out.new }
{
    match layer {
        Standing::Unowned => put_slice(out, b" unowned"),
        Standing::Unreliable => put_slice(out, b" unreliable"),
        Standing::Reliable => put_slice(out, b" reliable"),
        Standing::Runnable => put_slice(out, b" runnable"),
    }
}

/// The words for the number of a refusal; empty for a number that no device gives.
fn reason(number: u8) -> &'static str
    ensures { result.now ≡ unwrap_or (refusal_words number) [] }
{
    match number {
        1 => "off",
        2 => "phase",
        3 => "zeroised",
        4 => "layer",
        5 => "full",
        6 => "key",
        7 => "spent",
        8 => "code",
        9 => "run",
        10 => "text",
        11 => "target",
        12 => "state",
        13 => "signature",
        14 => "countersignature",
        15 => "log full",
        16 => "keys full",
        _ => "",
    }
}

/// Appends a space and the number in decimal.
fn put_number_word(number: u32, out: &mut Vec<u8>) -> Result<(), NoMemory>
    ensures { Puts (32 ∷ decimal number) out.old result out.new }
{
    put_slice(out, b" ")?;
    put_number(number, out)
}

/// Appends a space and bytes in hexadecimal, or a dash for none.
fn put_hex_word(bytes: &[u8], out: &mut Vec<u8>) -> Result<(), NoMemory>
    ensures { Puts (32 ∷ hex_word bytes.now) out.old result out.new }
{
    put_slice(out, b" ")?;
    put_hex(bytes, out)
}

/// Appends the number in decimal.
fn put_number(number: u32, out: &mut Vec<u8>) -> Result<(), NoMemory>
    ensures { Puts (decimal number) out.old result out.new }
{
    if number >= 10 {
        put_number(number / 10, out)?;
    }
    put_slice(out, &[b'0' + (number % 10) as u8])
}

/// Appends bytes in hexadecimal, or a dash for none.
fn put_hex(bytes: &[u8], out: &mut Vec<u8>) -> Result<(), NoMemory>
    ensures { Puts (hex_word bytes.now) out.old result out.new }
{
    if bytes.is_empty() {
        return put_slice(out, b"-");
    }
    for byte in bytes {
        put_slice(out, &hex_digits(*byte))?;
    }
    Ok(())
}

/// The two digits of a byte.
fn hex_digits(byte: u8) -> [u8; 2]
    ensures { result ≡ encode_lower (byte ∷ []) }
{
    let mut digits = [0; 2];
    // two digits are room for one byte, so the call does not fail
    let _ = hex::encode_to_slice([byte].as_slice(), &mut digits);
    digits
}
