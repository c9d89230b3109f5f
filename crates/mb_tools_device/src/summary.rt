//! The summary of a generated workload.

ghost use Rattle.std.specs.Prelude.{◌≡◌, ◌↔◌, ◌+◌, ◌≤◌, ◌++◌, length, decimal, Any, IsTrue};
ghost use Rattle.arrayvec.specs.ArrayVec.{array_vec_len};
ghost use Rattle.mb_model.specs.declared.reply.Reply.TheVariants as reply;
ghost use Rattle.mb_model.specs.outside.Texts.{line_with_lf};
ghost use Rattle.mb_model.specs.chains.Lines.{text_of};
ghost use Rattle.mb_model.specs.chains.Listing.{summary, replies_that, is_done, is_signed, is_refused};
ghost use Rattle.mb_tools_device.specs.Summaries.{hash_line};

use arrayvec::ArrayVec;
use mb_model::{Answered, Reply};

/// The text of a summary, which takes no memory.
pub type Summary = ArrayVec<u8, 256>;

/// The summary of answered events, with the length of the log and the hash of the image afterwards.
pub fn summary_of(answered: &[Answered], log_length: u16, image_hash: &[u8; 32]) -> Summary
    ensures { result.items ≡ text_of (summary answered.now log_length image_hash.now) }
{
    let mut text = ArrayVec::new();
    put_number(&mut text, b"events ", answered.len());
    put_number(&mut text, b"done ", count_done(answered));
    put_number(&mut text, b"signed ", count_signed(answered));
    put_number(&mut text, b"refused ", count_refused(answered));
    put_number(&mut text, b"length ", usize::from(log_length));
    put_hash(&mut text, image_hash);
    text
}

/// Whether an allocation failed at one of the events.
pub fn wants_memory(answered: &[Answered]) -> bool
    ensures { IsTrue result ↔ Any (λ a. a.reply ≡ reply.NoMemory) answered.now }
{
    answered
        .iter()
        .any(|one| matches!(one.reply, Reply::NoMemory))
}

/// The number of replies that are `done`.
fn count_done(answered: &[Answered]) -> usize
    ensures { result ≡ replies_that is_done answered.now }
{
    answered
        .iter()
        .filter(|one| matches!(one.reply, Reply::Done { .. }))
        .count()
}

/// The number of replies that are `signed`.
fn count_signed(answered: &[Answered]) -> usize
    ensures { result ≡ replies_that is_signed answered.now }
{
    answered
        .iter()
        .filter(|one| matches!(one.reply, Reply::Signed { .. }))
        .count()
}

/// The number of replies that are refusals.
fn count_refused(answered: &[Answered]) -> usize
    ensures { result ≡ replies_that is_refused answered.now }
{
    answered
        .iter()
        .filter(|one| matches!(one.reply, Reply::Refused(_)))
        .count()
}

/// Appends a line: a name with the space after it, and a number.
fn put_number(text: &mut Summary, name: &[u8], number: usize)
    requires room { array_vec_len text.old + length name.now + 21 ≤ 256 }
    ensures line { text.new.items ≡ text.old.items ++ line_with_lf (name.now ++ decimal number) }
    ensures length { array_vec_len text.new ≤ array_vec_len text.old + length name.now + 21 }
{
    let mut digits = itoa::Buffer::new();
    put(text, name);
    put(text, digits.format(number).as_bytes());
    put(text, b"\n");
}

/// Appends the line of the image's hash.
fn put_hash(text: &mut Summary, hash: &[u8; 32])
    requires room { array_vec_len text.old + 71 ≤ 256 }
    ensures { text.new.items ≡ text.old.items ++ line_with_lf (hash_line hash.now) }
{
    let mut digits = [0; 64];
    let _whole = hex::encode_to_slice(hash, &mut digits);
    put(text, b"image ");
    put(text, &digits);
    put(text, b"\n");
}

/// Appends the bytes, for which there is room.
fn put(text: &mut Summary, bytes: &[u8])
    requires room { array_vec_len text.old + length bytes.now ≤ 256 }
    ensures items { text.new.items ≡ text.old.items ++ bytes.now }
    ensures length { array_vec_len text.new ≡ array_vec_len text.old + length bytes.now }
{
    let _fits = text.try_extend_from_slice(bytes);
}
