//! Numbers in decimal.

ghost use Rattle.std.specs.Prelude.{◌<◌, ◌+◌, ◌*◌, ◌^◌, SomeIff};
ghost use Rattle.mb_model.specs.chains.Lines.{IsNumber, number_limit};
ghost use Rattle.mb_words.specs.Words.{FindsSome};

/// The most digits of a number.
const MOST_DIGITS: usize = 10;

/// The number that the word spells in decimal without leading zeros; `None` if it is no number, or above `most`.
pub fn read_number(word: &[u8], most: u32) -> Option<u32>
    ensures { FindsSome (IsNumber most word.now) result }
{
    match read_digits(word) {
        Some(number) if number <= most => Some(number),
        _ => None,
    }
}

/// The number that the word spells, read digit by digit from the last.
fn read_digits(word: &[u8]) -> Option<u32>
    ensures { FindsSome (IsNumber number_limit word.now) result }
{
    if word.len() > MOST_DIGITS {
        return None;
    }
    let Some((last, front)) = word.split_last() else {
        return None;
    };
    if *last < b'0' || *last > b'9' {
        return None;
    }
    let digit = u32::from(*last - b'0');
    if front.is_empty() {
        return Some(digit);
    }
    let Some(tens) = read_digits(front) else {
        return None;
    };
    let begins_with_zero = tens == 0;
    if begins_with_zero {
        return None;
    }
    add_digit(tens, digit)
}

/// The number with one more digit after it, from 0 to 9; `None` if it does not fit.
fn add_digit(tens: u32, digit: u32) -> Option<u32>
    ensures { SomeIff result (10 * tens + digit < 2 ^ 32) (10 * tens + digit) }
{
    match tens.checked_mul(10) {
        Some(number) => number.checked_add(digit),
        None => None,
    }
}
