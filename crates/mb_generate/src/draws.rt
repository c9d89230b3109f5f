//! The draws of a workload: words of a generator, in order, none left out.

ghost use Rattle.std.specs.Prelude.{◌≡◌, ◌+◌, ◌*◌, ◌%◌, ◌≤◌, ◌++◌, length, map, replicate, IfOk};
ghost use Rattle.std.specs.Int.{w32, to_be_bytes};
ghost use Rattle.mb_model_commands.specs.Workload.{DrawnBytes, DrawnCode, DrawnValue, DrawnRound};
ghost use Rattle.mb_generate.specs.declared.limits.TheConstants.{ROUND_LIMIT};
ghost use Rattle.mb_generate.specs.Drawing.{IsDrawn, DrawnValues, DrawnRounds, round_of, draws_of, AreDraws};

use mb_model::{Bytes, DRAW_LENGTH, Items, NoMemory};
use rand_chacha::ChaCha20Rng;
use rand_core::SeedableRng;
use rand_core::utils::NextWord;
use std::alloc::Global;

/// The number of secrets that are put in a round.
const SECRETS: u32 = 4;

/// The length of the message that is signed in a round, in bytes.
const MESSAGE: usize = 32;

/// The draws of a round.
#[derive(Drop)]
pub(crate) struct RoundDrawn {
    /// The code that is loaded, 1,024 to 32,768 bytes.
    pub(crate) code: Bytes,
    /// The values of four secrets, each at most 128 bytes.
    pub(crate) values: Items<Bytes>,
    /// The message that is signed, 32 bytes.
    pub(crate) message: Bytes,
}

/// All draws of a workload.
#[derive(Drop)]
pub(crate) struct Drawn {
    /// The noise of the maker's key.
    pub(crate) root: [u8; DRAW_LENGTH],
    /// The noise of the keys of the three officers.
    pub(crate) officer_one: [u8; DRAW_LENGTH],
    pub(crate) officer_two: [u8; DRAW_LENGTH],
    pub(crate) officer_three: [u8; DRAW_LENGTH],
    /// The noise of the new device.
    pub(crate) factory: [u8; 48],
    /// The first code of each layer, 1,024 to 32,768 bytes.
    pub(crate) code_one: Bytes,
    pub(crate) code_two: Bytes,
    pub(crate) code_three: Bytes,
    pub(crate) rounds: Items<RoundDrawn>,
    /// The noise of the script's commands, 32 bytes for each.
    pub(crate) noise: Bytes,
}

/// Draws the workload of a number with `rounds` rounds.
pub(crate) fn draw_all(alloc: Global, number: u32, rounds: u32) -> Result<Drawn, NoMemory>
    requires { rounds ≤ ROUND_LIMIT }
    ensures { IfOk result (λ drawn. AreDraws number rounds (draws_of drawn)) }
{
    let mut rng = ChaCha20Rng::from_seed(seed_of(number));
    Ok(Drawn {
        root: draw_array(alloc, &mut rng)?,
        officer_one: draw_array(alloc, &mut rng)?,
        officer_two: draw_array(alloc, &mut rng)?,
        officer_three: draw_array(alloc, &mut rng)?,
        factory: draw_array(alloc, &mut rng)?,
        code_one: draw_code(alloc, &mut rng)?,
        code_two: draw_code(alloc, &mut rng)?,
        code_three: draw_code(alloc, &mut rng)?,
        rounds: draw_rounds(alloc, &mut rng, rounds)?,
        noise: draw_bytes(alloc, &mut rng, DRAW_LENGTH * (5 + rounds as usize))?,
    })
}

/// The generator's key: the number, and zeros.
fn seed_of(number: u32) -> [u8; 32]
    ensures { result ≡ to_be_bytes w32 number ++ replicate 28 0 }
{
    let mut seed = [0; 32];
    seed[..4].copy_from_slice(&number.to_be_bytes());
    seed
}

/// Draws `count` rounds.
fn draw_rounds(
    alloc: Global,
    rng: &mut ChaCha20Rng,
    count: u32,
) -> Result<Items<RoundDrawn>, NoMemory>
    ensures { IfOk result (λ rounds. IsDrawn (DrawnRounds count) rng.old (map round_of rounds) rng.new) }
{
    let mut rounds = Items::new(alloc);
    for _round in 0..count {
        rounds.push(draw_round(alloc, rng)?)?;
    }
    Ok(rounds)
}

/// Draws a round.
fn draw_round(alloc: Global, rng: &mut ChaCha20Rng) -> Result<RoundDrawn, NoMemory>
    ensures { IfOk result (λ round. IsDrawn DrawnRound rng.old (round_of round) rng.new) }
{
    Ok(RoundDrawn {
        code: draw_code(alloc, rng)?,
        values: draw_values(alloc, rng)?,
        message: draw_bytes(alloc, rng, MESSAGE)?,
    })
}

/// Draws the values of the secrets of a round.
fn draw_values(alloc: Global, rng: &mut ChaCha20Rng) -> Result<Items<Bytes>, NoMemory>
    ensures { IfOk result (λ values. IsDrawn (DrawnValues 4) rng.old values rng.new) }
{
    let mut values = Items::new(alloc);
    for _value in 0..SECRETS {
        values.push(draw_value(alloc, rng)?)?;
    }
    Ok(values)
}

/// Draws a code: a word for its length, 1,024 to 32,768 bytes, and then the bytes.
fn draw_code(alloc: Global, rng: &mut ChaCha20Rng) -> Result<Bytes, NoMemory>
    ensures { IfOk result (λ code. IsDrawn DrawnCode rng.old code rng.new) }
{
    let size = rng.next_word();
    draw_bytes(alloc, rng, 1024 + (size % 31_745) as usize)
}

/// Draws the value of a secret: a word for its length, at most 128 bytes, and then the bytes.
fn draw_value(alloc: Global, rng: &mut ChaCha20Rng) -> Result<Bytes, NoMemory>
    ensures { IfOk result (λ value. IsDrawn DrawnValue rng.old value rng.new) }
{
    let word = rng.next_word();
    draw_bytes(alloc, rng, (word % 129) as usize)
}

/// Draws N bytes.
fn draw_array<const N: usize>(alloc: Global, rng: &mut ChaCha20Rng) -> Result<[u8; N], NoMemory>
    ensures { IfOk result (λ bytes. IsDrawn (DrawnBytes N) rng.old bytes rng.new) }
{
    let bytes = draw_bytes(alloc, rng, N)?;
    let mut array = [0; N];
    array.copy_from_slice(bytes.as_slice());
    Ok(array)
}

/// Draws `count` bytes: four from each word, big-endian; leftover bytes of the last word are dropped.
fn draw_bytes(alloc: Global, rng: &mut ChaCha20Rng, count: usize) -> Result<Bytes, NoMemory>
    ensures drawn { IfOk result (λ bytes. IsDrawn (DrawnBytes count) rng.old bytes rng.new) }
    ensures length { IfOk result (λ bytes. length bytes ≡ count) }
{
    let mut bytes = Vec::new(alloc);
    for _word in 0..count.div_ceil(4) {
        bytes.extend_from_slice(&rng.next_word().to_be_bytes())?;
    }
    bytes.truncate(count);
    Ok(Bytes::from_vec(bytes))
}
