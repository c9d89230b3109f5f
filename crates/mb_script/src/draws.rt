//! The draws of a script's commands, which come from its noise.

ghost use Rattle.std.specs.Prelude.{◌≡◌, ◌*◌, ◌<◌, ◌≤◌, ◌^◌, [], ◌∷◌, length, drop, IsTrue};
ghost use Rattle.mb_model.specs.declared.limits.TheConstants.{DRAW_LENGTH};
ghost use Rattle.mb_model.specs.chains.Script.{is_command, commands_in, drawn_event};
ghost use Rattle.mb_script.specs.Drawing.{PlacesDraws};

use mb_model::{DRAW_LENGTH, Event, Events};

/// The noise has fewer than 32 bytes for each command.
#[derive(Clone, Copy, Debug, PartialEq, Eq)]
pub struct ShortNoise;

/// Gives each command its draw: the i-th, from 0, gets bytes 32 i to 32 i + 31 of the noise, and further noise is not
/// used. Takes no memory. The number of events fits into a `u32`.
///
/// Errors: `ShortNoise` if the noise has fewer than 32 bytes for each command; the events are then as before. A `u32`
/// has to count the events, since `set` of a list takes one. Taking the list apart and putting it together again would
/// need an empty list in its place, and so an allocator.
pub fn place_draws(events: &mut Events, noise: &[u8]) -> Result<(), ShortNoise>
    requires { length events.old < 2 ^ 32 }
    ensures { PlacesDraws events.old noise.now result events.new }
{
    if noise.len() / DRAW_LENGTH < count_commands(events.as_slice()) {
        return Err(ShortNoise);
    }
    let count = events.as_slice().len() as u32;
    let mut left = noise;
    for at in 0..count {
        // an event is taken out for its draw, so something has to stand in its place
        let event = events.set(at, Event::Off);
        let (drawn, remaining) = draw_event(event, left);
        let _placeholder = events.set(at, drawn);
        left = remaining;
    }
    Ok(())
}

/// The number of commands among the events.
#[tactic(auto, unfolding(mb_model::specs::chains::Script::commands_in))]
fn count_commands(events: &[Event]) -> usize
    ensures { result ≡ commands_in events.now }
{
    events
        .iter()
        .filter(|event| matches!(event, Event::Order { .. }))
        .count()
}

/// The event with its draw, which a command takes from the front of the noise; and the noise that is left.
#[tactic(auto, unfolding(mb_model::specs::chains::Script::commands_in))]
fn draw_event(event: Event, noise: &[u8]) -> (Event, &[u8])
    requires { IsTrue (is_command event) → DRAW_LENGTH ≤ length noise.now }
    ensures drawn { result.0 ≡ drawn_event noise.now [] event }
    ensures left { result.1.now ≡ drop (DRAW_LENGTH * commands_in (event ∷ [])) noise.now }
{
    match event {
        Event::Order { text, draw: _ } => {
            let (front, remaining) = noise.split_at(DRAW_LENGTH);
            let mut draw = [0; DRAW_LENGTH];
            draw.copy_from_slice(front);
            (Event::Order { text, draw }, remaining)
        }
        other => (other, noise),
    }
}
