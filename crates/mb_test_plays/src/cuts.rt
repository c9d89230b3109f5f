//! Power is lost at each write of a script in turn, or of an event and then of the boot that follows.

use crate::files::{content_of, store, write};
use crate::play::{Program, fit_one, status_of};
use crate::sights::{ends_in_zeros, expect};
use crate::step::{Cut, Part, TwoCuts};
use mb_host::MemoryHost;
use mb_model::BBRAM_LENGTH;
use std::alloc::Global;
use std::test::Fail;

/// More writes than any call has.
const MOST_WRITES: u32 = 36;

/// Power is lost at each write of a script in turn.
pub(crate) fn is_cut(program: &impl Program, host: &mut MemoryHost, cut: &Cut) -> Result<(), Fail> {
    for number in 1..=MOST_WRITES {
        if was_cut(program, host, cut, number)? {
            return Ok(());
        }
    }
    Err("too many writes")?
}

/// Power is lost at the write of this number. Answers whether there are fewer writes.
fn was_cut(
    program: &impl Program,
    host: &mut MemoryHost,
    cut: &Cut,
    number: u32,
) -> Result<bool, Fail> {
    write_cut(program.alloc(), host, cut, number)?;
    let seen = host.printed().len();
    let ended = status_of(program, host, "run image script noise")?;
    expect(ended == 0, format_args!("cut {number}: status {ended}"))?;
    let printed = host.printed().get(seen..).unwrap_or_default();
    let is_whole = printed.starts_with(cut.whole.as_bytes());
    let is_right = if is_whole {
        number > 1
    } else {
        fit_one(printed, cut.torn)
    };
    expect(is_right, format_args!("cut {number}: {}", cut.image))?;
    Ok(is_whole)
}

/// Writes the image, and the script in which power is lost at the write of this number.
fn write_cut(alloc: Global, host: &mut MemoryHost, cut: &Cut, number: u32) -> Result<(), Fail> {
    write(alloc, host, "image", &[Part::File(cut.image)])?;
    let lines = format!(in alloc; "{}cut {number} fill 00\n", cut.before)?;
    let mut script = lines.into_bytes();
    let rest = content_of(alloc, host, cut.after)?;
    script.extend_from_slice(&rest)?;
    store(host, "script", &script)
}

/// What `cutat` prints.
const OLD: &str = "old\n";

const NEW: &str = "new\n";

const UNSTOPPED: &str = "unstopped\n";

/// Power is lost at each write of an event in turn. `cutat` answers `old` up to a write, then `new`, if the event
/// leaves another state, and then `unstopped`. After each loss the device shows the state that `cutat` answered. That
/// no work is left is seen in the run itself, by a loss armed for the first write of one more boot. `cutat` would load
/// the image twice more for each cut.
pub(crate) fn is_cut_twice(
    program: &impl Program,
    host: &mut MemoryHost,
    cut: &TwoCuts,
) -> Result<(), Fail> {
    let mut last = "";
    for number in 1..=MOST_WRITES {
        let verdict = verdict_at(program, host, cut, number)?;
        let is_right = may_follow(last, verdict, cut.old != cut.new);
        let image = cut.image;
        expect(
            is_right,
            format_args!("write {number} on {image}: {verdict}"),
        )?;
        if verdict == UNSTOPPED {
            return Ok(());
        }
        let state = if verdict == NEW { cut.new } else { cut.old };
        boots_are_cut(program, host, cut, number, state)?;
        last = verdict;
    }
    Err("too many writes")?
}

/// Whether `verdict` may be the answer for a loss one write later. `changes` says whether the event leaves another
/// state.
fn may_follow(last: &str, verdict: &str, changes: bool) -> bool {
    if verdict == OLD {
        last != NEW
    } else if verdict == NEW {
        changes && last != ""
    } else {
        verdict == UNSTOPPED && (last == NEW || !changes)
    }
}

/// The answer of `cutat`, which writes no file, for a loss in the write of this number.
fn verdict_at(
    program: &impl Program,
    host: &mut MemoryHost,
    cut: &TwoCuts,
    number: u32,
) -> Result<&'static str, Fail> {
    let alloc = program.alloc();
    write_script(alloc, host, cut, "", "")?;
    let words = format!(in alloc; "cutat {} script {} {number} 00", cut.image, cut.noise)?;
    let seen = host.printed().len();
    let writes = host.writes();
    let ended = status_of(program, host, &words)?;
    let is_right = ended == 0 && host.writes() == writes;
    expect(is_right, format_args!("{words}: status {ended}"))?;
    let printed = host.printed().get(seen..).unwrap_or_default();
    for verdict in [OLD, NEW, UNSTOPPED] {
        if printed == verdict.as_bytes() {
            return Ok(verdict);
        }
    }
    Err("no verdict")?
}

/// Writes a script: the lines before the event, the lines `armed`, the event, and the lines `rest`.
fn write_script(
    alloc: Global,
    host: &mut MemoryHost,
    cut: &TwoCuts,
    armed: &str,
    rest: &str,
) -> Result<(), Fail> {
    let event = content_of(alloc, host, cut.event)?;
    let mut script = Vec::from_slice(alloc, cut.before.as_bytes())?;
    script.extend_from_slice(armed.as_bytes())?;
    script.extend_from_slice(&event)?;
    script.extend_from_slice(rest.as_bytes())?;
    store(host, "script", &script)
}

/// The boot after a loss in the write of this number is cut at each of its writes. Then the device is booted, the boot
/// after that writes nothing, and it shows this state; or its case is opened, and nothing is left.
fn boots_are_cut(
    program: &impl Program,
    host: &mut MemoryHost,
    cut: &TwoCuts,
    number: u32,
    state: &str,
) -> Result<(), Fail> {
    let alloc = program.alloc();
    let asks = format!(in alloc;
        "off\ncut 100000 fill 00\nboot\noff\ncut 1 fill 00\nboot\ncut 100000 fill 00\n{}off\n",
        cut.asks
    )?;
    let shows = format!(in alloc; "off\narmed\nbooted\noff\narmed\nbooted\narmed\n{state}off\n")?;
    for second in 1..=MOST_WRITES {
        let cuts = [number, second];
        let is_cut = goes_on(program, host, cut, cuts, &asks, &shows)?;
        goes_on(program, host, cut, cuts, "tamper\nboot\nstatus\n", DEAD)?;
        ends_in_zeros(host, "image", BBRAM_LENGTH)?;
        if !is_cut {
            return Ok(());
        }
    }
    Err("too many writes")?
}

/// What is printed once the case is opened.
const DEAD: &str = "tampered\nrefused 3 zeroised\nrefused 3 zeroised\n";

/// Power is lost in these writes of the event and of the boot that follows, and then the device is given these lines
/// and prints these replies. Answers whether the boot had that many writes.
fn goes_on(
    program: &impl Program,
    host: &mut MemoryHost,
    cut: &TwoCuts,
    cuts: [u32; 2],
    lines: &str,
    replies: &str,
) -> Result<bool, Fail> {
    let alloc = program.alloc();
    let [number, second] = cuts;
    write(alloc, host, "image", &[Part::File(cut.image)])?;
    let armed = format!(in alloc; "cut {number} fill 00\n")?;
    let rest = format!(in alloc; "cut {second} fill 00\nboot\n{lines}")?;
    write_script(alloc, host, cut, &armed, &rest)?;
    let seen = host.printed().len();
    let words = format!(in alloc; "run image script {}", cut.noise)?;
    let ended = status_of(program, host, &words)?;
    expect(ended == 0, format_args!("{words}: status {ended}"))?;
    let printed = host.printed().get(seen..).unwrap_or_default();
    let opened = cut.opened;
    let stopped = format!(in alloc; "{opened}armed\nstopped\narmed\nstopped\n{replies}")?;
    let booted = format!(in alloc; "{opened}armed\nstopped\narmed\nbooted\n{replies}")?;
    let is_cut = fit_one(printed, &[&stopped]);
    let is_right = is_cut || fit_one(printed, &[&booted]);
    let found = str::from_utf8(printed).unwrap_or_default();
    expect(
        is_right,
        format_args!("cuts {number} and {second}: {found}"),
    )?;
    Ok(is_cut)
}
