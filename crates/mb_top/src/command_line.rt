//! The whole program: its command line, and the texts of `--help` and `--version`.

ghost use Rattle.std.specs.Prelude.{◌≡◌, ◌↔◌, ◌∷◌, [], map, IfOk, IfErr, IsTrue, None, false, string_bytes};
ghost use Rattle.mb_model.specs.outside.Board.{Held};
ghost use Rattle.mb_model.specs.outside.Board.{not_used, use_of};
ghost use Rattle.mb_model_commands.specs.Commands.{PrintEnds, Stops, at_first};
ghost use Rattle.mb_console.specs.Ending.{ended_at, end_line, end_status};
ghost use Rattle.mb_top.specs.Program.{ProgramEnds, end_without};
ghost use Rattle.mb_top.specs.Top.{HoldsAtStatus};
ghost use Rattle.mb_top.specs.Usage.{usage};

use crate::commands::top;
use crate::table::{GROUPS, Usage, put, put_groups};
use arrayvec::ArrayVec;
use mb_board::Board;
use mb_console::{End, is_word, stop};
use mb_host::Host;
use std::alloc::Global;

/// The beginning of the text that `--help` prints.
pub const HEAD: &str =
    "miniboot simulates a secure coprocessor, and provides the tools of its maker, owners and verifiers.
";

/// The end of the text that `--help` prints.
pub const STATUSES: &str = "
to learn of the program:
  miniboot --help
      prints this text
  miniboot --version
      prints the version

status: 0 done, 2 usage error, 3 malformed input, 4 an input could not be read,
        5 an output could not be written, 6 an allocation failed, 7 the command is refused
";

/// The text that `--version` prints.
pub const VERSION: &[u8] = b"miniboot 0.2.0\n";

/// Why the words of the command line could not be read.
#[derive(Clone, Copy, Debug, PartialEq, Eq)]
pub enum NoWords {
    /// A word is not text, so the words are no command.
    NotText,
    /// An allocation failed.
    NoMemory,
}

/// Runs the program on the words of its command line, without the program's name, and answers the exit status. The word
/// `--help` or `--version` alone is answered here, and all other words by `top`.
pub fn program<H: Host, B: Board>(
    alloc: Global,
    words: Result<Vec<String>, NoWords>,
    host: &mut H,
    board: &mut B,
) -> u8
    requires off { (B.seen board.old).power ≡ false }
    requires none_out { (B.seen board.old).ledger.out ≡ None }
    requires none_waiting { (B.seen board.old).ledger.waiting ≡ [] }
    requires never_used { use_of (B.seen board.old).ledger ≡ not_used }
    ensures words { IfOk words (λ words. ProgramEnds usage VERSION.now (map string_bytes words.items)
        (ended_at (H.outside host.old) (use_of (B.seen board.new).ledger) (B.seen board.new).ledger.standing
        (H.outside host.new) result)) }
    ensures none { IfErr words (λ why. Stops (end_line (end_without why)) (end_status (end_without why)) at_first
        (ended_at (H.outside host.old) (use_of (B.seen board.new).ledger) (B.seen board.new).ledger.standing
        (H.outside host.new) result)) }
    ensures stays { IfOk words (λ words. HoldsAtStatus (map string_bytes words.items) result (B.seen board.old) (B.seen board.new)) }
    ensures idle { IfErr words (λ why. B.seen board.new ≡ B.seen board.old) }
{
    match words {
        Ok(words) => answer(alloc, &words, host, board),
        Err(NoWords::NotText) => stop(host, End::Words),
        Err(NoWords::NoMemory) => stop(host, End::NoMemory),
    }
}

/// Answers `--help` and `--version`, and hands all other words to `top`.
fn answer<H: Host, B: Board>(alloc: Global, words: &[String], host: &mut H, board: &mut B) -> u8
    requires off { (B.seen board.old).power ≡ false }
    requires none_out { (B.seen board.old).ledger.out ≡ None }
    requires none_waiting { (B.seen board.old).ledger.waiting ≡ [] }
    requires never_used { use_of (B.seen board.old).ledger ≡ not_used }
    ensures carried { ProgramEnds usage VERSION.now (map string_bytes words.now)
        (ended_at (H.outside host.old) (use_of (B.seen board.new).ledger) (B.seen board.new).ledger.standing
        (H.outside host.new) result) }
    ensures stays { HoldsAtStatus (map string_bytes words.now) result (B.seen board.old) (B.seen board.new) }
{
    if is_one_word(words, "--help") {
        tell(host, usage().as_slice())
    } else if is_one_word(words, "--version") {
        tell(host, VERSION)
    } else {
        top(alloc, words, host, board)
    }
}

/// The text that `--help` prints.
fn usage() -> Usage
    ensures { result.items ≡ usage }
{
    let mut text = ArrayVec::new();
    put(&mut text, HEAD);
    put_groups(&mut text, &GROUPS);
    put(&mut text, STATUSES);
    text
}

/// Whether the words are this one alone.
fn is_one_word(words: &[String], wanted: &str) -> bool
    ensures { IsTrue result ↔ (map string_bytes words.now ≡ wanted.now ∷ []) }
{
    let [word] = words else {
        return false;
    };
    is_word(word, wanted)
}

/// Prints a text, and answers the exit status.
fn tell<H: Host>(host: &mut H, text: &[u8]) -> u8
    ensures { (final : Held) → PrintEnds text.now at_first (ended_at (H.outside host.old) not_used final (H.outside host.new) result) }
{
    match host.print(text) {
        Ok(()) => 0,
        Err(_) => stop(host, End::NotPrinted),
    }
}
