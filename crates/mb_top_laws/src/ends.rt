//! Laws of two ends of one command, as two programs that meet its definition reach them.

ghost use Rattle.std.specs.Prelude.{ℕ, List};
ghost use Rattle.mb_console.specs.Words.{Argument};
ghost use Rattle.mb_top_laws.specs.EndLaws.{CommandsAreDetermined, DisturbedEndsDiffer, RunsAgree, LackingRunsDiffer, ImagesMayDiffer};

/// Two programs that meet the definition of a command do the same from the same files, as long as no call of the host
/// and no allocation fails. A command that serves no device leaves the same status, the same printed bytes and the same
/// files. So does `run`, if memory is found and power holds at each event, but for the bytes of the image: there may be
/// two images of the same state.
pub fn ends_are_determined()
    ensures commands { CommandsAreDetermined }
    ensures disturbed { (given : List Argument) (printed : List ℕ) → DisturbedEndsDiffer given printed }
    ensures runs { RunsAgree }
    ensures lacking { (printed : List ℕ) → LackingRunsDiffer printed }
    ensures images { (printed : List ℕ) → ImagesMayDiffer printed }
{}
