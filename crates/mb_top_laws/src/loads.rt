//! Laws of how often commands load a board.

ghost use Rattle.mb_model_commands.specs.Commands.{Ended};
ghost use Rattle.mb_top_laws.specs.LoadLaws.{NothingIsLoaded, LoadsOnce, LoadsTwice};

/// A command that serves no device loads no board. If they are done, `run`, `rehearse` and `generate` have loaded one
/// once, and `cutat` twice. At status 3 and 4 they have loaded none; at a higher status none, or as often as if they
/// were done, and `cutat` at status 6 also once.
pub fn loads_are_counted()
    ensures none { (ending : Ended) → NothingIsLoaded ending }
    ensures once { (ending : Ended) → LoadsOnce ending }
    ensures twice { (ending : Ended) → LoadsTwice ending }
{}
