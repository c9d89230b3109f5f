//! Laws of the definitions, as the contracts of functions that do nothing.

ghost use Rattle.std.specs.Prelude.{ℕ, List};
ghost use Rattle.mb_model_commands.specs.Inputs.{IsClearInput};
ghost use Rattle.mb_tools_device.specs.CutCommand.{uncut_script_input};
ghost use Rattle.mb_tools_device.specs.CutOutcomes.{CutsCountWhollyOrNotAtAll};
ghost use Rattle.mb_tools_device.specs.MachineRuns.{PlainRunsAreTheMachines};

/// A run without power losses, in which memory is found, is the machine's own.
#[tactic(auto, using(crate::proofs::MachineLemmas::run_is_machine))]
pub fn plain_runs_are_the_machines()
    ensures { PlainRunsAreTheMachines }
{}

/// What `cutat` prints as `new` is the machine's state after the last event of the script, if no allocation failed in
/// either run.
pub fn cuts_count_wholly_or_not_at_all()
    ensures { CutsCountWhollyOrNotAtAll }
{}

/// No script of `cutat` both means events and is at fault.
pub fn uncut_scripts_are_clear()
    ensures { (name : List ℕ) → IsClearInput (uncut_script_input name) }
{}
