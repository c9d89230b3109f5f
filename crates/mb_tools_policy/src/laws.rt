//! Laws of the inputs of the command.

ghost use Rattle.std.specs.Prelude.{ℕ, List};
ghost use Rattle.mb_model_commands.specs.Inputs.{IsClearInput};
ghost use Rattle.mb_tools_policy.specs.Inputs.{policy_input};

/// No policy both means its items and is at fault.
pub fn inputs_are_clear()
    ensures { (name : List ℕ) → IsClearInput (policy_input name) }
{}
