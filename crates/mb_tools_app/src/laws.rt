//! Laws of the definitions, as the contracts of functions that do nothing.

ghost use Rattle.std.specs.Prelude.{ℕ, List};
ghost use Rattle.mb_model_commands.specs.Inputs.{IsClearInput};
ghost use Rattle.mb_tools_app.specs.AppInputs.{app_input, assembly_input, listing_input};
ghost use Rattle.mb_tools_app.specs.Seeing.{AppSeesNothingElse};
ghost use Rattle.mb_tools_app.specs.AppcodeCommand.{AppcodeRunsAsApp};
ghost use Rattle.mb_tools_app.specs.CallcodeCommand.{secrets_input};

/// No input both means a value and is at fault.
pub fn inputs_are_clear()
    ensures app { (name : List ℕ) → IsClearInput (app_input name) }
    ensures assembly { (name : List ℕ) → IsClearInput (assembly_input name) }
    ensures listing { (name : List ℕ) → IsClearInput (listing_input name) }
    ensures secrets { (name : List ℕ) → IsClearInput (secrets_input name) }
{}

/// Devices that agree on their layers, on the code of a layer and on the secrets of the regions not below it give `app`
/// the same ends and the same line.
pub fn app_sees_nothing_else()
    ensures { AppSeesNothingElse }
{}

/// `appcode` ends as `app` does on a device whose layers may all run, which has no secrets in region 3, and whose layer
/// 3 has the code.
pub fn appcode_runs_as_app()
    ensures { AppcodeRunsAsApp }
{}
