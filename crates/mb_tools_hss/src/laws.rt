//! A law of the inputs of the commands; and the separator of an endorsement, tied to its number.

ghost use Rattle.std.specs.Prelude.{ℕ, List};
ghost use Rattle.mb_model_commands.specs.Inputs.{IsClearInput};
ghost use Rattle.mb_tools_hss.specs.MakerInputs.{maker_noise_input, maker_input, hss_key_input, endorsement_input};
ghost use Rattle.mb_tools_hss.specs.NumberLaws.{EndorsementNumbersAre};

/// No input both means a value and is at fault, whichever of the commands reads it.
pub fn inputs_are_clear()
    ensures noise { (name : List ℕ) → IsClearInput (maker_noise_input name) }
    ensures key { (name : List ℕ) → IsClearInput (maker_input name) }
    ensures public { (name : List ℕ) → IsClearInput (hss_key_input name) }
    ensures endorsement { (name : List ℕ) → IsClearInput (endorsement_input name) }
{}

/// The domain separator of an endorsement is this number.
pub fn numbers_are()
    ensures { EndorsementNumbersAre }
{}
