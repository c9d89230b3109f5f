//! Laws of the inputs of commands.

ghost use Rattle.std.specs.Prelude.{ℕ, List};
ghost use Rattle.mb_model.specs.declared.event.Event.{Event};
ghost use Rattle.mb_model_commands.specs.MigrateCommand.{old_image_input};
ghost use Rattle.mb_model_commands.specs.Inputs.{IsClearInput, key_noise_input, birth_noise_input, key_input, owner_input, code_input, draft_input, order_input, image_input, script_input, root_input, chain_input, chain_bytes_input, statement_input, draws_input};

/// No input of a command both has a value and is at fault.
pub fn inputs_are_clear()
    ensures key_noise { (name : List ℕ) → IsClearInput (key_noise_input name) }
    ensures birth_noise { (name : List ℕ) → IsClearInput (birth_noise_input name) }
    ensures key { (name : List ℕ) → IsClearInput (key_input name) }
    ensures owner { (name : List ℕ) → IsClearInput (owner_input name) }
    ensures code { (name : List ℕ) → IsClearInput (code_input name) }
    ensures draft { (name : List ℕ) → IsClearInput (draft_input name) }
    ensures order { (name : List ℕ) → IsClearInput (order_input name) }
    ensures image { (name : List ℕ) → IsClearInput (image_input name) }
    ensures old_image { (name : List ℕ) → IsClearInput (old_image_input name) }
    ensures script { (name : List ℕ) → IsClearInput (script_input name) }
    ensures root { (name : List ℕ) → IsClearInput (root_input name) }
    ensures chain { (name : List ℕ) → IsClearInput (chain_input name) }
    ensures chain_bytes { (name : List ℕ) → IsClearInput (chain_bytes_input name) }
    ensures statement { (name : List ℕ) → IsClearInput (statement_input name) }
    ensures noise { (events : List Event) (name : List ℕ) → IsClearInput (draws_input events name) }
{}
