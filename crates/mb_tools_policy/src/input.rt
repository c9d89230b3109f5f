//! The form of a policy among the inputs.

use mb_console::{Form, Unread};
use mb_model_commands::Place;
use mb_policy::{Policy, PolicyEnd, read_policy};
use std::alloc::Global;

/// A relying party's policy.
#[derive(Clone, Copy)]
pub struct PolicyForm;

impl Form for PolicyForm {
    ghost use Rattle.std.specs.Prelude.{List, []};
    ghost use Rattle.mb_policy.specs.Policies.{PolicyItem};
    ghost use Rattle.mb_policy.specs.Meanings.{policy_items};
    ghost use Rattle.mb_tools_policy.specs.Inputs.{policy_input};

    type Value = Policy;

    ghost Meaning = { List PolicyItem };

    ghost meaning = { λ policy. policy_items policy };

    ghost Is = { λ form. (policy_input []).Is };

    ghost FaultyAt = { λ form. (policy_input []).FaultyAt };

    ghost Keeps = { λ policy. Unit {0} };

    fn read(self, alloc: Global, bytes: Vec<u8>) -> Result<Policy, Unread> {
        match read_policy(alloc, &bytes) {
            Ok(policy) => Ok(policy),
            Err(PolicyEnd::BadLine { line }) => Err(Unread::At(Place::Line(line))),
            Err(PolicyEnd::NoMemory) => Err(Unread::NoMemory),
        }
    }
}
