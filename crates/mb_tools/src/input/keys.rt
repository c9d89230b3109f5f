//! The forms of the keys among the inputs, and of the noise that keys and devices are made from.

use mb_bytes::read_public_key;
use mb_console::{Form, Unread};
use mb_model::{Keyfile, PublicKey};
use mb_model_commands::Place;
use mb_officer::read_keyfile;
use std::alloc::Global;

/// Bytes whose first N count; these have to be there.
#[derive(Clone, Copy)]
pub struct Leading<const N: usize>;

impl<const N: usize> Form for Leading<N> {
    ghost use Rattle.std.specs.Prelude.{ℕ, List, []};
    ghost use Rattle.mb_model_commands.specs.declared.role.Role.TheVariants.{Noise};
    ghost use Rattle.mb_model_commands.specs.Inputs.{leading_input};

    type Value = [u8; N];

    ghost Meaning = { List ℕ };

    ghost meaning = { λ noise. noise };

    ghost Is = { λ form. (leading_input Noise N []).Is };

    ghost FaultyAt = { λ form. (leading_input Noise N []).FaultyAt };

    ghost Keeps = { λ noise. Unit {0} };

    fn read(self, _alloc: Global, bytes: Vec<u8>) -> Result<[u8; N], Unread> {
        match bytes.first_chunk::<N>() {
            Some(leading) => Ok(*leading),
            None => Err(Unread::At(Place::Length)),
        }
    }
}

/// The file of an officer's key.
#[derive(Clone, Copy)]
pub struct KeyForm;

impl Form for KeyForm {
    ghost use Rattle.std.specs.Prelude.{[]};
    ghost use Rattle.mb_model.specs.declared.tools.Keyfile.{Keyfile};
    ghost use Rattle.mb_model_commands.specs.Inputs.{key_input};

    type Value = Keyfile;

    ghost Meaning = { Keyfile };

    ghost meaning = { λ key. key };

    ghost Is = { λ form. (key_input []).Is };

    ghost FaultyAt = { λ form. (key_input []).FaultyAt };

    ghost Keeps = { λ key. Unit {0} };

    fn read(self, _alloc: Global, bytes: Vec<u8>) -> Result<Keyfile, Unread> {
        match read_keyfile(&bytes) {
            Ok(key) => Ok(key),
            Err(bad) => Err(Unread::At(Place::At(bad.at))),
        }
    }
}

/// The file of a public key.
#[derive(Clone, Copy)]
pub struct PublicKeyForm;

impl Form for PublicKeyForm {
    ghost use Rattle.std.specs.Prelude.{[]};
    ghost use Rattle.mb_model.specs.declared.key.PublicKey.{PublicKey};
    ghost use Rattle.mb_model_commands.specs.Inputs.{root_input};

    type Value = PublicKey;

    ghost Meaning = { PublicKey };

    ghost meaning = { λ key. key };

    ghost Is = { λ form. (root_input []).Is };

    ghost FaultyAt = { λ form. (root_input []).FaultyAt };

    ghost Keeps = { λ key. Unit {0} };

    fn read(self, _alloc: Global, bytes: Vec<u8>) -> Result<PublicKey, Unread> {
        match read_public_key(&bytes) {
            Ok(key) => Ok(key),
            Err(bad) => Err(Unread::At(Place::At(bad.at))),
        }
    }
}
