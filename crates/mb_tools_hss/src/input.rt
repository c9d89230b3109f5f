//! The forms of a maker's file and of its public key.

use mb_console::{Form, Unread};
use mb_hss::{HssKey, Maker, read_hss_key, read_maker};
use mb_model_commands::Place;
use std::alloc::Global;

/// The file of a maker's key.
#[derive(Clone, Copy)]
pub struct MakerForm;

impl Form for MakerForm {
    ghost use Rattle.std.specs.Prelude.{[]};
    ghost use Rattle.mb_hss.specs.declared.maker.Maker.{Maker};
    ghost use Rattle.mb_hss.specs.MakerKeys.{IsMaker};
    ghost use Rattle.mb_tools_hss.specs.MakerInputs.{maker_input};

    type Value = Maker;

    ghost Meaning = { Maker };

    ghost meaning = { λ maker. maker };

    ghost Is = { λ form. (maker_input []).Is };

    ghost FaultyAt = { λ form. (maker_input []).FaultyAt };

    ghost Keeps = { IsMaker };

    fn read(self, _alloc: Global, bytes: Vec<u8>) -> Result<Maker, Unread> {
        match read_maker(&bytes) {
            Ok(maker) => Ok(maker),
            Err(bad) => Err(Unread::At(Place::At(bad.at))),
        }
    }
}

/// A maker's public key, of 1 to 8 levels.
#[derive(Clone, Copy)]
pub struct HssKeyForm;

impl Form for HssKeyForm {
    ghost use Rattle.std.specs.Prelude.{[], ◌≤◌};
    ghost use Rattle.mb_hss.specs.declared.limits.TheConstants.{LEVEL_LIMIT};
    ghost use Rattle.mb_hss.specs.declared.key.HssKey.{HssKey};
    ghost use Rattle.mb_tools_hss.specs.MakerInputs.{hss_key_input};

    type Value = HssKey;

    ghost Meaning = { HssKey };

    ghost meaning = { λ key. key };

    ghost Is = { λ form. (hss_key_input []).Is };

    ghost FaultyAt = { λ form. (hss_key_input []).FaultyAt };

    ghost Keeps = { λ key. (1 ≤ key.levels) × (key.levels ≤ LEVEL_LIMIT) };

    fn read(self, _alloc: Global, bytes: Vec<u8>) -> Result<HssKey, Unread> {
        match read_hss_key(&bytes) {
            Ok(key) => Ok(key),
            Err(bad) => Err(Unread::At(Place::At(bad.at))),
        }
    }
}
