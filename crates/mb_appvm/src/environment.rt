//! What a run sees.

ghost use Rattle.std.specs.Prelude.{◌≡◌, MatchOption};
ghost use Rattle.mb_model.specs.owners.Layers.{is_runnable};
ghost use Rattle.mb_model.specs.application.Runs.{is_readable, readable_secrets};
ghost use Rattle.mb_appvm.specs.Acting.{secrets_of, MayNotRead, MayRead};

use mb_model::{Layers, Region, Secret};

/// The secrets that a run may read.
#[derive(Clone, Copy)]
pub struct Readable<'a> {
    /// Those of region 2; none if the run may not read it.
    pub two: Option<&'a [Secret]>,
    /// Those of region 3; none if the run may not read it.
    pub three: Option<&'a [Secret]>,
}

impl<'a> Readable<'a> {
    /// What the code of a layer may read on a device with these layers and these regions of layers 2 and 3: each region
    /// that is not below the layer and whose layer may run.
    pub fn of(layer: u8, layers: &Layers, two: &'a Region, three: &'a Region) -> Readable<'a>
        ensures { secrets_of result ≡ readable_secrets layers.now layer two.now three.now }
    {
        Readable {
            two: if is_readable(layers, layer, 2) {
                Some(two.secrets.as_slice())
            } else {
                None
            },
            three: if is_readable(layers, layer, 3) {
                Some(three.secrets.as_slice())
            } else {
                None
            },
        }
    }
}

/// The code, the input and the secrets that a run sees.
#[derive(Clone, Copy)]
pub struct Environment<'a> {
    pub(crate) code: &'a [u8],
    pub(crate) input: &'a [u8],
    pub(crate) readable: Readable<'a>,
}

impl<'a> Environment<'a> {
    /// The secrets of a region; `None` if the run may not read it.
    pub(crate) fn secrets(&self, region: u32) -> Option<&'a [Secret]>
        ensures { MatchOption result (MayNotRead self.now region) (λ secrets. MayRead self.now region secrets.now) }
    {
        match region {
            2 => self.readable.two,
            3 => self.readable.three,
            _ => None,
        }
    }
}

/// Whether the layer may read the region: it is 2 or 3, not below the layer, and names a layer that may run.
fn is_readable(layers: &Layers, layer: u8, region: u32) -> bool
    ensures { result ≡ is_readable layers.now layer region }
{
    (region == 2 || region == 3) && (u32::from(layer) <= region && is_runnable(layers, region))
}

/// Whether layers 1 to `layer` are all reliable.
fn is_runnable(layers: &Layers, layer: u32) -> bool
    ensures { result ≡ is_runnable layers.now layer }
{
    layers.one.reliable
        && (layer < 2 || layers.two.reliable)
        && (layer < 3 || layers.three.reliable)
}
