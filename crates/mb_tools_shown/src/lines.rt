//! Lines that are appended to a text.

ghost use Rattle.std.specs.Prelude.{◌≡◌, ◌++◌, OnOk};
ghost use Rattle.mb_model.specs.chains.Lines.{text_of};
ghost use Rattle.mb_tools_shown.specs.LayersShown.{layers_shown};

use mb_model::{Layers, NoMemory};
use mb_verifier::layer_line;
use std::alloc::Global;

/// Appends a text.
pub(crate) fn put(text: &str, out: &mut Vec<u8>) -> Result<(), NoMemory>
    ensures { OnOk result (out.new.items ≡ out.old.items ++ text.now) }
{
    out.extend_from_slice(text.as_bytes())?;
    Ok(())
}

/// Appends the lines of the three layers.
pub(crate) fn put_layers(alloc: Global, layers: &Layers, out: &mut Vec<u8>) -> Result<(), NoMemory>
    ensures { OnOk result (out.new.items ≡ out.old.items ++ text_of (layers_shown layers.now)) }
{
    let one = layer_line(alloc, 1, &layers.one)?;
    put(one.as_str(), out)?;
    let two = layer_line(alloc, 2, &layers.two)?;
    put(two.as_str(), out)?;
    let three = layer_line(alloc, 3, &layers.three)?;
    put(three.as_str(), out)
}
