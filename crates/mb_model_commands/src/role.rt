//! The inputs and outputs of commands, and where an input is at fault.

/// An input or an output of a command, by the word that names it.
#[derive(Clone, Copy, Debug, PartialEq, Eq)]
pub enum Role {
    Image,
    Script,
    Noise,
    Root,
    Chain,
    Statement,
    Owner,
    Code,
    Key,
    Public,
    Draft,
    Order,
    Out,
    Endorsement,
    Policy,
    Input,
    Text,
    Register,
    Items,
}

/// Where an input is at fault.
#[derive(Clone, Copy, Debug, PartialEq, Eq)]
pub enum Place {
    /// The input is too short, or does not have the length that it must have.
    Length,
    /// The field that begins at this offset, from 0, or the first byte after the last field.
    At(u32),
    /// The line with this number, from 1.
    Line(u32),
    /// The root record of an image, or the bytes that say whether the device is alive.
    Root,
    /// The public record of an image.
    Public,
    /// The record of region 2 or 3 of an image.
    Region(u8),
    /// The state that an image means.
    State,
}
