//! Plays: words that a program is given one after another over a host in memory, how each ends, and what files then
//! hold. Also the device, its officers and their orders, with which the plays of most commands begin.
//!
//! This crate is for tests alone: its calls compare, and say what differs. It depends on no program, so it is proved
//! before one is. It expects values of another program, `peers/`.
#![tactic(auto)]

mod births;
mod cuts;
mod endorsement;
mod files;
mod hostile;
mod lives;
mod play;
mod sights;
mod step;

pub use births::{
    IMAGE, MAKER, OWNER, SERIAL, ZEROS_KEY, ZEROS_PUBLIC, new_device_goes_through, owned,
    owned_device_goes_through,
};
pub use endorsement::{FOREIGN_ENDORSEMENT, FOREIGN_KEY};
pub use files::{file_of, host_with, slice, store, write};
pub use lives::{A_NEW_DEVICE, A_WHOLE_LIFE, ANOTHER_DEVICE, ITS_CHAIN, ITS_LISTING};
pub use play::{Program, ends, go_on, go_through, perform};
pub use step::{Access, Content, Cut, Given, Part, Play, ShortFile, Step, Told, TwoCuts};
