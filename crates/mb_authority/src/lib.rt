//! Who may give an order and when, and the layers after a change.
//!
//! This crate owns the rules of layers: the key under which an order has to verify, the target that fails, the state of
//! the layers that an order needs, the changes that a layer admits, and the layers and the kept regions afterwards. Its
//! calls take a kind of change and a layer, so that they serve orders and log entries alike. No call takes memory.
#![tactic(auto)]

mod changes;
mod kinds;
mod layers;
mod rights;
mod targets;

pub use changes::{admits, after, kept_regions, layer_from_order, may_cosign};
pub use kinds::{change_by, renews};
pub use layers::{is_in, is_owned, is_runnable, layer_of};
pub use rights::{authority, stands_for_order};
pub use targets::target_fails;
