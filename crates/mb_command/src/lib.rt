//! Orders as bytes, both ways.
//!
//! This crate owns the reading of an order from the bytes of a `command` event, its writing, and the part of it that
//! owners sign. How orders are spelled is `order_format` of `mb_model`; the parts that orders have in common with
//! other records are read and written by `mb_bytes`.
#![tactic(auto)]

mod act;
mod begun;
mod body;
mod countersignatures;
mod end;
mod kind;
mod order;
mod reader;
mod signed;
mod stuck;
mod survey;
mod survey_act;
mod survey_body;
mod survey_fields;
mod targets;

pub use body::body_length;
pub use end::OrderEnd;
pub use order::{ORDER_LIMIT, read_order, write_order};
pub use reader::OrderReader;
pub use signed::{order_body, signed_prefix};
