//! What the definitions give for whole histories of devices: who decides in them, what is signed, what can be seen, and
//! what an accepted statement tells.
//!
//! This crate owns no type and does nothing when it runs. Each law stands on a function with an empty body.
#![tactic(auto)]

mod acceptance;
mod agreement;
mod histories;
mod keys;
mod noise;
mod owners;
mod power;
mod repair;
mod sight;
mod targets;
mod texts;
mod uses;

pub use acceptance::accepted_statements_were_made;
pub use agreement::{
    honest_chains_agree, honest_chains_tell_of_one_device, longer_chains_list_more,
};
pub use histories::{
    calls_make_a_history, histories_are_runs, histories_are_sound, histories_begin_at_a_birth,
    replayed_images_sign_again,
};
pub use keys::{key_files_sign_once, keys_differ};
pub use noise::noise_matters_to_keys_alone;
pub use owners::{only_owners_decide, owners_stay, regions_keep_their_owner, values_are_admitted};
pub use power::{power_losses_reach_nothing_new, runs_are_determined};
pub use repair::{live_devices_come_to_layer_one, owners_beneath_can_always_act};
pub use sight::{
    chains_tell_of_the_log_alone, hidden_values_are_not_seen, what_is_beneath_is_out_of_sight,
};
pub use targets::{free_loads_come_again, logs_have_room, targets_bind_orders};
pub use texts::signed_texts_are_apart;
pub use uses::devices_can_be_used;
