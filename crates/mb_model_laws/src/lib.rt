//! What the definitions of the machine give: laws of layers, logs, keys, regions, memories, chains and texts.
//!
//! This crate owns no type and does nothing when it runs, and no crate stands on it, so that no other crate has to be
//! proved anew for a new law. Each law stands on a function with an empty body.
#![tactic(auto)]

mod alive;
mod chains;
mod inputs;
mod laws;
mod meaning;
mod reader;
mod refusals;
mod regions;
mod sectors;
mod segments;
mod signing;
mod steps;
mod texts;
mod trusts;

pub use alive::{
    alive_keys_are_alive, alive_keys_follow_the_log, alive_keys_live_now, key_numbers_increase,
    lives_follow_the_log,
};
pub use chains::{
    accepted_chains_obey_the_rules, chains_have_one_verdict, honest_chains_tell_of_their_device,
};
pub use inputs::inputs_are_clear;
pub use laws::{
    layers_stay_layers, orders_and_entries_agree, regions_stay_kept_rightly,
    ruled_logs_are_bounded, ruled_logs_have_layers, runs_over_reliable, the_last_counts,
    unreliable_regions_are_empty,
};
pub use meaning::{
    clean_memories_stand_for_it, factory_images_are_well_formed, images_are_clear,
    old_images_are_clear, one_meaning, written_images_are_well_formed,
};
pub use reader::{a_key_is_met_once, a_key_lives_on, the_flag_is_life};
pub use refusals::{orders_fail_one_check, refusals_leave_all, the_machine_is_a_function};
pub use regions::{
    fates_are_done_once, layers_keep_regions_valid, layers_keep_states_valid, orders_are_fates,
    orders_keep_regions_valid, region_keys_are_alive, region_keys_have_numbers, regions_stay_valid,
    valid_states_have_valid_regions,
};
pub use sectors::sectors_are_apart;
pub use segments::{
    agreeing_flashes_hold_the_same, free_places_can_be_written, held_segments_fit,
    order_writes_are_held, segments_hold_one, settling_writes_are_held,
    written_flashes_hold_what_was_written,
};
pub use signing::{
    keys_are_sized, nodes_are_leaves_or_inner, signatures_bear_their_index, signatures_verify,
};
pub use steps::{orders_append_their_entry, states_stay_valid};
pub use texts::{
    call_numbers_are, drafts_are_clear, draws_in_turn, events_are_bounded, one_workload,
    order_lines_are_clear, refusals_have_words, replies_differ, script_events, scripts_are_clear,
    texts_have_lines, words_are_read_back,
};
pub use trusts::{
    each_layer_is_trusted_by_itself, trusts_are_given_in_one_form, version_one_has_equal_trusts,
    versions_only_rise,
};
