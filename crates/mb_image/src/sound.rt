//! The state that stored contents mean, and whether a device can have it.

ghost use Rattle.std.specs.Prelude.{◌≡◌, ◌↔◌, ◌+◌, ◌≤◌, IfOk, IsTrue, MatchOption};
ghost use Rattle.mb_model.specs.owners.Log.{layers_of};
ghost use Rattle.mb_model.specs.memories.StoredLog.{HasIndex};
ghost use Rattle.mb_model.specs.memories.Meaning.{state_of_contents};
ghost use Rattle.mb_model.specs.memories.Faults.{AreSound};
ghost use Rattle.mb_signer.specs.Tree.{IsTreeOf};
ghost use Rattle.mb_image.specs.Stored.{contents_of, CanBeCompleted};
ghost use Rattle.mb_lms.specs.declared.hash_count.TheConstants.{LEAF_HASHES, SIGNING_HASHES};
ghost use Rattle.mb_image.specs.declared.image.TheConstants.{IMAGE_HASHES};

use crate::complete::completed;
use crate::fates::fated;
use crate::stored::Stored;
use crate::validity::is_valid;
use mb_lms::HashCount;
use mb_log::layers_of;
use mb_model::{NoMemory, Root, State};
use mb_signer::{KeptTree, public_kept};
use std::alloc::Global;
use std::sync::ledger::Ledger;

/// The state that stored contents mean, with all pending work done; `None` if the device key has no index for an entry
/// that it has still to sign, or no device can have the state.
pub(crate) fn sound_state<L: Ledger>(
    alloc: Global,
    stored: Stored,
    hashes: &mut HashCount<L>,
) -> Result<Option<State>, NoMemory>
    requires { CanBeCompleted (contents_of stored) }
    ensures state { IfOk result (λ state. MatchOption state (AreSound (contents_of stored) → ⊥) (λ s. AreSound (contents_of stored) × (s ≡ state_of_contents (contents_of stored)))) }
    ensures cost { hashes.new ≤ hashes.old + IMAGE_HASHES }
{
    if !has_index(&stored.root) {
        return Ok(None);
    }
    let tree = KeptTree::build(&stored.root.device, hashes);
    let device = public_kept(&tree, &stored.root.device);
    let state = state_of(alloc, stored, &tree, hashes)?;
    if is_valid(alloc, &state, &device, hashes)? {
        Ok(Some(state))
    } else {
        Ok(None)
    }
}

/// Whether the device key has an index for the entry that it has still to sign, if there is one.
fn has_index(root: &Root) -> bool
    ensures { IsTrue result ↔ HasIndex root.now root.now.pending }
{
    match &root.pending {
        None => true,
        Some(pending) => pending.outgoing.is_some() || root.uses != 0,
    }
}

/// The state that stored contents mean, by the tree of the device key.
#[tactic(auto, unfolding(mb_model::specs::memories::Meaning::state_of_contents))]
fn state_of<L: Ledger>(
    alloc: Global,
    stored: Stored,
    tree: &KeptTree,
    hashes: &mut HashCount<L>,
) -> Result<State, NoMemory>
    requires contents { CanBeCompleted (contents_of stored) }
    requires tree { IsTreeOf stored.root.device tree.now }
    ensures state { IfOk result (λ state. state ≡ state_of_contents (contents_of stored)) }
    ensures cost { hashes.new ≤ hashes.old + SIGNING_HASHES + LEAF_HASHES }
{
    let Stored {
        root,
        codes,
        signed,
        unsigned,
        two,
        three,
    } = stored;
    let log = completed(alloc, &root, tree, signed, unsigned.as_slice(), hashes)?;
    let two = fated(alloc, &root.fate_of_two(), two)?;
    let three = fated(alloc, &root.fate_of_three(), three)?;
    Ok(State {
        serial: root.serial,
        layers: layers_of(log.as_slice()),
        codes,
        log,
        device: root.device,
        uses: root.uses,
        two,
        three,
    })
}
