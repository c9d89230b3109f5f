//! The secrets of a region while the demands of a call are done: a list of slices, which takes no memory.

ghost use Rattle.std.specs.Prelude.{◌≡◌, ◌≤◌, length, position};
ghost use Rattle.arrayvec.specs.ArrayVec.{array_vec_len};
ghost use Rattle.mb_model.specs.declared.limits.TheConstants.{SECRET_LIMIT};
ghost use Rattle.mb_model.specs.machine.LayerEvents.{has_name};
ghost use Rattle.mb_device_regions.specs.Demands.{shown_secret, shown_secrets, AreKept, KeepsIn, without_name};

use arrayvec::ArrayVec;
use mb_model::{SECRET_LIMIT, Secret};

/// The most secrets that are listed.
const MOST: usize = SECRET_LIMIT as usize;

/// A secret whose name and value lie elsewhere: in the region as it is stored, or in the output of a run.
#[derive(Clone, Copy)]
pub struct Shown<'a> {
    pub name: &'a [u8],
    pub value: &'a [u8],
    /// The configuration number at which it was put.
    pub born: u32,
}

impl Default for Shown<'_> {
    fn default() -> Self {
        Shown {
            name: &[],
            value: &[],
            born: 0,
        }
    }
}

/// The secrets of a region, in their order.
pub type Listed<'a> = ArrayVec<Shown<'a>, MOST>;

/// The secret, where it lies.
fn show(secret: &Secret) -> Shown<'_>
    ensures { shown_secret result ≡ secret.now }
{
    Shown {
        name: secret.name.as_slice(),
        value: secret.value.as_slice(),
        born: secret.born,
    }
}

/// A list of the secrets, at most 22.
pub fn list<'a>(secrets: &'a [Secret]) -> Listed<'a>
    requires { length secrets.now ≤ SECRET_LIMIT }
    ensures { shown_secrets result.items ≡ secrets.now }
{
    let mut listed = ArrayVec::new();
    for secret in secrets {
        listed.push(show(secret));
    }
    listed
}

/// Whether the secret has the name.
fn is_named(shown: &Shown<'_>, name: &[u8]) -> bool
    ensures { result ≡ has_name name.now (shown_secret shown.now) }
{
    shown.name == name
}

/// The index of the first secret with the name.
fn place_of(listed: &[Shown<'_>], name: &[u8]) -> Option<usize>
    ensures { result ≡ position (λ shown. has_name name.now (shown_secret shown)) listed.now }
{
    listed.iter().position(|shown| is_named(shown, name))
}

/// Puts the secret in place of the one that has its name, or else after all others; false if there are 22 others.
pub(crate) fn keep<'a>(listed: &mut Listed<'a>, secret: Shown<'a>) -> bool
    requires { AreKept (shown_secrets listed.old.items) }
    ensures { KeepsIn (shown_secret secret.entry) (shown_secrets listed.old.items) result (shown_secrets listed.new.items) }
{
    let count = listed.len();
    match place_of(listed.as_slice(), secret.name) {
        Some(at) => {
            listed[at] = secret;
            true
        }
        None if count >= MOST => false,
        None => {
            listed.push(secret);
            true
        }
    }
}

/// Removes the secret with the name, if there is one.
pub(crate) fn discard(listed: &mut Listed<'_>, name: &[u8])
    requires { AreKept (shown_secrets listed.old.items) }
    ensures { shown_secrets listed.new.items ≡ without_name name.now (shown_secrets listed.old.items) }
{
    if let Some(at) = place_of(listed.as_slice(), name) {
        let _ = listed.remove(at);
    }
}
