//! Secrets by their names.

ghost use Rattle.std.specs.Prelude.{◌≡◌, true, false, find, position};
ghost use Rattle.mb_model.specs.machine.LayerEvents.{has_name, value_reply};
ghost use Rattle.mb_device_regions.specs.Secrets.{IsKeptRegion, PutOf, DropOf};

use crate::end::NotPut;
use mb_model::{Region, Reply, SECRET_LIMIT, Secret};

/// Whether the secret has the name.
fn is_named(secret: &Secret, name: &[u8]) -> bool
    ensures { result ≡ has_name name.now secret.now }
{
    secret.name.as_slice() == name
}

/// The position of the first secret with the name.
fn position_of(secrets: &[Secret], name: &[u8]) -> Option<usize>
    ensures { result ≡ position (has_name name.now) secrets.now }
{
    secrets.iter().position(|secret| is_named(secret, name))
}

/// Puts the secret in place of the one that has its name, or else after all others.
pub(crate) fn put_in(region: &mut Region, secret: Secret) -> Result<(), NotPut>
    requires { IsKeptRegion region.old }
    ensures { PutOf region.old secret result region.new }
{
    let count = region.secrets.as_slice().len();
    match position_of(region.secrets.as_slice(), secret.name.as_slice()) {
        Some(at) => {
            let _old = region.secrets.set(at as u32, secret);
            Ok(())
        }
        None if count >= SECRET_LIMIT as usize => Err(NotPut::Full),
        None => Ok(region.secrets.push(secret)?),
    }
}

/// Removes the secret with the name; false if there is none.
pub(crate) fn drop_in(region: &mut Region, name: &[u8]) -> bool
    requires { IsKeptRegion region.old }
    ensures { DropOf region.old name.now result region.new }
{
    match position_of(region.secrets.as_slice(), name) {
        Some(at) => {
            let _old = region.secrets.remove(at as u32);
            true
        }
        None => false,
    }
}

/// The answer to a get: the value of the secret with the name, or that there is none.
pub(crate) fn value_in(mut region: Region, name: &[u8]) -> Reply
    requires { IsKeptRegion region }
    ensures { result ≡ value_reply (find (has_name name.now) region.secrets) }
{
    match position_of(region.secrets.as_slice(), name) {
        Some(at) => Reply::Value(region.secrets.remove(at as u32).value),
        None => Reply::Absent,
    }
}
