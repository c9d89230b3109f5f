//! What `get` does.

ghost use Rattle.std.specs.Prelude.{◌≡◌, ◌↔◌, ◌+◌, ◌<◌, ◌≤◌, ◌++◌, position, take, drop, length};
ghost use Rattle.std.specs.Prelude.{IsTrue, IfSome, MatchOption};
ghost use Rattle.arrayvec.specs.ArrayVec.{array_vec_len};
ghost use Rattle.mb_model.specs.machine.LayerEvents.{has_name};
ghost use Rattle.mb_model.specs.declared.limits.TheConstants.{STACK_LIMIT, MEMORY_LENGTH};
ghost use Rattle.mb_appvm.specs.Acting.{surroundings_of, DoesOn, LacksSecret, HasSecret};
ghost use Rattle.mb_model.specs.declared.instruction.Instruction.TheVariants as instruction;

use crate::environment::Environment;
use crate::machine::{Machine, Step};
use mb_model::{MEMORY_LENGTH, Secret, Trap};

impl Machine {
    /// Takes a region and an address, copies the named secret to memory from there, and pushes its length, or
    /// 4,294,967,295 if the region has no such secret.
    pub(crate) fn get(&mut self, name: &[u8], next: u32, environment: &Environment<'_>) -> Step
        requires enough { 2 ≤ array_vec_len self.old.stack }
        requires room { array_vec_len self.old.stack ≤ STACK_LIMIT }
        ensures { DoesOn (surroundings_of environment.now) (instruction.Get name.now) next self.old result self.new }
    {
        let region = self.pop();
        let address = self.pop();
        let Some(secrets) = environment.secrets(region) else {
            self.push(address);
            self.push(region);
            return Step::Traps(Trap::BadRegion);
        };
        let Some(value) = value_of(secrets, name) else {
            self.push(u32::MAX);
            return self.go(next);
        };
        if !has_room(address, value) {
            self.push(address);
            self.push(region);
            return Step::Traps(Trap::BadAddress);
        }
        write(&mut self.memory, address as usize, value);
        self.push(value.len() as u32);
        self.go(next)
    }
}

/// The value of the first secret with the name.
pub(crate) fn value_of<'a>(secrets: &'a [Secret], name: &[u8]) -> Option<&'a [u8]>
    ensures { MatchOption result (LacksSecret name.now secrets.now) (λ value. HasSecret name.now secrets.now value.now) }
{
    match place_of(secrets, name) {
        Some(at) => Some(secrets[at].value.as_slice()),
        None => None,
    }
}

/// The index of the first secret with the name.
fn place_of(secrets: &[Secret], name: &[u8]) -> Option<usize>
    ensures place { result ≡ position (has_name name.now) secrets.now }
    ensures within { IfSome result (λ at. at < length secrets.now) }
{
    secrets.iter().position(|secret| is_named(secret, name))
}

/// Whether the secret has the name.
pub(crate) fn is_named(secret: &Secret, name: &[u8]) -> bool
    ensures { result ≡ has_name name.now secret.now }
{
    secret.name.as_slice() == name
}

/// Whether the bytes fit into memory from an address on.
pub(crate) fn has_room(address: u32, bytes: &[u8]) -> bool
    ensures { IsTrue result ↔ (address + length bytes.now ≤ MEMORY_LENGTH) }
{
    bytes.len() <= MEMORY_LENGTH && address as usize <= MEMORY_LENGTH - bytes.len()
}

/// Writes bytes to memory from an address on.
pub(crate) fn write(memory: &mut [u8; MEMORY_LENGTH], address: usize, bytes: &[u8])
    requires { address + length bytes.now ≤ MEMORY_LENGTH }
    ensures { memory.new ≡ take address memory.old ++ bytes.now ++ drop (address + length bytes.now) memory.old }
{
    memory[address..address + bytes.len()].copy_from_slice(bytes);
}
