//! The command `hsskeygen`.

ghost use Rattle.std.specs.Prelude.{◌+◌, ◌≡◌, ◌≤◌, IfOk, map, string_bytes};
ghost use Rattle.mb_console.specs.Ending.{CarriesOut};
ghost use Rattle.mb_console.specs.Words.{given_argument};
ghost use Rattle.mb_hss.specs.declared.limits.TheConstants.{LEVEL_LIMIT};
ghost use Rattle.mb_tools_hss.specs.HssKeygen.{hsskeygen, maker_text};
ghost use Rattle.mb_tools_hss.specs.Names.{hsskeygen_files, hsskeygen_given};
ghost use Rattle.mb_lms.specs.declared.hash_count.TheConstants.{TREE_HASHES};

use mb_console::{Arguments, End, Output, file, finish, number, read_as};
use mb_host::Host;
use mb_hss::{hss_key_bytes, make_maker, public, write_maker};
use mb_lms::HashCount;
use mb_model::{DRAW_LENGTH, NoMemory};
use mb_model_commands::Role;
use mb_tools::Leading;
use sha2::{Digest, Sha256};
use std::alloc::Global;
use std::sync::ledger::Ledger;

/// The names of the files of `hsskeygen`, and the number of levels.
#[derive(Clone, Copy)]
pub struct HsskeygenNames<'a> {
    pub noise: &'a str,
    /// The number of levels, 1 to 8.
    pub levels: u32,
    pub key: &'a str,
    pub public: &'a str,
}

impl<'a> HsskeygenNames<'a> {
    /// The names by the places of the arguments.
    pub fn of(given: &Arguments<'a>) -> Self
        ensures { hsskeygen_files result ≡ hsskeygen_given (map given_argument given.now.items) }
    {
        HsskeygenNames {
            noise: file(given, 0),
            levels: number(given, 1),
            key: file(given, 2),
            public: file(given, 3),
        }
    }
}

/// Derives a maker's key from the noise, writes its file and its public key, and prints the public key's hash.
pub fn hsskeygen<H: Host, L: Ledger>(
    alloc: Global,
    names: &HsskeygenNames<'_>,
    host: &mut H,
    hashes: &mut HashCount<L>,
) -> Result<(), End>
    requires { (1 ≤ names.now.levels) × (names.now.levels ≤ LEVEL_LIMIT) }
    ensures carried { CarriesOut (hsskeygen (hsskeygen_files names.now)) (H.outside host.old) result (H.outside host.new) }
    ensures cost { hashes.new ≤ hashes.old + TREE_HASHES + 2 }
{
    let noise = read_as(
        alloc,
        host,
        Role::Noise,
        names.noise,
        Leading::<DRAW_LENGTH>,
    )?;
    let maker = make_maker(&noise, names.levels as u8);
    let spelled = hss_key_bytes(&public(&maker, hashes));
    let Ok(text) = maker_text(alloc, &spelled) else {
        return Err(End::NoMemory);
    };
    let file = write_maker(&maker);
    let outputs = [
        Output {
            role: Role::Key,
            name: names.key,
            bytes: &file,
        },
        Output {
            role: Role::Public,
            name: names.public,
            bytes: &spelled,
        },
    ];
    finish(host, &outputs, text.as_bytes())
}

/// The line of the hash of a maker's public key.
pub(crate) fn maker_text(alloc: Global, public: &[u8; 60]) -> Result<String, NoMemory>
    ensures { IfOk result (λ text. string_bytes text ≡ maker_text public.now) }
{
    let hash = hex::encode(alloc, Sha256::digest(public))?;
    Ok(format!(in alloc; "maker {hash}\n")?)
}
