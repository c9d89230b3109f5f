//! The keys of levels.

ghost use Rattle.std.specs.Prelude.{◌<◌, ◌^◌};
ghost use Rattle.mb_hss.specs.declared.limits.TheConstants.{LEVEL_LIMIT};

use super::{endorse, key_counted, maker_at, public_of, root_bytes};
use hex::FromHex;
use mb_hss::LEVEL_LIMIT;
use mb_lms::key_bytes;
use mb_model::KeySeed;
use std::alloc::Global;
use std::marker::Brand;
use std::sync::ledger::Blank;
use std::test::Fail;

/// A level and a prefix, and the identifier and the seed of the key that the maker has there.
const LEVELS: &[(u8, u64, &str, &str)] = &[
    (
        0,
        0,
        "ec1b77804d0b7d73e6b29b7af6b8498a",
        "5a0bf82d2713bbeadd7811da0c3a4095396a1a1d23d3e1817db5b40d35b26f07",
    ),
    (
        1,
        0,
        "6f498b5d99c379251c557634efdec04d",
        "93d409d093a67a7f5475d45b322d485ccf32cc5922478f0195f8a7802716ea0e",
    ),
    (
        1,
        1,
        "b3dc6d18e1dfd25e6c6fc37a9921bf3c",
        "323f88dd7053910e5da94a5709843b798585f4815d5ff4c35550076db6bdc80a",
    ),
    (
        1,
        31,
        "3b0fd81ce7908df910c1590f3f15f265",
        "ccad50255920b6f397a88cbd4a6ab070562f5fe19dad0bd8ef48892a60f77cc3",
    ),
    (
        2,
        1023,
        "45e2f78f6fe2273b5ee3860890e1e1ff",
        "dbd7ab28535073ea191b6de29781bdbeb9eeb36743187487736fd2680b66bfc0",
    ),
    (
        7,
        0,
        "15537ec25c8a3e71a0123e182d84f05e",
        "caaafb3f29ab6b3f47a6778a99d556a625b4cb7f93e588abf66da00d594837e2",
    ),
    (
        7,
        34359738367,
        "4f0cf8efac46ab98e7f21335d095bab7",
        "b4c9089bbefec4c55193263ea291c4ede5b0247373bbfebe652720918de8d374",
    ),
];

/// The public key that the maker shows of a level and a prefix. That of level 0 is the maker's own; another stands
/// before the last signature of what a maker with that level as its last signs with the prefix's first number.
fn shown_key(alloc: Global, level: u8, prefix: u64) -> Result<[u8; 56], Fail>
    requires level { level < LEVEL_LIMIT }
    requires prefix { prefix < 2 ^ 40 }
{
    let mut maker = maker_at(level + 1, 32 * prefix)?;
    if level == 0 {
        return Ok(key_bytes(&public_of(alloc, &maker).top));
    }
    let mut out = Vec::new(alloc);
    endorse(alloc, &mut maker, &root_bytes()?, &mut out)?;
    let last = out.as_slice().last_chunk::<2404>().ok_or("too short")?;
    Ok(*last.first_chunk::<56>().ok_or("too short")?)
}

/// Whether the maker shows the public key of this identifier and this seed.
fn is_shown(
    alloc: Global,
    level: u8,
    prefix: u64,
    identifier: &str,
    seed: &str,
) -> Result<bool, Fail> {
    if level >= LEVEL_LIMIT || prefix >= 1 << 40 {
        return Ok(false);
    }
    let seed = KeySeed {
        identifier: <[u8; 16] as FromHex>::from_hex(identifier)?,
        seed: <[u8; 32] as FromHex>::from_hex(seed)?,
    };
    let key = key_counted::<Brand>(alloc, &seed, Blank::new(1));
    Ok(shown_key(alloc, level, prefix)? == key_bytes(&key))
}

#[test]
fn keys_of_levels(rt: HostRuntime) -> Result<(), Fail> {
    for (level, prefix, identifier, seed) in LEVELS {
        assert!(rt;
            is_shown(rt.alloc(), *level, *prefix, identifier, seed)?,
            "{level} {prefix}"
        );
    }
    Ok(())
}
