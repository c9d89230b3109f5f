//! Keys, trust and kinds of keys, as they stand in records of every kind, and the file of a public key.

ghost use Rattle.std.specs.Prelude.{◌≡◌, ◌≤◌, length};
ghost use Rattle.std.specs.Int.{w32};
ghost use Rattle.mb_format.specs.Combinators.{table};
ghost use Rattle.mb_model.specs.declared.limits.TheConstants.{FILE_LIMIT};
ghost use Rattle.mb_model.specs.signatures.Key.{tree_type, chains_type};
ghost use Rattle.mb_model.specs.records.KeyFormat.{tree_rows, chains_rows, public_key_format, key_seed_format};
ghost use Rattle.mb_model.specs.records.LayerFormat.{trust_byte, trust_format, one_trust};
ghost use Rattle.mb_model.specs.records.EntryFormat.{key_kind_byte, key_kind_format};
ghost use Rattle.mb_bytes.specs.Reads.{bad_at, Reads, ReadsWhole};
ghost use Rattle.mb_bytes.specs.Puts.{Puts};

use crate::{Cursor, put_slice, put_u8, put_u32, read_whole};
use mb_model::{BadRecord, Chains, KeyKind, KeySeed, NoMemory, PublicKey, Tree, Trust, Trusts};

fn tree_at(cursor: &mut Cursor) -> Result<Tree, BadRecord>
    ensures { Reads bad_at (table w32 tree_rows tree_type) cursor.old result cursor.new }
{
    let at = cursor.offset();
    match cursor.take_u32()? {
        5 => Ok(Tree::H5),
        6 => Ok(Tree::H10),
        7 => Ok(Tree::H15),
        8 => Ok(Tree::H20),
        9 => Ok(Tree::H25),
        _ => Err(BadRecord { at }),
    }
}

fn chains_at(cursor: &mut Cursor) -> Result<Chains, BadRecord>
    ensures { Reads bad_at (table w32 chains_rows chains_type) cursor.old result cursor.new }
{
    let at = cursor.offset();
    match cursor.take_u32()? {
        1 => Ok(Chains::W1),
        2 => Ok(Chains::W2),
        3 => Ok(Chains::W4),
        4 => Ok(Chains::W8),
        _ => Err(BadRecord { at }),
    }
}

/// A public key (RFC 8554, section 5.3): the two type numbers, the identifier and the root of the tree, four fields.
#[tactic(auto, unfolding(mb_model::specs::records::KeyFormat::public_key_format))]
pub fn public_key_at(cursor: &mut Cursor) -> Result<PublicKey, BadRecord>
    ensures { Reads bad_at public_key_format cursor.old result cursor.new }
{
    let tree = tree_at(cursor)?;
    let chains = chains_at(cursor)?;
    let identifier = cursor.take_array()?;
    let root = cursor.take_array()?;
    Ok(PublicKey {
        tree,
        chains,
        identifier,
        root,
    })
}

/// The public key that a file spells, of any of the twenty pairs of types, in at most 4,194,304 bytes.
///
/// `BadRecord` has the offset of the first field that is not in its form, or of the first byte after the last field.
pub fn read_public_key(bytes: &[u8]) -> Result<PublicKey, BadRecord>
    requires { length bytes.now ≤ FILE_LIMIT }
    ensures { ReadsWhole bad_at public_key_format bytes.now result }
{
    read_whole::<PublicKey>((), bytes)
}

/// The seed of a key: its identifier and its secret.
#[tactic(auto, unfolding(mb_model::specs::records::KeyFormat::key_seed_format))]
pub fn key_seed_at(cursor: &mut Cursor) -> Result<KeySeed, BadRecord>
    ensures { Reads bad_at key_seed_format cursor.old result cursor.new }
{
    let identifier = cursor.take_array()?;
    let seed = cursor.take_array()?;
    Ok(KeySeed { identifier, seed })
}

/// A trust, in a byte.
#[tactic(auto, unfolding(mb_model::specs::records::LayerFormat::trust_format))]
pub fn trust_at(cursor: &mut Cursor) -> Result<Trust, BadRecord>
    ensures { Reads bad_at trust_format cursor.old result cursor.new }
{
    let at = cursor.offset();
    match cursor.take_u8()? {
        0 => Ok(Trust::Always),
        1 => Ok(Trust::Never),
        2 => Ok(Trust::Countersigned),
        _ => Err(BadRecord { at }),
    }
}

/// Two equal trusts, in one byte.
pub fn one_trust_at(cursor: &mut Cursor) -> Result<Trusts, BadRecord>
    ensures { Reads bad_at (one_trust trust_format) cursor.old result cursor.new }
{
    Ok(Trusts::equal(trust_at(cursor)?))
}

/// The kind of a region's key, in a byte.
#[tactic(auto, unfolding(mb_model::specs::records::EntryFormat::key_kind_format))]
pub fn key_kind_at(cursor: &mut Cursor) -> Result<KeyKind, BadRecord>
    ensures { Reads bad_at key_kind_format cursor.old result cursor.new }
{
    let at = cursor.offset();
    match cursor.take_u8()? {
        0 => Ok(KeyKind::Epoch),
        1 => Ok(KeyKind::Configuration),
        _ => Err(BadRecord { at }),
    }
}

/// The LMS type number of a tree, 5 to 9 (RFC 8554, section 5.1).
pub fn tree_type(tree: Tree) -> u32
    ensures { result ≡ tree_type tree }
{
    match tree {
        Tree::H5 => 5,
        Tree::H10 => 6,
        Tree::H15 => 7,
        Tree::H20 => 8,
        Tree::H25 => 9,
    }
}

/// The LM-OTS type number of chains, 1 to 4 (RFC 8554, section 4.1).
pub fn chains_type(chains: Chains) -> u32
    ensures { result ≡ chains_type chains }
{
    match chains {
        Chains::W1 => 1,
        Chains::W2 => 2,
        Chains::W4 => 3,
        Chains::W8 => 4,
    }
}

/// Appends the 56 bytes of a public key (RFC 8554, section 5.3).
#[tactic(auto, unfolding(mb_model::specs::records::KeyFormat::public_key_format))]
pub fn put_public_key(out: &mut Vec<u8>, key: &PublicKey) -> Result<(), NoMemory>
    ensures { Puts (public_key_format.spelling key.now) out.old result out.new }
{
    put_u32(out, tree_type(key.tree))?;
    put_u32(out, chains_type(key.chains))?;
    put_slice(out, &key.identifier)?;
    put_slice(out, &key.root)
}

/// Appends the identifier and the secret of a key.
#[tactic(auto, unfolding(mb_model::specs::records::KeyFormat::key_seed_format))]
pub fn put_key_seed(out: &mut Vec<u8>, key: &KeySeed) -> Result<(), NoMemory>
    ensures { Puts (key_seed_format.spelling key.now) out.old result out.new }
{
    put_slice(out, &key.identifier)?;
    put_slice(out, &key.seed)
}

fn trust_number(trust: Trust) -> u8
    ensures { result ≡ trust_byte trust }
{
    match trust {
        Trust::Always => 0,
        Trust::Never => 1,
        Trust::Countersigned => 2,
    }
}

/// Appends the byte of a trust.
#[tactic(auto, unfolding(mb_model::specs::records::LayerFormat::trust_format))]
pub fn put_trust(out: &mut Vec<u8>, trust: Trust) -> Result<(), NoMemory>
    ensures { Puts (trust_format.spelling trust) out.old result out.new }
{
    put_u8(out, trust_number(trust))
}

fn key_kind_number(kind: KeyKind) -> u8
    ensures { result ≡ key_kind_byte kind }
{
    match kind {
        KeyKind::Epoch => 0,
        KeyKind::Configuration => 1,
    }
}

/// Appends the byte of the kind of a region's key.
#[tactic(auto, unfolding(mb_model::specs::records::EntryFormat::key_kind_format))]
pub fn put_key_kind(out: &mut Vec<u8>, kind: KeyKind) -> Result<(), NoMemory>
    ensures { Puts (key_kind_format.spelling kind) out.old result out.new }
{
    put_u8(out, key_kind_number(kind))
}
