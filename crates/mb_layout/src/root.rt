//! Root records as bytes, and keys of regions, which stand in root records too.

ghost use Rattle.std.specs.Prelude.{◌≤◌, [], ◌∷◌, length};
ghost use Rattle.std.specs.Int.{w8};
ghost use Rattle.mb_format.specs.Combinators.{mark, number};
ghost use Rattle.mb_model.specs.declared.limits.TheConstants.{FILE_LIMIT};
ghost use Rattle.mb_model.specs.records.RootFormat.{region_key_format, outgoing_format, add_tag, fate_by, fate_format, pending_format, root_format};
ghost use Rattle.mb_bytes.specs.Reads.{bad_at, Reads, ReadsExactly, ReadsWhole};
ghost use Rattle.mb_bytes.specs.Puts.{Puts, Writes};
ghost use Rattle.mb_layout.specs.Parts.{root_key_bytes};

use mb_bytes::{
    Cursor, Field, WriteField, key_kind_at, key_seed_at, optional_at, put_key_kind, put_key_seed,
    put_optional, put_slice, put_u8, put_u32, read_field, read_whole, u8_between, write_field,
};
use mb_model::{BadRecord, Fate, KEY_USES, NoMemory, Outgoing, Pending, RegionKey, Root};

/// The version of the records.
const VERSION: u8 = 1;

/// Reads the version of a record, in a byte.
pub fn version_at(cursor: &mut Cursor<'_>) -> Result<(), BadRecord>
    ensures { Reads bad_at (mark (1 ∷ [])) cursor.old result cursor.new }
{
    let at = cursor.offset();
    let version = cursor.take_array::<1>()?;
    if version != [VERSION] {
        return Err(BadRecord { at });
    }
    Ok(())
}

/// Reads a key of a region at the cursor's offset, as a part of a record. Else the offset of the field that lacks bytes
/// or is not allowed; the cursor may then stand anywhere.
#[tactic(auto, unfolding(mb_model::specs::records::RootFormat::region_key_format))]
pub fn region_key_at(cursor: &mut Cursor<'_>) -> Result<RegionKey, BadRecord>
    ensures { Reads bad_at region_key_format cursor.old result cursor.new }
{
    let number = cursor.take_u32()?;
    let kind = key_kind_at(cursor)?;
    let seed = key_seed_at(cursor)?;
    let uses = u8_between(cursor, 0, KEY_USES)?;
    Ok(RegionKey {
        number,
        kind,
        seed,
        uses: uses as u32,
    })
}

fn added_at(cursor: &mut Cursor<'_>) -> Result<Fate, BadRecord>
    ensures { Reads bad_at (fate_by add_tag) cursor.old result cursor.new }
{
    Ok(Fate::AddKey(region_key_at(cursor)?))
}

#[tactic(auto, unfolding(mb_model::specs::records::RootFormat::fate_format))]
fn fate_at(cursor: &mut Cursor<'_>) -> Result<Fate, BadRecord>
    ensures { Reads bad_at fate_format cursor.old result cursor.new }
{
    let at = cursor.offset();
    match cursor.take_u8()? {
        0 => Ok(Fate::Keep),
        1 => Ok(Fate::Empty),
        2 => Ok(Fate::DropConfiguration),
        3 => added_at(cursor),
        _ => Err(BadRecord { at }),
    }
}

/// A key of a region.
pub struct RegionKeyField;

impl Field for RegionKeyField {
    ghost use Rattle.mb_model.specs.records.RootFormat.{region_key_format};
    ghost use Rattle.mb_model.proofs.RecordFormatLaws.{region_key_exact};

    type Value = RegionKey;

    type Needs = ();

    type End = BadRecord;

    ghost format = { region_key_format };

    fn read_at(_needs: (), cursor: &mut Cursor<'_>) -> Result<RegionKey, BadRecord> {
        region_key_at(cursor)
    }

    ghost exact = { region_key_exact };
}

impl WriteField for RegionKeyField {
    ghost Fits = { λ _. Unit {0} };

    fn put(key: &RegionKey, out: &mut Vec<u8>) -> Result<(), NoMemory> {
        put_region_key(out, key)
    }
}

/// The device key that gives way.
struct OutgoingField;

#[tactic(auto, unfolding(mb_model::specs::records::RootFormat::outgoing_format))]
impl Field for OutgoingField {
    ghost use Rattle.mb_model.specs.records.RootFormat.{outgoing_format};
    ghost use Rattle.mb_model.proofs.RecordFormatLaws.{outgoing_exact};

    type Value = Outgoing;

    type Needs = ();

    type End = BadRecord;

    ghost format = { outgoing_format };

    fn read_at(_needs: (), cursor: &mut Cursor<'_>) -> Result<Outgoing, BadRecord> {
        let seed = key_seed_at(cursor)?;
        let uses = u8_between(cursor, 1, KEY_USES)?;
        Ok(Outgoing {
            seed,
            uses: uses as u32,
        })
    }

    ghost exact = { outgoing_exact };
}

#[tactic(auto, unfolding(mb_model::specs::records::RootFormat::outgoing_format))]
impl WriteField for OutgoingField {
    ghost Fits = { λ _. Unit {0} };

    fn put(outgoing: &Outgoing, out: &mut Vec<u8>) -> Result<(), NoMemory> {
        put_key_seed(out, &outgoing.seed)?;
        put_uses(out, outgoing.uses)
    }
}

/// The work that is still to be done.
struct PendingField;

#[tactic(auto, unfolding(mb_model::specs::records::RootFormat::pending_format))]
impl Field for PendingField {
    ghost use Rattle.mb_model.specs.records.RootFormat.{pending_format};
    ghost use Rattle.mb_model.proofs.RecordFormatLaws.{pending_exact};

    type Value = Pending;

    type Needs = ();

    type End = BadRecord;

    ghost format = { pending_format };

    fn read_at(_needs: (), cursor: &mut Cursor<'_>) -> Result<Pending, BadRecord> {
        let unsigned = u8_between(cursor, 1, 2)?;
        let outgoing = optional_at::<OutgoingField>((), cursor)?;
        let two = fate_at(cursor)?;
        let three = fate_at(cursor)?;
        Ok(Pending {
            unsigned,
            outgoing,
            two,
            three,
        })
    }

    ghost exact = { pending_exact };
}

#[tactic(auto, unfolding(mb_model::specs::records::RootFormat::pending_format))]
impl WriteField for PendingField {
    ghost Fits = { λ _. Unit {0} };

    fn put(pending: &Pending, out: &mut Vec<u8>) -> Result<(), NoMemory> {
        put_pending(out, pending)
    }
}

#[tactic(auto, unfolding(mb_model::specs::records::RootFormat::root_format))]
fn root_at(cursor: &mut Cursor<'_>) -> Result<Root, BadRecord>
    ensures { Reads bad_at root_format cursor.old result cursor.new }
{
    version_at(cursor)?;
    let area = u8_between(cursor, 0, 1)?;
    let serial = cursor.take_array()?;
    let device = key_seed_at(cursor)?;
    let uses = u8_between(cursor, 0, KEY_USES)?;
    let pending = optional_at::<PendingField>((), cursor)?;
    Ok(Root {
        area,
        serial,
        device,
        uses: uses as u32,
        pending,
    })
}

/// Appends the number of used indices of a key, in a byte: the low one of a number that needs more.
fn put_uses(out: &mut Vec<u8>, uses: u32) -> Result<(), NoMemory>
    ensures { Puts ((number w8).spelling uses) out.old result out.new }
{
    put_u8(out, (uses % 256) as u8)
}

/// Appends a key of a region.
#[tactic(auto, unfolding(mb_model::specs::records::RootFormat::region_key_format))]
pub fn put_region_key(out: &mut Vec<u8>, key: &RegionKey) -> Result<(), NoMemory>
    ensures { Puts (region_key_format.spelling key.now) out.old result out.new }
{
    put_u32(out, key.number)?;
    put_key_kind(out, key.kind)?;
    put_key_seed(out, &key.seed)?;
    put_uses(out, key.uses)
}

#[tactic(auto, unfolding(mb_model::specs::records::RootFormat::fate_format))]
fn put_fate(out: &mut Vec<u8>, fate: &Fate) -> Result<(), NoMemory>
    ensures { Puts (fate_format.spelling fate.now) out.old result out.new }
{
    match fate {
        Fate::Keep => put_u8(out, 0),
        Fate::Empty => put_u8(out, 1),
        Fate::DropConfiguration => put_u8(out, 2),
        Fate::AddKey(key) => {
            put_u8(out, 3)?;
            put_region_key(out, key)
        }
    }
}

#[tactic(auto, unfolding(mb_model::specs::records::RootFormat::pending_format))]
fn put_pending(out: &mut Vec<u8>, pending: &Pending) -> Result<(), NoMemory>
    ensures { Puts (pending_format.spelling pending.now) out.old result out.new }
{
    put_u8(out, pending.unsigned)?;
    put_optional::<OutgoingField>(out, &pending.outgoing)?;
    put_fate(out, &pending.two)?;
    put_fate(out, &pending.three)
}

fn put_root_key(out: &mut Vec<u8>, root: &Root) -> Result<(), NoMemory>
    ensures { Puts (root_key_bytes root.now) out.old result out.new }
{
    put_key_seed(out, &root.device)?;
    put_uses(out, root.uses)?;
    put_optional::<PendingField>(out, &root.pending)
}

#[tactic(auto, unfolding(mb_model::specs::records::RootFormat::root_format))]
fn put_root(out: &mut Vec<u8>, root: &Root) -> Result<(), NoMemory>
    ensures { Puts (root_format.spelling root.now) out.old result out.new }
{
    put_slice(out, &[VERSION])?;
    put_u8(out, root.area)?;
    put_slice(out, &root.serial)?;
    put_root_key(out, root)
}

/// A root record.
struct RootField;

impl Field for RootField {
    ghost use Rattle.mb_model.specs.records.RootFormat.{root_format};
    ghost use Rattle.mb_model.proofs.RecordFormatLaws.{root_exact};

    type Value = Root;

    type Needs = ();

    type End = BadRecord;

    ghost format = { root_format };

    fn read_at(_needs: (), cursor: &mut Cursor<'_>) -> Result<Root, BadRecord> {
        root_at(cursor)
    }

    ghost exact = { root_exact };
}

impl WriteField for RootField {
    ghost Fits = { λ _. Unit {0} };

    fn put(root: &Root, out: &mut Vec<u8>) -> Result<(), NoMemory> {
        put_root(out, root)
    }
}

/// The root record spelled at the cursor's offset; the cursor then stands after it. Else the offset of the first field
/// that lacks bytes or is not allowed, and the cursor is unchanged.
pub fn read_root(c: &mut Cursor<'_>) -> Result<Root, BadRecord>
    ensures { ReadsExactly bad_at root_format c.old result c.new }
{
    read_field::<RootField>((), c)
}

/// The root record that these bytes spell, at most 4,194,304 of them. Else the offset of the first field that lacks
/// bytes or is not allowed, or of the first byte after the last field.
pub fn root_of_bytes(bytes: &[u8]) -> Result<Root, BadRecord>
    requires { length bytes.now ≤ FILE_LIMIT }
    ensures { ReadsWhole bad_at root_format bytes.now result }
{
    read_whole::<RootField>((), bytes)
}

/// Appends the spelling of the root record, or leaves `out` as it was. `Ok` if the capacity of `out` holds it.
pub fn write_root(root: &Root, out: &mut Vec<u8>) -> Result<(), NoMemory>
    requires { root_format.Allowed root.now }
    ensures { Writes (root_format.spelling root.now) out.old result out.new }
{
    write_field::<RootField>(root, out)
}
