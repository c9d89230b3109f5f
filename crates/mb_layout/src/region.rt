//! Regions as bytes.

ghost use Rattle.std.specs.Prelude.{◌≡◌, ◌≤◌, ◌<◌, length};
ghost use Rattle.std.specs.List.{All};
ghost use Rattle.std.specs.Int.{w8};
ghost use Rattle.mb_format.specs.Combinators.{between, sized_that};
ghost use Rattle.mb_model.specs.declared.limits.TheConstants.{FILE_LIMIT, NAME_LIMIT, REGION_VERSION, SECRET_LIMIT};
ghost use Rattle.mb_model.specs.records.RegionFormat.{is_name, secret_format, most_secrets, secrets_format, least_keys, keys_format, region_by, region_format};
ghost use Rattle.mb_bytes.specs.Reads.{bad_at, Reads, ReadsAs};
ghost use Rattle.mb_bytes.specs.Puts.{Puts, Writes};
ghost use Rattle.mb_bytes.specs.Ends.{end_at};
ghost use Rattle.mb_layout.specs.Bounds.{SecretFits, RegionFits};
ghost use Rattle.mb_layout.specs.RegionReads.{ReadsRegion, ReadsWholeRegion};
ghost use Rattle.mb_layout.specs.Uncopied.{secret_in};

use crate::root::RegionKeyField;
use mb_bytes::{
    Cursor, Field, ReadEnd, WriteField, bytes_after_u8, is_name, items_at, put_after_u8, put_items,
    put_u8, put_u32, read_field, read_whole, u8_between,
};
use mb_model::{
    BadRecord, Bytes, KEY_LIMIT, NAME_LIMIT, NoMemory, REGION_VERSION, Region, RegionKey,
    RegionKeys, SECRET_LIMIT, SECRET_LIMIT_VERSION_1, Secret, Secrets, VALUE_LIMIT,
};
use std::alloc::Global;

/// A secret of a stored region, whose bytes are borrowed from the record.
#[derive(Clone, Copy)]
pub struct StoredSecret<'a> {
    /// 1 to 32 printable bytes, none of them a space.
    pub name: &'a [u8],
    /// At most 128 bytes.
    pub value: &'a [u8],
    /// The configuration number at which it was put.
    pub born: u32,
}

/// Reads a name after its length: 1 to 32 printable bytes, none of them a space.
fn name_at<'a>(cursor: &mut Cursor<'a>) -> Result<&'a [u8], BadRecord>
    ensures { ReadsAs (λ slice. slice.now) bad_at
        (sized_that is_name (between w8 1 NAME_LIMIT)) cursor.old result cursor.new }
{
    let length = u8_between(cursor, 1, NAME_LIMIT)?;
    let at = cursor.offset();
    let name = cursor.take_slice(length as u32)?;
    if is_name(name) {
        Ok(name)
    } else {
        Err(BadRecord { at })
    }
}

/// Reads a secret at the cursor's offset, as a part of a record, without copying it. Else the offset of the field that
/// lacks bytes or is not allowed; the cursor may then stand anywhere.
#[tactic(auto, unfolding(mb_model::specs::records::RegionFormat::secret_format))]
pub fn stored_secret_at<'a>(cursor: &mut Cursor<'a>) -> Result<StoredSecret<'a>, BadRecord>
    ensures { ReadsAs secret_in bad_at secret_format cursor.old result cursor.new }
{
    let name = name_at(cursor)?;
    let value = bytes_after_u8(cursor, 0, VALUE_LIMIT)?;
    let born = cursor.take_u32()?;
    Ok(StoredSecret { name, value, born })
}

/// A secret, copied.
struct SecretField;

#[tactic(auto, unfolding(mb_model::specs::records::RegionFormat::secret_format))]
impl Field for SecretField {
    ghost use Rattle.mb_model.specs.records.RegionFormat.{secret_format};
    ghost use Rattle.mb_model.proofs.RecordFormatLaws.{secret_exact};

    type Value = Secret;

    type Needs = Global;

    type End = ReadEnd;

    ghost format = { secret_format };

    fn read_at(alloc: Global, cursor: &mut Cursor<'_>) -> Result<Secret, ReadEnd> {
        let stored = stored_secret_at(cursor)?;
        Ok(Secret {
            name: Bytes::copy(alloc, stored.name)?,
            value: Bytes::copy(alloc, stored.value)?,
            born: stored.born,
        })
    }

    ghost exact = { secret_exact };
}

#[tactic(auto, unfolding(mb_model::specs::records::RegionFormat::secret_format))]
impl WriteField for SecretField {
    ghost use Rattle.mb_layout.specs.Bounds.{SecretFits};

    ghost Fits = { SecretFits };

    fn put(secret: &Secret, out: &mut Vec<u8>) -> Result<(), NoMemory> {
        put_after_u8(out, secret.name.as_slice())?;
        put_after_u8(out, secret.value.as_slice())?;
        put_u32(out, secret.born)
    }
}

/// Reads the version of a region's record, 1 or 2, at the cursor's offset. Else that offset, if the byte is missing or
/// another number; the cursor may then stand anywhere.
pub fn region_version_at(cursor: &mut Cursor<'_>) -> Result<u8, BadRecord>
    ensures { Reads bad_at (between w8 1 REGION_VERSION) cursor.old result cursor.new }
{
    u8_between(cursor, 1, REGION_VERSION)
}

/// The most secrets that a region's record of this version has: 16 in version 1, and 22 in version 2.
pub fn most_secrets(version: u8) -> u8
    ensures { result ≡ most_secrets version }
{
    if version == 1 {
        SECRET_LIMIT_VERSION_1
    } else {
        SECRET_LIMIT
    }
}

#[tactic(auto, unfolding(mb_model::specs::records::RegionFormat::secrets_format))]
fn secrets_at(alloc: Global, cursor: &mut Cursor<'_>, most: u8) -> Result<Secrets, ReadEnd>
    ensures { Reads end_at (secrets_format most) cursor.old result cursor.new }
{
    let count = u8_between(cursor, 0, most)?;
    items_at::<SecretField>(alloc, alloc, cursor, count as u32)
}

#[tactic(auto, unfolding(mb_model::specs::records::RegionFormat::keys_format))]
fn keys_at(alloc: Global, cursor: &mut Cursor<'_>, least: u8) -> Result<RegionKeys, ReadEnd>
    ensures { Reads end_at (keys_format least) cursor.old result cursor.new }
{
    let count = u8_between(cursor, least, KEY_LIMIT)?;
    items_at::<RegionKeyField>(alloc, (), cursor, count as u32)
}

/// The least number of keys beside these secrets: a region without secrets and keys has no record.
fn least_keys(secrets: &Secrets) -> u8
    ensures { result ≡ least_keys secrets.now }
{
    if secrets.as_slice().is_empty() { 1 } else { 0 }
}

/// Reads what stands after the version of a region's record.
#[tactic(auto, unfolding(mb_model::specs::records::RegionFormat::region_by))]
fn region_after(alloc: Global, cursor: &mut Cursor<'_>, version: u8) -> Result<Region, ReadEnd>
    ensures { Reads end_at (region_by version) cursor.old result cursor.new }
{
    let secrets = secrets_at(alloc, cursor, most_secrets(version))?;
    let least = least_keys(&secrets);
    let keys = keys_at(alloc, cursor, least)?;
    Ok(Region { secrets, keys })
}

/// Reads the version of a region's record, and the region.
#[tactic(auto, unfolding(mb_model::specs::records::RegionFormat::region_format))]
fn region_at(alloc: Global, cursor: &mut Cursor<'_>) -> Result<(u8, Region), ReadEnd>
    ensures { Reads end_at region_format cursor.old result cursor.new }
{
    let version = region_version_at(cursor)?;
    let region = region_after(alloc, cursor, version)?;
    Ok((version, region))
}

#[tactic(auto, unfolding(mb_model::specs::records::RegionFormat::secrets_format))]
fn put_secrets(out: &mut Vec<u8>, secrets: &Secrets) -> Result<(), NoMemory>
    requires count { length secrets.now < 256 }
    requires each { All SecretFits secrets.now }
    ensures { Puts ((secrets_format SECRET_LIMIT).spelling secrets.now) out.old result out.new }
{
    put_u8(out, secrets.as_slice().len() as u8)?;
    put_items::<SecretField>(out, secrets.as_slice())
}

/// Appends the keys of a region's record, at most 255, after a byte for their number. If memory runs out, a part of the
/// spelling may have been appended.
#[tactic(auto, unfolding(mb_model::specs::records::RegionFormat::keys_format))]
pub fn put_keys(out: &mut Vec<u8>, keys: &[RegionKey]) -> Result<(), NoMemory>
    requires { length keys.now < 256 }
    ensures { Puts ((keys_format 0).spelling keys.now) out.old result out.new }
{
    put_u8(out, keys.len() as u8)?;
    put_items::<RegionKeyField>(out, keys)
}

/// Appends the record of the region in this version.
#[tactic(auto, unfolding(mb_model::specs::records::RegionFormat::region_format, mb_model::specs::records::RegionFormat::region_by, mb_model::specs::records::RegionFormat::secrets_format))]
fn put_region(out: &mut Vec<u8>, version: u8, region: &Region) -> Result<(), NoMemory>
    requires { RegionFits region.now }
    ensures { Puts (region_format.spelling (version, region.now)) out.old result out.new }
{
    put_u8(out, version)?;
    put_secrets(out, &region.secrets)?;
    put_keys(out, region.keys.as_slice())
}

/// A region after the version of its record.
struct RegionField;

impl Field for RegionField {
    ghost use Rattle.mb_model.specs.records.RegionFormat.{region_format};
    ghost use Rattle.mb_model.proofs.RecordFormatLaws.{region_exact};

    type Value = (u8, Region);

    type Needs = Global;

    type End = ReadEnd;

    ghost format = { region_format };

    fn read_at(alloc: Global, cursor: &mut Cursor<'_>) -> Result<(u8, Region), ReadEnd> {
        region_at(alloc, cursor)
    }

    ghost exact = { region_exact };
}

impl WriteField for RegionField {
    ghost use Rattle.mb_layout.specs.Bounds.{RegionFits};

    ghost Fits = { λ p. RegionFits p.1 };

    fn put(versioned: &(u8, Region), out: &mut Vec<u8>) -> Result<(), NoMemory> {
        put_region(out, versioned.0, &versioned.1)
    }
}

/// The region whose record, of version 1 or 2, is spelled at the cursor's offset; the cursor then stands after it.
/// After an error the cursor is unchanged: `Bad` with the offset of the first field that lacks bytes or is not allowed,
/// or `NoMemory`.
pub fn read_region(alloc: Global, c: &mut Cursor<'_>) -> Result<Region, ReadEnd>
    ensures { ReadsRegion c.old result c.new }
{
    let (_version, region) = read_field::<RegionField>(alloc, c)?;
    Ok(region)
}

/// The region whose record, of version 1 or 2, these bytes spell, at most 4,194,304 of them. Else `Bad` with the offset
/// of the first field that lacks bytes or is not allowed, or of the first byte after the last field; or `NoMemory`.
pub fn region_of_bytes(alloc: Global, bytes: &[u8]) -> Result<Region, ReadEnd>
    requires { length bytes.now ≤ FILE_LIMIT }
    ensures { ReadsWholeRegion bytes.now result }
{
    let (_version, region) = read_whole::<RegionField>(alloc, bytes)?;
    Ok(region)
}

/// Appends the region's record of version 2, or leaves `out` as it was. `Ok` if the capacity of `out` holds it.
///
/// `write_field` does not serve here: the region is borrowed, and a value of `RegionField` owns it.
#[tactic(auto, using(crate::proofs::Sizes::region_fits))]
pub fn write_region(region: &Region, out: &mut Vec<u8>) -> Result<(), NoMemory>
    requires { region_format.Allowed (REGION_VERSION, region.now) }
    ensures { Writes (region_format.spelling (REGION_VERSION, region.now)) out.old result out.new }
{
    let length = out.len();
    match put_region(out, REGION_VERSION, region) {
        Ok(()) => Ok(()),
        Err(error) => {
            out.truncate(length);
            Err(error)
        }
    }
}
