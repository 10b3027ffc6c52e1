//! The checkpoint: one sector that names the blocks from which a volume is reached.
ghost use Rattle.std.specs.Prelude.{◌≡◌, ◌<◌, ◌≤◌, ◌↔◌, [], length, IfSome, IfNone, IsTrue};
ghost use Rattle.lfs_model.specs.Checkpoint.{CheckpointValue, FitsCheckpoint, IsSectorVersion, IsSegmentCount, IsVersion, checkpoint_sector, checkpoint_in};
ghost use Rattle.lfs_model.specs.Checkpoint.{checkpoint_fields, layout_version, most_unit_power, shape_bytes, sum_of, unit_sectors};
ghost use Rattle.lfs_model.specs.Fields.{join, le32, part};

use crate::fields::{fits_32, is_text_at, is_zero_at, number32_at, number64_at, words_at};
use crate::writer::SectorWriter;
use lfs_checksum::crc32c;
use lfs_model::limits::{
    LAST_SECTOR_VERSION, LAST_VERSION, LEAST_SEGMENTS, MOST_SEGMENTS, MOST_UNIT_POWER,
};
use std::marker::Model;

/// The checkpoint of a volume.
#[derive(Clone, Copy, Debug, PartialEq, Eq)]
pub struct Checkpoint {
    /// Its number, from 1 on.
    pub number: u64,
    /// How many segments the volume has: a multiple of 8 in 64..=1,024.
    pub segments: u32,
    /// Of its layout: 1 to 3.
    pub version: u32,
    /// The logarithm to base 2 of how many sectors a unit has.
    pub unit_power: u8,
    /// The sectors of the inode map blocks; 0 where there is none.
    pub map: [u32; 32],
    /// The sectors of the usage blocks; 0 where there is none.
    pub usage: [u32; 16],
}

impl Model for Checkpoint {
    ghost use Rattle.lfs_model.specs.Checkpoint.{CheckpointValue};

    ghost Value = { CheckpointValue };

    ghost view = { λ c. record { number = c.number; segments = c.segments; version = c.version; unit_power = c.unit_power; map = c.map; usage = c.usage } };

    ghost inverse = { λ c. record { number = c.number; segments = c.segments; version = c.version; unit_power = c.unit_power; map = c.map; usage = c.usage } };
}

/// Whether a volume may have so many segments: a multiple of 8 in 64..=1,024.
pub fn is_segment_count(segments: u32) -> bool
    ensures { IsTrue result ↔ IsSegmentCount segments }
{
    LEAST_SEGMENTS <= segments && segments <= MOST_SEGMENTS && segments % 8 == 0
}

/// Whether it is a version of the layout.
pub fn is_version(version: u32) -> bool
    ensures { IsTrue result ↔ IsVersion version }
{
    1 <= version && version <= LAST_VERSION
}

/// Whether it is a version of the layout whose units are sectors: 1 or 2.
pub fn is_sector_version(version: u32) -> bool
    ensures { IsTrue result ↔ IsSectorVersion version }
{
    1 <= version && version <= LAST_SECTOR_VERSION
}

/// The logarithm to base 2 of how many sectors a unit has at most in a version.
pub fn most_unit_power(version: u32) -> u8
    ensures { result ≡ most_unit_power version }
{
    if version == LAST_VERSION {
        MOST_UNIT_POWER
    } else {
        0
    }
}

// The bytes behind the version.
fn shape(version: u32, unit_power: u8) -> [u8; 8]
    ensures { result ≡ shape_bytes version unit_power }
{
    if version == LAST_VERSION {
        [unit_power, 6, 9, 0, 0, 0, 0, 0]
    } else {
        [0; 8]
    }
}

// The number in the last 4 bytes, by all before them.
fn sum(version: u32, bytes: &[u8]) -> u32
    ensures { result ≡ sum_of version bytes.now }
{
    if version == LAST_VERSION {
        crc32c(bytes)
    } else {
        0
    }
}

// Whether the bytes behind the version are those of it.
fn has_shape(sector: &[u8; 512], version: u32, unit_power: u8) -> bool
    ensures { IsTrue result ↔ part 24 8 sector.now ≡ shape_bytes version unit_power }
{
    is_text_at(sector, 24, &shape(version, unit_power))
}

// Whether the last 4 bytes are those of the version, by all before them.
fn has_sum(sector: &[u8; 512], version: u32) -> bool
    ensures { IsTrue result ↔ part 508 4 sector.now ≡ le32 (sum_of version (part 0 508 sector.now)) }
{
    number32_at(sector, 508) == sum(version, &sector[..508])
}

impl Checkpoint {
    /// The checkpoint whose sector this is, if it is one.
    pub fn decode(sector: &[u8; 512]) -> Option<Checkpoint>
        ensures found { IfSome result (λ c. FitsCheckpoint c × (sector.now ≡ checkpoint_sector c)) }
        ensures none { IfNone result ((c : CheckpointValue) → FitsCheckpoint c
            → ¬ (sector.now ≡ checkpoint_sector c)) }
        ensures exact { result ≡ checkpoint_in sector.now }
    {
        if !is_text_at(sector, 0, b"SLFSCKP1") {
            return None;
        }
        let number = number64_at(sector, 8);
        if number == 0 {
            return None;
        }
        let segments = number32_at(sector, 16);
        if !is_segment_count(segments) {
            return None;
        }
        let version = number32_at(sector, 20);
        if !is_version(version) {
            return None;
        }
        let unit_power = sector[24];
        if unit_power > most_unit_power(version) {
            return None;
        }
        if !has_shape(sector, version, unit_power) {
            return None;
        }
        if !is_zero_at(sector, 224, 284) {
            return None;
        }
        if !has_sum(sector, version) {
            return None;
        }
        Some(Checkpoint {
            number,
            segments,
            version,
            unit_power,
            map: words_at(sector, 32),
            usage: words_at(sector, 160),
        })
    }

    /// Whether the checkpoint may stand in a volume.
    pub fn is_fit(&self) -> bool
        ensures { IsTrue result ↔ FitsCheckpoint self.now }
    {
        fits_32(&self.map);
        fits_32(&self.usage);
        self.number != 0
            && is_segment_count(self.segments)
            && is_version(self.version)
            && self.unit_power <= most_unit_power(self.version)
    }

    /// The sector of the checkpoint, which `is_fit` has to hold for.
    pub fn encode(&self) -> [u8; 512]
        requires { FitsCheckpoint self.now }
        ensures { result ≡ checkpoint_sector self.now }
    {
        let mut sector = SectorWriter::new();
        self.write_fields(&mut sector);
        let sum = sum(self.version, sector.written());
        sector.number32(sum);
        sector.finish()
    }

    /// How many sectors a unit has, which `is_fit` has to hold for.
    pub fn unit_sectors(&self) -> u16
        requires { FitsCheckpoint self.now }
        ensures value { result ≡ unit_sectors self.now }
        ensures some { 0 < result }
    {
        1 << self.unit_power
    }

    // Writes all fields but the last.
    fn write_fields(&self, sector: &mut SectorWriter)
        requires { sector.old ≡ [] }
        ensures written { sector.new ≡ join (checkpoint_fields (layout_version self.now) self.now) }
        ensures length { length sector.new ≡ 508 }
    {
        sector.bytes(b"SLFSCKP1");
        sector.number64(self.number);
        sector.number32(self.segments);
        sector.number32(self.version);
        sector.bytes(&shape(self.version, self.unit_power));
        sector.words(&self.map);
        sector.words(&self.usage);
        sector.zeros(284);
    }
}

impl Checkpoint {
    /// The checkpoint of this number, of a volume of so many segments and a layout of this version,
    /// with units of 2 to `unit_power` sectors and the addresses of its map and usage blocks.
    pub fn new(
        number: u64,
        segments: u32,
        version: u32,
        unit_power: u8,
        map: [u32; 32],
        usage: [u32; 16],
    ) -> Checkpoint
        requires number { 1 ≤ number }
        requires count { IsSegmentCount segments }
        requires version { IsVersion version }
        requires unit { unit_power ≤ most_unit_power version }
        ensures fits { FitsCheckpoint result }
        ensures value { result ≡ record {
          number = number;
          segments = segments;
          version = version;
          unit_power = unit_power;
          map = map;
          usage = usage;
        } }
    {
        fits_32(&map);
        fits_32(&usage);
        Checkpoint {
            number,
            segments,
            version,
            unit_power,
            map,
            usage,
        }
    }
}

/// Two checkpoints that are spelled alike are one.
pub fn one_checkpoint_spelling()
    ensures { (c d : CheckpointValue) → FitsCheckpoint c → FitsCheckpoint d
        → checkpoint_sector c ≡ checkpoint_sector d → c ≡ d }
{}
