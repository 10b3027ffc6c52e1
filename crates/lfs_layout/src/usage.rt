//! Usage blocks, read in place.
ghost use Rattle.std.specs.Prelude.{◌≡◌, ◌<◌, ◌≤◌, ◌+◌, ◌*◌, ◌++◌, ◌↔◌, List, ℕ, length, slice_index_or, get_or, IfSome, IfNone, IsTrue};
ghost use Rattle.lfs_model.specs.Usage.{SegmentUse, IsUse, IsUnused, FitsUsage, no_use, usage_entry, usage_sector, use_at, usage_in};

use crate::fields::{number16_at, number32_at};
use crate::writer::SectorWriter;
use lfs_model::limits::{BLOCK_SEGMENTS, SECTOR_LEN, SEGMENT_SECTORS};
use std::marker::Model;

/// The sectors of a segment.
const SECTORS: u16 = SEGMENT_SECTORS as u16;

/// What is known of a segment.
#[derive(Clone, Copy, Debug, PartialEq, Eq)]
pub struct SegmentUsage {
    /// How many sectors its used part has, at most 64; 0 for a clean segment.
    pub used: u16,
    /// How many of its blocks the checkpoint reaches.
    pub live: u16,
    /// The number of the checkpoint that wrote to it last, at most 2^32 - 1.
    pub age: u32,
}

impl Model for SegmentUsage {
    ghost use Rattle.lfs_model.specs.Usage.{SegmentUse};

    ghost Value = { SegmentUse };

    ghost view = { λ u. record { used = u.used; live = u.live; age = u.age } };

    ghost inverse = { λ u. record { used = u.used; live = u.live; age = u.age } };
}

/// The entries of 64 segments that stand in a sector.
#[derive(Drop)]
pub struct UsageView<'a> {
    sector: &'a [u8; 512],
}

impl<'a> Model for UsageView<'a> {
    ghost use Rattle.std.specs.Prelude.{List};
    ghost use Rattle.lfs_model.specs.Usage.{SegmentUse, usage_of};

    ghost Value = { List SegmentUse };

    ghost view = { λ v. usage_of v.sector.now };
}

fn is_use(entry: SegmentUsage) -> bool
    ensures { IsTrue result ↔ IsUse entry }
{
    entry.used <= SECTORS
        && (if entry.used == 0 {
            entry.live == 0
        } else {
            entry.live != 0 && entry.live < entry.used
        })
}

fn is_unused(entry: SegmentUsage) -> bool
    ensures { IsTrue result ↔ IsUnused entry }
{
    entry.used == 0 && entry.live == 0 && entry.age == 0
}

fn entry_at(sector: &[u8; 512], place: usize) -> SegmentUsage
    requires { place + 8 ≤ SECTOR_LEN }
    ensures { result ≡ use_at place sector.now }
{
    SegmentUsage {
        used: number16_at(sector, place),
        live: number16_at(sector, place + 2),
        age: number32_at(sector, place + 4),
    }
}

#[tactic(auto, unfolding(lfs_model::specs::Usage::usage_entry))]
fn write_entry(sector: &mut SectorWriter, entry: SegmentUsage)
    requires { length sector.old + 8 ≤ SECTOR_LEN }
    ensures written { sector.new ≡ sector.old ++ usage_entry entry }
    ensures length { length sector.new ≡ length sector.old + 8 }
{
    sector.number16(entry.used);
    sector.number16(entry.live);
    sector.number32(entry.age);
}

impl<'a> UsageView<'a> {
    /// The usage block whose sector this is, if it is one where its first `count` entries belong to
    /// segments.
    pub fn decode(sector: &'a [u8; 512], count: usize) -> Option<UsageView<'a>>
        ensures found { IfSome result (λ us. FitsUsage count us × (sector.now ≡ usage_sector us)) }
        ensures none { IfNone result ((us : List SegmentUse) → FitsUsage count us
            → ¬ (sector.now ≡ usage_sector us)) }
        ensures exact { result ≡ usage_in count sector.now }
    {
        for i in 0..BLOCK_SEGMENTS as usize {
            let entry = entry_at(sector, 8 * i);
            if !is_use(entry) {
                return None;
            }
            if i >= count && !is_unused(entry) {
                return None;
            }
        }
        Some(UsageView { sector })
    }

    /// The entry of a segment.
    pub fn get(&self, entry: usize) -> SegmentUsage
        requires { entry < BLOCK_SEGMENTS }
        ensures { result ≡ get_or self.now entry no_use }
    {
        entry_at(self.sector, 8 * entry)
    }
}

/// The usage block of these entries.
pub fn encode_usage(entries: &[SegmentUsage; 64]) -> [u8; 512]
    ensures { result ≡ usage_sector entries.now }
{
    let mut sector = SectorWriter::new();
    for entry in entries {
        write_entry(&mut sector, *entry);
    }
    sector.finish()
}

/// Two usage blocks that are spelled alike are one.
pub fn one_usage_spelling()
    ensures { (n m : ℕ) (a b : List SegmentUse) → FitsUsage n a → FitsUsage m b
        → usage_sector a ≡ usage_sector b → a ≡ b }
{}
