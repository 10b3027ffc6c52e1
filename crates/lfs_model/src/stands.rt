//! What a content stands for: the laws of its definitions, each the contract of a function that
//! does nothing.
ghost use Rattle.lfs_model.specs.Content.{LastStandsAlone, NewestFits};
ghost use Rattle.lfs_model.specs.Crash.{Locality, SingleLog, FreeWrites, SlotWrite};
ghost use Rattle.lfs_model.specs.Encodes.{Encoding};
ghost use Rattle.lfs_model.specs.Decodes.{Decoding};
ghost use Rattle.lfs_model.specs.Damage.{StagesByNumber, NotDamaged, OneDamage, DamageCodes};
ghost use Rattle.lfs_model.specs.Live.{LiveSectors, NamedCounts, OneMoreLive, SameLive, PlacedCounts, LiveLess, ChunkRead};
ghost use Rattle.lfs_model.specs.Image.{Formatted, NewImages};
ghost use Rattle.lfs_model.specs.Volume.{SingleState, StateLocality, StateSlotWrite, FoundStands, NotRefused, StandingIsSound, NewVolume, MountedLog, DroppedTree, DroppedLog, DroppedStands, DroppedAgain, NothingDropped};

/// The newest checkpoint, as a function, is the one that the slots' contents determine.
pub fn newest_fits()
    ensures { NewestFits }
{}

/// Where the newest checkpoint is of the last version, no slot holds one of an older version.
pub fn last_stands_alone()
    ensures { LastStandsAlone }
{}

/// A content that has the protected sectors of another, and its newest checkpoint, stands for the
/// same log map.
pub fn locality()
    ensures { Locality }
{}

/// A content stands for at most one log map.
pub fn single_log()
    ensures { SingleLog }
{}

/// A write to a sector that is free for the acknowledged checkpoint keeps, at each crash, what that
/// one needs.
pub fn free_writes()
    ensures { FreeWrites }
{}

/// The write of the next checkpoint leaves, at each crash, the one log map or the other.
pub fn slot_write()
    ensures { SlotWrite }
{}

/// What a writer has laid out for a log map stands for it.
pub fn encoding()
    ensures { Encoding }
{}

/// What stands for a log map is laid out for it.
pub fn decoding()
    ensures { Decoding }
{}

/// All stages hold exactly where each number's does.
pub fn stages_by_number()
    ensures { StagesByNumber }
{}

/// What stands isn't damaged.
pub fn not_damaged()
    ensures { NotDamaged }
{}

/// Damage has one code.
pub fn one_damage()
    ensures { OneDamage }
{}

/// The codes of damage are 1 to 15.
pub fn damage_codes()
    ensures { DamageCodes }
{}

/// A sector counts as live exactly where an entry is reached there.
pub fn live_sectors()
    ensures { LiveSectors }
{}

/// How many sectors of a segment are reached is how many are named by what is reached there.
pub fn named_counts()
    ensures { NamedCounts }
{}

/// A block that comes raises its segment's count by one.
pub fn one_more_live()
    ensures { OneMoreLive }
{}

/// The count depends on the sectors that are reached alone.
pub fn same_live()
    ensures { SameLive }
{}

/// An entry that comes raises its segment's count by one, and no other.
pub fn placed_counts()
    ensures { PlacedCounts }
{}

/// Fewer sectors are live than in use.
pub fn live_less()
    ensures { LiveLess }
{}

/// A chunk is read from its summary.
pub fn chunk_read()
    ensures { ChunkRead }
{}

/// A volume as it is made stands for the log map of an empty root, at its first checkpoint.
pub fn formatted()
    ensures { Formatted }
{}

/// There is such a volume of each count of segments, and of 64 it has these bytes.
pub fn new_images()
    ensures { NewImages }
{}

/// A content stands for at most one tree.
pub fn single_state()
    ensures { SingleState }
{}

/// A content that has the protected sectors of another, and its newest checkpoint, stands for the
/// same tree.
pub fn state_locality()
    ensures { StateLocality }
{}

/// The write of the next checkpoint leaves, at each crash, the one tree or the other.
pub fn state_slot_write()
    ensures { StateSlotWrite }
{}

/// Where all stages hold, a content stands for the tree that is read from it.
pub fn found_stands()
    ensures { FoundStands }
{}

/// What stands for a tree is refused by no mount.
pub fn not_refused()
    ensures { NotRefused }
{}

/// The state that a device's content stands for is sound.
pub fn standing_is_sound()
    ensures { StandingIsSound }
{}

/// A new volume has an empty root.
pub fn new_volume()
    ensures { NewVolume }
{}

/// What a mount finds is a running volume's log map: its state is sound, and the headers' links are
/// the tree's.
pub fn mounted_log()
    ensures { MountedLog }
{}

/// The log map of a running volume without its files of no links is that of the tree without the
/// nodes of no name.
pub fn dropped_tree()
    ensures { DroppedTree }
{}

/// It keeps what a volume's log map keeps.
pub fn dropped_log()
    ensures { DroppedLog }
{}

/// A content that stands for it stands for the state without its nodes of no name.
pub fn dropped_stands()
    ensures { DroppedStands }
{}

/// With that state it is the log map of a running volume again.
pub fn dropped_again()
    ensures { DroppedAgain }
{}

/// What a content stands for has no node of no name.
pub fn nothing_dropped()
    ensures { NothingDropped }
{}
