//! The log in memory and on its device: the laws of its one invariant, each the contract of a
//! function that does nothing.
ghost use Rattle.lfs_model.specs.Placing.{Placing, MapPlacing, MapLeaving, Settling, Filling, Opening, Reopening, Padding, Sealing};
ghost use Rattle.lfs_model.specs.Lifting.{Lifting, MapLifting, UsageLifting};
ghost use Rattle.lfs_model.specs.Changing.{Rewriting, Adding, Removing, Growing, Shrinking, Relabeling, Creating, Forgetting, Reading};
ghost use Rattle.lfs_model.specs.Detaching.{Detaching, DetachedCounts, DetachedLive};
ghost use Rattle.lfs_model.specs.Counting.{MovedCounts, TakenCounts, UnplacedCounts, OneMoreCounted};
ghost use Rattle.lfs_model.specs.Finishing.{Finishing, Releasing, ReleasedFree, Mounting};
ghost use Rattle.lfs_model.specs.Raising.{RaisedKept, RaisedLaid, RaisedTree};

/// A block of a file goes to the next sector of the open segment, and the block above it points
/// there: memory and device are laid out as before.
pub fn placing()
    ensures { Placing }
{}

/// An inode map block goes out, once the inodes that it shows are out.
pub fn map_placing()
    ensures { MapPlacing }
{}

/// An inode map block that shows no inode isn't stored.
pub fn map_leaving()
    ensures { MapLeaving }
{}

/// A usage block gets its place before it is written.
pub fn settling()
    ensures { Settling }
{}

/// A usage block is written where it has its place.
pub fn filling()
    ensures { Filling }
{}

/// A clean segment is opened, and all counts stay.
pub fn opening()
    ensures { Opening }
{}

/// A segment with room is opened again, and all counts stay.
pub fn reopening()
    ensures { Reopening }
{}

/// The last chunk names an entry more to whose sector no address leads, and all counts stay.
pub fn padding()
    ensures { Padding }
{}

/// The summary of the last chunk is written, and no segment is open.
pub fn sealing()
    ensures { Sealing }
{}

/// A block of a file comes into memory as it is.
pub fn lifting()
    ensures { Lifting }
{}

/// An inode map block will be written.
pub fn map_lifting()
    ensures { MapLifting }
{}

/// A usage block will be written.
pub fn usage_lifting()
    ensures { UsageLifting }
{}

/// A data block in memory is another, and so is the log map's.
pub fn rewriting()
    ensures { Rewriting }
{}

/// A data block comes where none was.
pub fn adding()
    ensures { Adding }
{}

/// A data block goes.
pub fn removing()
    ensures { Removing }
{}

/// An empty block of pointers comes where none was.
pub fn growing()
    ensures { Growing }
{}

/// A block of pointers that has become empty goes.
pub fn shrinking()
    ensures { Shrinking }
{}

/// A file's header is another.
pub fn relabeling()
    ensures { Relabeling }
{}

/// A file comes, without blocks.
pub fn creating()
    ensures { Creating }
{}

/// A file goes, with all its blocks.
pub fn forgetting()
    ensures { Forgetting }
{}

/// Entries of a file go, with all that is below them.
pub fn detaching()
    ensures { Detaching }
{}

/// What memory and its addresses lead to is the log map's.
pub fn reading()
    ensures { Reading }
{}

/// A block that goes to the log raises the count of its segment by one, if it is counted.
pub fn moved_counts()
    ensures { MovedCounts }
{}

/// A block that leaves its address lowers the count of its segment by one, if it is counted.
pub fn taken_counts()
    ensures { TakenCounts }
{}

/// A block without an address changes no count.
pub fn unplaced_counts()
    ensures { UnplacedCounts }
{}

/// One entry more is counted where its block stands.
pub fn one_more_counted()
    ensures { OneMoreCounted }
{}

/// Entries of a file that go lower each count by those of them that it counted.
pub fn detached_counts()
    ensures { DetachedCounts }
{}

/// Of a file with a name they lower the live counts, of one without the held counts.
pub fn detached_live()
    ensures { DetachedLive }
{}

/// What a commit leaves stands, by its checkpoint, for the log map without its files of no links.
pub fn finishing()
    ensures { Finishing }
{}

/// Segments where nothing lives, and which nothing holds, are clean again.
pub fn releasing()
    ensures { Releasing }
{}

/// The sectors of a segment where nothing lives are free for the checkpoint.
pub fn released_free()
    ensures { ReleasedFree }
{}

/// What a mount finds is laid out for its log map.
pub fn mounting()
    ensures { Mounting }
{}

/// Where a log map's version of the layout is raised, memory and device are laid out as before. A
/// volume may keep the log map if it might before, and its tree is the same.
pub fn raising()
    ensures laid { RaisedLaid }
    ensures kept { RaisedKept }
    ensures tree { RaisedTree }
{}
