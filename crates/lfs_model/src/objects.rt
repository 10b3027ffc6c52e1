//! What changes of a log map do to its objects: the laws of its definitions, each the contract of a
//! function that does nothing.
ghost use Rattle.lfs_model.specs.Objects.{ObjectBytes, SameObjects, BlockOverlaid, OverlaysJoin, ObjectWritten, ObjectCut, CutEnds, NodeOfHeader, ObjectPut, ObjectTaken, LinksApart, LaidLong, ObjectCosts, DirectoryBlocks, StoredChanged, BlocksOfChange, ObjectPart, ObjectFits, ObjectKept, ObjectLost, BlockWhole, WriteEnds, LeafTests, PointerBlocks, PointersChanged, FileWritten, FileCut, LaidHeaders, CostsInTree, NeedOfObject, OverlaidByBlocks, Lengthened};

/// An object's bytes are those of its blocks.
pub fn object_bytes()
    ensures { ObjectBytes }
{}

/// Two objects of one size are the same where each byte is.
pub fn same_objects()
    ensures { SameObjects }
{}

/// One block with bytes laid over is the file with those bytes laid over.
pub fn block_overlaid()
    ensures one { BlockOverlaid }
    ensures all { OverlaidByBlocks }
{}

/// What is laid over in two pieces, the one behind the other, is laid over.
pub fn overlays_join()
    ensures { OverlaysJoin }
{}

/// What is read of an object is bytes of its blocks.
pub fn object_part()
    ensures { ObjectPart }
{}

/// A file with bytes written to its blocks is what pwrite makes of it, and no byte past its end is
/// other than zero.
pub fn object_written()
    ensures is { ObjectWritten }
    ensures ends { WriteEnds }
{}

/// A file whose blocks end at a length is what ftruncate makes of it, and no byte past that end is
/// other than zero; one made longer keeps its blocks.
pub fn object_cut()
    ensures is { ObjectCut }
    ensures longer { Lengthened }
    ensures ends { CutEnds }
{}

/// The node at a number is that of its header.
pub fn node_of_header()
    ensures { NodeOfHeader }
{}

/// An object that is there after a change is put into the tree.
pub fn object_put()
    ensures { ObjectPut }
{}

/// One that isn't there after a change is taken from the tree.
pub fn object_taken()
    ensures { ObjectTaken }
{}

/// Other links leave the tree as it is.
pub fn links_apart()
    ensures { LinksApart }
{}

/// A file that is written or cut is, in the tree, what pwrite or ftruncate makes of it.
pub fn files_changed()
    ensures written { FileWritten }
    ensures cut { FileCut }
{}

/// What is laid out has blocks of whole sectors, and headers that an inode may hold.
pub fn laid_objects()
    ensures long { LaidLong }
    ensures headers { LaidHeaders }
{}

/// An object costs what its stored blocks do, by itself and in the tree, and a directory has one in
/// each of its pieces.
pub fn object_costs()
    ensures costs { ObjectCosts }
    ensures in_tree { CostsInTree }
    ensures directory { DirectoryBlocks }
{}

/// One block changed makes the stored blocks one more, one less, or as many as before.
pub fn stored_changed()
    ensures { StoredChanged }
{}

/// One object changed changes the blocks of the tree, and its need, by those of the object.
pub fn blocks_of_change()
    ensures blocks { BlocksOfChange }
    ensures need { NeedOfObject }
{}

/// Each object of a log map fits its header.
pub fn object_fits()
    ensures { ObjectFits }
{}

/// A log map with another object that fits its header keeps what a volume's log map keeps.
pub fn object_kept()
    ensures { ObjectKept }
{}

/// So does one without an object that isn't the root.
pub fn object_lost()
    ensures { ObjectLost }
{}

/// A block that is none, or a sector with a byte that isn't zero, leaves the file's blocks whole.
pub fn block_whole()
    ensures { BlockWhole }
{}

/// The blocks of pointers that an object's cost counts are those that a log map stores for it, and
/// one block changed changes them by those above it.
pub fn pointer_blocks()
    ensures tests { LeafTests }
    ensures count { PointerBlocks }
    ensures changed { PointersChanged }
{}
