//! What is known of the slots of a directory: the laws of their definitions, each the contract of a
//! function that does nothing.
ghost use Rattle.lfs_dirs.specs.Directory.{SlotsOfBlock, SlotInBlock, NamesMany, SlotGives, FirstGives, SlotAppended, SlotReplaced, LastSlotTaken, SlotTaken};
ghost use Rattle.lfs_dirs.specs.Adding.{SlotWritten};
ghost use Rattle.lfs_dirs.specs.Keeping.{SlotsStay, DirectoryStays, EmptyDirectory};
ghost use Rattle.lfs_dirs.specs.InTree.{DirectoryMade, DirectoryNode, DirectoryWidened, NameInTree, NameOffTree};

/// A directory's slots are those of its blocks, eight a block in form 0, else four.
pub fn slots_of_block()
    ensures all { SlotsOfBlock }
    ensures one { SlotInBlock }
{}

/// A directory has as many names as slots.
pub fn names_many()
    ensures { NamesMany }
{}

/// What is found under a name is what the slot of that name gives.
pub fn slot_gives()
    ensures { SlotGives }
{}

/// What slots give under a name is what the first of them with that name gives.
pub fn first_gives()
    ensures { FirstGives }
{}

/// A slot of a new name behind the others gives one name more.
pub fn slot_appended()
    ensures { SlotAppended }
{}

/// A slot's bytes written behind a directory's slots are one slot more.
pub fn slot_written()
    ensures { SlotWritten }
{}

/// Another slot of a name in place of its own gives it another number.
pub fn slot_replaced()
    ensures { SlotReplaced }
{}

/// Without a slot, in whose place the last one may come, its name is gone.
pub fn slot_taken()
    ensures last { LastSlotTaken }
    ensures other { SlotTaken }
{}

/// What changes neither the blocks nor the size of a directory leaves its slots and its names.
pub fn directory_stays()
    ensures slots { SlotsStay }
    ensures names { DirectoryStays }
{}

/// An object of no bytes is a directory of no names.
pub fn empty_directory()
    ensures { EmptyDirectory }
{}

/// The tree's directory has the names that its slots give.
pub fn directory_in_tree()
    ensures node { DirectoryNode }
    ensures made { DirectoryMade }
    ensures widened { DirectoryWidened }
{}

/// With one name more, one that gives another number, or one less, the tree is what the calls make
/// of it.
pub fn name_in_tree()
    ensures more { NameInTree }
    ensures less { NameOffTree }
{}
