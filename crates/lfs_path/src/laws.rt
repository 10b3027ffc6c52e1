//! What is known of trees that are walked, and of the last piece of a path: laws, each the contract
//! of a function that does nothing.
ghost use Rattle.lfs_path.specs.Laws.{ChainSays, DirectoriesSay, LastSays, TreeMaps};

/// What the rows of the calls say of a path's last piece.
pub fn last_pieces_are_told()
    ensures { LastSays }
{}

/// Sound trees are walked.
pub fn sound_trees_are_walked()
    ensures { TreeMaps }
{}

/// What a directory that is walked is, and that a walk is at one.
pub fn directories_are_known()
    ensures all { DirectoriesSay }
    ensures here { ChainSays }
{}
