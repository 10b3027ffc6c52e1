//! Laws that the layers above may use, each the contract of a function that does nothing.
ghost use Rattle.std.specs.Prelude.{◌≡◌, ◌<◌, ◌^◌, ℕ};
ghost use Rattle.lfs_model.specs.Checkpoint.{CheckpointValue};
ghost use Rattle.lfs_model.specs.Content.{Content};
ghost use Rattle.lfs_model.specs.Entry.{Entry, Data, Leaf, Double};
ghost use Rattle.lfs_model.specs.Memory.{parent};
ghost use Rattle.lfs_model.specs.Reach.{address, inode_block};
ghost use Rattle.lfs_inodes.specs.Code.{IsCode, code, entry_at};
ghost use Rattle.lfs_inodes.specs.Pointed.{pointed};
ghost use Rattle.lfs_inodes.specs.Present.{PresentIsLaid};

/// Numbers of keys and the blocks that they name are one to one.
pub fn keys_name_blocks()
    ensures back { (c : ℕ) → IsCode c → code (entry_at c) ≡ c }
    ensures there { (x : Entry) → code x < 2 ^ 32 → entry_at (code x) ≡ x }
    ensures keys { (x : Entry) → code x < 2 ^ 32 → IsCode (code x) }
{}

/// A block has a lower number than the block that points to it, so the block with the least number
/// is the lowest.
pub fn parents_come_later()
    ensures { (x : Entry) → (parent x ≡ x → ⊥) → code x < 2 ^ 32 → code x < code (parent x) }
{}

/// The pointers of an inode that a checkpoint reaches lead to what the checkpoint reaches.
#[tactic(auto, unfolding(lfs_model::specs::Reach::address))]
pub fn pointers_reach()
    ensures data { (content : Content) (k : CheckpointValue) (n i : ℕ)
        → address content k (Data n i) ≡ pointed content (inode_block content k n) (Data n i) }
    ensures leaf { (content : Content) (k : CheckpointValue) (n q : ℕ)
        → address content k (Leaf n q) ≡ pointed content (inode_block content k n) (Leaf n q) }
    ensures double { (content : Content) (k : CheckpointValue) (n : ℕ)
        → address content k (Double n) ≡ pointed content (inode_block content k n) (Double n) }
{}

/// What `locate_present` follows leads to what the log's memory has for a data block, where memory
/// and device are laid out for a log map.
pub fn present_pointers_are_laid()
    ensures { PresentIsLaid }
{}
