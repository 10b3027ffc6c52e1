//! Sectors as values and back.
#![tactic(auto)]

mod address;
mod checkpoint;
mod fields;
mod inode;
mod patch;
mod pointers;
mod slot;
mod summary;
mod usage;
mod writer;
mod zero;

pub use address::{place_in_segment, segment_of};
pub use checkpoint::{
    Checkpoint, is_sector_version, is_segment_count, is_version, most_unit_power,
    one_checkpoint_spelling,
};
pub use inode::{
    DOUBLE_POINTER, FIRST_POINTER, Inode, InodeView, SINGLE_POINTER, is_form, is_size,
    one_inode_spelling,
};
pub use patch::{SECTOR_WORDS, set_header, set_usage_entry, set_word, word};
pub use pointers::{PointerView, encode_pointers, one_pointer_spelling};
pub use slot::{
    SlotBytes, SlotView, encode_slot, has_name, is_name, nth_slot, one_slot_spelling, slot_len,
};
pub use summary::{
    BlockName, SummaryView, encode_summary, is_placed, is_summary, one_summary_spelling,
};
pub use usage::{SegmentUsage, UsageView, encode_usage, one_usage_spelling};
pub use writer::Writer;
pub use zero::is_zero;
