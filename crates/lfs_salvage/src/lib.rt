//! What a damaged volume still holds, and where it is damaged: walks over any image, by the layout
//! of its sectors alone.
#![tactic(auto)]

mod addresses;
mod blocks;
mod by_places;
mod checking;
mod count_stages;
mod damage;
mod directory;
mod file_stages;
mod log_stages;
mod name_stages;
mod paths;
mod readings;
mod slots;
mod survey;
mod walk;

pub use addresses::{Addresses, Object, read_addresses};
pub use blocks::{Blocks, Flaw, Gap, MOST_STEPS, Piece, addresses_agree};
pub use by_places::{ByPlaces, device_sector};
pub use checking::find_damage;
pub use damage::{Damage, Part};
pub use directory::{Entry, Listing, Place, list};
pub use paths::{Paths, read_paths};
pub use readings::{Readings, first_sector, read_sector};
pub use slots::{Slot, Slots, read_slots, slot_of};
pub use walk::{NUMBERS, ROOT, Walk, named_by};
