//! The slots of a directory, read in place. How wide they are, the directory's form says.
ghost use Rattle.std.specs.Prelude.{◌≡◌, ◌<◌, ◌≤◌, ◌+◌, ◌*◌, ◌-◌, ◌↔◌, ℕ, length, slice_index, Some, IfSome, IfNone, IsTrue};
ghost use Rattle.lfs_model.specs.Fields.{part, read32};
ghost use Rattle.lfs_model.specs.Slot.{SlotValue, IsName, FitsSlot, slot_bytes, slot_in};
ghost use Rattle.lfs_model.specs.Tree.{name_len, slot_len};

use crate::inode::is_within;
use crate::writer::Writer;
use byteorder::{ByteOrder, LittleEndian};
use lfs_model::limits::{LAST_NUMBER, NARROW_SLOT, SECTOR_LEN, WIDE_SLOT};
use std::marker::Model;

/// The place in a slot at which its name begins, behind the number and the name's length.
const NAME_AT: usize = 5;

/// The bytes of a slot of a directory of this form: 64 in form 0, else 128.
pub fn slot_len(form: u8) -> u32
    ensures value { result ≡ slot_len form }
    ensures least { NARROW_SLOT ≤ result }
    ensures most { result ≤ WIDE_SLOT }
{
    match form {
        0 => NARROW_SLOT,
        _ => WIDE_SLOT,
    }
}

/// A slot that stands in a directory's block: an object's number and the name that it has there.
#[derive(Drop)]
pub struct SlotView<'a> {
    slot: &'a [u8],
}

impl<'a> Model for SlotView<'a> {
    ghost use Rattle.std.specs.Prelude.{◌≤◌, ◌+◌, length, get_or};
    ghost use Rattle.lfs_model.specs.Slot.{SlotValue, slot_of};

    ghost Value = { SlotValue };

    ghost view = { λ v. slot_of v.slot.now };

    ghost invariant = { λ v. 5 + get_or v.slot.now 4 0 ≤ length v.slot.now };
}

/// Whether the bytes may be a name in a directory of this form: 1 to 59 of them in form 0, else 1
/// to 123, none 0 or a slash, and neither dot nor dot-dot.
pub fn is_name(form: u8, name: &[u8]) -> bool
    ensures { IsTrue result ↔ IsName (name_len form) name.now }
{
    if name.is_empty() {
        return false;
    }
    if name.len() > slot_len(form) as usize - NAME_AT {
        return false;
    }
    if name == b".".as_slice() {
        return false;
    }
    if name == b"..".as_slice() {
        return false;
    }
    for byte in name {
        if *byte == 0 {
            return false;
        }
        if *byte == b'/' {
            return false;
        }
    }
    true
}

/// The bytes of one of the slots of a block of a directory of this form.
pub fn nth_slot(block: &[u8; 512], form: u8, place: usize) -> &[u8]
    requires { slot_len form * place + slot_len form ≤ SECTOR_LEN }
    ensures bytes { result.now ≡ part (slot_len form * place) (slot_len form) block.now }
    ensures long { length result.now ≡ slot_len form }
{
    let len = slot_len(form) as usize;
    let at = len * place;
    &block[at..at + len]
}

fn number_of(slot: &[u8]) -> u32
    requires { NAME_AT ≤ length slot.now }
    ensures { result ≡ read32 0 slot.now }
{
    LittleEndian::read_u32(&slot[0..4])
}

fn name_of(slot: &[u8], len: usize) -> &[u8]
    requires { NAME_AT + len ≤ length slot.now }
    ensures { result.now ≡ part NAME_AT len slot.now }
{
    &slot[NAME_AT..NAME_AT + len]
}

fn is_zero_after(slot: &[u8], at: usize) -> bool
    ensures { IsTrue result ↔ ((i : ℕ) → at ≤ i → i < length slot.now
        → slice_index slot.now i ≡ 0) }
{
    for i in at..slot.len() {
        if slot[i] != 0 {
            return false;
        }
    }
    true
}

/// Whether a slot's name is this one. It compares lengths before bytes, and asks nothing else of
/// the slot.
pub fn has_name(slot: &[u8], name: &[u8]) -> bool
    requires { NAME_AT ≤ length slot.now }
    ensures { (form : ℕ) (s : SlotValue) → slot_in form slot.now ≡ Some s
        → (IsTrue result ↔ s.name ≡ name.now) }
{
    if slot[4] as usize != name.len() {
        return false;
    }
    if name.len() > slot.len() - NAME_AT {
        return false;
    }
    name_of(slot, name.len()) == name
}

impl<'a> SlotView<'a> {
    /// The slot that these bytes are, if they are one of a directory of this form.
    pub fn decode(form: u8, slot: &'a [u8]) -> Option<SlotView<'a>>
        requires { length slot.now ≡ slot_len form }
        ensures found { IfSome result (λ s. FitsSlot form s × (slot.now ≡ slot_bytes form s)) }
        ensures none { IfNone result ((s : SlotValue) → FitsSlot form s
            → ¬ (slot.now ≡ slot_bytes form s)) }
        ensures exact { result ≡ slot_in form slot.now }
    {
        let number = number_of(slot);
        if !is_within(number, LAST_NUMBER as u32) {
            return None;
        }
        let len = slot[4] as usize;
        if len > slot.len() - NAME_AT {
            return None;
        }
        if !is_name(form, name_of(slot, len)) {
            return None;
        }
        if !is_zero_after(slot, NAME_AT + len) {
            return None;
        }
        Some(SlotView { slot })
    }

    /// The number of the object that the slot names, 1 to 4,095.
    pub fn number(&self) -> u32
        ensures { result ≡ self.now.number }
    {
        number_of(self.slot)
    }

    /// The name.
    pub fn name(&self) -> &'a [u8]
        ensures { result.now ≡ self.now.name }
    {
        name_of(self.slot, self.slot[4] as usize)
    }
}

/// The bytes of a slot that is to be written.
pub type SlotBytes = Writer<128>;

/// The bytes by which a directory of this form names an object, whose number is 1 to 4,095;
/// `is_name` tells what a name may be.
pub fn encode_slot(form: u8, number: u32, name: &[u8]) -> SlotBytes
    requires { FitsSlot form record { number = number; name = name.now } }
    ensures bytes { result ≡ slot_bytes form record { number = number; name = name.now } }
    ensures long { length result ≡ slot_len form }
{
    let mut slot = Writer::new();
    slot.number32(number);
    slot.bytes(&[name.len() as u8]);
    slot.bytes(name);
    slot.zeros(slot_len(form) as usize - NAME_AT - name.len());
    slot
}

/// Two slots of a form that are spelled alike are one.
pub fn one_slot_spelling()
    ensures { (form : ℕ) (a b : SlotValue) → FitsSlot form a → FitsSlot form b
        → slot_bytes form a ≡ slot_bytes form b → a ≡ b }
{}
