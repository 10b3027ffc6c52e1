//! Bytes that are written field by field, from the first on.
ghost use Rattle.std.specs.Prelude.{◌≡◌, ◌≤◌, ◌+◌, ◌*◌, ◌++◌, [], length};
ghost use Rattle.lfs_model.specs.Fields.{le16, le32, le64, words, zeros};

use byteorder::{ByteOrder, LittleEndian};
use std::marker::Model;

/// `L` bytes so far: contracts see those that are written. Zeros stand behind them.
#[derive(Drop)]
pub struct Writer<const L: usize> {
    bytes: [u8; L],
    at: usize,
}

/// A sector that is written.
pub type SectorWriter = Writer<512>;

impl<const L: usize> Model for Writer<L> {
    ghost use Rattle.std.specs.Prelude.{ℕ, List, take, drop, length, replicate, ◌-◌, ◌≤◌, ◌≡◌};

    ghost Value = { List ℕ };

    ghost view = { λ w. take w.at w.bytes };

    ghost invariant = { λ w. (w.at ≤ L) × (length w.bytes ≡ L) × (drop w.at w.bytes ≡ replicate (L - w.at) 0) };
}

impl<const L: usize> Writer<L> {
    pub fn new() -> Writer<L>
        ensures { result ≡ [] }
    {
        Writer {
            bytes: [0; L],
            at: 0,
        }
    }

    /// Writes bytes.
    pub fn bytes(&mut self, bytes: &[u8])
        requires { length self.old + length bytes.now ≤ L }
        ensures written { self.new ≡ self.old ++ bytes.now }
        ensures length { length self.new ≡ length self.old + length bytes.now }
    {
        let end = self.at + bytes.len();
        let whole = &mut self.bytes[..];
        whole[self.at..end].copy_from_slice(bytes);
        self.at = end;
    }

    /// Writes `len` zeros, which stand there.
    pub fn zeros(&mut self, len: usize)
        requires { length self.old + len ≤ L }
        ensures written { self.new ≡ self.old ++ zeros len }
        ensures length { length self.new ≡ length self.old + len }
    {
        self.at += len;
    }

    /// Writes a number of 2 bytes.
    #[tactic(auto, unfolding(lfs_model::specs::Fields::le16))]
    pub fn number16(&mut self, n: u16)
        requires { length self.old + 2 ≤ L }
        ensures written { self.new ≡ self.old ++ le16 n }
        ensures length { length self.new ≡ length self.old + 2 }
    {
        let mut bytes = [0; 2];
        LittleEndian::write_u16(&mut bytes, n);
        self.bytes(&bytes);
    }

    /// Writes a number of 4 bytes.
    #[tactic(auto, unfolding(lfs_model::specs::Fields::le32))]
    pub fn number32(&mut self, n: u32)
        requires { length self.old + 4 ≤ L }
        ensures written { self.new ≡ self.old ++ le32 n }
        ensures length { length self.new ≡ length self.old + 4 }
    {
        let mut bytes = [0; 4];
        LittleEndian::write_u32(&mut bytes, n);
        self.bytes(&bytes);
    }

    /// Writes a number of 8 bytes.
    #[tactic(auto, unfolding(lfs_model::specs::Fields::le64))]
    pub fn number64(&mut self, n: u64)
        requires { length self.old + 8 ≤ L }
        ensures written { self.new ≡ self.old ++ le64 n }
        ensures length { length self.new ≡ length self.old + 8 }
    {
        let mut bytes = [0; 8];
        LittleEndian::write_u64(&mut bytes, n);
        self.bytes(&bytes);
    }

    /// Writes numbers of 4 bytes each.
    #[tactic(auto, unfolding(lfs_model::specs::Fields::le32, lfs_model::specs::Fields::words))]
    pub fn words(&mut self, numbers: &[u32])
        requires { length self.old + 4 * length numbers.now ≤ L }
        ensures written { self.new ≡ self.old ++ words numbers.now }
        ensures length { length self.new ≡ length self.old + 4 * length numbers.now }
    {
        let end = self.at + 4 * numbers.len();
        let whole = &mut self.bytes[..];
        LittleEndian::write_u32_into(numbers, &mut whole[self.at..end]);
        self.at = end;
    }

    /// The bytes that are written.
    pub fn written(&self) -> &[u8]
        ensures { result.now ≡ self.now }
    {
        &self.bytes[..self.at]
    }

    /// The bytes, once they are whole.
    pub fn finish(self) -> [u8; L]
        requires { length self ≡ L }
        ensures { result ≡ self.entry }
    {
        self.bytes
    }
}
