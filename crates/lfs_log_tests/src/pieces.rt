//! Bytes laid over blocks, cut off them, and read out of them.
use lfs_store::pieces::{append_part, cut_tail, overlay};
use std::alloc::Global;

/// A block whose bytes are their places, below 256.
fn counted() -> [u8; 512] {
    let mut block = [0; 512];
    for k in 0..512usize {
        block[k] = (k % 256) as u8;
    }
    block
}

/// The places at which two blocks differ: how many, the first, the last.
fn differing(old: &[u8; 512], new: &[u8; 512]) -> (usize, usize, usize) {
    let mut found = (0usize, 0usize, 0usize);
    for k in 0..512usize {
        if old[k] != new[k] {
            let first = if found.0 == 0 { k } else { found.1 };
            found = (found.0.saturating_add(1), first, k);
        }
    }
    found
}

/// The places of a block of zeros that sevens laid over the file change.
fn overlaid(index: u32, at: u32, len: usize) -> Option<(usize, usize, usize)> {
    let bytes = [7; 1_200];
    if index > 16_623 || at > 8_511_488 || len > 1_200 || at + len as u32 > 8_511_488 {
        return None;
    }
    let mut block = [0; 512];
    overlay(&mut block, index, at, &bytes[..len]);
    Some(differing(&[0; 512], &block))
}

#[test]
fn bytes_laid_over_a_block(rt: HostRuntime) {
    for (index, at, len, want) in [
        (0, 0, 0, (0, 0, 0)),
        (0, 0, 1, (1, 0, 0)),
        (0, 10, 5, (5, 10, 14)),
        (0, 510, 3, (2, 510, 511)),
        (1, 510, 3, (1, 0, 0)),
        (2, 510, 3, (0, 0, 0)),
        (0, 512, 3, (0, 0, 0)),
        (1, 100, 1_200, (512, 0, 511)),
        (2, 100, 1_200, (276, 0, 275)),
        (16_623, 8_511_487, 1, (1, 511, 511)),
        (0, 8_511_487, 1, (0, 0, 0)),
    ] {
        assert!(rt; overlaid(index, at, len) == Some(want));
    }
    let mut block = [0; 512];
    overlay(&mut block, 1, 510, &[1, 2, 3, 4]);
    assert!(rt; (block[0], block[1], block[2]) == (3, 4, 0));
}

#[test]
fn tails_cut_off_a_block(rt: HostRuntime) {
    for (from, want) in [
        (0, (512, 0, 511)),
        (1, (511, 1, 511)),
        (511, (1, 511, 511)),
        (512, (0, 0, 0)),
    ] {
        let mut block = [9; 512];
        cut_tail(&mut block, from);
        assert!(rt; differing(&[9; 512], &block) == want);
    }
}

/// Whether a byte before is followed by a part of the counted block once that is appended.
fn appends(alloc: Global, index: u32, from: u32, to: u32, want: &[u8]) -> bool {
    let mut out = Vec::new(alloc);
    out.push(1).is_ok()
        && append_part(&mut out, &counted(), index.min(16_623), from, to).is_ok()
        && out.as_slice() == want
}

#[test]
fn parts_appended(rt: HostRuntime) {
    let mut whole = [1; 513];
    whole[1..].copy_from_slice(&counted());
    for (index, from, to, want) in [
        (0, 0, 0, &[1][..]),
        (0, 3, 6, &[1, 3, 4, 5][..]),
        (0, 510, 600, &[1, 254, 255][..]),
        (1, 510, 514, &[1, 0, 1][..]),
        (2, 510, 514, &[1][..]),
        (1, 5, 500, &[1][..]),
        (16_623, 8_511_487, 8_511_488, &[1, 255][..]),
        (0, 7, 5, &[1][..]),
        (3, 0, 5_000, &whole[..]),
    ] {
        assert!(rt; appends(rt.alloc(), index, from, to, want));
    }
}
