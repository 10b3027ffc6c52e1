// The volumes of the program that docs/CALLS.md shows.
use lfs_example::{in_a_file, in_memory};
use std::fs;

const IMAGE: &str = "example.img";

#[test]
fn what_was_synced_is_there(rt: HostRuntime) {
    let alloc = rt.alloc();
    let kept = in_memory(alloc);
    assert!(rt; kept.is_ok_and(|bytes| bytes.as_slice() == b"one\ntwo\n".as_slice()));
    let found = in_a_file(&rt, alloc, IMAGE);
    assert!(rt; found.is_ok_and(|bytes| bytes.as_slice() == b"three\n".as_slice()));
    assert!(rt; fs::remove_file(&rt, IMAGE).is_ok());
}
