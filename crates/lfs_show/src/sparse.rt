//! Files of the host in which zeros are holes.
use lfs_host::host::{HostFault, made};
use std::fs::File;
use std::io;
use std::io::Write;
use std::os::unix::fs::FileExt;

/// How many zeros a hole takes, which is a block of most file systems.
const HOLE_LEN: usize = 4_096;

/// A new file of the host, which is filled from its beginning on. What is all zero isn't written, and
/// reads as zeros for the length that the file gets in the end.
#[derive(Drop)]
pub struct SparseFile {
    file: File,
    len: u64,
}

impl SparseFile {
    /// Nothing was written yet.
    pub fn new(file: File) -> SparseFile {
        SparseFile { file, len: 0 }
    }

    /// Ends the file, also behind a hole.
    pub fn finish(self) -> Result<(), HostFault> {
        made(self.file.set_len(self.len))
    }
}

impl Write for SparseFile {
    // Takes as many bytes as a hole has at most.
    fn write(&mut self, buf: &[u8]) -> io::Result<usize> {
        let count = buf.len().min(HOLE_LEN);
        let part = &buf[..count];
        if part.iter().any(|byte| *byte != 0) {
            self.file.write_all_at(part, self.len)?;
        }
        self.len = self.len.saturating_add(count as u64);
        Ok(count)
    }

    fn flush(&mut self) -> io::Result<()> {
        Ok(())
    }
}
