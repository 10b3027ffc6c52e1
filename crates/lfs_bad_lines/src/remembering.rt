//! A reader that remembers the lines that a script may be at.
ghost use Rattle.std.specs.Prelude.{◌≡◌, ◌<◌, vec_len};

use lfs_model::limits::LONGEST_LINE;
use memchr::{memchr_iter, memrchr};
use std::alloc::Global;
use std::io;
use std::io::Read;

/// A reader that keeps the lines that it gave bytes of in its last read, each from its beginning.
/// Who takes all bytes of a read before the next one finds there the line that it is at. Of a line
/// that is longer than any of a script it keeps a beginning.
#[derive(Drop)]
pub struct LineKeeper<R> {
    reader: R,
    kept: Vec<u8>,
    /// How many bytes of what is kept are known to have no newline.
    looked_at: usize,
    /// The number of the first line that is kept, counted from 1.
    first: u64,
    /// Memory for a line was refused.
    lost: bool,
}

impl<R> LineKeeper<R> {
    pub fn new(alloc: Global, reader: R) -> LineKeeper<R>
        ensures { result.reader ≡ reader }
    {
        LineKeeper {
            reader,
            kept: Vec::new(alloc),
            looked_at: 0,
            first: 1,
            lost: false,
        }
    }

    // Lets go of the lines up to this newline.
    fn let_go(&mut self, newline: usize)
        requires { newline < vec_len self.old.kept }
        ensures { self.new.reader ≡ self.old.reader }
    {
        let whole = &self.kept[..newline];
        let lines = memchr_iter(b'\n', whole).count() as u64 + 1;
        self.first = self.first.saturating_add(lines);
        let left = self.kept.len() - newline - 1;
        self.kept.copy_within(newline + 1.., 0);
        self.kept.truncate(left);
    }

    // Lets go of the lines whose ends were read. Only bytes of the last read are looked at.
    fn forget(&mut self)
        ensures { self.new.reader ≡ self.old.reader }
    {
        let before = self.looked_at.min(self.kept.len());
        if let Some(newline) = memrchr(b'\n', &self.kept[before..]) {
            self.let_go(before + newline);
        }
        self.looked_at = self.kept.len();
    }

    /// The line of this number, as far as it was read, without its newline. None where it isn't
    /// kept.
    pub fn line(&self, number: u64) -> Option<&[u8]> {
        if self.lost {
            return None;
        }
        let before = usize::try_from(number.checked_sub(self.first)?).ok()?;
        self.kept.split(|byte| *byte == b'\n').nth(before)
    }
}

impl<R: Read> Read for LineKeeper<R> {
    ghost remaining = { λ keeper. R.remaining keeper.reader };

    fn read(&mut self, buf: &mut [u8]) -> io::Result<usize> {
        self.forget();
        let read = self.reader.read(buf)?;
        if self.kept.len() <= LONGEST_LINE && self.kept.extend_from_slice(&buf[..read]).is_err() {
            self.lost = true;
        }
        Ok(read)
    }
}
