// Bytes out.
ghost use Rattle.std.specs.Prelude.{◌≡◌, ℕ, ◌<◌, ◌++◌, take, length};
ghost use Rattle.lfs_words.specs.Bytes.{Puts};

use lfs_streams::CountsWrites;
use std::io::Write;

/// A write failed, or took nothing.
#[derive(Clone, Copy, Debug, PartialEq, Eq)]
pub struct Stopped;

/// Writes all the bytes, in as many calls as it takes. After an error a beginning of them went out.
pub fn put<W: Write, C: CountsWrites<W>>(
    writer: &mut W,
    counter: &mut C,
    bytes: &[u8],
) -> Result<(), Stopped>
    ensures { Puts (W.contents writer.old) (W.contents writer.new)
        (C.failures counter.old) (C.failures counter.new) bytes.now result }
{
    let mut at = 0;
    while at < bytes.len() {
        match counter.write(writer, &bytes[at..]) {
            Ok(0) => return Err(Stopped),
            Ok(n) => at += n,
            Err(_) => return Err(Stopped),
        }
    }
    Ok(())
}
