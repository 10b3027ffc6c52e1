//! Bytes that are put into C's memory.
ghost use Rattle.std.specs.Prelude.{◌≡◌, length};
ghost use Rattle.pansuyog_calls.specs.Bytes.{filled};
ghost use Rattle.pansuyog_calls.specs.Codes.{code_of_count};

/// Puts bytes into C's memory, as many as it has room for, and gives their whole number.
pub(crate) fn put(bytes: &[u8], out: &mut [u8]) -> i32
    ensures count { result ≡ code_of_count (length bytes.now) }
    ensures filled { out.new ≡ filled bytes.now out.old }
{
    let count = bytes.len().min(out.len());
    out[..count].copy_from_slice(&bytes[..count]);
    i32::try_from(bytes.len()).unwrap_or(i32::MAX)
}
