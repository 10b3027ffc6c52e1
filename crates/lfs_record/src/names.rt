//! The names of a recorder's files: eight digits, a hyphen and a day.
ghost use Rattle.std.specs.Prelude.{◌≡◌, ◌<◌, ◌≤◌, ◌-◌, true, IfOk, slice_index};
ghost use Rattle.lfs_record.specs.declared.names.TheConstants.{LAST};
ghost use Rattle.lfs_record.specs.Names.{day_of, digit, eight_digits, fits, is_day, is_like, is_name, name_of, number_of, path_of};

use std::alloc::{AllocError, Global};

/// How many bytes a day has, as `2026-11-27`.
pub const DAY_LEN: usize = 10;

/// The greatest number of a file.
pub const LAST: u32 = 99_999_999;

const DAY: &[u8; DAY_LEN] = b"0000-00-00";

const NAME: &[u8; 19] = b"00000000-0000-00-00";

// Whether a byte is like that of a pattern.
fn is_like(pattern: u8, byte: u8) -> bool
    ensures { result ≡ is_like pattern byte }
{
    if pattern == b'-' {
        byte == b'-'
    } else {
        b'0' <= byte && byte <= b'9'
    }
}

// Whether a text is like a pattern.
fn fits(pattern: &[u8], text: &[u8]) -> bool
    ensures { result ≡ fits pattern.now text.now }
{
    if pattern.len() != text.len() {
        return false;
    }
    for place in 0..pattern.len() {
        if !is_like(pattern[place], text[place]) {
            return false;
        }
    }
    true
}

/// Whether these bytes may be a day: `dddd-dd-dd`.
pub fn is_day(day: &[u8]) -> bool
    ensures { result ≡ is_day day.now }
{
    fits(DAY, day)
}

/// Whether a recorder's file may have this name.
pub fn is_name(name: &[u8]) -> bool
    ensures { result ≡ is_name name.now }
{
    fits(NAME, name)
}

// A digit of such a name.
fn digit_at(name: &[u8], place: usize) -> u32
    requires named { is_name name.now ≡ true }
    requires place { place < 8 }
    ensures value { result ≡ slice_index name.now place - 48 }
    ensures few { result ≤ 9 }
{
    u32::from(name[place] - b'0')
}

/// The number of such a name.
pub fn number_of(name: &[u8]) -> u32
    requires { is_name name.now ≡ true }
    ensures value { result ≡ number_of name.now }
    ensures few { result ≤ LAST }
{
    10_000_000 * digit_at(name, 0)
        + 1_000_000 * digit_at(name, 1)
        + 100_000 * digit_at(name, 2)
        + 10_000 * digit_at(name, 3)
        + 1_000 * digit_at(name, 4)
        + 100 * digit_at(name, 5)
        + 10 * digit_at(name, 6)
        + digit_at(name, 7)
}

/// The day of such a name.
pub fn day_of(name: &[u8]) -> [u8; DAY_LEN]
    requires { is_name name.now ≡ true }
    ensures { result ≡ day_of name.now }
{
    [
        name[9], name[10], name[11], name[12], name[13], name[14], name[15], name[16], name[17],
        name[18],
    ]
}

// The digit of a number that counts so much.
fn digit(unit: u32, number: u32) -> u8
    requires { 0 < unit }
    ensures { result ≡ digit unit number }
{
    b'0' + (number / unit % 10) as u8
}

// The eight digits of a number.
fn eight_digits(number: u32) -> [u8; 8]
    ensures { result ≡ eight_digits number }
{
    [
        digit(10_000_000, number),
        digit(1_000_000, number),
        digit(100_000, number),
        digit(10_000, number),
        digit(1_000, number),
        digit(100, number),
        digit(10, number),
        digit(1, number),
    ]
}

/// The path of the name of a number and a day.
pub fn path_of(alloc: Global, number: u32, day: &[u8; DAY_LEN]) -> Result<Vec<u8>, AllocError>
    ensures { IfOk result (λ path. path.items ≡ path_of (name_of number day.now)) }
{
    let mut path = Vec::new(alloc);
    path.push(b'/')?;
    path.extend_from_slice(&eight_digits(number))?;
    path.push(b'-')?;
    path.extend_from_slice(day)?;
    Ok(path)
}

/// The path of a name in the root.
pub fn in_root(alloc: Global, name: &[u8]) -> Result<Vec<u8>, AllocError>
    ensures { IfOk result (λ path. path.items ≡ path_of name.now) }
{
    let mut path = Vec::new(alloc);
    path.push(b'/')?;
    path.extend_from_slice(name)?;
    Ok(path)
}
