// The checksum of bytes, a byte a step.
ghost use Rattle.std.specs.Prelude.{◌≡◌};
ghost use Rattle.lfs_checksum.specs.Division.{step_byte, crc32c_of};

use crate::table::after_eight;

#[inline(always)]
fn take_byte(register: u32, byte: u8) -> u32
    ensures { result ≡ step_byte register byte }
{
    after_eight(((register ^ byte as u32) & 0xff) as usize) ^ (register >> 8)
}

/// The CRC-32C of the bytes.
pub fn crc32c(bytes: &[u8]) -> u32
    ensures { result ≡ crc32c_of bytes.now }
{
    let mut register = 0xffff_ffff;
    for byte in bytes {
        register = take_byte(register, *byte);
    }
    !register
}
