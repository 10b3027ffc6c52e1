//! What is known of the checksum, as laws: each is the contract of a function that does nothing.
ghost use Rattle.std.specs.Prelude.{◌≡◌, replicate, reverse, codes};
ghost use Rattle.std.specs.Int.{w32, reverse_bits};
ghost use Rattle.std.specs.List.{range_with_len};
ghost use Rattle.lfs_checksum.specs.Bursts.{BurstsAreSeen, BurstsChangeTheSum, SumBehindIsFixed};
ghost use Rattle.lfs_checksum.specs.Division.{polynomial, crc32c_of};
ghost use Rattle.lfs_checksum.specs.Examples.{read_command};

/// The polynomial is that of RFC 3720, section 12.1, with its bits in reverse.
pub fn polynomial_is_reversed()
    ensures { reverse_bits w32 polynomial ≡ 0x1edc_6f41 }
{}

/// The examples of RFC 3720, section B.4, which has each sum as four bytes, the lowest first. Lists
/// of checksums give the sum of the nine digits.
pub fn examples_have_their_sums()
    ensures zeros { crc32c_of (replicate 32 0) ≡ 0x8a91_36aa }
    ensures ones { crc32c_of (replicate 32 0xff) ≡ 0x62a8_ab43 }
    ensures counted_up { crc32c_of (range_with_len 0 32) ≡ 0x46dd_794e }
    ensures counted_down { crc32c_of (reverse (range_with_len 0 32)) ≡ 0x113f_db5c }
    ensures command { crc32c_of read_command ≡ 0xd996_3a56 }
    ensures digits { crc32c_of (codes "123456789") ≡ 0xe306_9283 }
{}

/// Two messages that differ in a burst have different sums: at most 32 bits in a row are others.
pub fn bursts_change_the_sum()
    ensures { BurstsChangeTheSum }
{}

/// Where a message's sum stands behind it, as four bytes with the lowest first, the sum of the
/// whole is one number, whatever the message is. So a burst in the message, in the sum or across
/// both makes of the two no other message with its sum.
pub fn bursts_are_seen()
    ensures fixed { SumBehindIsFixed }
    ensures seen { BurstsAreSeen }
{}
