//! Numbers of bytes as words of a command line: decimal, alone or directly before a letter.
ghost use Rattle.std.specs.Prelude.{◌≡◌, ◌≢◌, ◌<◌, ◌*◌, ◌^◌, ℕ, IfSome, None, decimal};
ghost use Rattle.lfs_command.specs.Amounts.{IsAmount, IsTimes};

use lfs_words::read_u64;

// The number that a word spells, so many times.
fn read_times(word: &[u8], unit: u64) -> Option<u64>
    requires { 0 < unit }
    ensures found { IfSome result (λ bytes. IsTimes unit bytes word.now) }
    ensures none { result ≡ None → (number : ℕ) → number * unit < 2 ^ 64
        → decimal number ≢ word.now }
{
    let Some(number) = read_u64(word) else {
        return None;
    };
    number.checked_mul(unit)
}

/// The number of bytes that a word spells, if it is below 2^64: a decimal number without leading
/// zeros, alone or directly before K, M or G, which stand for 2^10, 2^20 and 2^30 bytes.
pub fn read_bytes(word: &[u8]) -> Option<u64>
    ensures found { IfSome result (λ bytes. IsAmount bytes word.now) }
    ensures none { result ≡ None → (bytes : ℕ) → bytes < 2 ^ 64 → ¬ (IsAmount bytes word.now) }
{
    match word.split_last() {
        Some((b'K', digits)) => read_times(digits, 1 << 10),
        Some((b'M', digits)) => read_times(digits, 1 << 20),
        Some((b'G', digits)) => read_times(digits, 1 << 30),
        _ => read_u64(word),
    }
}
