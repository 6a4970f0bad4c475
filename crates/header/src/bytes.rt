// The bytes of a log, and the numbers made of two, four and eight: "little-endian, as all here".
ghost use Rattle.std.specs.Prelude.{◌≡◌, ◌+◌, drop};
ghost use Rattle.base.specs.Pick.{listed};
ghost use Rattle.header.specs.Bytes.{byte_at, word_size, wide_size, joined_of, pair_at, little_at};

use std::array;

// The byte at a place, and 0 past the end of the log.
pub fn byte(log: &[u8], at: usize) -> u8
    ensures { result ≡ byte_at log.now at }
{
    log.get(at).copied().unwrap_or(0)
}

// The log from a place on; nothing, past its end.
fn from(log: &[u8], at: usize) -> &[u8]
    ensures { result.now ≡ drop at log.now }
{
    log.get(at..).unwrap_or(&[])
}

// The bytes from a place on, and 0 past the end.
fn bytes<const N: usize>(log: &[u8], at: usize) -> [u8; N]
    ensures { result ≡ listed N (λ i. byte_at log.now (at + i)) }
{
    let rest = from(log, at);
    array::from_fn(|i| byte(rest, i))
}

// 16 bits of two bytes, the lower first.
pub fn joined(low: u8, high: u8) -> u16
    ensures { result ≡ joined_of low high }
{
    u16::from_le_bytes([low, high])
}

// 16 bits.
#[tactic(auto, unfolding(crate::specs::Bytes::pair_at))]
pub fn pair(log: &[u8], at: usize) -> u16
    ensures { result ≡ pair_at log.now at }
{
    u16::from_le_bytes(bytes(log, at))
}

// 32 bits. `wide` differs in the type of the number read: the library has no `from_le_bytes` over a size.
pub fn word(log: &[u8], at: u32) -> u64
    ensures { result ≡ little_at word_size log.now at }
{
    u64::from(u32::from_le_bytes(bytes(log, at as usize)))
}

// 64 bits.
pub fn wide(log: &[u8], at: u32) -> u64
    ensures { result ≡ little_at wide_size log.now at }
{
    u64::from_le_bytes(bytes(log, at as usize))
}
