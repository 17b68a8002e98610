// Numbers of a stored record, least byte first. Every byte past the record's end is read as 0.
ghost use Rattle.std.specs.Prelude.{◌≡◌, ◌<◌, ◌≤◌, ◌^◌};
ghost use Rattle.replay.specs.Bytes.{byte_at, pair_at, number_at, long_at};

pub fn byte(s: &[u8], at: usize) -> u8
    ensures { result ≡ byte_at s.now at }
{
    s.get(at).copied().unwrap_or(0)
}

// A byte, as a size.
pub fn small(s: &[u8], at: usize) -> usize
    ensures { (result ≡ byte_at s.now at) × (result ≤ 255) }
{
    usize::from(byte(s, at))
}

#[tactic(auto, unfolding(crate::specs::Bytes::pair_at))]
pub fn pair(s: &[u8], at: usize) -> usize
    requires { at < 256 }
    ensures { (result ≡ pair_at s.now at) × (result ≤ 65535) }
{
    usize::from(u16::from_le_bytes([byte(s, at), byte(s, at + 1)]))
}

#[tactic(auto, unfolding(crate::specs::Bytes::number_at))]
pub fn number(s: &[u8], at: usize) -> u32
    requires { at < 2 ^ 63 }
    ensures { result ≡ number_at s.now at }
{
    u32::from_le_bytes([
        byte(s, at),
        byte(s, at + 1),
        byte(s, at + 2),
        byte(s, at + 3),
    ])
}

// A number of four bytes, as a size.
pub fn large(s: &[u8], at: usize) -> usize
    requires { at < 256 }
    ensures { (result ≡ number_at s.now at) × (result < 2 ^ 32) }
{
    number(s, at) as usize
}

// A number of eight bytes, made of two numbers as in the definition; with `u64::from_le_bytes` it could not be proved.
#[tactic(auto, unfolding(crate::specs::Bytes::long_at))]
pub fn long_number(s: &[u8], at: usize) -> u64
    requires { at < 128 }
    ensures { result ≡ long_at s.now at }
{
    u64::from(number(s, at)) + u64::from(number(s, at + 4)) * 0x1_0000_0000
}
