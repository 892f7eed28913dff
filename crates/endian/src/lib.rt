// Numbers in lent bytes, low byte first.
// Kept: a function for each width, as std has from_le_bytes at each type and no trait of it; a trait of our own would be longer than the three.
#![tactic(auto)]

ghost use Rattle.std.specs.Prelude.{◌≡◌, ◌≤◌, ◌<◌, ◌+◌, ◌^◌, length};
ghost use Rattle.endian.specs.Endian.{le1, le2, le4, le8};

// The byte at `at`.
pub fn u8_at(s: &[u8], at: usize) -> u64
    requires { at < length s.now }
    ensures { (result ≡ le1 s.now at) × (result < 256) }
{
    s[at] as u64
}

// Two bytes from `at` on.
pub fn u16_at(s: &[u8], at: usize) -> u64
    requires { at + 2 ≤ length s.now }
    ensures { (result ≡ le2 s.now at) × (result < 65536) }
{
    u16::from_le_bytes([s[at], s[at + 1]]) as u64
}

// Four bytes from `at` on.
pub fn u32_at(s: &[u8], at: usize) -> u64
    requires { at + 4 ≤ length s.now }
    ensures { (result ≡ le4 s.now at) × (result < 2 ^ 32) }
{
    u32::from_le_bytes([s[at], s[at + 1], s[at + 2], s[at + 3]]) as u64
}

// Eight bytes from `at` on.
pub fn u64_at(s: &[u8], at: usize) -> u64
    requires { at + 8 ≤ length s.now }
    ensures { result ≡ le8 s.now at }
{
    let row = [
        s[at],
        s[at + 1],
        s[at + 2],
        s[at + 3],
        s[at + 4],
        s[at + 5],
        s[at + 6],
        s[at + 7],
    ];
    u64::from_le_bytes(row)
}
