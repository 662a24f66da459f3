// Bytes, and numbers of two and four bytes, the high byte first.
ghost use Rattle.std.specs.Prelude.{◌≡◌, ◌+◌, ◌*◌, ◌^◌, ◌≤◌, ◌<◌, length};
ghost use Rattle.std.proofs.lemmas.List.Edits.{sets};
ghost use Rattle.common.specs.Bytes.{byte_at, word_at, four_at, four_bytes};

pub fn wide(x: u8) -> usize
    ensures { (result ≡ x) × (result < 256) }
{
    usize::from(x)
}

// The byte at a place, 0 past the end.
pub fn byte_or_0(bytes: &[u8], at: usize) -> u8
    ensures { result ≡ byte_at bytes.now at }
{
    bytes.get(at).copied().unwrap_or(0)
}

// The same as a wider number.
pub fn byte(bytes: &[u8], at: usize) -> u32
    ensures { (result ≡ byte_at bytes.now at) × (result < 256) }
{
    u32::from(byte_or_0(bytes, at))
}

pub fn word(bytes: &[u8], at: usize) -> usize
    requires { at + 1 < length bytes.now }
    ensures { (result ≡ word_at bytes.now at) × (result < 65536) }
{
    usize::from(u16::from_be_bytes([bytes[at], bytes[at + 1]]))
}

#[tactic(auto, unfolding(crate::specs::Bytes::four_at))]
pub fn four(bytes: &[u8], at: usize) -> usize
    requires { at + 4 ≤ length bytes.now }
    ensures { (result ≡ four_at bytes.now at) × (result < 2 ^ 32) }
{
    u32::from_be_bytes([bytes[at], bytes[at + 1], bytes[at + 2], bytes[at + 3]]) as usize
}

// Writes a number's four bytes at a place.
pub fn put_four(n: usize, at: usize, room: &mut [u8])
    requires { at + 4 ≤ length room.old }
    ensures { room.new ≡ sets room.old at (four_bytes n) }
{
    let four = (n % (1 << 32)) as u32;
    room[at..at + 4].copy_from_slice(&four.to_be_bytes());
}
