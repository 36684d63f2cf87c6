// Numbers of more bytes: little-endian ones in lent bytes, read and stored, the lowest byte first.
#![tactic(auto)]

ghost use Rattle.std.specs.Prelude.{◌++◌, ◌≡◌, ◌+◌, ◌*◌, ◌/◌, ◌%◌, ◌≤◌, length, get_or, take, drop, set};
ghost use Rattle.meaning.specs.Bytes.{number, bytes};

// The two bytes from `at` on as a number.
pub fn two(bytes: &[u8], at: usize) -> u16
    requires { at + 2 ≤ length bytes.now }
    ensures { result ≡ get_or bytes.now at 0 + 256 * get_or bytes.now (at + 1) 0 }
{
    u16::from_le_bytes([bytes[at], bytes[at + 1]])
}

// Two halves as a number, the lower first.
fn whole(low: u32, high: u32) -> u64
    ensures { result ≡ low + 4294967296 * high }
{
    u64::from(low) + 4294967296 * u64::from(high)
}

// The eight bytes from `at` on as a number.
pub fn eight(bytes: &[u8], at: usize) -> u64
    requires { at + 8 ≤ length bytes.now }
    ensures { result ≡ number (take 8 (drop at bytes.now)) }
{
    let low = u32::from_le_bytes([bytes[at], bytes[at + 1], bytes[at + 2], bytes[at + 3]]);
    let high = u32::from_le_bytes([bytes[at + 4], bytes[at + 5], bytes[at + 6], bytes[at + 7]]);
    whole(low, high)
}

// The two bytes of a number, from `at` on. It fits them, so that the cast loses nothing; u16::try_from would ask again.
pub fn put_two(bytes: &mut [u8], at: usize, x: u32)
    requires at_in_bounds { at + 2 ≤ length bytes.old }
    requires x_bound { x ≤ 65535 }
    ensures { bytes.new ≡ set (set bytes.old at (x % 256)) (at + 1) (x / 256) }
{
    let [low, high] = (x as u16).to_le_bytes();
    bytes[at] = low;
    bytes[at + 1] = high;
}

// The eight bytes of a number, from `at` on.
pub fn put_eight(out: &mut [u8], at: usize, x: u64)
    requires { at + 8 ≤ length out.old }
    ensures { out.new ≡ take at out.old ++ bytes 8 x ++ drop (at + 8) out.old }
{
    out[at..at + 8].copy_from_slice(&x.to_le_bytes());
}
