// CRC-32, the checksum of IEEE 802.3. It shows whether a flash fault has changed bytes.
#![tactic(auto)]

ghost use Rattle.std.specs.Prelude.{◌≡◌, take, drop};
ghost use Rattle.crc32.specs.Checksums as Checksums;
ghost use Rattle.crc32.specs.Checksums.{register, byte, checksum_of};
ghost use Rattle.crc32.specs.Promises.{Promises};

mod table;

// The register after one more byte.
fn step(register: u32, b: u8) -> u32
    ensures { result ≡ byte register b }
{
    let entries = table::all();
    let x = register ^ (b as u32);
    let i = (x & 255) as usize;
    entries[i] ^ (x >> 8)
}

// The checksum of all bytes.
fn whole(s: &[u8]) -> u32
    ensures { result ≡ checksum_of s.now }
{
    let mut c: u32 = 4294967295;
    for b in s {
        c = step(c, *b);
    }
    c ^ 4294967295
}

// The checksum of n bytes from an offset, or of as many as there are. It accepts any bytes, any offset and any n.
pub fn checksum(s: &[u8], at: usize, n: usize) -> u32
    ensures { result ≡ checksum_of (take n (drop at s.now)) }
{
    let start = at.min(s.len());
    let end = start + n.min(s.len() - start);
    whole(&s[start..end])
}

// An empty function whose contract collects the theorems, so that the checker must prove them.
pub fn promised()
    ensures { Promises }
{}
