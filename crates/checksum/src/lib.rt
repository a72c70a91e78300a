// The Internet checksum of RFC 1071.
#![tactic(auto)]

ghost use Rattle.std.specs.Prelude.{◌≡◌, ◌+◌, ◌*◌, ◌≤◌, ◌<◌, length};
ghost use Rattle.checksum.specs.Rfc1071.{words, ones_add, ones_sum};
ghost use Rattle.checksum.specs.Techniques.{plain_sum, folded, Swapped};

// The one's complement sum of two words, by end-around carry.
pub fn ones_add(a: u16, b: u16) -> u16
    ensures { result ≡ ones_add a b }
{
    let sum = a as u32 + b as u32;
    ((sum & 0xffff) + (sum >> 16)) as u16
}

// The one's complement sum of a word and the words of a row of octets.
pub fn ones_sum_unchecked(word: u16, octets: &[u8]) -> u16
    requires { length octets.now ≤ 65535 }
    ensures { result ≡ ones_add word (ones_sum (words octets.now)) }
{
    fold_carries(word as u64 + 256 * swapped_sum(octets))
}

// Brings the deferred carries of a plain sum back in.
fn fold_carries(sum: u64) -> u16
    ensures { result ≡ folded sum }
{
    let mut s = sum;
    while (s >> 16) != 0 {
        s = (s & 0xffff) + (s >> 16);
    }
    s as u16
}

// The plain sum of the octets taken low octet first, four at a time, in four sums of their own.
fn swapped_sum(s: &[u8]) -> u64
    requires { length s.now ≤ 65535 }
    ensures { (folded (256 * result) ≡ folded (plain_sum (words s.now))) × (result < 2251799813685248) }
{
    let mut a: u64 = 0;
    let mut b: u64 = 0;
    let mut c: u64 = 0;
    let mut d: u64 = 0;
    let blocks = s.len() / 16;
    for n in 0..blocks {
        let i = n * 16;
        let j = i + 4;
        let k = j + 4;
        let l = k + 4;
        a += four_octets(s, i);
        b += four_octets(s, j);
        c += four_octets(s, k);
        d += four_octets(s, l);
    }
    a + b + c + d + last_octets(s, blocks * 16)
}

fn four_octets(s: &[u8], i: usize) -> u64
    requires { i + 4 ≤ length s.now }
    ensures { Swapped s.now i (i + 4) result × (result < 4294967296) }
{
    little_endian(s[i], s[i + 1], s[i + 2], s[i + 3])
}

// The octets from a place on, two at a time, an odd last one padded with zero.
fn last_octets(s: &[u8], from: usize) -> u64
    requires { (from ≤ length s.now) × (length s.now ≤ 65535) }
    ensures { Swapped s.now from (length s.now) result × (result ≤ 281474976710656) }
{
    let mut sum: u64 = 0;
    let pairs = (s.len() - from) / 2;
    for n in 0..pairs {
        let i = from + n * 2;
        sum += little_endian(s[i], s[i + 1], 0, 0);
    }
    let end = from + pairs * 2;
    if end < s.len() {
        sum += little_endian(s[end], 0, 0, 0);
    }
    sum
}

fn little_endian(a: u8, b: u8, c: u8, d: u8) -> u64
    ensures { (result ≡ a + b * 256 + c * 65536 + d * 16777216) × (result < 4294967296) }
{
    u64::from(u32::from_le_bytes([a, b, c, d]))
}
