// Octets in lent memory: copies, zeros, sums, and big-endian numbers.
#![tactic(auto)]

ghost use Rattle.std.specs.Prelude.{◌≡◌, ◌+◌, ◌*◌, length, replicate};
ghost use Rattle.octets.specs.Fold.{fold_bytes};

// Copies src over all of dst.
pub fn copy_unchecked(src: &[u8], dst: &mut [u8])
    requires { length src.now ≡ length dst.old }
    ensures { dst.new ≡ src.now }
{
    // Of no octets `copy_from_slice` is a call too.
    if !src.is_empty() {
        dst.copy_from_slice(src);
    }
}

pub fn clear(dst: &mut [u8])
    ensures { dst.new ≡ replicate (length dst.old) 0 }
{
    dst.fill(0);
}

// The sum of the bytes, wrapping in 16 bits.
pub fn fold_bytes(bytes: &[u8]) -> u16
    ensures { result ≡ fold_bytes bytes.now }
{
    let mut sum: u16 = 0;
    for b in bytes {
        sum = sum.wrapping_add(u16::from(*b));
    }
    sum
}

pub fn be16(a: u8, b: u8) -> u16
    ensures { result ≡ a * 256 + b }
{
    u16::from_be_bytes([a, b])
}

pub fn be32(a: u8, b: u8, c: u8, d: u8) -> u32
    ensures { result ≡ ((a * 256 + b) * 256 + c) * 256 + d }
{
    u32::from_be_bytes([a, b, c, d])
}
