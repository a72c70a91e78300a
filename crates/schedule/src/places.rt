// The places of waiting records: which are doubled, which is the lowest free one, what a place holds.
ghost use Rattle.std.specs.Prelude.{◌≡◌, true, false, ◌++◌, ◌+◌, ◌*◌, ◌≤◌, ◌<◌, length, take, drop, replicate};
ghost use Rattle.bounds.specs.Bounds.{max_datagram, place_size};
ghost use Rattle.schedule.specs.Record.{free_places, lowest_free};
ghost use Rattle.schedule.specs.State.{ZerosFrom};
ghost use Rattle.schedule.specs.Internal.{block_size, block_at, doubled, outside, first_unset, sum_from, sum_limit};
ghost use Rattle.schedule.specs.Schedule.{placed, place_bytes};

use super::{Block, ScheduledRow};
use bounds::PLACE_SIZE;

// Whether two waiting records have the same place, where all places lie below `places`. No block behind the greatest
// place is looked at.
pub(super) fn place_doubled(s: &[ScheduledRow], count: usize, places: usize) -> bool
    requires { (count ≤ length s.now) × (outside places (take count s.now) ≡ false) }
    ensures { result ≡ doubled (take count s.now) }
{
    for base in (0..places).step_by(256) {
        let block = block_at(s, count, base as u64);
        if block.doubled {
            return true;
        }
        if !block.beyond {
            return false;
        }
    }
    false
}

// The lowest place that no waiting record has. If none lies past `count`, it is the only one up to there, and its
// number what the sum of all these numbers has more than the sum of the places.
pub(super) fn lowest_free(s: &[ScheduledRow], count: usize, places: usize) -> usize
    requires { (count ≤ length s.now) × (0 < length (free_places places (take count s.now)))
        × (outside places (take count s.now) ≡ false) × (doubled (take count s.now) ≡ false) }
    ensures { result ≡ lowest_free places (take count s.now) }
{
    if count <= 65535 {
        let sum = place_sum(s, count);
        if let Some(n) = sum {
            return count * (count + 1) / 2 - n as usize;
        }
    }
    lowest_unmarked(s, count, places)
}

// Fills a place: the packet, and zeros after it, which are there if the place is `cleared`.
pub(super) fn fill_place(places: &mut [u8], place: usize, packet: &[u8], cleared: bool)
    requires place_size_in_bounds { (place * place_size + place_size ≤ length places.old)
        × (length packet.now ≤ max_datagram) }
    requires zeros_from { cleared ≡ true → ZerosFrom 0 places.old place }
    ensures { places.new ≡ placed places.old place (place_bytes packet.now) }
{
    let from = place * PLACE_SIZE;
    let end = from + packet.len();
    octets::copy_unchecked(packet, &mut places[from..end]);
    if cleared {
        return;
    }
    let to = from + PLACE_SIZE;
    octets::clear(&mut places[end..to]);
}

// Writes the packet of a place to the front of `out`, and clears the place.
pub(super) fn take_packet(places: &mut [u8], place: usize, len: usize, out: &mut [u8])
    requires { (place * place_size + place_size ≤ length places.old)
        × (len ≤ max_datagram) × (len ≤ length out.old) }
    ensures { (places.new ≡ placed places.old place (replicate place_size 0))
        × (out.new
        ≡ take len (drop (place * place_size) places.old) ++ drop len out.old) }
{
    let from = place * PLACE_SIZE;
    let end = from + len;
    octets::copy_unchecked(&places[from..end], &mut out[..len]);
    clear_place(places, place, PLACE_SIZE);
}

// Clears the first `len` bytes of a place; the others are zeros.
pub(super) fn clear_place(places: &mut [u8], place: usize, len: usize)
    requires { (place * place_size + place_size ≤ length places.old) × (len ≤ place_size)
        × ZerosFrom len places.old place }
    ensures { places.new ≡ placed places.old place (replicate place_size 0) }
{
    let from = place * PLACE_SIZE;
    let end = from + len;
    octets::clear(&mut places[from..end]);
}

// The block of 256 places from `base` on.
fn block_at(s: &[ScheduledRow], count: usize, base: u64) -> Block
    requires { count ≤ length s.now }
    ensures { result ≡ block_at base (take count s.now) }
{
    let mut used = [false; 256];
    let mut doubled = false;
    let mut beyond = false;
    for r in s[..count].iter().rev() {
        let place = r[3];
        if base <= place {
            let k = place - base;
            if k < 256 {
                let at = k as usize;
                doubled |= used[at];
                used[at] = true;
            } else {
                beyond = true;
            }
        }
    }
    Block {
        used: used,
        doubled: doubled,
        beyond: beyond,
    }
}

// How many marks stand before the first that isn't set.
fn first_unset(used: &[bool; 256]) -> usize
    requires { length used.now ≡ block_size }
    ensures { result ≡ first_unset used.now }
{
    used.iter().position(|used| !*used).unwrap_or(256)
}

// The lowest place that no waiting record has, found by marks.
fn lowest_unmarked(s: &[ScheduledRow], count: usize, places: usize) -> usize
    requires { (count ≤ length s.now) × (0 < length (free_places places (take count s.now))) }
    ensures { result ≡ lowest_free places (take count s.now) }
{
    for base in (0..places).step_by(256) {
        let block = block_at(s, count, base as u64);
        let k = first_unset(&block.used);
        if k < 256 {
            return base + k;
        }
    }
    places
}

// `sum` and the places of the records from `from` on, if none lies past `count`.
fn sum_from(s: &[ScheduledRow], count: usize, from: usize, sum: u64) -> Option<u64>
    requires { (from ≤ count) × (count ≤ length s.now) × (count ≤ sum_limit) × (sum ≤ from * sum_limit) }
    ensures { result ≡ sum_from count sum (drop from (take count s.now)) }
{
    let last = count as u64;
    let mut total = sum;
    for r in &s[from..count] {
        let p = r[3];
        if last < p {
            return None;
        }
        total += p;
    }
    Some(total)
}

// The sum of the places, if none lies past `count`. Four sums at a time don't wait for one another.
fn place_sum(s: &[ScheduledRow], count: usize) -> Option<u64>
    requires { (count ≤ length s.now) × (count ≤ sum_limit) }
    ensures { result ≡ sum_from count 0 (take count s.now) }
{
    let last = count as u64;
    let mut a: u64 = 0;
    let mut b: u64 = 0;
    let mut c: u64 = 0;
    let mut d: u64 = 0;
    // `sum_from` goes on from `i`, which a `for` over steps of four wouldn't hand on.
    let mut i: usize = 0;
    while 4 <= count - i {
        let p = s[i][3];
        let q = s[i + 1][3];
        let u = s[i + 2][3];
        let v = s[i + 3][3];
        if ((last < p) | (last < q)) | ((last < u) | (last < v)) {
            return None;
        }
        a += p;
        b += q;
        c += u;
        d += v;
        i += 4;
    }
    sum_from(s, count, i, (a + b) + (c + d))
}
