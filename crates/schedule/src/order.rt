// Records in leaving order: cleared, put in, taken out.
ghost use Rattle.std.specs.Prelude.{◌≡◌, true, ◌∷◌, ◌++◌, ◌+◌, ◌≤◌, ◌<◌, length, take, drop, replicate};
ghost use Rattle.schedule.specs.Record.{vacant, after, ordered, inserted};
ghost use Rattle.schedule.specs.Internal.{index_for, raised};

use super::{ScheduledRow, leaves_after};

pub(super) fn clear_records(s: &mut [ScheduledRow])
    ensures { s.new ≡ replicate (length s.old) vacant }
{
    s.fill([0, 0, 0, 0]);
}

// Puts `r` among the first `count` records: those that leave after it move up by one.
pub(super) fn insert(s: &mut [ScheduledRow], count: usize, r: ScheduledRow)
    requires { (count < length s.old) × (ordered (take count s.old) ≡ true) }
    ensures { s.new
        ≡ inserted after r (take count s.old) ++ drop (count + 1) s.old }
{
    let at = index_for(s, count, r);
    insert_first(&mut s[at..], count - at, r);
}

// Moves all but the first of the first `count` records down by one; the record left over becomes zeros.
pub(super) fn remove_first(s: &mut [ScheduledRow], count: usize)
    requires { (0 < count) × (count ≤ length s.old) }
    ensures { s.new ≡ drop 1 (take count s.old) ++ vacant ∷ drop count s.old }
{
    let last = count - 1;
    for i in 0..last {
        s[i] = s[i + 1];
    }
    s[last] = [0, 0, 0, 0];
}

// How many of the first `count` records don't leave after `r`.
fn index_for(s: &[ScheduledRow], count: usize, r: ScheduledRow) -> usize
    requires { (count ≤ length s.now) × (ordered (take count s.now) ≡ true) }
    ensures { result ≡ index_for after r (take count s.now) }
{
    s[..count].partition_point(|p| !leaves_after(*p, r))
}

// Moves the first `n` records up by one. In a function of its own this loop becomes a memmove.
fn move_up(s: &mut [ScheduledRow], n: usize)
    requires { n < length s.old }
    ensures { s.new ≡ raised n 0 s.old }
{
    for i in (0..n).rev() {
        s[i + 1] = s[i];
    }
}

// The first `n` records move up by one, and `r` comes first.
fn insert_first(s: &mut [ScheduledRow], n: usize, r: ScheduledRow)
    requires { n < length s.old }
    ensures { s.new ≡ r ∷ (take n s.old ++ drop (n + 1) s.old) }
{
    move_up(s, n);
    s[0] = r;
}
