// Schedule records as structs: packed into rows and unpacked, and in leaving order in a lent slice.
ghost use Rattle.std.specs.Prelude.{◌≡◌, true, ◌∷◌, ◌++◌, ◌+◌, ◌≤◌, ◌<◌, length, take, drop};
ghost use Rattle.schedule.specs.Record.{vacant, after, ordered, inserted};
ghost use Rattle.schedule.specs.Schedule.{first_record};
ghost use Rattle.schedule.specs.Structs.{row_of, rows, scheduled_of};

use super::{Scheduled, ScheduledRow, TakeResult};
use std::mem;

impl Scheduled {
    pub fn packed(self) -> ScheduledRow
        ensures { result ≡ row_of self }
    {
        [self.time, self.order, self.length, self.place]
    }

    pub fn unpacked(r: ScheduledRow) -> Self
        ensures { result ≡ scheduled_of r }
    {
        Scheduled {
            time: r[0],
            order: r[1],
            length: r[2],
            place: r[3],
        }
    }

    // Whether `self` leaves after `r`.
    pub fn leaves_after(self, r: Scheduled) -> bool
        ensures { result ≡ after (row_of self) (row_of r) }
    {
        if self.time < r.time {
            return false;
        }
        if r.time < self.time {
            return true;
        }
        r.order < self.order
    }

    // Whether the first `count` records are in leaving order, as `insert_unchecked` asks.
    pub fn in_order_unchecked(s: &[Scheduled], count: usize) -> bool
        requires { count ≤ length s.now }
        ensures { result ≡ ordered (take count (rows s.now)) }
    {
        let mut p = Scheduled {
            time: 0,
            order: 0,
            length: 0,
            place: 0,
        };
        for q in &s[..count] {
            if p.leaves_after(*q) {
                return false;
            }
            p = *q;
        }
        true
    }

    // Puts `r` among the first `count` records: those that leave after it move up by one.
    pub fn insert_unchecked(s: &mut [Scheduled], count: usize, r: Scheduled)
        requires { (count < length s.old) × (ordered (take count (rows s.old)) ≡ true) }
        ensures { rows s.new
            ≡ inserted after (row_of r) (take count (rows s.old))
            ++ drop (count + 1) (rows s.old) }
    {
        let mut i = count;
        while 0 < i && s[i - 1].leaves_after(r) {
            s[i] = s[i - 1];
            i -= 1;
        }
        s[i] = r;
    }

    // Takes the first of the first `count` records out: the others move down by one, and the record left over becomes
    // zeros.
    pub fn take_earliest_unchecked(s: &mut [Scheduled], count: usize) -> Self
        requires { (0 < count) × (count ≤ length s.old) }
        ensures { (row_of result ≡ first_record (rows s.old)) × (rows s.new
            ≡ drop 1 (take count (rows s.old)) ++ vacant ∷ drop count (rows s.old)) }
    {
        let mut c = Scheduled {
            time: 0,
            order: 0,
            length: 0,
            place: 0,
        };
        for i in (0..count).rev() {
            c = mem::replace(&mut s[i], c);
        }
        c
    }

    // `insert_unchecked` on records by value: whoever calls it lends no struct.
    pub(super) fn inserted(s: [Scheduled; 8], count: usize, r: Scheduled) -> [Scheduled; 8]
        requires { (count < 8) × (ordered (take count (rows s)) ≡ true) }
        ensures { rows result ≡ inserted after (row_of r) (take count (rows s)) ++ drop (count + 1) (rows s) }
    {
        let mut t = s;
        Scheduled::insert_unchecked(&mut t, count, r);
        t
    }

    // `take_earliest_unchecked` on records by value.
    pub(super) fn taken(s: [Scheduled; 8], count: usize) -> TakeResult
        requires { (0 < count) × (count ≤ 8) }
        ensures { (row_of result.first ≡ first_record (rows s))
            × (rows result.records ≡ drop 1 (take count (rows s)) ++ vacant ∷ drop count (rows s)) }
    {
        let mut t = s;
        let first = Scheduled::take_earliest_unchecked(&mut t, count);
        TakeResult {
            first: first,
            records: t,
        }
    }
}
