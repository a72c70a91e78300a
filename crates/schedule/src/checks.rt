// The checks of each call on a schedule, and checks 9 and 10 over its waiting records.
ghost use Rattle.std.specs.Prelude.{◌≡◌, true, ◌||◌, ◌≤◌, length, take};
ghost use Rattle.bounds.specs.Bounds.{max_time};
ghost use Rattle.refusal.specs.Order.{verdict};
ghost use Rattle.schedule.specs.Record.{vacant, ordered};
ghost use Rattle.schedule.specs.State.{schedule, record_broken, broken_from, state_broken};
ghost use Rattle.schedule.specs.State.{late, held_late, delay_late, deliveries_late};
ghost use Rattle.schedule.specs.Schedule.{out_short, schedule_checks, pop_checks, read_checks};
ghost use Rattle.schedule.specs.Internal.{bounds_broken, any_record_broken};

use super::places::place_doubled;
use super::{ChannelScheduler, Deliveries, Scheduled, ScheduledRow, copies_of, leaves_after};
use bounds::{COUNT_LIMIT, MAX_DATAGRAM_SIZE, MAX_TIME, PLACE_SIZE};
use refusal::Refusal;

impl ChannelScheduler {
    // The checks of `schedule_at`, of a packet of `size` bytes.
    pub(super) fn schedule_verdict(
        self,
        records: &[ScheduledRow],
        places: &[u8],
        now: u64,
        size: usize,
        deliveries: Deliveries,
    ) -> Result<(), Refusal>
        ensures { result ≡ verdict (schedule_checks (schedule records.now places.now self) now size
            deliveries) }
    {
        if self.state_broken(records, places) {
            return Err(Refusal::State);
        }
        if COUNT_LIMIT <= self.next_order {
            return Err(Refusal::Counts);
        }
        if self.time_late(records, now, deliveries) {
            return Err(Refusal::Time);
        }
        if MAX_DATAGRAM_SIZE < size {
            return Err(Refusal::Long);
        }
        if self.room_unchecked(records, places) < copies_of(deliveries) {
            return Err(Refusal::Full);
        }
        Ok(())
    }

    // The checks of `pop_ready_at`, of a buffer of `size` bytes.
    pub(super) fn pop_verdict(
        self,
        records: &[ScheduledRow],
        places: &[u8],
        now: u64,
        size: usize,
    ) -> Result<(), Refusal>
        ensures { result ≡ verdict (pop_checks (schedule records.now places.now self) now size) }
    {
        if self.state_broken(records, places) {
            return Err(Refusal::State);
        }
        if COUNT_LIMIT <= self.next_order {
            return Err(Refusal::Counts);
        }
        if self.time_late(records, now, Deliveries::Lost) {
            return Err(Refusal::Time);
        }
        if self.out_short(records, now, size) {
            return Err(Refusal::Full);
        }
        Ok(())
    }

    // The checks of a call that only reads.
    pub(super) fn read_verdict(self, records: &[ScheduledRow], places: &[u8]) -> Result<(), Refusal>
        ensures { result ≡ verdict (read_checks (schedule records.now places.now self)) }
    {
        if self.state_broken(records, places) {
            return Err(Refusal::State);
        }
        if COUNT_LIMIT <= self.next_order {
            return Err(Refusal::Counts);
        }
        if held_late(records, self.count) {
            return Err(Refusal::Time);
        }
        Ok(())
    }

    // Check 9.
    #[tactic(auto, unfolding(crate::specs::State::state_broken))]
    fn state_broken(self, records: &[ScheduledRow], places: &[u8]) -> bool
        ensures { result ≡ state_broken (schedule records.now places.now self) }
    {
        let count = self.count;
        records.len() < count
            || records_broken(records, count, self.next_order, places.len() / PLACE_SIZE)
    }

    // Check 10, of the times given and held.
    fn time_late(self, records: &[ScheduledRow], now: u64, deliveries: Deliveries) -> bool
        requires { (self.count ≤ length records.now) × (ordered (take self.count records.now) ≡ true) }
        ensures { result ≡ (late now || (held_late (take self.count records.now) || deliveries_late now
            deliveries)) }
    {
        MAX_TIME < now || held_late(records, self.count) || deliveries_late(now, deliveries)
    }

    // Check 5 of `pop_ready_at`.
    fn out_short(self, records: &[ScheduledRow], now: u64, size: usize) -> bool
        requires { self.count ≤ length records.now }
        ensures { result ≡ out_short self.count records.now now size }
    {
        let count = self.count;
        if count == 0 {
            return false;
        }
        let first = Scheduled::unpacked(records[0]);
        if now < first.time {
            return false;
        }
        size < first.length as usize
    }
}

// Check 9 of a record by itself.
fn bounds_broken(r: ScheduledRow, next: u64, places: u64) -> bool
    ensures { result ≡ bounds_broken next places r }
{
    MAX_DATAGRAM_SIZE < r[2] as usize || next <= r[1] || places <= r[3]
}

// Check 9 of a record and the one in front of it. Mostly the time alone tells the order.
fn record_broken(front: ScheduledRow, r: ScheduledRow, next: u64, places: u64) -> bool
    ensures { result ≡ record_broken next places front r }
{
    if bounds_broken(r, next, places) {
        return true;
    }
    let before = front[0];
    let time = r[0];
    if before < time {
        return false;
    }
    leaves_after(front, r)
}

// Whether one of the first `count` records breaks check 9, doubled places apart.
fn any_record_broken(s: &[ScheduledRow], count: usize, next: u64, places: usize) -> bool
    requires { count ≤ length s.now }
    ensures { result ≡ any_record_broken next places vacant (take count s.now) }
{
    let mut front = [0u64, 0, 0, 0];
    for r in &s[..count] {
        if record_broken(front, *r, next, places as u64) {
            return true;
        }
        front = *r;
    }
    false
}

// Whether one of the first `count` records breaks check 9.
fn records_broken(s: &[ScheduledRow], count: usize, next: u64, places: usize) -> bool
    requires { count ≤ length s.now }
    ensures { result ≡ broken_from next places vacant (take count s.now) }
{
    any_record_broken(s, count, next, places) || place_doubled(s, count, places)
}

// Whether one of the first `count` records, which are in leaving order, has a time above its bound: the last one's is
// the latest.
fn held_late(s: &[ScheduledRow], count: usize) -> bool
    requires { (count ≤ length s.now) × (ordered (take count s.now) ≡ true) }
    ensures { result ≡ held_late (take count s.now) }
{
    if count == 0 {
        return false;
    }
    let r = Scheduled::unpacked(s[count - 1]);
    MAX_TIME < r.time
}

// Whether a delay or the time that it leads to is above its bound.
fn delay_late(now: u64, delay: u64) -> bool
    requires { now ≤ max_time }
    ensures { result ≡ delay_late now delay }
{
    bounds::MAX_DELIVERY_DELAY < delay || MAX_TIME < now + delay * 1000000
}

fn deliveries_late(now: u64, deliveries: Deliveries) -> bool
    requires { now ≤ max_time }
    ensures { result ≡ deliveries_late now deliveries }
{
    match deliveries {
        Deliveries::Lost => false,
        Deliveries::One(d) => delay_late(now, d),
        Deliveries::Two(d, e) => { delay_late(now, d) || delay_late(now, e) }
    }
}
