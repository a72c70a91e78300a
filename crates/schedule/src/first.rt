// The packet that leaves first, read where it lies: its place and length, and the schedule without it.
ghost use Rattle.std.specs.Prelude.{◌≡◌, false, ◌≤◌, ◌<◌, length};
ghost use Rattle.schedule.specs.State.{schedule, state_broken, Cleared};
ghost use Rattle.schedule.specs.Schedule.{first_due, without_first};

use super::order::remove_first;
use super::places::clear_place;
use super::{ChannelScheduler, Scheduled, ScheduledRow};

impl ChannelScheduler {
    pub fn first_due_unchecked(self, records: &[ScheduledRow], now: u64) -> Option<(usize, usize)>
        requires { self.count ≤ length records.now }
        ensures { result ≡ first_due self.count records.now now }
    {
        let count = self.count;
        if count == 0 {
            return None;
        }
        let first = Scheduled::unpacked(records[0]);
        if now < first.time {
            return None;
        }
        Some((first.place as usize, first.length as usize))
    }

    pub fn remove_first_unchecked(self, records: &mut [ScheduledRow], places: &mut [u8]) -> Self
        requires self_value { (state_broken (schedule records.old places.old self) ≡ false) × (0 < self.count) }
        requires cleared { Cleared (schedule records.old places.old self) }
        ensures { schedule records.new places.new result
            ≡ without_first (schedule records.old places.old self) }
    {
        let count = self.count;
        let first = Scheduled::unpacked(records[0]);
        remove_first(records, count);
        clear_place(places, first.place as usize, first.length as usize);
        ChannelScheduler {
            count: count - 1,
            next_order: self.next_order,
        }
    }
}
