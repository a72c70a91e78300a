// A schedule that holds its records itself. They go in and out by the functions on a lent slice of structs.
ghost use Rattle.std.specs.Prelude.{◌≡◌, replicate};
ghost use Rattle.schedule.specs.Record.{vacant};
ghost use Rattle.schedule.specs.State.{CanPut, CanSchedule};
ghost use Rattle.schedule.specs.Schedule.{new_schedule, put_copy, schedule_at_unchecked, schedule_at};
ghost use Rattle.schedule.specs.Schedule.{pop_unchecked, pop_ready_at, CanPop};
ghost use Rattle.schedule.specs.Structs.{rows, owned_schedule, owned_schedule_exit, owned_pop_exit};

use super::places::{fill_place, lowest_free, take_packet};
use super::{
    ChannelScheduler, Deliveries, OwnedPopResult, OwnedSchedule, OwnedScheduleResult, Scheduled,
    ScheduledRow, copies_of, delay_of,
};
use bounds::PLACE_SIZE;

impl OwnedSchedule {
    // An empty schedule; all places become zeros.
    pub fn new(places: &mut [u8]) -> Self
        ensures { owned_schedule result places.new
            ≡ new_schedule (replicate 8 vacant) places.old }
    {
        let end = places.len() / PLACE_SIZE * PLACE_SIZE;
        octets::clear(&mut places[..end]);
        let r = Scheduled {
            time: 0,
            order: 0,
            length: 0,
            place: 0,
        };
        OwnedSchedule {
            records: [r; 8],
            scheduler: ChannelScheduler {
                count: 0,
                next_order: 0,
            },
        }
    }

    // Queues the output of the channel, all copies or none.
    pub fn schedule_at(
        self,
        places: &mut [u8],
        now: u64,
        packet: &[u8],
        deliveries: Deliveries,
    ) -> OwnedScheduleResult
        ensures { owned_schedule_exit places.new result
            ≡ schedule_at (owned_schedule self places.old) now packet.now deliveries }
    {
        let records = self.records;
        let rows = packed_all(records);
        match self
            .scheduler
            .schedule_verdict(&rows, places, now, packet.len(), deliveries)
        {
            Err(r) => OwnedScheduleResult {
                schedule: self,
                answer: Err(r),
            },
            Ok(()) => {
                let next = self.schedule_at_unchecked(places, now, packet, deliveries);
                OwnedScheduleResult {
                    schedule: next,
                    answer: Ok(()),
                }
            }
        }
    }

    // Takes out one packet whose time has come, if there is one, and writes it to `out`.
    pub fn pop_ready_at(self, places: &mut [u8], now: u64, out: &mut [u8]) -> OwnedPopResult
        ensures { owned_pop_exit places.new out.new result
            ≡ pop_ready_at (owned_schedule self places.old) now out.old }
    {
        let records = self.records;
        let rows = packed_all(records);
        match self.scheduler.pop_verdict(&rows, places, now, out.len()) {
            Err(r) => OwnedPopResult {
                schedule: self,
                answer: Err(r),
            },
            Ok(()) => self.pop_ready_at_unchecked(places, now, out),
        }
    }

    fn schedule_at_unchecked(
        self,
        places: &mut [u8],
        now: u64,
        packet: &[u8],
        deliveries: Deliveries,
    ) -> Self
        requires { CanSchedule (owned_schedule self places.old) now packet.now deliveries }
        ensures { owned_schedule result places.new
            ≡ schedule_at_unchecked (owned_schedule self places.old) now packet.now deliveries }
    {
        let copies = copies_of(deliveries);
        let mut schedule = self;
        for k in 0..copies {
            let delay = delay_of(deliveries, k);
            schedule = schedule.put(places, now + delay * 1000000, packet);
        }
        schedule
    }

    fn pop_ready_at_unchecked(self, places: &mut [u8], now: u64, out: &mut [u8]) -> OwnedPopResult
        requires { CanPop (owned_schedule self places.old) now out.old }
        ensures { owned_pop_exit places.new out.new result
            ≡ pop_unchecked (owned_schedule self places.old) now out.old }
    {
        let count = self.scheduler.count;
        if count == 0 {
            return OwnedPopResult {
                schedule: self,
                answer: Ok(None),
            };
        }
        let records = self.records;
        let first = records[0];
        if now < first.time {
            return OwnedPopResult {
                schedule: self,
                answer: Ok(None),
            };
        }
        let len = first.length as usize;
        let t = Scheduled::taken(records, count);
        let left = t.records;
        take_packet(places, t.first.place as usize, len, out);
        OwnedPopResult {
            schedule: OwnedSchedule {
                records: left,
                scheduler: ChannelScheduler {
                    count: count - 1,
                    next_order: self.scheduler.next_order,
                },
            },
            answer: Ok(Some(len)),
        }
    }

    // One copy more, to leave at `time`.
    fn put(self, places: &mut [u8], time: u64, packet: &[u8]) -> Self
        requires { CanPut (owned_schedule self places.old) packet.now }
        ensures { owned_schedule result places.new
            ≡ put_copy (owned_schedule self places.old) time packet.now }
    {
        let count = self.scheduler.count;
        let order = self.scheduler.next_order;
        let records = self.records;
        let rows = packed_all(records);
        let place = lowest_free(&rows, count, places.len() / PLACE_SIZE);
        fill_place(places, place, packet, false);
        let r = Scheduled {
            time: time,
            order: order,
            length: packet.len() as u64,
            place: place as u64,
        };
        let next = Scheduled::inserted(records, count, r);
        OwnedSchedule {
            records: next,
            scheduler: ChannelScheduler {
                count: count + 1,
                next_order: order + 1,
            },
        }
    }
}

fn packed_all(s: [Scheduled; 8]) -> [ScheduledRow; 8]
    ensures { result ≡ rows s }
{
    let mut r = [[0u64; 4]; 8];
    for i in 0..8 {
        r[i] = s[i].packed();
    }
    r
}
