// The delivery schedule: waiting copies of packets, handed out at their time. Document 01, `channel/scheduler.rs`.
#![tactic(auto)]

ghost use Rattle.std.specs.Prelude.{◌≡◌, true, false, ◌≤◌, length};
ghost use Rattle.schedule.specs.Record.{after};
ghost use Rattle.schedule.specs.State.{schedule, state_broken, copies, delay_at, CanPut, CanSchedule, Cleared};
ghost use Rattle.schedule.specs.Schedule.{new_schedule, put_copy, schedule_at_unchecked, schedule_exit, schedule_at};
ghost use Rattle.schedule.specs.Schedule.{pop_exit, pop_unchecked, pop_ready_at, CanPop};
ghost use Rattle.schedule.specs.Schedule.{first_time, next_deadline, len, is_empty, room_of, room};

use bounds::PLACE_SIZE;
use order::{clear_records, insert, remove_first};
use places::{fill_place, lowest_free, take_packet};
use refusal::Refusal;

mod checks;
mod first;
mod lent;
mod order;
mod owned;
mod places;

// A record: its time in nanoseconds, how many were scheduled before it, its packet's length and place.
#[derive(Clone, Copy)]
pub struct Scheduled {
    pub time: u64,
    pub order: u64,
    pub length: u64,
    pub place: u64,
}

// A record as it lies in a lent slice: the same four numbers.
pub type ScheduledRow = [u64; 4];

// The first `count` records wait; `next_order` is the order of the next copy.
#[derive(Clone, Copy)]
pub struct ChannelScheduler {
    pub count: usize,
    pub next_order: u64,
}

// The delays, in milliseconds, of the copies that the channel makes of one packet.
#[derive(Clone, Copy)]
pub enum Deliveries {
    Lost,
    One(u64),
    Two(u64, u64),
}

#[derive(Clone, Copy)]
pub struct ScheduleResult {
    pub scheduler: ChannelScheduler,
    pub answer: Result<(), Refusal>,
}

#[derive(Clone, Copy)]
pub struct PopResult {
    pub scheduler: ChannelScheduler,
    pub answer: Result<Option<usize>, Refusal>,
}

// A schedule of eight records that it holds itself, as structs; only its places are lent.
#[derive(Clone, Copy)]
pub struct OwnedSchedule {
    pub records: [Scheduled; 8],
    pub scheduler: ChannelScheduler,
}

#[derive(Clone, Copy)]
pub struct OwnedScheduleResult {
    pub schedule: OwnedSchedule,
    pub answer: Result<(), Refusal>,
}

#[derive(Clone, Copy)]
pub struct OwnedPopResult {
    pub schedule: OwnedSchedule,
    pub answer: Result<Option<usize>, Refusal>,
}

// A record taken out, and the records without it.
#[derive(Clone, Copy)]
struct TakeResult {
    first: Scheduled,
    records: [Scheduled; 8],
}

// Which of 256 places waiting records have, whether two have the same of them, and whether one has a place behind them.
#[derive(Clone, Copy)]
struct Block {
    used: [bool; 256],
    doubled: bool,
    beyond: bool,
}

impl ChannelScheduler {
    // An empty schedule; all records and places become zeros.
    pub fn new(records: &mut [ScheduledRow], places: &mut [u8]) -> Self
        ensures { schedule records.new places.new result
            ≡ new_schedule records.old places.old }
    {
        clear_records(records);
        let end = places.len() / PLACE_SIZE * PLACE_SIZE;
        octets::clear(&mut places[..end]);
        ChannelScheduler {
            count: 0,
            next_order: 0,
        }
    }

    // Queues the output of the channel, all copies or none.
    pub fn schedule_at(
        self,
        records: &mut [ScheduledRow],
        places: &mut [u8],
        now: u64,
        packet: &[u8],
        deliveries: Deliveries,
    ) -> ScheduleResult
        ensures { schedule_exit records.new places.new result
            ≡ schedule_at (schedule records.old places.old self) now packet.now
            deliveries }
    {
        match self.schedule_verdict(records, places, now, packet.len(), deliveries) {
            Err(r) => ScheduleResult {
                scheduler: self,
                answer: Err(r),
            },
            Ok(()) => {
                let next = self.schedule_at_unchecked(
                    records, places, now, packet, deliveries, false,
                );
                ScheduleResult {
                    scheduler: next,
                    answer: Ok(()),
                }
            }
        }
    }

    // Takes out one packet whose time has come, if there is one, and writes it to `out`.
    pub fn pop_ready_at(
        self,
        records: &mut [ScheduledRow],
        places: &mut [u8],
        now: u64,
        out: &mut [u8],
    ) -> PopResult
        ensures { pop_exit records.new places.new out.new result
            ≡ pop_ready_at (schedule records.old places.old self) now out.old }
    {
        match self.pop_verdict(records, places, now, out.len()) {
            Err(r) => PopResult {
                scheduler: self,
                answer: Err(r),
            },
            Ok(()) => self.pop_ready_at_unchecked(records, places, now, out),
        }
    }

    // When the next packet may leave.
    pub fn next_deadline(
        self,
        records: &[ScheduledRow],
        places: &[u8],
    ) -> Result<Option<u64>, Refusal>
        ensures { result ≡ next_deadline (schedule records.now places.now self) }
    {
        self.read_verdict(records, places)?;
        self.next_deadline_unchecked(records)
    }

    // How many copies wait.
    pub fn len(self, records: &[ScheduledRow], places: &[u8]) -> Result<usize, Refusal>
        ensures { result ≡ len (schedule records.now places.now self) }
    {
        self.read_verdict(records, places)?;
        Ok(self.count)
    }

    pub fn is_empty(self, records: &[ScheduledRow], places: &[u8]) -> Result<bool, Refusal>
        ensures { result ≡ is_empty (schedule records.now places.now self) }
    {
        self.read_verdict(records, places)?;
        Ok(self.count == 0)
    }

    // How many copies more there is room for.
    pub fn room(self, records: &[ScheduledRow], places: &[u8]) -> Result<usize, Refusal>
        ensures { result ≡ room (schedule records.now places.now self) }
    {
        self.read_verdict(records, places)?;
        Ok(self.room_unchecked(records, places))
    }
}

pub fn copies_of(deliveries: Deliveries) -> usize
    ensures { result ≡ copies deliveries }
{
    match deliveries {
        Deliveries::Lost => 0,
        Deliveries::One(_) => 1,
        Deliveries::Two(_, _) => 2,
    }
}

// The delay of the k-th copy, counted from 0.
pub fn delay_of(deliveries: Deliveries, k: usize) -> u64
    ensures { result ≡ delay_at deliveries k }
{
    match deliveries {
        Deliveries::Lost => 0,
        Deliveries::One(d) => d,
        Deliveries::Two(d, e) => {
            if k == 0 {
                return d;
            }
            e
        }
    }
}

// Whether `p` leaves after `r`.
pub fn leaves_after(p: ScheduledRow, r: ScheduledRow) -> bool
    ensures { result ≡ after p r }
{
    let pt = p[0];
    let rt = r[0];
    if pt < rt {
        return false;
    }
    if rt < pt {
        return true;
    }
    let po = p[1];
    let ro = r[1];
    ro < po
}

impl ChannelScheduler {
    // All copies of one answer of the channel. `cleared`: whether the bytes that no packet has are zeros.
    pub fn schedule_at_unchecked(
        self,
        records: &mut [ScheduledRow],
        places: &mut [u8],
        now: u64,
        packet: &[u8],
        deliveries: Deliveries,
        cleared: bool,
    ) -> Self
        requires can_schedule { CanSchedule (schedule records.old places.old self) now packet.now deliveries }
        requires cleared { cleared ≡ true → Cleared (schedule records.old places.old self) }
        ensures { schedule records.new places.new result
            ≡ schedule_at_unchecked (schedule records.old places.old self) now packet.now
            deliveries }
    {
        let copies = copies_of(deliveries);
        let mut scheduler = self;
        for k in 0..copies {
            let delay = delay_of(deliveries, k);
            scheduler = scheduler.put(records, places, now + delay * 1000000, packet, cleared);
        }
        scheduler
    }

    // The earliest packet that is due.
    pub fn pop_ready_at_unchecked(
        self,
        records: &mut [ScheduledRow],
        places: &mut [u8],
        now: u64,
        out: &mut [u8],
    ) -> PopResult
        requires { CanPop (schedule records.old places.old self) now out.old }
        ensures { pop_exit records.new places.new out.new result
            ≡ pop_unchecked (schedule records.old places.old self) now out.old }
    {
        let count = self.count;
        if count == 0 {
            return PopResult {
                scheduler: self,
                answer: Ok(None),
            };
        }
        let first = Scheduled::unpacked(records[0]);
        if now < first.time {
            return PopResult {
                scheduler: self,
                answer: Ok(None),
            };
        }
        let len = first.length as usize;
        remove_first(records, count);
        take_packet(places, first.place as usize, len, out);
        PopResult {
            scheduler: ChannelScheduler {
                count: count - 1,
                next_order: self.next_order,
            },
            answer: Ok(Some(len)),
        }
    }

    pub fn next_deadline_unchecked(self, records: &[ScheduledRow]) -> Result<Option<u64>, Refusal>
        requires { self.count ≤ length records.now }
        ensures { result ≡ first_time self.count records.now }
    {
        let count = self.count;
        if count == 0 {
            return Ok(None);
        }
        let first = Scheduled::unpacked(records[0]);
        Ok(Some(first.time))
    }

    // How many copies more there is room for.
    pub fn room_unchecked(self, records: &[ScheduledRow], places: &[u8]) -> usize
        requires { state_broken (schedule records.now places.now self) ≡ false }
        ensures { result ≡ room_of (schedule records.now places.now self) }
    {
        let free_places = places.len() / PLACE_SIZE - self.count;
        let free_records = records.len() - self.count;
        free_places.min(free_records)
    }
}

impl ChannelScheduler {
    // One copy more, to leave at `time`.
    fn put(
        self,
        records: &mut [ScheduledRow],
        places: &mut [u8],
        time: u64,
        packet: &[u8],
        cleared: bool,
    ) -> Self
        requires can_put { CanPut (schedule records.old places.old self) packet.now }
        requires cleared { cleared ≡ true → Cleared (schedule records.old places.old self) }
        ensures { schedule records.new places.new result
            ≡ put_copy (schedule records.old places.old self) time packet.now }
    {
        let count = self.count;
        let order = self.next_order;
        let place = lowest_free(records, count, places.len() / PLACE_SIZE);
        fill_place(places, place, packet, cleared);
        let r = Scheduled {
            time: time,
            order: order,
            length: packet.len() as u64,
            place: place as u64,
        };
        insert(records, count, r.packed());
        ChannelScheduler {
            count: count + 1,
            next_order: order + 1,
        }
    }
}
