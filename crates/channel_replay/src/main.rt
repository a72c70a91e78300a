// Replays calls of the channel and the schedule from standard input, and writes an answer for each, as the reference
// gave it (file `stdout`). The form of lines is replay_io's; times are in ns, delays in ms, chances and rolls are
// doubles. The letters, and what follows them:
//   n LOSS DUPLICATE REORDER CORRUPT EXTRA BASE JITTER RECORDS PLACES   a channel of this setup, or where it is
//     refused the one before, and an empty schedule of so many records and places, 320 and 300 at most, each number
//     and each byte 5 before
//   p NOW ROOM ROLL .. PACKET   eight rolls: process into a buffer of ROOM bytes, each a5 before, and its copies
//     scheduled at NOW; answers the number of copies and their delays, the buffer, the six counters, what schedule_at
//     answers, and how many wait
//   s NOW COPIES FIRST SECOND PACKET   schedule_at, of so many copies with these delays; answers also how many wait
//   t NOW ROOM     pop_ready_at into a buffer of ROOM bytes, each a5 before; answers also the buffer and how many wait
//   q              next_deadline, len, is_empty and room
//   d              answers how many wait, the next order, all numbers of all records, and the CRC-32 of the places
// A schedule of eight records goes through the structs: unpacked before `schedule_at` or `pop_ready_at`, packed after.
#![tactic(auto)]

use channel::{Channel, ChannelConfig, ChannelStats, Rolls};
use replay_io::{Answer, Fields, Replay};
use schedule::{ChannelScheduler, Deliveries, OwnedSchedule, PopResult, ScheduleResult, Scheduled};
use std::io;
use std::io::Write;

// The schedule has as many records and bytes of places as their lengths say.
#[derive(Drop)]
struct State {
    channel: Channel,
    scheduler: ChannelScheduler,
    records: [[u64; 4]; 320],
    places: [u8; 423000],
    records_len: usize,
    places_len: usize,
}

fn main(rt: HostRuntime) -> io::Result<()> {
    replay_io::answer_lines(
        &mut State::new(),
        &mut replay_io::buffer(),
        &mut rt.stdin(),
        &mut rt.stdout(),
    )
}

impl Replay for State {
    fn answer(&mut self, writer: &mut impl Write, f: Fields, bytes: &[u8]) -> io::Result<()> {
        let v = f.values;
        match (f.letter, f.count) {
            (b'n', 9) => self.make(writer, v),
            (b'p', 10) => self.process(writer, v, bytes),
            (b's', 4) => self.schedule(writer, v[0], bytes, deliveries_of(v[1], v[2], v[3])),
            (b't', 2) => self.pop(writer, v[0], v[1] as usize),
            (b'q', 0) => self.print_schedule(writer),
            (b'd', 0) => {
                self.scheduler.count.print(writer)?;
                self.scheduler.next_order.print(writer)?;
                replay_io::print_all(writer, replay_io::prefix(&self.records, self.records_len))?;
                replay_io::print_crc32(writer, replay_io::prefix(&self.places, self.places_len))
            }
            _ => replay_io::print_bad_line(writer),
        }
    }
}

impl State {
    fn new() -> State {
        State {
            channel: idle(),
            scheduler: ChannelScheduler {
                count: 0,
                next_order: 0,
            },
            records: [[0; 4]; 320],
            places: [0; 423000],
            records_len: 0,
            places_len: 0,
        }
    }

    fn make(&mut self, writer: &mut impl Write, v: [u64; 12]) -> io::Result<()> {
        let (n, places) = (v[7] as usize, v[8] as usize);
        if self.records.len() < n || self.places.len() / bounds::PLACE_SIZE < places {
            return replay_io::print_bad_line(writer);
        }
        let bytes = places * bounds::PLACE_SIZE;
        self.places[..bytes].fill(5);
        self.records_len = n;
        self.places_len = bytes;
        self.records[..n].fill([5; 4]);
        let State {
            records,
            places,
            ..
        } = self;
        let scheduler = new_scheduler(records, n, places, bytes);
        self.scheduler = scheduler;
        let made = Channel::new(config_of(v));
        self.channel = made.unwrap_or(self.channel);
        made.map(|_| "made").print(writer)
    }

    fn process(&mut self, writer: &mut impl Write, v: [u64; 12], packet: &[u8]) -> io::Result<()> {
        let mut out = [0xa5u8; 2048];
        let room = v[1] as usize;
        if out.len() < room {
            return replay_io::print_bad_line(writer);
        }
        let done = self.channel.process(packet, rolls_of(v), &mut out[..room]);
        self.channel = done.channel;
        match done.answer {
            Ok(d) => print_deliveries(writer, d)?,
            Err(r) => r.print(writer)?,
        }
        replay_io::print_bytes(writer, &out[..room])?;
        print_stats(writer, done.channel.stats)?;
        let carried = replay_io::prefix(&out[..room], packet.len());
        let deliveries = done.answer.unwrap_or(Deliveries::Lost);
        self.schedule(writer, v[0], carried, deliveries)
    }

    fn schedule(
        &mut self,
        writer: &mut impl Write,
        now: u64,
        packet: &[u8],
        deliveries: Deliveries,
    ) -> io::Result<()> {
        let (s, lens) = (self.scheduler, (self.records_len, self.places_len));
        let State {
            records,
            places,
            ..
        } = self;
        let done = schedule_at(s, records, places, lens, now, packet, deliveries);
        self.scheduler = done.scheduler;
        done.answer.print(writer)?;
        done.scheduler.count.print(writer)
    }

    fn pop(&mut self, writer: &mut impl Write, now: u64, room: usize) -> io::Result<()> {
        let mut out = [0xa5u8; 2048];
        if out.len() < room {
            return replay_io::print_bad_line(writer);
        }
        let (s, lens) = (self.scheduler, (self.records_len, self.places_len));
        let State {
            records,
            places,
            ..
        } = self;
        let done = pop_ready_at(s, records, places, lens, now, &mut out[..room]);
        self.scheduler = done.scheduler;
        done.answer.print(writer)?;
        replay_io::print_bytes(writer, &out[..room])?;
        done.scheduler.count.print(writer)
    }

    fn print_schedule(&self, writer: &mut impl Write) -> io::Result<()> {
        let records = replay_io::prefix(&self.records, self.records_len);
        let places = replay_io::prefix(&self.places, self.places_len);
        let s = self.scheduler;
        s.next_deadline(records, places).print(writer)?;
        s.len(records, places).print(writer)?;
        s.is_empty(records, places).print(writer)?;
        s.room(records, places).print(writer)
    }
}

fn idle() -> Channel {
    Channel {
        config: ChannelConfig {
            loss: 0.0,
            duplicate: 0.0,
            reorder: 0.0,
            reorder_extra_ms: 0,
            corrupt: 0.0,
            base_delay_ms: 0,
            jitter_ms: 0,
        },
        stats: ChannelStats {
            packets_seen: 0,
            lost: 0,
            corrupted: 0,
            duplicated: 0,
            reordered: 0,
            copies_delivered: 0,
        },
    }
}

fn config_of(v: [u64; 12]) -> ChannelConfig {
    ChannelConfig {
        loss: replay_io::real(v[0]),
        duplicate: replay_io::real(v[1]),
        reorder: replay_io::real(v[2]),
        reorder_extra_ms: v[4],
        corrupt: replay_io::real(v[3]),
        base_delay_ms: v[5],
        jitter_ms: v[6],
    }
}

fn rolls_of(v: [u64; 12]) -> Rolls {
    Rolls {
        loss_roll: replay_io::real(v[2]),
        dup_roll: replay_io::real(v[3]),
        reorder_roll: replay_io::real(v[4]),
        corrupt_roll: replay_io::real(v[5]),
        byte_roll: replay_io::real(v[6]),
        bit_roll: replay_io::real(v[7]),
        jitter_roll: replay_io::real(v[8]),
        dup_jitter_roll: replay_io::real(v[9]),
    }
}

// A schedule has as much of the two arrays as the lengths say: two fields of a struct can be lent whole alone.
fn new_scheduler(
    records: &mut [[u64; 4]; 320],
    records_len: usize,
    places: &mut [u8; 423000],
    places_len: usize,
) -> ChannelScheduler {
    ChannelScheduler::new(
        replay_io::prefix_mut(records, records_len),
        replay_io::prefix_mut(places, places_len),
    )
}

fn schedule_at(
    s: ChannelScheduler,
    records: &mut [[u64; 4]; 320],
    places: &mut [u8; 423000],
    lens: (usize, usize),
    now: u64,
    packet: &[u8],
    deliveries: Deliveries,
) -> ScheduleResult {
    let records = replay_io::prefix_mut(records, lens.0);
    let places = replay_io::prefix_mut(places, lens.1);
    if records.len() == 8 {
        let done = unpacked(s, records).schedule_at(places, now, packet, deliveries);
        let next = done.schedule;
        let a = done.answer;
        pack(next, records);
        let after = next.scheduler;
        return ScheduleResult {
            scheduler: after,
            answer: a,
        };
    }
    s.schedule_at(records, places, now, packet, deliveries)
}

fn pop_ready_at(
    s: ChannelScheduler,
    records: &mut [[u64; 4]; 320],
    places: &mut [u8; 423000],
    lens: (usize, usize),
    now: u64,
    out: &mut [u8],
) -> PopResult {
    let records = replay_io::prefix_mut(records, lens.0);
    let places = replay_io::prefix_mut(places, lens.1);
    if records.len() == 8 {
        let done = unpacked(s, records).pop_ready_at(places, now, out);
        let next = done.schedule;
        let a = done.answer;
        pack(next, records);
        let after = next.scheduler;
        return PopResult {
            scheduler: after,
            answer: a,
        };
    }
    s.pop_ready_at(records, places, now, out)
}

fn unpacked(s: ChannelScheduler, records: &[[u64; 4]]) -> OwnedSchedule {
    let mut rs = [Scheduled::unpacked([0, 0, 0, 0]); 8];
    for (r, record) in rs.iter_mut().zip(records) {
        *r = Scheduled::unpacked(*record);
    }
    OwnedSchedule {
        records: rs,
        scheduler: s,
    }
}

fn pack(s: OwnedSchedule, records: &mut [[u64; 4]]) {
    let rs = s.records;
    for (r, record) in rs.iter().zip(records) {
        *record = (*r).packed();
    }
}

fn deliveries_of(copies: u64, first: u64, second: u64) -> Deliveries {
    if copies == 0 {
        return Deliveries::Lost;
    }
    if copies == 1 {
        return Deliveries::One(first);
    }
    Deliveries::Two(first, second)
}

fn print_deliveries(writer: &mut impl Write, d: Deliveries) -> io::Result<()> {
    match d {
        Deliveries::Lost => [0].print(writer),
        Deliveries::One(first) => [1, first].print(writer),
        Deliveries::Two(first, second) => [2, first, second].print(writer),
    }
}

fn print_stats(writer: &mut impl Write, s: ChannelStats) -> io::Result<()> {
    s.packets_seen.print(writer)?;
    s.lost.print(writer)?;
    s.corrupted.print(writer)?;
    s.duplicated.print(writer)?;
    s.reordered.print(writer)?;
    s.copies_delivered.print(writer)
}
