// The channel and the schedule.
//
// reals: loss, duplicate, reorder, corrupt, then the eight rolls. numbers: reorder_extra_ms, base_delay_ms, jitter_ms,
// then the six counters. A refusal is 16 and its number. Of a schedule's parameters the slices come first, in
// registers, and count and next order stand apart: two words that a caller has just written to the stack, read back as
// one, make the processor wait.
ghost use Rattle.std.specs.Prelude.{◌≡◌, ◌<◌};
ghost use Rattle.schedule.specs.State.{schedule, CanSchedule};
ghost use Rattle.schedule.specs.Schedule.{scheduler, CanPop};
ghost use Rattle.schedule.specs.declared.Deliveries.TheVariants.{One};

use crate::{at, put};
use channel::{Channel, ChannelConfig, ChannelStats, Rolls};
use refusal::Refusal;
use schedule::{ChannelScheduler, Deliveries};

fn real_at(s: &[f64], i: usize) -> f64 {
    if i < s.len() { s[i] } else { 0.0 }
}

fn code(r: Refusal) -> u64 {
    16 + widened(r.number())
}

fn widened(n: u8) -> u64
    ensures { result ≡ n }
{
    n as u64
}

fn config_of(reals: &[f64], numbers: &[u64]) -> ChannelConfig {
    ChannelConfig {
        loss: real_at(reals, 0),
        duplicate: real_at(reals, 1),
        reorder: real_at(reals, 2),
        reorder_extra_ms: at(numbers, 0),
        corrupt: real_at(reals, 3),
        base_delay_ms: at(numbers, 1),
        jitter_ms: at(numbers, 2),
    }
}

fn stats_of(numbers: &[u64]) -> ChannelStats {
    ChannelStats {
        packets_seen: at(numbers, 3),
        lost: at(numbers, 4),
        corrupted: at(numbers, 5),
        duplicated: at(numbers, 6),
        reordered: at(numbers, 7),
        copies_delivered: at(numbers, 8),
    }
}

fn rolls_of(reals: &[f64]) -> Rolls {
    Rolls {
        loss_roll: real_at(reals, 4),
        dup_roll: real_at(reals, 5),
        reorder_roll: real_at(reals, 6),
        corrupt_roll: real_at(reals, 7),
        byte_roll: real_at(reals, 8),
        bit_roll: real_at(reals, 9),
        jitter_roll: real_at(reals, 10),
        dup_jitter_roll: real_at(reals, 11),
    }
}

fn channel_of(reals: &[f64], numbers: &[u64]) -> Channel {
    Channel {
        config: config_of(reals, numbers),
        stats: stats_of(numbers),
    }
}

fn deliveries_of(copies: u64, first: u64, second: u64) -> Deliveries {
    if copies == 0 {
        return Deliveries::Lost;
    }
    if copies == 1 {
        return Deliveries::One(first);
    }
    Deliveries::Two(first, second)
}

fn put_deliveries(answer: &mut [u64], d: Deliveries) {
    match d {
        Deliveries::Lost => put(answer, 0, 0),
        Deliveries::One(first) => {
            put(answer, 0, 1);
            put(answer, 1, first);
        }
        Deliveries::Two(first, second) => {
            put(answer, 0, 2);
            put(answer, 1, first);
            put(answer, 2, second);
        }
    }
}

fn put_outcome(answer: &mut [u64], o: Result<Deliveries, Refusal>) {
    match o {
        Ok(d) => put_deliveries(answer, d),
        Err(r) => put(answer, 0, code(r)),
    }
}

fn put_queued(answer: &mut [u64], q: Result<(), Refusal>) {
    match q {
        Ok(()) => put(answer, 0, 0),
        Err(r) => put(answer, 0, code(r)),
    }
}

fn put_ready(answer: &mut [u64], r: Result<Option<usize>, Refusal>) {
    match r {
        Ok(None) => put(answer, 0, 0),
        Ok(Some(n)) => {
            put(answer, 0, 1);
            put(answer, 1, n as u64);
        }
        Err(x) => put(answer, 0, code(x)),
    }
}

fn put_deadline(answer: &mut [u64], d: Result<Option<u64>, Refusal>) {
    match d {
        Ok(None) => put(answer, 0, 0),
        Ok(Some(t)) => {
            put(answer, 0, 1);
            put(answer, 1, t);
        }
        Err(r) => put(answer, 0, code(r)),
    }
}

fn put_emptiness(answer: &mut [u64], e: Result<bool, Refusal>) {
    match e {
        Ok(b) => put(answer, 6, b as u64),
        Err(r) => put(answer, 6, code(r)),
    }
}

fn put_stats(answer: &mut [u64], s: ChannelStats) {
    put(answer, 3, s.packets_seen);
    put(answer, 4, s.lost);
    put(answer, 5, s.corrupted);
    put(answer, 6, s.duplicated);
    put(answer, 7, s.reordered);
    put(answer, 8, s.copies_delivered);
}

fn put_scheduler(answer: &mut [u64], s: ChannelScheduler) {
    put(answer, 2, s.count as u64);
    put(answer, 3, s.next_order);
}

// 0, or a refusal.
#[unsafe(no_mangle)]
pub extern "C" fn channel_new(reals: &[f64], numbers: &[u64]) -> u64 {
    match Channel::new(config_of(reals, numbers)) {
        Ok(_) => 0,
        Err(r) => code(r),
    }
}

// answer: the number of copies or a refusal, their delays, then the six counters.
#[unsafe(no_mangle)]
pub extern "C" fn channel_process(
    reals: &[f64],
    numbers: &[u64],
    packet: &[u8],
    out: &mut [u8],
    answer: &mut [u64],
) {
    let done = channel_of(reals, numbers).process(packet, rolls_of(reals), out);
    put_outcome(answer, done.answer);
    put_stats(answer, done.channel.stats);
}

// answer: unused, unused, count, next order.
#[unsafe(no_mangle)]
pub extern "C" fn schedule_new(records: &mut [[u64; 4]], places: &mut [u8], answer: &mut [u64]) {
    put_scheduler(answer, ChannelScheduler::new(records, places));
}

// answer: 0 or a refusal, unused, count, next order.
#[unsafe(no_mangle)]
pub extern "C" fn schedule_at(
    records: &mut [[u64; 4]],
    places: &mut [u8],
    packet: &[u8],
    count: usize,
    now: u64,
    next: u64,
    copies: u64,
    first: u64,
    second: u64,
    answer: &mut [u64],
) {
    let s = ChannelScheduler {
        count,
        next_order: next,
    };
    let done = s.schedule_at(
        records,
        places,
        now,
        packet,
        deliveries_of(copies, first, second),
    );
    put_queued(answer, done.answer);
    put_scheduler(answer, done.scheduler);
}

// answer: 0 nothing, 1 a packet, or a refusal; the packet's length; count, next order.
#[unsafe(no_mangle)]
pub extern "C" fn pop_ready_at(
    records: &mut [[u64; 4]],
    places: &mut [u8],
    out: &mut [u8],
    count: usize,
    now: u64,
    next: u64,
    answer: &mut [u64],
) {
    let s = ChannelScheduler {
        count,
        next_order: next,
    };
    let done = s.pop_ready_at(records, places, now, out);
    put_ready(answer, done.answer);
    put_scheduler(answer, done.scheduler);
}

// answer: 0 nothing, 1 a deadline, or a refusal, and the deadline; 1 or a refusal and the number, for `len` and for
// `room`; `is_empty` or a refusal.
#[unsafe(no_mangle)]
pub extern "C" fn schedule_read(
    records: &[[u64; 4]],
    places: &[u8],
    count: usize,
    next: u64,
    answer: &mut [u64],
) {
    let s = ChannelScheduler {
        count,
        next_order: next,
    };
    put_deadline(answer, s.next_deadline(records, places));
    put_amount(answer, 2, s.len(records, places));
    put_amount(answer, 4, s.room(records, places));
    put_emptiness(answer, s.is_empty(records, places));
}

fn put_amount(answer: &mut [u64], i: usize, a: Result<usize, Refusal>)
    requires { i < 8 }
{
    match a {
        Ok(n) => {
            put(answer, i, 1);
            put(answer, i + 1, n as u64);
        }
        Err(r) => put(answer, i, code(r)),
    }
}

// The calls below the entry points.
#[unsafe(no_mangle)]
pub extern "C" fn schedule_at_unchecked(
    records: &mut [[u64; 4]],
    places: &mut [u8],
    packet: &[u8],
    count: usize,
    now: u64,
    next: u64,
    delay: u64,
)
    requires { CanSchedule (schedule records.old places.old (scheduler count next)) now packet.now
        (One delay) }
{
    let s = ChannelScheduler {
        count,
        next_order: next,
    };
    s.schedule_at_unchecked(records, places, now, packet, Deliveries::One(delay), false);
}

#[unsafe(no_mangle)]
pub extern "C" fn pop_ready_at_unchecked(
    records: &mut [[u64; 4]],
    places: &mut [u8],
    out: &mut [u8],
    count: usize,
    now: u64,
    next: u64,
) -> usize
    requires { CanPop (schedule records.old places.old (scheduler count next)) now out.old }
{
    let s = ChannelScheduler {
        count,
        next_order: next,
    };
    let done = s.pop_ready_at_unchecked(records, places, now, out);
    match done.answer {
        Ok(Some(n)) => n,
        Ok(None) => 4096,
        Err(_) => 8192,
    }
}
