// Replays calls of the timing layer from standard input, and writes an answer for each, as the reference gave it
// (file `stdout`). The form of lines is replay_io's; durations and times are in ns. The letters, and what follows
// them:
//   e INITIAL MIN MAX GRANULARITY ALPHA BETA K MULTIPLIER   an estimator of this setup; where it is refused, the one
//     before stays
//   s SAMPLE AGAIN         update_rtt, of a retransmitted packet where AGAIN is not 0
//   o                      on_timeout
//   b                      reset_backoff
//   l LIMIT                has_exceeded_retry_limit
//   m ROOM                 an empty timer set of that many entries, 40 at most, each filled with ones before
//   k KEY NOW DURATION     start_timer_at
//   c KEY                  cancel_timer
//   x KEY NOW              is_expired_at
//   p NOW ROOM             pop_expired_at into ROOM keys, 40 at most, each 7 before; answers all of them
//   q                      earliest_deadline
//   z                      clear
//   d                      answers how many entries are used, and all keys and deadlines
//   n                      a retransmission timer
//   t NOW DURATION         start_at, on a lent timer, which calls the by-value form
//   u                      cancel, so too
//   v NOW                  is_active, is_expired_at and remaining_at
//   w GENERATION NOW       is_expired_for_at
//   f NS                   as_secs_f64
//   g SECONDS              from_secs_f64, of a double; `none` out of range
// An estimator is answered by RTO, SRTT, RTTVAR and base RTO, whether it backs off, the consecutive timeouts, the
// counts of samples, rejected ones, timeouts and backoffs, the most consecutive timeouts and the mean RTT in ms.
#![tactic(auto)]

use multi_timer::MultiTimer;
use refusal::Refusal;
use replay_io::{Answer, Fields, Replay};
use rto::{RtoConfig, RtoEstimator};
use std::io;
use std::io::Write;
use timer::{RetransmissionTimer, TimerResult};

// keys, deadlines: the timer set has the first `room` of them.
#[derive(Drop)]
struct Timing {
    estimator: RtoEstimator,
    timer: RetransmissionTimer,
    timers: MultiTimer,
    keys: [u32; 40],
    deadlines: [u64; 40],
    room: usize,
}

fn main(rt: HostRuntime) -> io::Result<()> {
    replay_io::answer_lines(
        &mut Timing::new(),
        &mut replay_io::buffer(),
        &mut rt.stdin(),
        &mut rt.stdout(),
    )
}

impl Replay for Timing {
    fn answer(&mut self, writer: &mut impl Write, f: Fields, _bytes: &[u8]) -> io::Result<()> {
        let v = f.values;
        let t = self.timer;
        match (f.letter, f.count) {
            (b'e', 8) => self.new_estimator(writer, config_of(v)),
            (b's', 2) => self.sample(writer, v[0], v[1] != 0),
            (b'o', 0) => self.timeout(writer),
            (b'b', 0) => self.reset(writer),
            (b'l', 1) => self
                .estimator
                .has_exceeded_retry_limit(replay_io::low(v[0]))
                .print(writer),
            (b'n', 0) => {
                self.timer = RetransmissionTimer::new();
                Ok(())
            }
            (b't', 2) => self.changed(writer, t.started_lent(v[0], v[1])),
            (b'u', 0) => self.changed(writer, t.cancelled_lent()),
            (b'v', 1) => {
                t.is_active().print(writer)?;
                t.is_expired_at(v[0]).print(writer)?;
                t.remaining_at(v[0]).print(writer)
            }
            (b'w', 2) => t.is_expired_for_at(v[0], v[1]).print(writer),
            (b'm', 1) => self.new_set(writer, v[0] as usize),
            (b'f', 1) => duration::as_secs_f64(v[0]).print(writer),
            (b'g', 1) => duration::from_secs_f64(replay_io::real(v[0])).print(writer),
            _ => self.set_call(writer, f),
        }
    }
}

impl Timing {
    fn new() -> Timing {
        Timing {
            estimator: RtoEstimator::new(),
            timer: RetransmissionTimer::new(),
            timers: no_timers(),
            keys: [0; 40],
            deadlines: [0; 40],
            room: 0,
        }
    }

    fn new_estimator(&mut self, writer: &mut impl Write, c: RtoConfig) -> io::Result<()> {
        match RtoEstimator::with_config(c) {
            Ok(e) => {
                self.estimator = e;
                print_estimator(writer, e)
            }
            Err(r) => r.print(writer),
        }
    }

    fn sample(&mut self, writer: &mut impl Write, rtt: u64, again: bool) -> io::Result<()> {
        let done = self.estimator.update_rtt(rtt, again);
        self.estimator = done.estimator;
        done.answer.print(writer)?;
        print_estimator(writer, done.estimator)
    }

    fn timeout(&mut self, writer: &mut impl Write) -> io::Result<()> {
        let done = self.estimator.on_timeout();
        self.estimator = done.estimator;
        done.answer.print(writer)?;
        print_estimator(writer, done.estimator)
    }

    fn reset(&mut self, writer: &mut impl Write) -> io::Result<()> {
        let done = self.estimator.reset_backoff();
        self.estimator = done.estimator;
        done.answer.print(writer)?;
        print_estimator(writer, done.estimator)
    }

    fn changed(&mut self, writer: &mut impl Write, done: TimerResult) -> io::Result<()> {
        self.timer = done.timer;
        done.answer.print(writer)
    }

    fn new_set(&mut self, writer: &mut impl Write, room: usize) -> io::Result<()> {
        if self.keys.len() < room {
            return replay_io::print_bad_line(writer);
        }
        self.keys[..room].fill(1);
        self.deadlines[..room].fill(1);
        self.room = room;
        let Timing {
            keys,
            deadlines,
            ..
        } = self;
        let made = new_timers(keys, deadlines, room);
        self.timers = made.unwrap_or(no_timers());
        made.map(|_| "made").print(writer)
    }

    fn set_call(&mut self, writer: &mut impl Write, f: Fields) -> io::Result<()> {
        let (t, room) = (self.timers, self.room);
        let Timing {
            keys,
            deadlines,
            ..
        } = self;
        let (timers, printed) = call_set(t, keys, deadlines, room, writer, f);
        self.timers = timers;
        printed
    }
}

// A set has so many of the entries: two fields of a struct can be lent whole alone.
fn new_timers(
    keys: &mut [u32; 40],
    deadlines: &mut [u64; 40],
    room: usize,
) -> Result<MultiTimer, Refusal> {
    multi_timer::new_timers(
        replay_io::prefix_mut(keys, room),
        replay_io::prefix_mut(deadlines, room),
    )
}

fn call_set(
    t: MultiTimer,
    keys: &mut [u32; 40],
    deadlines: &mut [u64; 40],
    room: usize,
    writer: &mut impl Write,
    f: Fields,
) -> (MultiTimer, io::Result<()>) {
    let v = f.values;
    let keys = replay_io::prefix_mut(keys, room);
    let deadlines = replay_io::prefix_mut(deadlines, room);
    match (f.letter, f.count) {
        (b'k', 3) => {
            let done = t.start_timer_at(keys, deadlines, replay_io::low(v[0]), v[1], v[2]);
            (done.timers, done.answer.print(writer))
        }
        (b'c', 1) => {
            let done = t.cancel_timer(keys, deadlines, replay_io::low(v[0]));
            (done.timers, done.answer.print(writer))
        }
        (b'x', 2) => {
            let expired = t.is_expired_at(keys, deadlines, replay_io::low(v[0]), v[1]);
            (t, expired.print(writer))
        }
        (b'p', 2) => {
            let mut out = [7u32; 40];
            let n = v[1] as usize;
            if out.len() < n {
                return (t, replay_io::print_bad_line(writer));
            }
            let done = t.pop_expired_at(keys, deadlines, v[0], &mut out[..n]);
            (done.timers, print_popped(writer, done.answer, &out[..n]))
        }
        (b'q', 0) => (t, t.earliest_deadline(keys, deadlines).print(writer)),
        (b'z', 0) => {
            let done = t.clear(keys, deadlines);
            (
                done.timers,
                print_cleared(writer, done.answer, done.timers.len()),
            )
        }
        (b'd', 0) => (t, print_entries(writer, t.len(), keys, deadlines)),
        _ => (t, replay_io::print_bad_line(writer)),
    }
}

fn print_popped(
    writer: &mut impl Write,
    answer: Result<usize, Refusal>,
    keys: &[u32],
) -> io::Result<()> {
    answer.print(writer)?;
    replay_io::print_all(writer, keys)
}

fn print_cleared(
    writer: &mut impl Write,
    answer: Result<(), Refusal>,
    count: usize,
) -> io::Result<()> {
    answer.print(writer)?;
    count.print(writer)
}

fn print_entries(
    writer: &mut impl Write,
    count: usize,
    keys: &[u32],
    deadlines: &[u64],
) -> io::Result<()> {
    count.print(writer)?;
    replay_io::print_all(writer, keys)?;
    replay_io::print_all(writer, deadlines)
}

fn no_timers() -> MultiTimer {
    MultiTimer {
        count: 0,
        global_generation: 0,
    }
}

fn config_of(v: [u64; 12]) -> RtoConfig {
    RtoConfig {
        initial_rto: v[0],
        min_rto: v[1],
        max_rto: v[2],
        granularity: v[3],
        alpha: replay_io::real(v[4]),
        beta: replay_io::real(v[5]),
        k: replay_io::real(v[6]),
        rto_multiplier: replay_io::real(v[7]),
    }
}

fn print_estimator(writer: &mut impl Write, e: RtoEstimator) -> io::Result<()> {
    let s = e.stats;
    e.current_rto.print(writer)?;
    e.srtt.print(writer)?;
    e.rttvar.print(writer)?;
    e.base_rto.print(writer)?;
    e.in_backoff.print(writer)?;
    e.consecutive_timeouts.print(writer)?;
    s.sample_count.print(writer)?;
    s.karn_rejected_count.print(writer)?;
    s.timeout_count.print(writer)?;
    s.backoff_count.print(writer)?;
    s.max_consecutive_timeouts.print(writer)?;
    e.mean_rtt_ms().print(writer)
}
