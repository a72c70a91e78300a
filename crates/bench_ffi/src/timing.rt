// Timers, durations and the estimator. A timer set is two words, count and generation: a host's from word 1 on. Those
// that have an answer give it as a host's.
ghost use Rattle.std.specs.Prelude.{◌≡◌, false, ◌≤◌, length};
ghost use Rattle.multi_timer.specs.Map.{due_keys};
ghost use Rattle.multi_timer.specs.MultiTimer.{timers, used, broken, start_full};

use crate::{at, done, put};
use multi_timer::MultiTimer;
use rto::RtoEstimator;

#[unsafe(no_mangle)]
pub extern "C" fn timing_as_secs_f64(ns: u64) -> f64 {
    duration::as_secs_f64(ns)
}

// Nothing where it is out of range.
#[unsafe(no_mangle)]
pub extern "C" fn timing_from_secs_f64(x: f64, answer: &mut [u64]) -> u64 {
    match duration::from_secs_f64(x) {
        Some(n) => {
            put(answer, 0, n);
            done(0)
        }
        None => host_answer::NOTHING,
    }
}

#[unsafe(no_mangle)]
pub extern "C" fn timing_multi_expired(
    s: &[u64],
    keys: &[u32],
    deadlines: &[u64],
    key: u32,
    now: u64,
) -> u64 {
    host_answer::test_answer(timers_of(s).is_expired_at(keys, deadlines, key, now))
}

// `start_timer_at` of each of the keys given.
#[unsafe(no_mangle)]
pub extern "C" fn timing_start_each(
    s: &mut [u64],
    keys: &mut [u32],
    deadlines: &mut [u64],
    given: &[u32],
    now: u64,
    duration: u64,
) {
    let t = started(timers_of(s), keys, deadlines, given, now, duration);
    put_timers(s, t);
}

fn started(
    mut t: MultiTimer,
    keys: &mut [u32],
    deadlines: &mut [u64],
    given: &[u32],
    now: u64,
    duration: u64,
) -> MultiTimer {
    for key in given {
        t = t
            .start_timer_at(keys, deadlines, *key, now, duration)
            .timers;
    }
    t
}

fn timers_of(s: &[u64]) -> MultiTimer {
    MultiTimer {
        count: at(s, 0) as usize,
        global_generation: at(s, 1),
    }
}

fn put_timers(s: &mut [u64], t: MultiTimer) {
    put(s, 0, t.count as u64);
    put(s, 1, t.global_generation);
}

// `update_rtt` of each of these samples, by a new estimator of the default setup: the RTO then. The one place that
// calls `update_rtt`, so that it is inlined here.
#[unsafe(no_mangle)]
pub extern "C" fn timing_update_rtt_each(samples: &[u64]) -> u64 {
    let mut e = RtoEstimator::new();
    for sample in samples {
        e = e.update_rtt(*sample, false).estimator;
    }
    e.current_rto
}

// The timer set below the entry points. Each gives the new count.
#[unsafe(no_mangle)]
pub extern "C" fn timing_multi_start_unchecked(
    keys: &mut [u32],
    deadlines: &mut [u64],
    count: usize,
    generation: u64,
    key: u32,
    deadline: u64,
) -> usize
    requires { (broken count keys.old deadlines.old ≡ false)
        × (start_full (timers count generation) keys.old deadlines.old key ≡ false) }
{
    let t = MultiTimer {
        count,
        global_generation: generation,
    };
    let next = t.start_timer_at_unchecked(keys, deadlines, key, deadline);
    next.count
}

#[unsafe(no_mangle)]
pub extern "C" fn timing_multi_cancel_unchecked(
    keys: &mut [u32],
    deadlines: &mut [u64],
    count: usize,
    generation: u64,
    key: u32,
) -> usize
    requires { broken count keys.old deadlines.old ≡ false }
{
    let t = MultiTimer {
        count,
        global_generation: generation,
    };
    let next = t.cancel_timer_unchecked(keys, deadlines, key);
    next.count
}

#[unsafe(no_mangle)]
pub extern "C" fn timing_multi_pop_unchecked(
    keys: &mut [u32],
    deadlines: &mut [u64],
    count: usize,
    generation: u64,
    time: u64,
    out: &mut [u32],
) -> usize
    requires { (broken count keys.old deadlines.old ≡ false)
        × (length (due_keys time (used (timers count generation) keys.old deadlines.old)) ≤ length out.old) }
{
    let t = MultiTimer {
        count,
        global_generation: generation,
    };
    let next = t.pop_expired_at_unchecked(keys, deadlines, time, out);
    next.count
}
