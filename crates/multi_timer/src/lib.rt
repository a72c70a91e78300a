// A set of timers by key in two lent slices: the reference's MultiTimer on nanoseconds.
#![tactic(auto)]

ghost use Rattle.std.specs.Prelude.{◌≡◌, ◌==◌};
ghost use Rattle.multi_timer.specs.MultiTimer.{timers_exit, pop_exit, new_timers, start_timer_at, cancel_timer};
ghost use Rattle.multi_timer.specs.MultiTimer.{is_expired_at, pop_expired_at, earliest_deadline, clear_timers};

use checks::{check_held, check_pop, check_read, check_start};
use refusal::Refusal;

mod checks;
mod entries;
mod unchecked;

// The first count entries of the lent keys and deadlines are used, by ascending key.
#[derive(Clone, Copy)]
pub struct MultiTimer {
    pub count: usize,
    pub global_generation: u64,
}

#[derive(Clone, Copy)]
pub struct StartResult {
    pub timers: MultiTimer,
    pub answer: Result<u64, Refusal>,
}

#[derive(Clone, Copy)]
pub struct CancelResult {
    pub timers: MultiTimer,
    pub answer: Result<bool, Refusal>,
}

#[derive(Clone, Copy)]
pub struct PopResult {
    pub timers: MultiTimer,
    pub answer: Result<usize, Refusal>,
}

#[derive(Clone, Copy)]
pub struct ClearResult {
    pub timers: MultiTimer,
    pub answer: Result<(), Refusal>,
}

// Makes an empty set in two slices of one length.
pub fn new_timers(keys: &mut [u32], deadlines: &mut [u64]) -> Result<MultiTimer, Refusal>
    ensures { timers_exit result keys.new deadlines.new
        ≡ new_timers keys.old deadlines.old }
{
    if keys.len() != deadlines.len() {
        return Err(Refusal::State);
    }
    Ok(MultiTimer::new_unchecked(keys, deadlines))
}

impl MultiTimer {
    pub fn len(self) -> usize
        ensures { result ≡ self.count }
    {
        self.count
    }

    pub fn is_empty(self) -> bool
        ensures { result ≡ (self.count == 0) }
    {
        self.count == 0
    }

    // Sets or restarts the timer of a key.
    pub fn start_timer_at(
        self,
        keys: &mut [u32],
        deadlines: &mut [u64],
        key: u32,
        now: u64,
        duration: u64,
    ) -> StartResult
        ensures { timers_exit result keys.new deadlines.new
            ≡ start_timer_at self keys.old deadlines.old key now duration }
    {
        let verdict = check_start(self, keys, deadlines, key, now, duration);
        match verdict {
            Ok(()) => {
                let t = self.start_timer_at_unchecked(keys, deadlines, key, now + duration);
                StartResult {
                    timers: t,
                    answer: Ok(t.global_generation),
                }
            }
            Err(r) => StartResult {
                timers: self,
                answer: Err(r),
            },
        }
    }

    pub fn cancel_timer(self, keys: &mut [u32], deadlines: &mut [u64], key: u32) -> CancelResult
        ensures { timers_exit result keys.new deadlines.new
            ≡ cancel_timer self keys.old deadlines.old key }
    {
        let verdict = check_held(self, keys, deadlines);
        match verdict {
            Ok(()) => {
                let t = self.cancel_timer_unchecked(keys, deadlines, key);
                CancelResult {
                    timers: t,
                    answer: Ok(t.count < self.count),
                }
            }
            Err(r) => CancelResult {
                timers: self,
                answer: Err(r),
            },
        }
    }

    pub fn is_expired_at(
        self,
        keys: &[u32],
        deadlines: &[u64],
        key: u32,
        now: u64,
    ) -> Result<bool, Refusal>
        ensures { result ≡ is_expired_at self keys.now deadlines.now key now }
    {
        check_read(self, keys, deadlines, now)?;
        Ok(self.is_expired_at_unchecked(keys, deadlines, key, now))
    }

    // The expired keys, ascending, go to the front of out.
    pub fn pop_expired_at(
        self,
        keys: &mut [u32],
        deadlines: &mut [u64],
        now: u64,
        out: &mut [u32],
    ) -> PopResult
        ensures { pop_exit (timers_exit result keys.new deadlines.new) out.new
            ≡ pop_expired_at self keys.old deadlines.old now out.old }
    {
        let verdict = check_pop(self, keys, deadlines, now, out.len());
        match verdict {
            Ok(()) => {
                let t = self.pop_expired_at_unchecked(keys, deadlines, now, out);
                PopResult {
                    timers: t,
                    answer: Ok(self.count - t.count),
                }
            }
            Err(r) => PopResult {
                timers: self,
                answer: Err(r),
            },
        }
    }

    pub fn earliest_deadline(self, keys: &[u32], deadlines: &[u64]) -> Result<Option<u64>, Refusal>
        ensures { result ≡ earliest_deadline self keys.now deadlines.now }
    {
        check_held(self, keys, deadlines)?;
        self.earliest_deadline_unchecked(keys, deadlines)
    }

    pub fn clear(self, keys: &mut [u32], deadlines: &mut [u64]) -> ClearResult
        ensures { timers_exit result keys.new deadlines.new
            ≡ clear_timers self keys.old deadlines.old }
    {
        let verdict = check_held(self, keys, deadlines);
        match verdict {
            Ok(()) => ClearResult {
                timers: self.clear_unchecked(keys, deadlines),
                answer: Ok(()),
            },
            Err(r) => ClearResult {
                timers: self,
                answer: Err(r),
            },
        }
    }
}
