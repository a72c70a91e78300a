// The retransmission timer, by value and lent: the reference's timing/timer.rs on nanoseconds.
#![tactic(auto)]

ghost use Rattle.std.specs.Prelude.{◌≡◌, ◌-◌, false};
ghost use Rattle.timer.specs.Timer.{deadline_too_late, start_too_late, read_too_late};
ghost use Rattle.timer.specs.Timer.{expired_at, deadline_remaining, started_at_unchecked, cancelled_unchecked};
ghost use Rattle.timer.specs.Timer.{new_timer, timer_result, started_at, cancelled, is_active, remaining_at};
ghost use Rattle.timer.specs.Timer.{is_expired_at, is_expired_for_at};

use bounds::MAX_TIME;
use refusal::Refusal;

#[derive(Clone, Copy)]
pub struct RetransmissionTimer {
    pub deadline: Option<u64>,
    pub generation: u64,
}

#[derive(Clone, Copy)]
pub struct TimerResult {
    pub timer: RetransmissionTimer,
    pub answer: Result<u64, Refusal>,
}

impl RetransmissionTimer {
    pub fn new() -> RetransmissionTimer
        ensures { result ≡ new_timer }
    {
        RetransmissionTimer {
            deadline: None,
            generation: 0,
        }
    }

    // Starts or restarts the timer.
    pub fn started_at(self, now: u64, duration: u64) -> TimerResult
        ensures { result ≡ started_at self now duration }
    {
        if start_too_late(self, now, duration) {
            return TimerResult {
                timer: self,
                answer: Err(Refusal::Time),
            };
        }
        let t = self.started_at_unchecked(now, duration);
        TimerResult {
            timer: t,
            answer: Ok(t.generation),
        }
    }

    pub fn cancelled(self) -> TimerResult
        ensures { result ≡ cancelled self }
    {
        let d = self.deadline;
        if deadline_too_late(d) {
            return TimerResult {
                timer: self,
                answer: Err(Refusal::Time),
            };
        }
        let t = self.cancelled_unchecked();
        TimerResult {
            timer: t,
            answer: Ok(t.generation),
        }
    }

    // Starts or restarts the lent timer.
    pub fn start_at(&mut self, now: u64, duration: u64) -> Result<u64, Refusal>
        ensures { timer_result self.new result ≡ started_at self.old now duration }
    {
        let c = (*self).started_at(now, duration);
        *self = c.timer;
        c.answer
    }

    pub fn cancel(&mut self) -> Result<u64, Refusal>
        ensures { timer_result self.new result ≡ cancelled self.old }
    {
        let c = (*self).cancelled();
        *self = c.timer;
        c.answer
    }

    // `start_at` on a value, for callers that lend no struct.
    pub fn started_lent(self, now: u64, duration: u64) -> TimerResult
        ensures { result ≡ started_at self now duration }
    {
        let mut timer = self;
        let answer = timer.start_at(now, duration);
        TimerResult {
            timer: timer,
            answer: answer,
        }
    }

    // `cancel` on a value.
    pub fn cancelled_lent(self) -> TimerResult
        ensures { result ≡ cancelled self }
    {
        let mut timer = self;
        let answer = timer.cancel();
        TimerResult {
            timer: timer,
            answer: answer,
        }
    }

    pub fn is_active(self) -> Result<bool, Refusal>
        ensures { result ≡ is_active self }
    {
        let d = self.deadline;
        if deadline_too_late(d) {
            return Err(Refusal::Time);
        }
        Ok(d.is_some())
    }

    pub fn remaining_at(self, now: u64) -> Result<Option<u64>, Refusal>
        ensures { result ≡ remaining_at self now }
    {
        if read_too_late(self, now) {
            return Err(Refusal::Time);
        }
        let d = self.deadline;
        deadline_remaining(d, now)
    }

    pub fn is_expired_at(self, now: u64) -> Result<bool, Refusal>
        ensures { result ≡ is_expired_at self now }
    {
        if read_too_late(self, now) {
            return Err(Refusal::Time);
        }
        Ok(self.is_expired_at_unchecked(now))
    }

    // An event of an older generation is stale.
    pub fn is_expired_for_at(self, expected: u64, now: u64) -> Result<bool, Refusal>
        ensures { result ≡ is_expired_for_at self expected now }
    {
        if read_too_late(self, now) {
            return Err(Refusal::Time);
        }
        if self.generation != expected {
            return Ok(false);
        }
        Ok(self.is_expired_at_unchecked(now))
    }

    pub fn started_at_unchecked(self, now: u64, duration: u64) -> RetransmissionTimer
        requires { start_too_late self now duration ≡ false }
        ensures { result ≡ started_at_unchecked self now duration }
    {
        RetransmissionTimer {
            deadline: Some(now + duration),
            generation: self.generation.wrapping_add(1),
        }
    }

    pub fn cancelled_unchecked(self) -> RetransmissionTimer
        requires { deadline_too_late self.deadline ≡ false }
        ensures { result ≡ cancelled_unchecked self }
    {
        RetransmissionTimer {
            deadline: None,
            generation: self.generation.wrapping_add(1),
        }
    }

    pub fn is_expired_at_unchecked(self, now: u64) -> bool
        requires { read_too_late self now ≡ false }
        ensures { result ≡ expired_at self.deadline now }
    {
        let d = self.deadline;
        deadline_expired(d, now)
    }
}

fn start_too_late(t: RetransmissionTimer, now: u64, duration: u64) -> bool
    ensures { result ≡ start_too_late t now duration }
{
    let d = t.deadline;
    if deadline_too_late(d) {
        return true;
    }
    duration::start_late(now, duration)
}

fn read_too_late(t: RetransmissionTimer, now: u64) -> bool
    ensures { result ≡ read_too_late t now }
{
    let d = t.deadline;
    if deadline_too_late(d) {
        return true;
    }
    now > MAX_TIME
}

fn deadline_too_late(d: Option<u64>) -> bool
    ensures { result ≡ deadline_too_late d }
{
    match d {
        None => false,
        Some(t) => t > MAX_TIME,
    }
}

fn deadline_expired(d: Option<u64>, now: u64) -> bool
    ensures { result ≡ expired_at d now }
{
    match d {
        None => false,
        Some(t) => now >= t,
    }
}

fn deadline_remaining(d: Option<u64>, now: u64) -> Result<Option<u64>, Refusal>
    ensures { result ≡ deadline_remaining d now }
{
    match d {
        None => Ok(None),
        Some(t) => Ok(Some(t.saturating_sub(now))),
    }
}
