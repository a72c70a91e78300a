// When a run sends again: the source's timing, one timer for the oldest outstanding segment or one for each number, or
// the edition clock.
#![tactic(auto)]

ghost use Rattle.std.specs.Prelude.{◌≡◌, false, ◌-◌, ◌≤◌, length};
ghost use Rattle.bounds.specs.Bounds.{max_duration, max_time};
ghost use Rattle.timer.specs.Timer.{deadline_too_late, expired_at, started_at_unchecked};
ghost use Rattle.multi_timer.specs.MultiTimer.{timers_exit, broken};
ghost use Rattle.notes.specs.Notes.{seg_metas, Timely};
ghost use Rattle.clock.specs.EditionClock.{on_send};
ghost use Rattle.clock.specs.Clock.{clock, new_clock, is_oldest, arm_oldest, arm_after_submit, cancel_number};
ghost use Rattle.clock.specs.Clock.{rearm_after_ack, cancel, single_due, due, next_deadline, sample_rtt_exit};
ghost use Rattle.clock.specs.Clock.{sample_rtt, Held, CanRearm, CanArm, CanSample};

use multi_timer::MultiTimer;
use notes::{Note, Notes};
use rto::RtoEstimator;
use timer::RetransmissionTimer;

#[derive(Clone, Copy)]
pub enum Timing {
    // One timer, for the oldest outstanding segment.
    Single,
    // A timer for each outstanding number.
    PerNumber,
    // The edition clock.
    Edition,
}

// The single timer, and the set.
#[derive(Clone, Copy)]
pub struct Clock {
    pub timer: RetransmissionTimer,
    pub timers: MultiTimer,
}

// What has run out.
#[derive(Clone, Copy)]
pub enum Due {
    Nothing,
    // The edition clock's timer, with nothing outstanding.
    Idle,
    Single,
    // Timers of numbers.
    Numbers,
}

// The RTT sample of a segment to the estimator, unless it gave one before.
pub fn sample_rtt_unchecked(
    estimator: RtoEstimator,
    notes: Notes,
    rows: &mut [Note],
    seq: u32,
    now: u64,
) -> RtoEstimator
    requires { CanSample estimator (seg_metas notes rows.old) now }
    ensures { sample_rtt_exit (seg_metas notes rows.new) result
        ≡ sample_rtt estimator (seg_metas notes rows.old) seq now }
{
    let taken = notes.take_sample_unchecked(rows, seq, now);
    match taken {
        None => estimator,
        Some((sample, retransmitted)) => estimator.update_rtt_unchecked(sample, retransmitted),
    }
}

impl Clock {
    // Nothing runs.
    pub fn new_unchecked(keys: &mut [u32], deadlines: &mut [u64]) -> Clock
        requires { length keys.old ≡ length deadlines.old }
        ensures { timers_exit result keys.new deadlines.new
            ≡ new_clock keys.old deadlines.old }
    {
        Clock {
            timer: RetransmissionTimer::new(),
            timers: MultiTimer::new_unchecked(keys, deadlines),
        }
    }

    // After a segment went to the channel; `rto` is the current one.
    pub fn arm_after_submit_unchecked(
        self,
        timing: Timing,
        rto: u64,
        notes: Notes,
        rows: &[Note],
        keys: &mut [u32],
        deadlines: &mut [u64],
        now: u64,
        seq: u32,
        retransmission: bool,
        oldest: Option<u32>,
    ) -> Clock
        requires { CanArm timing (timers_exit self keys.old deadlines.old) (seg_metas notes rows.now) now rto
            seq }
        ensures { timers_exit result keys.new deadlines.new
            ≡ arm_after_submit timing (timers_exit self keys.old deadlines.old)
            (seg_metas notes rows.now)
            (record { time = now; seq = seq; rto = rto; retransmission = retransmission; oldest = oldest }) }
    {
        match timing {
            Timing::Single => {
                if retransmission {
                    return self.arm_oldest(notes, rows, now, oldest);
                }
                if is_oldest(oldest, seq) {
                    return self.arm_oldest(notes, rows, now, oldest);
                }
                self
            }
            Timing::PerNumber => {
                let at_send = notes.rto_at_send_unchecked(rows, seq, rto);
                let t = self.timers;
                let t = t.start_timer_at_unchecked(keys, deadlines, seq, now + at_send);
                self.with_timers(t)
            }
            Timing::Edition => self.on_send(now, rto),
        }
    }

    // After an accepted ACK.
    pub fn rearm_after_ack_unchecked(
        self,
        timing: Timing,
        rto: u64,
        notes: Notes,
        rows: &[Note],
        keys: &mut [u32],
        deadlines: &mut [u64],
        now: u64,
        seq: u32,
        oldest: Option<u32>,
    ) -> Clock
        requires { CanRearm (timers_exit self keys.old deadlines.old) (seg_metas notes rows.now) now rto }
        ensures { timers_exit result keys.new deadlines.new
            ≡ rearm_after_ack timing (timers_exit self keys.old deadlines.old)
            (seg_metas notes rows.now)
            (record { time = now; seq = seq; rto = rto; oldest = oldest }) }
    {
        match timing {
            Timing::Single => self.arm_oldest(notes, rows, now, oldest),
            Timing::PerNumber => self.cancel_number_unchecked(keys, deadlines, seq),
            Timing::Edition => self.started(now, rto),
        }
    }

    // The timer of a number.
    pub fn cancel_number_unchecked(self, keys: &mut [u32], deadlines: &mut [u64], seq: u32) -> Clock
        requires { broken self.timers.count keys.old deadlines.old ≡ false }
        ensures { timers_exit result keys.new deadlines.new
            ≡ cancel_number (timers_exit self keys.old deadlines.old) seq }
    {
        let t = self.timers;
        let t = t.cancel_timer_unchecked(keys, deadlines, seq);
        self.with_timers(t)
    }

    // The single timer.
    pub fn cancel_unchecked(self) -> Clock
        requires { deadline_too_late self.timer.deadline ≡ false }
        ensures { result ≡ cancel self }
    {
        let t = self.timer;
        self.with_timer(t.cancelled_unchecked())
    }

    // What has run out.
    pub fn due_unchecked(
        self,
        timing: Timing,
        keys: &[u32],
        deadlines: &[u64],
        now: u64,
        outstanding: bool,
    ) -> Due
        requires { Held (timers_exit self keys.now deadlines.now) × (now ≤ max_time) }
        ensures { result ≡ due timing (timers_exit self keys.now deadlines.now) now outstanding }
    {
        match timing {
            Timing::Single => self.single_due(now, outstanding, Due::Nothing),
            Timing::PerNumber => {
                let t = self.timers;
                let next = t.next_expired_unchecked(keys, deadlines, 0, now);
                match next {
                    Some(_) => Due::Numbers,
                    None => Due::Nothing,
                }
            }
            Timing::Edition => self.single_due(now, outstanding, Due::Idle),
        }
    }

    pub fn next_deadline_unchecked(
        self,
        timing: Timing,
        keys: &[u32],
        deadlines: &[u64],
    ) -> Option<u64>
        requires { broken self.timers.count keys.now deadlines.now ≡ false }
        ensures { result ≡ next_deadline timing (timers_exit self keys.now deadlines.now) }
    {
        match timing {
            Timing::Single => self.single_deadline(),
            Timing::PerNumber => {
                let t = self.timers;
                let earliest = t.earliest_deadline_unchecked(keys, deadlines);
                match earliest {
                    Ok(Some(d)) => Some(d),
                    Ok(None) => None,
                    // Never: the set is sound.
                    Err(_) => None,
                }
            }
            Timing::Edition => self.single_deadline(),
        }
    }

    // The timer of the oldest outstanding segment, from its last sending.
    fn arm_oldest(self, notes: Notes, rows: &[Note], now: u64, oldest: Option<u32>) -> Clock
        requires { (deadline_too_late self.timer.deadline ≡ false) × Timely (seg_metas notes rows.now) now }
        ensures { result
            ≡ clock (arm_oldest self.timer (seg_metas notes rows.now) now oldest) self.timers }
    {
        let t = self.timer;
        match oldest {
            None => self.with_timer(t.cancelled_unchecked()),
            Some(seq) => match notes.expiry_unchecked(rows, seq) {
                None => self.with_timer(t.cancelled_unchecked()),
                Some(deadline) => {
                    self.with_timer(t.started_at_unchecked(now, deadline.saturating_sub(now)))
                }
            },
        }
    }

    // RFC 6298 (5.1).
    fn on_send(self, now: u64, rto: u64) -> Clock
        requires { (deadline_too_late self.timer.deadline ≡ false) × (now ≤ max_duration) × (rto ≤ max_duration) }
        ensures { result ≡ clock (on_send self.timer now rto) self.timers }
    {
        let t = self.timer;
        let deadline = t.deadline;
        match deadline {
            None => self.started(now, rto),
            Some(_) => self,
        }
    }

    fn started(self, now: u64, rto: u64) -> Clock
        requires { (deadline_too_late self.timer.deadline ≡ false) × (now ≤ max_duration) × (rto ≤ max_duration) }
        ensures { result ≡ clock (started_at_unchecked self.timer now rto) self.timers }
    {
        let t = self.timer;
        self.with_timer(t.started_at_unchecked(now, rto))
    }

    // Of the single timer; `idle` if it has run out with nothing outstanding.
    fn single_due(self, now: u64, outstanding: bool, idle: Due) -> Due
        requires { (deadline_too_late self.timer.deadline ≡ false) × (now ≤ max_time) }
        ensures { result ≡ single_due (expired_at self.timer.deadline now) outstanding idle }
    {
        let t = self.timer;
        if t.is_expired_at_unchecked(now) {
            if outstanding {
                return Due::Single;
            }
            return idle;
        }
        Due::Nothing
    }

    fn single_deadline(self) -> Option<u64>
        ensures { result ≡ self.timer.deadline }
    {
        let t = self.timer;
        let d = t.deadline;
        d
    }

    fn with_timer(self, t: RetransmissionTimer) -> Clock
        ensures { result ≡ clock t self.timers }
    {
        let mut clock = self;
        clock.timer = t;
        clock
    }

    fn with_timers(self, t: MultiTimer) -> Clock
        ensures { result ≡ clock self.timer t }
    {
        let mut clock = self;
        clock.timers = t;
        clock
    }
}

fn is_oldest(oldest: Option<u32>, seq: u32) -> bool
    ensures { result ≡ is_oldest oldest seq }
{
    match oldest {
        Some(n) => n == seq,
        None => false,
    }
}
