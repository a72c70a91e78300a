// The timers of a run that have run out: the reference's `fire_timers`.
#![tactic(auto)]

ghost use Rattle.std.specs.Prelude.{◌≡◌};
ghost use Rattle.path.specs.Direction.{direction};
ghost use Rattle.notes.specs.Notes.{seg_metas};
ghost use Rattle.multi_timer.specs.MultiTimer.{timers_exit};
ghost use Rattle.clock.specs.declared.Timing.TheVariants.{PerNumber};
ghost use Rattle.session.specs.Sending.{sender_end};
ghost use Rattle.submission.specs.Submission.{outgoing};
ghost use Rattle.timeouts.specs.Timeouts.{fire_state, fire_exit, timed_out, timeout_of, fire_single, fire_number};
ghost use Rattle.timeouts.specs.Timeouts.{fire_numbers, expired, fire_timers};
ghost use Rattle.timeouts.specs.Good.{CanFire};

use clock::{Due, Timing};
use events::Event;
use notes::Note;
use path::Stop;
use rto::RtoEstimator;
use schedule::ScheduledRow;
use sending::Resends;
use session::{Sender, Timeout};
use submission::Outbound;

pub mod due;

#[derive(Clone, Copy)]
pub struct FireResult {
    pub sender: Sender,
    pub estimator: RtoEstimator,
    pub resends: Resends,
    pub outbound: Outbound,
    pub progress: bool,
    pub stop: Option<Stop>,
}

// What the timers that have run out send again; exhausted where the ceiling is met, even with nothing due.
pub fn fire_timers_unchecked(
    sender: Sender,
    estimator: RtoEstimator,
    resends: Resends,
    outbound: Outbound,
    timing: Timing,
    max_retransmissions: u64,
    now: u64,
    rolls: &[f64],
    store: &mut [u8],
    rows: &mut [Note],
    events: &mut [Event],
    records: &mut [ScheduledRow],
    places: &mut [u8],
    keys: &mut [u32],
    deadlines: &mut [u64],
) -> FireResult
    requires { CanFire timing rolls.now now (fire_state (sender_end sender store.old) estimator resends
        (outgoing (direction records.old places.old outbound.forward) (seg_metas outbound.notes rows.old)
        outbound.events events.old (timers_exit outbound.clock keys.old deadlines.old))) }
    ensures { fire_exit (fire_state (sender_end result.sender store.new) result.estimator result.resends
        (outgoing (direction records.new places.new result.outbound.forward)
        (seg_metas result.outbound.notes rows.new) result.outbound.events events.new
        (timers_exit result.outbound.clock keys.new deadlines.new))) result.progress result.stop
        ≡ fire_timers max_retransmissions timing rolls.now now
        (fire_state (sender_end sender store.old) estimator resends
        (outgoing (direction records.old places.old outbound.forward)
        (seg_metas outbound.notes rows.old) outbound.events events.old
        (timers_exit outbound.clock keys.old deadlines.old))) }
{
    let met = sending::ceiling_met(resends, max_retransmissions);
    if met {
        let resends = sending::exhausted(resends);
        return FireResult {
            sender,
            estimator,
            resends,
            outbound,
            progress: false,
            stop: None,
        };
    }
    let outstanding = sender.has_outstanding_unchecked();
    let clock = outbound.clock;
    let due = clock.due_unchecked(timing, keys, deadlines, now, outstanding);
    match due {
        Due::Nothing => FireResult {
            sender,
            estimator,
            resends,
            outbound,
            progress: false,
            stop: None,
        },
        Due::Idle => {
            let clock = clock.cancel_unchecked();
            let mut outbound = outbound;
            outbound.clock = clock;
            FireResult {
                sender,
                estimator,
                resends,
                outbound,
                progress: true,
                stop: None,
            }
        }
        Due::Single => fire_single(
            sender,
            estimator,
            resends,
            outbound,
            timing,
            max_retransmissions,
            now,
            rolls,
            store,
            rows,
            events,
            records,
            places,
            keys,
            deadlines,
        ),
        Due::Numbers => fire_numbers(
            sender,
            estimator,
            resends,
            outbound,
            max_retransmissions,
            now,
            rolls,
            store,
            rows,
            events,
            records,
            places,
            keys,
            deadlines,
        ),
    }
}

// What the sender has to send again, with the RTO backed off once.
fn timed_out(
    sender: Sender,
    estimator: RtoEstimator,
    resends: Resends,
    outbound: Outbound,
    timing: Timing,
    of: Timeout,
    max_retransmissions: u64,
    now: u64,
    rolls: &[f64],
    store: &mut [u8],
    rows: &mut [Note],
    events: &mut [Event],
    records: &mut [ScheduledRow],
    places: &mut [u8],
    keys: &mut [u32],
    deadlines: &mut [u64],
) -> FireResult
    requires { CanFire timing rolls.now now (fire_state (sender_end sender store.old) estimator resends
        (outgoing (direction records.old places.old outbound.forward) (seg_metas outbound.notes rows.old)
        outbound.events events.old (timers_exit outbound.clock keys.old deadlines.old))) }
    ensures { fire_exit (fire_state (sender_end result.sender store.new) result.estimator result.resends
        (outgoing (direction records.new places.new result.outbound.forward)
        (seg_metas result.outbound.notes rows.new) result.outbound.events events.new
        (timers_exit result.outbound.clock keys.new deadlines.new))) result.progress result.stop
        ≡ timed_out max_retransmissions timing rolls.now now of
        (fire_state (sender_end sender store.old) estimator resends
        (outgoing (direction records.old places.old outbound.forward)
        (seg_metas outbound.notes rows.old) outbound.events events.old
        (timers_exit outbound.clock keys.old deadlines.old))) }
{
    let timed_out = sender.handle_timeout_unchecked(store, of);
    let sender = timed_out.sender;
    let first = timed_out.first;
    let count = timed_out.count;
    if count == 0 {
        return FireResult {
            sender,
            estimator,
            resends,
            outbound,
            progress: true,
            stop: None,
        };
    }
    let estimator = estimator.on_timeout_unchecked();
    let rto = estimator.current_rto;
    let resent = sending::retransmit_from_unchecked(
        sender,
        resends,
        outbound,
        timing,
        rto,
        max_retransmissions,
        now,
        first,
        count,
        store,
        rolls,
        rows,
        events,
        records,
        places,
        keys,
        deadlines,
    );
    let resends = resent.resends;
    let outbound = resent.outbound;
    let stop = resent.stop;
    FireResult {
        sender,
        estimator,
        resends,
        outbound,
        progress: true,
        stop,
    }
}

// What a timeout of the single timer sends again.
fn timeout_of(timing: Timing) -> Timeout
    ensures { result ≡ timeout_of timing }
{
    match timing {
        Timing::Single => Timeout::All,
        Timing::PerNumber => Timeout::All,
        Timing::Edition => Timeout::Earliest,
    }
}

// The single timer has run out.
fn fire_single(
    sender: Sender,
    estimator: RtoEstimator,
    resends: Resends,
    mut outbound: Outbound,
    timing: Timing,
    max_retransmissions: u64,
    now: u64,
    rolls: &[f64],
    store: &mut [u8],
    rows: &mut [Note],
    events: &mut [Event],
    records: &mut [ScheduledRow],
    places: &mut [u8],
    keys: &mut [u32],
    deadlines: &mut [u64],
) -> FireResult
    requires { CanFire timing rolls.now now (fire_state (sender_end sender store.old) estimator resends
        (outgoing (direction records.old places.old outbound.forward) (seg_metas outbound.notes rows.old)
        outbound.events events.old (timers_exit outbound.clock keys.old deadlines.old))) }
    ensures { fire_exit (fire_state (sender_end result.sender store.new) result.estimator result.resends
        (outgoing (direction records.new places.new result.outbound.forward)
        (seg_metas result.outbound.notes rows.new) result.outbound.events events.new
        (timers_exit result.outbound.clock keys.new deadlines.new))) result.progress result.stop
        ≡ fire_single max_retransmissions timing rolls.now now
        (fire_state (sender_end sender store.old) estimator resends
        (outgoing (direction records.old places.old outbound.forward)
        (seg_metas outbound.notes rows.old) outbound.events events.old
        (timers_exit outbound.clock keys.old deadlines.old))) }
{
    let clock = outbound.clock;
    let clock = clock.cancel_unchecked();
    outbound.clock = clock;
    let of = timeout_of(timing);
    timed_out(
        sender,
        estimator,
        resends,
        outbound,
        timing,
        of,
        max_retransmissions,
        now,
        rolls,
        store,
        rows,
        events,
        records,
        places,
        keys,
        deadlines,
    )
}

// One number's timer has run out.
fn fire_number(
    sender: Sender,
    estimator: RtoEstimator,
    resends: Resends,
    mut outbound: Outbound,
    max_retransmissions: u64,
    now: u64,
    n: u32,
    rolls: &[f64],
    store: &mut [u8],
    rows: &mut [Note],
    events: &mut [Event],
    records: &mut [ScheduledRow],
    places: &mut [u8],
    keys: &mut [u32],
    deadlines: &mut [u64],
) -> FireResult
    requires { CanFire PerNumber rolls.now now (fire_state (sender_end sender store.old) estimator resends
        (outgoing (direction records.old places.old outbound.forward) (seg_metas outbound.notes rows.old)
        outbound.events events.old (timers_exit outbound.clock keys.old deadlines.old))) }
    ensures { fire_exit (fire_state (sender_end result.sender store.new) result.estimator result.resends
        (outgoing (direction records.new places.new result.outbound.forward)
        (seg_metas result.outbound.notes rows.new) result.outbound.events events.new
        (timers_exit result.outbound.clock keys.new deadlines.new))) result.progress result.stop
        ≡ fire_number max_retransmissions rolls.now now n
        (fire_state (sender_end sender store.old) estimator resends
        (outgoing (direction records.old places.old outbound.forward)
        (seg_metas outbound.notes rows.old) outbound.events events.old
        (timers_exit outbound.clock keys.old deadlines.old))) }
{
    let clock = outbound.clock;
    let clock = clock.cancel_number_unchecked(keys, deadlines, n);
    outbound.clock = clock;
    timed_out(
        sender,
        estimator,
        resends,
        outbound,
        Timing::PerNumber,
        Timeout::Number(n),
        max_retransmissions,
        now,
        rolls,
        store,
        rows,
        events,
        records,
        places,
        keys,
        deadlines,
    )
}

// The numbers whose timers have run out, ascending. A number's timer may be started again; those of the numbers above
// it stay as they are.
fn fire_numbers(
    mut sender: Sender,
    mut estimator: RtoEstimator,
    mut resends: Resends,
    mut outbound: Outbound,
    max_retransmissions: u64,
    now: u64,
    rolls: &[f64],
    store: &mut [u8],
    rows: &mut [Note],
    events: &mut [Event],
    records: &mut [ScheduledRow],
    places: &mut [u8],
    keys: &mut [u32],
    deadlines: &mut [u64],
) -> FireResult
    requires { CanFire PerNumber rolls.now now (fire_state (sender_end sender store.old) estimator resends
        (outgoing (direction records.old places.old outbound.forward) (seg_metas outbound.notes rows.old)
        outbound.events events.old (timers_exit outbound.clock keys.old deadlines.old))) }
    ensures { fire_exit (fire_state (sender_end result.sender store.new) result.estimator result.resends
        (outgoing (direction records.new places.new result.outbound.forward)
        (seg_metas result.outbound.notes rows.new) result.outbound.events events.new
        (timers_exit result.outbound.clock keys.new deadlines.new))) result.progress result.stop
        ≡ fire_numbers max_retransmissions rolls.now now
        (expired (timers_exit outbound.clock keys.old deadlines.old) now)
        (fire_state (sender_end sender store.old) estimator resends
        (outgoing (direction records.old places.old outbound.forward)
        (seg_metas outbound.notes rows.old) outbound.events events.old
        (timers_exit outbound.clock keys.old deadlines.old))) }
{
    let mut from: u32 = 0;
    loop {
        let clock = outbound.clock;
        let timers = clock.timers;
        let next = timers.next_expired_unchecked(keys, deadlines, from, now);
        match next {
            None => {
                return FireResult {
                    sender,
                    estimator,
                    resends,
                    outbound,
                    progress: true,
                    stop: None,
                };
            }
            Some(n) => {
                let met = sending::ceiling_met(resends, max_retransmissions);
                if met {
                    let resends = sending::exhausted(resends);
                    return FireResult {
                        sender,
                        estimator,
                        resends,
                        outbound,
                        progress: true,
                        stop: None,
                    };
                }
                let fired = fire_number(
                    sender,
                    estimator,
                    resends,
                    outbound,
                    max_retransmissions,
                    now,
                    n,
                    rolls,
                    store,
                    rows,
                    events,
                    records,
                    places,
                    keys,
                    deadlines,
                );
                let stop = fired.stop;
                let going = path::is_going(stop);
                if !going {
                    return fired;
                }
                let after = fired.sender;
                let backed_off = fired.estimator;
                let again = fired.resends;
                let left = fired.outbound;
                sender = after;
                estimator = backed_off;
                resends = again;
                outbound = left;
                from = n + 1;
            }
        }
    }
}
