// How a round ends: the run goes on, is over, or moves to the next deadline.
ghost use Rattle.std.specs.Prelude.{◌≡◌, false, ◌&&◌, List, ℕ, ◌≤◌, length};
ghost use Rattle.window.specs.State.{numbers_broken};
ghost use Rattle.multi_timer.specs.MultiTimer.{timers_exit};
ghost use Rattle.path.specs.Direction.{direction};
ghost use Rattle.path.specs.Path.{is_going};
ghost use Rattle.clock.specs.Clock.{Held};
ghost use Rattle.session.specs.Sending.{window_of};
ghost use Rattle.step.specs.State.{Lent, lent, run_of, exhausted};
ghost use Rattle.step.specs.Settle.{StepExit, step_exit, over, unless_stopped, sender_idle, earlier};
ghost use Rattle.step.specs.Settle.{next_deadline, moved, move_to, settle};
ghost use Rattle.step.specs.declared.Course.TheVariants.{Going};

use super::{Course, End, Plan, State, StepResult};
use clock::{Clock, Timing};
use path::{Path, Stop};
use schedule::ScheduledRow;
use session::Sender;

pub(super) fn going(state: State) -> StepResult
    ensures { (l : Lent) → step_exit (run_of result.state l) result.course ≡ step_exit (run_of state l) Going }
{
    StepResult {
        state,
        course: Course::Going,
    }
}

// The finishing time is the completion's, if there was one.
pub(super) fn over(state: State, end: End, now: u64) -> StepResult
    ensures { (l : Lent) → step_exit (run_of result.state l) result.course ≡ over (run_of state l) end now }
{
    let arrivals = state.arrivals;
    let receiving = arrivals.receiving;
    if receiving.completed {
        return StepResult {
            state,
            course: Course::Over {
                end,
                at: receiving.completed_at,
            },
        };
    }
    StepResult {
        state,
        course: Course::Over { end, at: now },
    }
}

pub(super) fn exhausted(mut state: State) -> State
    ensures { (l : Lent) → run_of result l ≡ exhausted (run_of state l) }
{
    state.resends.exhausted = true;
    state
}

// What a packet that can't be carried makes of the run.
pub(super) fn stopped(state: State, stop: Option<Stop>) -> StepResult
    ensures { (l : Lent) (rest : StepExit) → is_going stop ≡ false
        → step_exit (run_of result.state l) result.course ≡ unless_stopped stop (run_of state l) rest }
{
    let now = state.now;
    match stop {
        None => going(state),
        Some(stop) => over(state, End::from(stop), now),
    }
}

fn earlier(a: Option<u64>, b: Option<u64>) -> Option<u64>
    ensures { result ≡ earlier a b }
{
    match a {
        None => b,
        Some(t) => match b {
            None => a,
            Some(u) => Some(t.min(u)),
        },
    }
}

// The earliest time of both directions and of the timers, or none.
fn next_deadline(
    timing: Timing,
    forward: Path,
    reverse: Path,
    clock: Clock,
    forward_records: &[ScheduledRow],
    reverse_records: &[ScheduledRow],
    keys: &[u32],
    deadlines: &[u64],
) -> Option<u64>
    requires count_in_bounds { (forward.scheduler.count ≤ length forward_records.now)
        × (reverse.scheduler.count ≤ length reverse_records.now) }
    requires held { Held (timers_exit clock keys.now deadlines.now) }
    ensures { (forward_places reverse_places : List ℕ)
        → result ≡ next_deadline timing (direction forward_records.now forward_places forward)
        (direction reverse_records.now reverse_places reverse)
        (timers_exit clock keys.now deadlines.now) }
{
    let a = forward.next_deadline_unchecked(forward_records);
    let b = reverse.next_deadline_unchecked(reverse_records);
    let c = clock.next_deadline_unchecked(timing, keys, deadlines);
    earlier(a, earlier(b, c))
}

// All chunks sent and acknowledged, nothing on the lines, no number has a timer.
fn sender_idle(
    sender: Sender,
    forward: Path,
    reverse: Path,
    clock: Clock,
    total_chunks: u32,
) -> bool
    requires { numbers_broken (window_of sender) ≡ false }
    ensures { result ≡ sender_idle total_chunks sender forward reverse clock }
{
    let seq = sender.next_seq_num_unchecked();
    if seq < total_chunks {
        return false;
    }
    let forward_empty = forward.is_empty();
    if !forward_empty {
        return false;
    }
    let reverse_empty = reverse.is_empty();
    if !reverse_empty {
        return false;
    }
    let outstanding = sender.has_outstanding_unchecked();
    if outstanding {
        return false;
    }
    let timers = clock.timers;
    timers.count == 0
}

// All chunks delivered too.
fn all_done(
    completed: bool,
    sender: Sender,
    forward: Path,
    reverse: Path,
    clock: Clock,
    total_chunks: u32,
) -> bool
    requires { numbers_broken (window_of sender) ≡ false }
    ensures { result ≡ (completed && sender_idle total_chunks sender forward reverse clock) }
{
    if !completed {
        return false;
    }
    sender_idle(sender, forward, reverse, clock, total_chunks)
}

// The next moment, if there may be one more.
fn moved(plan: Plan, mut state: State, now: u64) -> StepResult
    ensures { (l : Lent) → step_exit (run_of result.state l) result.course ≡ moved plan (run_of state l) now }
{
    state.now = now;
    if state.moves == 0 {
        return over(state, End::Ended, now);
    }
    state.moves = state.moves - 1;
    state.rounds = plan.rounds;
    going(state)
}

// The next deadline, if it is later than now and within the limit.
fn move_to(plan: Plan, state: State, deadline: Option<u64>) -> StepResult
    ensures { (l : Lent) → step_exit (run_of result.state l) result.course ≡ move_to plan (run_of state l) deadline }
{
    let now = state.now;
    match deadline {
        None => over(state, End::Ended, now),
        Some(time) => {
            if time <= now {
                return over(exhausted(state), End::Ended, now);
            }
            let limit = plan.max_virtual_time;
            if limit < time {
                return over(state, End::Ended, limit);
            }
            moved(plan, state, time)
        }
    }
}

// A moment in which nothing is left to do: the end, or the move to the next deadline.
pub(super) fn settle(
    plan: Plan,
    state: State,
    forward_records: &[ScheduledRow],
    reverse_records: &[ScheduledRow],
    keys: &[u32],
    deadlines: &[u64],
) -> StepResult
    requires count_in_bounds { (state.arrivals.forward.scheduler.count ≤ length forward_records.now)
        × (state.arrivals.reverse.scheduler.count ≤ length reverse_records.now) }
    requires held { Held (timers_exit state.arrivals.acks.clock keys.now deadlines.now)
        × (numbers_broken (window_of state.arrivals.acks.sender) ≡ false) }
    ensures { (sender_store receiver_store output : List ℕ) (rows events : List (List ℕ))
        (forward_places reverse_places : List ℕ)
        → step_exit (run_of result.state (lent sender_store receiver_store output rows events
        forward_records.now forward_places reverse_records.now reverse_places
        keys.now deadlines.now)) result.course
        ≡ settle plan (run_of state (lent sender_store receiver_store output rows events
        forward_records.now forward_places reverse_records.now reverse_places
        keys.now deadlines.now)) }
{
    let now = state.now;
    let timing = plan.timing;
    let arrivals = state.arrivals;
    let receiving = arrivals.receiving;
    let acks = arrivals.acks;
    let forward = arrivals.forward;
    let reverse = arrivals.reverse;
    let clock = acks.clock;
    let sender = acks.sender;
    let done = all_done(
        receiving.completed,
        sender,
        forward,
        reverse,
        clock,
        plan.total_chunks,
    );
    if done {
        return over(state, End::Ended, now);
    }
    let deadline = next_deadline(
        timing,
        forward,
        reverse,
        clock,
        forward_records,
        reverse_records,
        keys,
        deadlines,
    );
    move_to(plan, state, deadline)
}
