// One round of a run at one moment and, if nothing happened in it, the move to the next deadline: the body of the loops
// of the reference's `run_transfer`.
#![tactic(auto)]

ghost use Rattle.std.specs.Prelude.{◌≡◌};
ghost use Rattle.step.specs.State.{given, lent, run_of};
ghost use Rattle.step.specs.Settle.{end_by, step_exit};
ghost use Rattle.step.specs.Step.{step};
ghost use Rattle.step.specs.Good.{GoodPlan, GoodRun};

use arrivals::Arrivals;
use clock::Timing;
use ends::{exhausted, over, stopped};
use events::Event;
use finish::finish_round;
use notes::Note;
use parts::{either, round_less, with_forward, with_reverse};
use path::Stop;
use schedule::ScheduledRow;
use sending::Resends;

mod ends;
mod finish;
mod parts;

// The parts of a setup that a step looks at.
#[derive(Clone, Copy)]
pub struct Plan {
    pub timing: Timing,
    pub total_chunks: u32,
    pub chunk_size: usize,
    pub max_virtual_time: u64,
    pub max_retransmissions: u64,
    pub rounds: u32,
}

// A run at a moment, besides the lent slices: `moves` in time and `rounds` at this moment are left.
#[derive(Clone, Copy)]
pub struct State {
    pub arrivals: Arrivals,
    pub resends: Resends,
    // How many event rows are in use.
    pub events: usize,
    pub now: u64,
    pub moves: u32,
    pub rounds: u32,
}

#[derive(Clone, Copy)]
pub enum End {
    // As the source ends.
    Ended,
    RollsSpent,
    EventsFull,
    ScheduleFull,
}

impl From<Stop> for End {
    ghost from_gives = { λ stop end. end ≡ end_by stop };

    fn from(stop: Stop) -> End {
        match stop {
            Stop::RollsSpent => End::RollsSpent,
            Stop::EventsFull => End::EventsFull,
            Stop::ScheduleFull => End::ScheduleFull,
        }
    }
}

// Whether a run goes on, or how and when it ended. No Option: `Going` says more than None would.
#[derive(Clone, Copy)]
pub enum Course {
    Going,
    Over { end: End, at: u64 },
}

#[derive(Clone, Copy)]
pub struct StepResult {
    pub state: State,
    pub course: Course,
}

// One round at one moment: what is due on both lines, the timers, new chunks; if nothing happened, the move to the next
// deadline. A part is called only where it has something to do, and none hands the whole state back: each copy costs.
pub fn step_unchecked(
    plan: Plan,
    state: State,
    file: &[u8],
    forward_rolls: &[f64],
    reverse_rolls: &[f64],
    sender_store: &mut [u8],
    receiver_store: &mut [u8],
    output: &mut [u8],
    rows: &mut [Note],
    events: &mut [Event],
    forward_records: &mut [ScheduledRow],
    forward_places: &mut [u8],
    reverse_records: &mut [ScheduledRow],
    reverse_places: &mut [u8],
    keys: &mut [u32],
    deadlines: &mut [u64],
) -> StepResult
    requires good_plan { GoodPlan plan (given file.now forward_rolls.now reverse_rolls.now) }
    requires good_run { GoodRun plan (given file.now forward_rolls.now reverse_rolls.now)
        (run_of state (lent sender_store.old receiver_store.old output.old rows.old events.old
        forward_records.old forward_places.old reverse_records.old reverse_places.old keys.old
        deadlines.old)) }
    ensures { step_exit (run_of result.state (lent sender_store.new receiver_store.new
        output.new rows.new events.new forward_records.new
        forward_places.new reverse_records.new reverse_places.new keys.new
        deadlines.new)) result.course
        ≡ step plan (given file.now forward_rolls.now reverse_rolls.now)
        (run_of state (lent sender_store.old receiver_store.old output.old
        rows.old events.old forward_records.old forward_places.old
        reverse_records.old reverse_places.old keys.old deadlines.old)) }
{
    let now = state.now;
    let timing = plan.timing;
    if state.rounds == 0 {
        return over(exhausted(state), End::Ended, now);
    }
    let arrivals = state.arrivals;
    let forward = arrivals.forward;
    let mut state = round_less(state);
    let mut progress = false;
    let due = forward.is_due_unchecked(forward_records, now);
    if due {
        let receiving = arrivals.receiving;
        let reverse = arrivals.reverse;
        let notes = arrivals.notes;
        let served = receiving::serve_forward_unchecked(
            forward,
            receiving,
            reverse,
            notes,
            plan.total_chunks,
            now,
            reverse_rolls,
            receiver_store,
            output,
            rows,
            forward_records,
            forward_places,
            reverse_records,
            reverse_places,
        );
        let stop = served.stop;
        state = with_forward(state, served);
        let on = path::is_going(stop);
        if !on {
            return stopped(state, stop);
        }
        progress = served.progress;
    }
    let arrivals = state.arrivals;
    let reverse = arrivals.reverse;
    let due = reverse.is_due_unchecked(reverse_records, now);
    if due {
        let acks = arrivals.acks;
        let notes = arrivals.notes;
        let served = acks::serve_reverse_unchecked(
            reverse,
            acks,
            timing,
            notes,
            now,
            sender_store,
            rows,
            reverse_records,
            reverse_places,
            keys,
            deadlines,
        );
        state = with_reverse(state, served);
        progress = either(progress, served.progress);
    }
    finish_round(
        plan,
        state,
        progress,
        file,
        forward_rolls,
        reverse_rolls,
        sender_store,
        receiver_store,
        output,
        rows,
        events,
        forward_records,
        forward_places,
        reverse_records,
        reverse_places,
        keys,
        deadlines,
    )
}
