// The second half of a round: the timers and the window, and how the round ends.
ghost use Rattle.std.specs.Prelude.{◌≡◌};
ghost use Rattle.step.specs.State.{given, lent, run_of};
ghost use Rattle.step.specs.Settle.{step_exit};
ghost use Rattle.step.specs.Good.{GoodPlan, GoodRun};
ghost use Rattle.step.specs.Internal.{finish_round};

use super::ends::{going, over, settle, stopped};
use super::parts::{either, with_fired, with_pumped};
use super::{End, Plan, State, StepResult};
use events::Event;
use notes::Note;
use schedule::ScheduledRow;
use submission::Outbound;

// The reverse line's rolls and places and the receiver's slices are lent for the contract alone.
pub(super) fn finish_round(
    plan: Plan,
    mut state: State,
    arrived: bool,
    file: &[u8],
    forward_rolls: &[f64],
    reverse_rolls: &[f64],
    sender_store: &mut [u8],
    receiver_store: &[u8],
    output: &[u8],
    rows: &mut [Note],
    events: &mut [Event],
    forward_records: &mut [ScheduledRow],
    forward_places: &mut [u8],
    reverse_records: &[ScheduledRow],
    reverse_places: &[u8],
    keys: &mut [u32],
    deadlines: &mut [u64],
) -> StepResult
    requires good_plan { GoodPlan plan (given file.now forward_rolls.now reverse_rolls.now) }
    requires good_run { GoodRun plan (given file.now forward_rolls.now reverse_rolls.now)
        (run_of state (lent sender_store.old receiver_store.now output.now rows.old events.old
        forward_records.old forward_places.old reverse_records.now reverse_places.now keys.old
        deadlines.old)) }
    ensures { step_exit (run_of result.state (lent sender_store.new receiver_store.now
        output.now rows.new events.new forward_records.new
        forward_places.new reverse_records.now reverse_places.now keys.new
        deadlines.new)) result.course
        ≡ finish_round plan (given file.now forward_rolls.now reverse_rolls.now)
        arrived (run_of state (lent sender_store.old receiver_store.now output.now
        rows.old events.old forward_records.old forward_places.old
        reverse_records.now reverse_places.now keys.old deadlines.old)) }
{
    let now = state.now;
    let timing = plan.timing;
    let mut progress = arrived;
    let arrivals = state.arrivals;
    let acks = arrivals.acks;
    let sender = acks.sender;
    let clock = acks.clock;
    let resends = state.resends;
    let due = timeouts::due::timers_due_unchecked(
        sender,
        resends,
        clock,
        timing,
        plan.max_retransmissions,
        now,
        keys,
        deadlines,
    );
    if due {
        let estimator = acks.estimator;
        let forward = arrivals.forward;
        let notes = arrivals.notes;
        let outbound = Outbound {
            forward,
            events: state.events,
            notes,
            clock,
        };
        let fired = timeouts::fire_timers_unchecked(
            sender,
            estimator,
            resends,
            outbound,
            timing,
            plan.max_retransmissions,
            now,
            forward_rolls,
            sender_store,
            rows,
            events,
            forward_records,
            forward_places,
            keys,
            deadlines,
        );
        let stop = fired.stop;
        state = with_fired(state, fired);
        let on = path::is_going(stop);
        if !on {
            return stopped(state, stop);
        }
        progress = either(progress, fired.progress);
    }
    let resends = state.resends;
    if resends.exhausted {
        return over(state, End::Ended, now);
    }
    let arrivals = state.arrivals;
    let acks = arrivals.acks;
    let sender = acks.sender;
    let due = sending::can_pump_unchecked(sender, plan.total_chunks);
    if due {
        let estimator = acks.estimator;
        let forward = arrivals.forward;
        let notes = arrivals.notes;
        let clock = acks.clock;
        let outbound = Outbound {
            forward,
            events: state.events,
            notes,
            clock,
        };
        let pumped = sending::pump_sends_unchecked(
            sender,
            outbound,
            timing,
            estimator.current_rto,
            plan.total_chunks,
            plan.chunk_size,
            now,
            file,
            forward_rolls,
            sender_store,
            rows,
            events,
            forward_records,
            forward_places,
            keys,
            deadlines,
        );
        let stop = pumped.stop;
        state = with_pumped(state, pumped);
        let on = path::is_going(stop);
        if !on {
            return stopped(state, stop);
        }
        progress = either(progress, pumped.progress);
    }
    if progress {
        return going(state);
    }
    settle(
        plan,
        state,
        forward_records,
        reverse_records,
        keys,
        deadlines,
    )
}
