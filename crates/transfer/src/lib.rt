// A whole transfer on a virtual clock: the reference's `run_transfer`.
#![tactic(auto)]

ghost use Rattle.std.specs.Prelude.{◌≡◌, List, ℕ};
ghost use Rattle.step.specs.State.{given, Lent, lent, run_of};
ghost use Rattle.step.specs.Good.{GoodPlan, GoodRun};
ghost use Rattle.step.specs.Settle.{step_exit};
ghost use Rattle.transfer.specs.Start.{single_timing, timing_of, plan_of, reverse_config, new_run, CanMake};
ghost use Rattle.transfer.specs.Run.{is_over, run};
ghost use Rattle.transfer.specs.Transfer.{default_ceilings, counts_of, end_of, finished_at, outcome_of};
ghost use Rattle.transfer.specs.Transfer.{run_exit, run_transfer};

use acks::AckSide;
use arrivals::Arrivals;
use channel::{ChannelConfig, ChannelStats};
use clock::{Clock, Timing};
use events::Event;
use notes::{Note, Notes};
use path::Path;
use protocol::ProtocolType;
use receiving::ReceivingSide;
use refusal::Refusal;
use rto::RtoEstimator;
use schedule::ScheduledRow;
use sending::Resends;
use session::{Receiver, Sender};
use setup::{ClockChoice, TransferConfig};
use step::{Course, End, Plan, State, StepResult};

pub const MAX_EVENTS: u32 = 1_000_000;

pub const MAX_SAME_TIME_SPINS: u32 = 100_000;

// What ends a run besides its own course: how many moments, rounds at one moment and Stop-and-Wait retries it may have.
#[derive(Clone, Copy)]
pub struct Ceilings {
    pub steps: u32,
    pub rounds: u32,
    pub retries: u32,
}

// The driver's own counts.
#[derive(Clone, Copy)]
pub struct DriverCounts {
    pub retx_submitted: u64,
    pub premature: u64,
    pub data_received: u64,
    pub ack_sent: u64,
    pub ack_received: u64,
    pub duplicate_data: u64,
    pub duplicate_acks: u64,
    pub events: usize,
}

#[derive(Clone, Copy)]
pub struct Outcome {
    pub completed: bool,
    pub finished_at: u64,
    pub end: End,
    pub sender: Sender,
    pub receiver: Receiver,
    pub driver: DriverCounts,
    pub estimator: RtoEstimator,
    pub forward: ChannelStats,
    pub reverse: ChannelStats,
}

pub fn default_ceilings() -> Ceilings
    ensures { result ≡ default_ceilings }
{
    Ceilings {
        steps: MAX_EVENTS,
        rounds: MAX_SAME_TIME_SPINS,
        retries: 4_294_967_295,
    }
}

fn single_timing(choice: ClockChoice) -> Timing
    ensures { result ≡ single_timing choice }
{
    match choice {
        ClockChoice::Source => Timing::Single,
        ClockChoice::Edition => Timing::Edition,
    }
}

fn timing_of(protocol: ProtocolType, choice: ClockChoice) -> Timing
    ensures { result ≡ timing_of protocol choice }
{
    match protocol {
        ProtocolType::StopAndWait => single_timing(choice),
        ProtocolType::GoBackN => single_timing(choice),
        ProtocolType::SelectiveRepeat => Timing::PerNumber,
    }
}

// The parts of a setup that a step looks at.
pub fn plan_of(config: TransferConfig, total_chunks: u32, rounds: u32) -> Plan
    ensures { result ≡ plan_of config total_chunks rounds }
{
    let protocol = config.protocol;
    let choice = config.clock;
    Plan {
        timing: timing_of(protocol, choice),
        total_chunks,
        chunk_size: config.chunk_size,
        max_virtual_time: config.max_virtual_time,
        max_retransmissions: config.max_retransmissions,
        rounds,
    }
}

// The delays of the forward channel, and no faults.
fn reverse_config(c: ChannelConfig) -> ChannelConfig
    ensures { result ≡ reverse_config c }
{
    ChannelConfig {
        loss: 0.0,
        duplicate: 0.0,
        reorder: 0.0,
        reorder_extra_ms: c.reorder_extra_ms,
        corrupt: 0.0,
        base_delay_ms: c.base_delay_ms,
        jitter_ms: c.jitter_ms,
    }
}

// Both ends, lines and the clock as made: slots of the window, entries, records, places, notes and events become zeros.
pub fn new_state_unchecked(
    config: TransferConfig,
    ceilings: Ceilings,
    sender_store: &mut [u8],
    receiver_store: &mut [u8],
    rows: &mut [Note],
    events: &mut [Event],
    forward_records: &mut [ScheduledRow],
    forward_places: &mut [u8],
    reverse_records: &mut [ScheduledRow],
    reverse_places: &mut [u8],
    keys: &mut [u32],
    deadlines: &mut [u64],
) -> State
    requires { CanMake ceilings config sender_store.old receiver_store.old keys.old deadlines.old }
    ensures { (output : List ℕ) → run_of result (lent sender_store.new receiver_store.new output
        rows.new events.new forward_records.new forward_places.new
        reverse_records.new reverse_places.new keys.new deadlines.new)
        ≡ new_run ceilings config (lent sender_store.old receiver_store.old output
        rows.old events.old forward_records.old forward_places.old
        reverse_records.old reverse_places.old keys.old deadlines.old) }
{
    let protocol = config.protocol;
    let channel = config.channel;
    let rto = config.rto;
    let window_size = config.window_size;
    let moves = ceilings.steps - 1;
    let back = reverse_config(channel);
    let forward = Path::new_unchecked(channel, forward_records, forward_places);
    let reverse = Path::new_unchecked(back, reverse_records, reverse_places);
    let sender = Sender::new_unchecked(protocol, window_size, ceilings.retries, sender_store);
    let receiver = Receiver::new_unchecked(protocol, window_size, receiver_store);
    let receiving = ReceivingSide::new(receiver);
    let notes = Notes::new(rows);
    let estimator = RtoEstimator::with_config_unchecked(rto);
    let clock = Clock::new_unchecked(keys, deadlines);
    rows::clear_rows(events);
    State {
        arrivals: Arrivals {
            forward,
            receiving,
            notes,
            reverse,
            acks: AckSide {
                sender,
                estimator,
                clock,
                ack_received: 0,
                duplicate_acks: 0,
            },
        },
        resends: Resends {
            retx_submitted: 0,
            premature: 0,
            exhausted: false,
        },
        events: 0,
        now: 0,
        moves,
        rounds: ceilings.rounds,
    }
}

fn is_over(course: Course) -> bool
    ensures { result ≡ is_over course }
{
    match course {
        Course::Going => false,
        Course::Over { end: _, at: _ } => true,
    }
}

fn end_of(course: Course) -> End
    ensures { result ≡ end_of course }
{
    match course {
        Course::Going => End::Ended,
        Course::Over { end, at: _ } => end,
    }
}

fn finished_at(course: Course) -> u64
    ensures { result ≡ finished_at course }
{
    match course {
        Course::Going => 0,
        Course::Over { end: _, at } => at,
    }
}

fn driver_counts(state: State) -> DriverCounts
    ensures { (l : Lent) → result ≡ counts_of (run_of state l) }
{
    let resends = state.resends;
    let arrivals = state.arrivals;
    let receiving = arrivals.receiving;
    let acks = arrivals.acks;
    DriverCounts {
        retx_submitted: resends.retx_submitted,
        premature: resends.premature,
        data_received: receiving.data_received,
        ack_sent: receiving.ack_sent,
        ack_received: acks.ack_received,
        duplicate_data: receiving.duplicate_data,
        duplicate_acks: acks.duplicate_acks,
        events: state.events,
    }
}

// What a run ends with.
fn outcome_of(last: StepResult) -> Outcome
    ensures { (l : Lent) → result ≡ outcome_of (step_exit (run_of last.state l) last.course) }
{
    let state = last.state;
    let course = last.course;
    let arrivals = state.arrivals;
    let receiving = arrivals.receiving;
    let acks = arrivals.acks;
    let sender = acks.sender;
    let estimator = acks.estimator;
    let receiver = receiving.receiver;
    let forward = arrivals.forward;
    let forward = forward.channel;
    let forward = forward.stats;
    let reverse = arrivals.reverse;
    let reverse = reverse.channel;
    let reverse = reverse.stats;
    let end = end_of(course);
    let at = finished_at(course);
    let driver = driver_counts(state);
    Outcome {
        completed: receiving.completed,
        finished_at: at,
        end,
        sender,
        receiver,
        driver,
        estimator,
        forward,
        reverse,
    }
}

// Steps until the run is over.
pub fn run_unchecked(
    plan: Plan,
    state: State,
    file: &[u8],
    forward_rolls: &[f64],
    reverse_rolls: &[f64],
    sender_store: &mut [u8],
    receiver_store: &mut [u8],
    output: &mut [u8],
    rows: &mut [Note],
    events: &mut [Event],
    forward_records: &mut [ScheduledRow],
    forward_places: &mut [u8],
    reverse_records: &mut [ScheduledRow],
    reverse_places: &mut [u8],
    keys: &mut [u32],
    deadlines: &mut [u64],
) -> StepResult
    requires good_plan { GoodPlan plan (given file.now forward_rolls.now reverse_rolls.now) }
    requires good_run { GoodRun plan (given file.now forward_rolls.now reverse_rolls.now)
        (run_of state (lent sender_store.old receiver_store.old output.old rows.old events.old
        forward_records.old forward_places.old reverse_records.old reverse_places.old keys.old
        deadlines.old)) }
    ensures { step_exit (run_of result.state (lent sender_store.new receiver_store.new
        output.new rows.new events.new forward_records.new
        forward_places.new reverse_records.new reverse_places.new keys.new
        deadlines.new)) result.course
        ≡ run plan (given file.now forward_rolls.now reverse_rolls.now)
        (run_of state (lent sender_store.old receiver_store.old output.old
        rows.old events.old forward_records.old forward_places.old
        reverse_records.old reverse_places.old keys.old deadlines.old)) }
{
    let mut state = state;
    loop {
        let next = step::step_unchecked(
            plan,
            state,
            file,
            forward_rolls,
            reverse_rolls,
            sender_store,
            receiver_store,
            output,
            rows,
            events,
            forward_records,
            forward_places,
            reverse_records,
            reverse_places,
            keys,
            deadlines,
        );
        let course = next.course;
        let over = is_over(course);
        if over {
            return next;
        }
        state = next.state;
    }
}

// Runs one transfer on a virtual clock.
pub fn run_transfer(
    config: TransferConfig,
    file: &[u8],
    forward_rolls: &[f64],
    reverse_rolls: &[f64],
    sender_store: &mut [u8],
    receiver_store: &mut [u8],
    output: &mut [u8],
    rows: &mut [Note],
    events: &mut [Event],
    forward_records: &mut [ScheduledRow],
    forward_places: &mut [u8],
    reverse_records: &mut [ScheduledRow],
    reverse_places: &mut [u8],
    keys: &mut [u32],
    deadlines: &mut [u64],
) -> Result<Outcome, Refusal>
    ensures { run_exit result (lent sender_store.new receiver_store.new
        output.new rows.new events.new forward_records.new
        forward_places.new reverse_records.new reverse_places.new keys.new
        deadlines.new)
        ≡ run_transfer default_ceilings config
        (given file.now forward_rolls.now reverse_rolls.now)
        (lent sender_store.old receiver_store.old output.old rows.old
        events.old forward_records.old forward_places.old
        reverse_records.old reverse_places.old keys.old deadlines.old) }
{
    let verdict = setup::start_verdict(
        config,
        file,
        forward_rolls,
        reverse_rolls,
        sender_store,
        receiver_store,
        output,
        rows,
        keys,
        deadlines,
    );
    match verdict {
        Err(r) => Err(r),
        Ok(()) => {
            let ceilings = default_ceilings();
            let total = chunks::chunk_count_unchecked(file, config.chunk_size) as u32;
            let plan = plan_of(config, total, ceilings.rounds);
            let state = new_state_unchecked(
                config,
                ceilings,
                sender_store,
                receiver_store,
                rows,
                events,
                forward_records,
                forward_places,
                reverse_records,
                reverse_places,
                keys,
                deadlines,
            );
            let last = run_unchecked(
                plan,
                state,
                file,
                forward_rolls,
                reverse_rolls,
                sender_store,
                receiver_store,
                output,
                rows,
                events,
                forward_records,
                forward_places,
                reverse_records,
                reverse_places,
                keys,
                deadlines,
            );
            let outcome = outcome_of(last);
            Ok(outcome)
        }
    }
}
