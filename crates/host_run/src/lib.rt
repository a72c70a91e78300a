// A whole run for a host outside Rattle: the setup in lent numbers and doubles, the outcome in lent words.
#![tactic(auto)]

mod outcome;
mod setup_in;

ghost use Rattle.std.specs.Prelude.{◌≡◌};
ghost use Rattle.step.specs.State.{given, lent};
ghost use Rattle.refusal.specs.Order.{decide};
ghost use Rattle.refusal.specs.declared.Refusal.TheVariants.{Full};
ghost use Rattle.host_answer.specs.Answer.{refusal_answer};
ghost use Rattle.host_run.specs.Run.{results, results_short, host_run_exit, run_with, run};

use events::Event;
use notes::Note;
use refusal::Refusal;
use schedule::ScheduledRow;
use setup::TransferConfig;

pub const SETUP_NUMBERS: usize = 13;

pub const SETUP_DOUBLES: usize = 8;

pub const OUTCOME_WORDS: usize = 31;

// Done with 1 where the run completed, else 0; or refused.
pub fn run(
    numbers: &[u64],
    reals: &[f64],
    file: &[u8],
    forward_rolls: &[f64],
    reverse_rolls: &[f64],
    sender_store: &mut [u8],
    receiver_store: &mut [u8],
    output: &mut [u8],
    rows: &mut [Note],
    events: &mut [Event],
    forward_records: &mut [ScheduledRow],
    forward_places: &mut [u8],
    reverse_records: &mut [ScheduledRow],
    reverse_places: &mut [u8],
    keys: &mut [u32],
    deadlines: &mut [u64],
    words: &mut [u64],
    estimator: &mut [u64],
    doubles: &mut [f64],
) -> u64
    ensures { host_run_exit result (lent sender_store.new receiver_store.new
        output.new rows.new events.new forward_records.new
        forward_places.new reverse_records.new reverse_places.new keys.new
        deadlines.new) (results words.new estimator.new doubles.new)
        ≡ run numbers.now reals.now
        (given file.now forward_rolls.now reverse_rolls.now)
        (lent sender_store.old receiver_store.old output.old rows.old
        events.old forward_records.old forward_places.old
        reverse_records.old reverse_places.old keys.old deadlines.old)
        (results words.old estimator.old doubles.old) }
{
    match setup_in::read_setup(numbers, reals) {
        Ok(config) => run_with(
            config,
            file,
            forward_rolls,
            reverse_rolls,
            sender_store,
            receiver_store,
            output,
            rows,
            events,
            forward_records,
            forward_places,
            reverse_records,
            reverse_places,
            keys,
            deadlines,
            words,
            estimator,
            doubles,
        ),
        Err(r) => host_answer::refusal_answer(r),
    }
}

fn run_with(
    config: TransferConfig,
    file: &[u8],
    forward_rolls: &[f64],
    reverse_rolls: &[f64],
    sender_store: &mut [u8],
    receiver_store: &mut [u8],
    output: &mut [u8],
    rows: &mut [Note],
    events: &mut [Event],
    forward_records: &mut [ScheduledRow],
    forward_places: &mut [u8],
    reverse_records: &mut [ScheduledRow],
    reverse_places: &mut [u8],
    keys: &mut [u32],
    deadlines: &mut [u64],
    words: &mut [u64],
    estimator: &mut [u64],
    doubles: &mut [f64],
) -> u64
    ensures { host_run_exit result (lent sender_store.new receiver_store.new
        output.new rows.new events.new forward_records.new
        forward_places.new reverse_records.new reverse_places.new keys.new
        deadlines.new) (results words.new estimator.new doubles.new)
        ≡ run_with config
        (given file.now forward_rolls.now reverse_rolls.now)
        (lent sender_store.old receiver_store.old output.old rows.old
        events.old forward_records.old forward_places.old
        reverse_records.old reverse_places.old keys.old deadlines.old)
        (results words.old estimator.old doubles.old) }
{
    if results_short(words, estimator, doubles) {
        let verdict = setup::start_verdict(
            config,
            file,
            forward_rolls,
            reverse_rolls,
            sender_store,
            receiver_store,
            output,
            rows,
            keys,
            deadlines,
        );
        return short_answer(verdict);
    }
    let answer = transfer::run_transfer(
        config,
        file,
        forward_rolls,
        reverse_rolls,
        sender_store,
        receiver_store,
        output,
        rows,
        events,
        forward_records,
        forward_places,
        reverse_records,
        reverse_places,
        keys,
        deadlines,
    );
    outcome::put_answer(answer, words, estimator, doubles)
}

fn short_answer(verdict: Result<(), Refusal>) -> u64
    ensures { result ≡ decide verdict refusal_answer (refusal_answer Full) }
{
    match verdict {
        Err(r) => host_answer::refusal_answer(r),
        Ok(()) => host_answer::refusal_answer(Refusal::Full),
    }
}

fn results_short(words: &[u64], estimator: &[u64], doubles: &[f64]) -> bool
    ensures { result ≡ results_short
        (results words.now estimator.now doubles.now) }
{
    if words.len() < OUTCOME_WORDS {
        return true;
    }
    if estimator.len() < host_estimator::ESTIMATOR_WORDS {
        return true;
    }
    if doubles.len() < host_estimator::ESTIMATOR_DOUBLES {
        return true;
    }
    false
}
