// The archive for a host in C, C++ or Rust: each export is the call of crates/pindrelo of its name, with its contract.
#![tactic(auto)]

ghost use Rattle.std.specs.Prelude.{◌≡◌, [], ◌∷◌, not, eqb};
ghost use Rattle.session.specs.declared.Timeout.TheVariants as timeouts;
ghost use Rattle.host_ends.specs.Answers.{call_exit};
ghost use Rattle.host_ends.specs.Sender as sender;
ghost use Rattle.host_ends.specs.Receiver as receiver;
ghost use Rattle.host_ends.specs.Making.{make_sender, make_receiver};
ghost use Rattle.host_packet.specs.Packet as packets;
ghost use Rattle.multi_timer.specs.MultiTimer.{timers_exit, pop_exit};
ghost use Rattle.host_timers.specs.Timers as timers;
ghost use Rattle.host_answer.specs.Exit.{words_exit};
ghost use Rattle.host_drain.specs.Drain.{drain};
ghost use Rattle.host_single_timer.specs.SingleTimer as single;
ghost use Rattle.rto.specs.Rto.{default_config};
ghost use Rattle.host_estimator.specs.Estimator as estimators;
ghost use Rattle.step.specs.State.{given, lent};
ghost use Rattle.host_run.specs.Run as runs;
ghost use Rattle.host_report.specs.Report as reports;

use events::Event;
use notes::Note;
use schedule::ScheduledRow;

#[unsafe(no_mangle)]
pub extern "C" fn pindrelo_make_sender(
    protocol: u64,
    window: usize,
    max_retries: u64,
    state: &mut [u64],
    store: &mut [u8],
) -> u64
    ensures { call_exit result (state.new ∷ store.new ∷ [])
        ≡ make_sender protocol window max_retries state.old store.old }
{
    pindrelo::pindrelo_make_sender(protocol, window, max_retries, state, store)
}

#[unsafe(no_mangle)]
pub extern "C" fn pindrelo_send(
    state: &mut [u64],
    store: &mut [u8],
    payload: &[u8],
    out: &mut [u8],
) -> u64
    ensures { call_exit result (state.new ∷ store.new ∷ out.new ∷ [])
        ≡ sender.send state.old store.old payload.now out.old }
{
    pindrelo::pindrelo_send(state, store, payload, out)
}

#[unsafe(no_mangle)]
pub extern "C" fn pindrelo_acknowledge(state: &mut [u64], store: &mut [u8], raw: &[u8]) -> u64
    ensures { call_exit result (state.new ∷ store.new ∷ [])
        ≡ sender.acknowledge state.old store.old raw.now }
{
    pindrelo::pindrelo_acknowledge(state, store, raw)
}

#[unsafe(no_mangle)]
pub extern "C" fn pindrelo_timeout_all(state: &mut [u64], store: &mut [u8], out: &mut [u8]) -> u64
    ensures { call_exit result (state.new ∷ store.new ∷ out.new ∷ [])
        ≡ sender.timeout state.old store.old timeouts.All out.old }
{
    pindrelo::pindrelo_timeout_all(state, store, out)
}

#[unsafe(no_mangle)]
pub extern "C" fn pindrelo_timeout_earliest(
    state: &mut [u64],
    store: &mut [u8],
    out: &mut [u8],
) -> u64
    ensures { call_exit result (state.new ∷ store.new ∷ out.new ∷ [])
        ≡ sender.timeout state.old store.old timeouts.Earliest out.old }
{
    pindrelo::pindrelo_timeout_earliest(state, store, out)
}

#[unsafe(no_mangle)]
pub extern "C" fn pindrelo_timeout_number(
    state: &mut [u64],
    store: &mut [u8],
    seq_num: u64,
    out: &mut [u8],
) -> u64
    ensures { call_exit result (state.new ∷ store.new ∷ out.new ∷ [])
        ≡ sender.timeout state.old store.old (timeouts.Number seq_num) out.old }
{
    pindrelo::pindrelo_timeout_number(state, store, seq_num, out)
}

#[unsafe(no_mangle)]
pub extern "C" fn pindrelo_can_send(state: &[u64]) -> u64
    ensures { result ≡ sender.can_send state.now }
{
    pindrelo::pindrelo_can_send(state)
}

#[unsafe(no_mangle)]
pub extern "C" fn pindrelo_in_flight(state: &[u64], store: &[u8]) -> u64
    ensures { result ≡ sender.in_flight state.now store.now }
{
    pindrelo::pindrelo_in_flight(state, store)
}

#[unsafe(no_mangle)]
pub extern "C" fn pindrelo_is_retransmitted(state: &[u64], store: &[u8], seq_num: u64) -> u64
    ensures { result ≡ sender.is_retransmitted state.now store.now seq_num }
{
    pindrelo::pindrelo_is_retransmitted(state, store, seq_num)
}

#[unsafe(no_mangle)]
pub extern "C" fn pindrelo_make_receiver(
    protocol: u64,
    window: usize,
    state: &mut [u64],
    store: &mut [u8],
) -> u64
    ensures { call_exit result (state.new ∷ store.new ∷ [])
        ≡ make_receiver protocol window state.old store.old }
{
    pindrelo::pindrelo_make_receiver(protocol, window, state, store)
}

#[unsafe(no_mangle)]
pub extern "C" fn pindrelo_receive(
    state: &mut [u64],
    store: &mut [u8],
    raw: &[u8],
    output: &mut [u8],
    ack: &mut [u8],
) -> u64
    ensures { call_exit result
        (state.new ∷ store.new ∷ output.new ∷ ack.new ∷ [])
        ≡ receiver.receive state.old store.old raw.now output.old
        ack.old }
{
    pindrelo::pindrelo_receive(state, store, raw, output, ack)
}

#[unsafe(no_mangle)]
pub extern "C" fn pindrelo_buffered_count(state: &[u64], store: &[u8]) -> u64
    ensures { result ≡ receiver.buffered_count state.now store.now }
{
    pindrelo::pindrelo_buffered_count(state, store)
}

#[unsafe(no_mangle)]
pub extern "C" fn pindrelo_read(raw: &[u8]) -> u64
    ensures { result ≡ packets.read raw.now }
{
    pindrelo::pindrelo_read(raw)
}

#[unsafe(no_mangle)]
pub extern "C" fn pindrelo_validate(raw: &[u8]) -> u64
    ensures { result ≡ packets.validate raw.now }
{
    pindrelo::pindrelo_validate(raw)
}

#[unsafe(no_mangle)]
pub extern "C" fn pindrelo_payload_length(raw: &[u8]) -> u64
    ensures { result ≡ packets.payload_length raw.now }
{
    pindrelo::pindrelo_payload_length(raw)
}

#[unsafe(no_mangle)]
pub extern "C" fn pindrelo_write(
    kind: u64,
    seq_num: u64,
    flags: u64,
    payload: &[u8],
    out: &mut [u8],
) -> u64
    ensures { packets.write_exit result out.new
        ≡ packets.write kind seq_num flags payload.now out.old }
{
    pindrelo::pindrelo_write(kind, seq_num, flags, payload, out)
}

#[unsafe(no_mangle)]
pub extern "C" fn pindrelo_make_timers(
    state: &mut [u64],
    keys: &mut [u32],
    deadlines: &mut [u64],
) -> u64
    ensures { timers_exit (words_exit result state.new) keys.new deadlines.new
        ≡ timers.make_timers state.old keys.old deadlines.old }
{
    pindrelo::pindrelo_make_timers(state, keys, deadlines)
}

#[unsafe(no_mangle)]
pub extern "C" fn pindrelo_timer_start(
    state: &mut [u64],
    keys: &mut [u32],
    deadlines: &mut [u64],
    key: u64,
    now: u64,
    duration: u64,
) -> u64
    ensures { timers_exit (words_exit result state.new) keys.new deadlines.new
        ≡ timers.start state.old keys.old deadlines.old key now duration }
{
    pindrelo::pindrelo_timer_start(state, keys, deadlines, key, now, duration)
}

#[unsafe(no_mangle)]
pub extern "C" fn pindrelo_timer_cancel(
    state: &mut [u64],
    keys: &mut [u32],
    deadlines: &mut [u64],
    key: u64,
) -> u64
    ensures { timers_exit (words_exit result state.new) keys.new deadlines.new
        ≡ timers.cancel state.old keys.old deadlines.old key }
{
    pindrelo::pindrelo_timer_cancel(state, keys, deadlines, key)
}

#[unsafe(no_mangle)]
pub extern "C" fn pindrelo_timer_pop(
    state: &mut [u64],
    keys: &mut [u32],
    deadlines: &mut [u64],
    now: u64,
    out: &mut [u32],
) -> u64
    ensures { pop_exit
        (timers_exit (words_exit result state.new) keys.new deadlines.new) out.new
        ≡ timers.pop state.old keys.old deadlines.old now out.old }
{
    pindrelo::pindrelo_timer_pop(state, keys, deadlines, now, out)
}

#[unsafe(no_mangle)]
pub extern "C" fn pindrelo_timer_earliest(state: &[u64], keys: &[u32], deadlines: &[u64]) -> u64
    ensures { result ≡ timers.earliest state.now keys.now deadlines.now }
{
    pindrelo::pindrelo_timer_earliest(state, keys, deadlines)
}

#[unsafe(no_mangle)]
pub extern "C" fn pindrelo_timer_clear(
    state: &mut [u64],
    keys: &mut [u32],
    deadlines: &mut [u64],
) -> u64
    ensures { timers_exit (words_exit result state.new) keys.new deadlines.new
        ≡ timers.clear state.old keys.old deadlines.old }
{
    pindrelo::pindrelo_timer_clear(state, keys, deadlines)
}

#[unsafe(no_mangle)]
pub extern "C" fn pindrelo_drain(state: &mut [u64], store: &[u8], output: &[u8]) -> u64
    ensures { words_exit result state.new
        ≡ drain state.old store.now output.now }
{
    pindrelo::pindrelo_drain(state, store, output)
}

#[unsafe(no_mangle)]
pub extern "C" fn pindrelo_make_single_timer(state: &mut [u64]) -> u64
    ensures { words_exit result state.new ≡ single.make_timer state.old }
{
    pindrelo::pindrelo_make_single_timer(state)
}

#[unsafe(no_mangle)]
pub extern "C" fn pindrelo_single_timer_start(state: &mut [u64], now: u64, duration: u64) -> u64
    ensures { words_exit result state.new ≡ single.start state.old now duration }
{
    pindrelo::pindrelo_single_timer_start(state, now, duration)
}

#[unsafe(no_mangle)]
pub extern "C" fn pindrelo_single_timer_cancel(state: &mut [u64]) -> u64
    ensures { words_exit result state.new ≡ single.cancel state.old }
{
    pindrelo::pindrelo_single_timer_cancel(state)
}

#[unsafe(no_mangle)]
pub extern "C" fn pindrelo_single_timer_is_active(state: &[u64]) -> u64
    ensures { result ≡ single.active state.now }
{
    pindrelo::pindrelo_single_timer_is_active(state)
}

#[unsafe(no_mangle)]
pub extern "C" fn pindrelo_single_timer_remaining(state: &[u64], now: u64) -> u64
    ensures { result ≡ single.remaining state.now now }
{
    pindrelo::pindrelo_single_timer_remaining(state, now)
}

#[unsafe(no_mangle)]
pub extern "C" fn pindrelo_single_timer_is_expired(state: &[u64], now: u64) -> u64
    ensures { result ≡ single.expired state.now now }
{
    pindrelo::pindrelo_single_timer_is_expired(state, now)
}

#[unsafe(no_mangle)]
pub extern "C" fn pindrelo_single_timer_is_expired_for(
    state: &[u64],
    generation: u64,
    now: u64,
) -> u64
    ensures { result ≡ single.expired_for state.now generation now }
{
    pindrelo::pindrelo_single_timer_is_expired_for(state, generation, now)
}

#[unsafe(no_mangle)]
pub extern "C" fn pindrelo_make_estimator(
    state: &mut [u64],
    doubles: &mut [f64],
    initial_rto: u64,
    min_rto: u64,
    max_rto: u64,
    granularity: u64,
    alpha: f64,
    beta: f64,
    k: f64,
    rto_multiplier: f64,
) -> u64
    ensures { estimators.estimator_exit result state.new doubles.new
        ≡ estimators.make_estimator state.old doubles.old
        (estimators.config_of initial_rto min_rto max_rto granularity alpha beta k rto_multiplier) }
{
    pindrelo::pindrelo_make_estimator(
        state,
        doubles,
        initial_rto,
        min_rto,
        max_rto,
        granularity,
        alpha,
        beta,
        k,
        rto_multiplier,
    )
}

#[unsafe(no_mangle)]
pub extern "C" fn pindrelo_make_default_estimator(state: &mut [u64], doubles: &mut [f64]) -> u64
    ensures { estimators.estimator_exit result state.new doubles.new
        ≡ estimators.make_estimator state.old doubles.old default_config }
{
    pindrelo::pindrelo_make_default_estimator(state, doubles)
}

#[unsafe(no_mangle)]
pub extern "C" fn pindrelo_estimator_sample(
    state: &mut [u64],
    doubles: &mut [f64],
    sample: u64,
    retransmitted: u64,
) -> u64
    ensures { estimators.estimator_exit result state.new doubles.new
        ≡ estimators.update state.old doubles.old sample (not (eqb retransmitted 0)) }
{
    pindrelo::pindrelo_estimator_sample(state, doubles, sample, retransmitted)
}

#[unsafe(no_mangle)]
pub extern "C" fn pindrelo_estimator_timeout(state: &mut [u64], doubles: &mut [f64]) -> u64
    ensures { estimators.estimator_exit result state.new doubles.new
        ≡ estimators.timeout state.old doubles.old }
{
    pindrelo::pindrelo_estimator_timeout(state, doubles)
}

#[unsafe(no_mangle)]
pub extern "C" fn pindrelo_estimator_reset_backoff(state: &mut [u64], doubles: &mut [f64]) -> u64
    ensures { estimators.estimator_exit result state.new doubles.new
        ≡ estimators.reset state.old doubles.old }
{
    pindrelo::pindrelo_estimator_reset_backoff(state, doubles)
}

#[unsafe(no_mangle)]
pub extern "C" fn pindrelo_estimator_exceeded(
    state: &[u64],
    doubles: &[f64],
    max_retries: u64,
) -> u64
    ensures { result ≡ estimators.exceeded state.now doubles.now max_retries }
{
    pindrelo::pindrelo_estimator_exceeded(state, doubles, max_retries)
}

#[unsafe(no_mangle)]
pub extern "C" fn pindrelo_estimator_mean(state: &[u64], doubles: &[f64], out: &mut [f64]) -> u64
    ensures { estimators.mean_exit result out.new
        ≡ estimators.mean state.now doubles.now out.old }
{
    pindrelo::pindrelo_estimator_mean(state, doubles, out)
}

#[unsafe(no_mangle)]
pub extern "C" fn pindrelo_run(
    numbers: &[u64],
    reals: &[f64],
    file: &[u8],
    forward_rolls: &[f64],
    reverse_rolls: &[f64],
    sender_store: &mut [u8],
    receiver_store: &mut [u8],
    output: &mut [u8],
    rows: &mut [Note],
    events: &mut [Event],
    forward_records: &mut [ScheduledRow],
    forward_places: &mut [u8],
    reverse_records: &mut [ScheduledRow],
    reverse_places: &mut [u8],
    keys: &mut [u32],
    deadlines: &mut [u64],
    words: &mut [u64],
    estimator: &mut [u64],
    doubles: &mut [f64],
) -> u64
    ensures { runs.host_run_exit result (lent sender_store.new receiver_store.new
        output.new rows.new events.new forward_records.new
        forward_places.new reverse_records.new reverse_places.new keys.new
        deadlines.new) (runs.results words.new estimator.new doubles.new)
        ≡ runs.run numbers.now reals.now
        (given file.now forward_rolls.now reverse_rolls.now)
        (lent sender_store.old receiver_store.old output.old rows.old
        events.old forward_records.old forward_places.old
        reverse_records.old reverse_places.old keys.old deadlines.old)
        (runs.results words.old estimator.old doubles.old) }
{
    pindrelo::pindrelo_run(
        numbers,
        reals,
        file,
        forward_rolls,
        reverse_rolls,
        sender_store,
        receiver_store,
        output,
        rows,
        events,
        forward_records,
        forward_places,
        reverse_records,
        reverse_places,
        keys,
        deadlines,
        words,
        estimator,
        doubles,
    )
}

#[unsafe(no_mangle)]
pub extern "C" fn pindrelo_report(events: &[Event], count: usize, out: &mut [u8]) -> u64
    ensures { reports.report_exit result out.new
        ≡ reports.report events.now count out.old }
{
    pindrelo::pindrelo_report(events, count, out)
}
