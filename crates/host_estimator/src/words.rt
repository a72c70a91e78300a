// The estimator that words and doubles hold, and words and doubles with an estimator put into them.
ghost use Rattle.std.specs.Prelude.{◌≡◌, ◌≤◌, length};
ghost use Rattle.std.proofs.lemmas.List.Edits.{sets};
ghost use Rattle.host_estimator.specs.Words.{estimator_words, duration_of, duration_broken, config_in};
ghost use Rattle.host_estimator.specs.Words.{stats_in, estimator_in, numbers_broken, durations_broken, held_estimator};
ghost use Rattle.host_estimator.specs.Words.{first_words, second_words, third_words, doubles_of, with_words};
ghost use Rattle.host_estimator.specs.Words.{with_doubles, Readable, Room};

use crate::{ESTIMATOR_DOUBLES, ESTIMATOR_WORDS};
use rto::{RtoConfig, RtoEstimator, RtoStats};

// Word 0: the layout's version times 256 and the kind.
const ESTIMATOR: u64 = 265;

const MAX_U32: u64 = 4_294_967_295;

pub fn held_estimator(state: &[u64], doubles: &[f64]) -> Option<RtoEstimator>
    ensures { result ≡ held_estimator state.now doubles.now }
{
    if numbers_broken(state, doubles) {
        return None;
    }
    if durations_broken(state) {
        return None;
    }
    Some(estimator_in(state, doubles))
}

pub fn put_estimator(state: &mut [u64], doubles: &mut [f64], e: RtoEstimator)
    requires { Room state.old doubles.old }
    ensures state_after { state.new ≡ with_words state.old e }
    ensures doubles_after { doubles.new ≡ with_doubles doubles.old e }
{
    let config = e.config;
    let srtt = e.srtt;
    let rttvar = e.rttvar;
    let stats = e.stats;
    put_first(state, config, srtt, rttvar);
    put_second(state, e);
    put_third(state, stats);
    put_doubles(doubles, e);
}

fn numbers_broken(state: &[u64], doubles: &[f64]) -> bool
    ensures { result ≡ numbers_broken state.now doubles.now }
{
    if state.len() < ESTIMATOR_WORDS {
        return true;
    }
    if doubles.len() < ESTIMATOR_DOUBLES {
        return true;
    }
    if state[0] != ESTIMATOR {
        return true;
    }
    if 1 < state[11] {
        return true;
    }
    if MAX_U32 < state[12] {
        return true;
    }
    if MAX_U32 < state[23] {
        return true;
    }
    false
}

fn durations_broken(state: &[u64]) -> bool
    requires { estimator_words ≤ length state.now }
    ensures { result ≡ durations_broken state.now }
{
    if duration_broken(state[5], state[6]) {
        return true;
    }
    if duration_broken(state[7], state[8]) {
        return true;
    }
    if duration_broken(state[17], state[18]) {
        return true;
    }
    if duration_broken(state[19], state[20]) {
        return true;
    }
    if duration_broken(state[21], state[22]) {
        return true;
    }
    false
}

fn duration_broken(set: u64, time: u64) -> bool
    ensures { result ≡ duration_broken set time }
{
    if set == 1 {
        return false;
    }
    if set != 0 {
        return true;
    }
    if time != 0 {
        return true;
    }
    false
}

fn duration_of(set: u64, time: u64) -> Option<u64>
    ensures { result ≡ duration_of set time }
{
    if set == 1 {
        return Some(time);
    }
    None
}

fn estimator_in(state: &[u64], doubles: &[f64]) -> RtoEstimator
    requires { Readable state.now doubles.now }
    ensures { result ≡ estimator_in state.now doubles.now }
{
    let config = config_in(state, doubles);
    let stats = stats_in(state, doubles);
    let srtt = duration_of(state[5], state[6]);
    let rttvar = duration_of(state[7], state[8]);
    RtoEstimator {
        config,
        srtt,
        rttvar,
        current_rto: state[9],
        base_rto: state[10],
        in_backoff: state[11] == 1,
        consecutive_timeouts: state[12] as u32,
        stats,
    }
}

fn config_in(state: &[u64], doubles: &[f64]) -> RtoConfig
    requires { Readable state.now doubles.now }
    ensures { result ≡ config_in state.now doubles.now }
{
    RtoConfig {
        initial_rto: state[1],
        min_rto: state[2],
        max_rto: state[3],
        granularity: state[4],
        alpha: doubles[0],
        beta: doubles[1],
        k: doubles[2],
        rto_multiplier: doubles[3],
    }
}

fn stats_in(state: &[u64], doubles: &[f64]) -> RtoStats
    requires { Readable state.now doubles.now }
    ensures { result ≡ stats_in state.now doubles.now }
{
    let min_rtt = duration_of(state[17], state[18]);
    let max_rtt = duration_of(state[19], state[20]);
    let latest_rtt = duration_of(state[21], state[22]);
    RtoStats {
        sample_count: state[13],
        karn_rejected_count: state[14],
        timeout_count: state[15],
        backoff_count: state[16],
        min_rtt,
        max_rtt,
        sum_rtt_millis: doubles[4],
        latest_rtt,
        max_consecutive_timeouts: state[23] as u32,
    }
}

fn put_first(state: &mut [u64], c: RtoConfig, srtt: Option<u64>, rttvar: Option<u64>)
    requires { estimator_words ≤ length state.old }
    ensures { state.new ≡ sets state.old 0 (first_words c srtt rttvar) }
{
    let srtt_set = u64::from(srtt.is_some());
    let srtt_time = srtt.unwrap_or(0);
    let rttvar_set = u64::from(rttvar.is_some());
    let rttvar_time = rttvar.unwrap_or(0);
    state[0] = ESTIMATOR;
    state[1] = c.initial_rto;
    state[2] = c.min_rto;
    state[3] = c.max_rto;
    state[4] = c.granularity;
    state[5] = srtt_set;
    state[6] = srtt_time;
    state[7] = rttvar_set;
    state[8] = rttvar_time;
}

fn put_second(state: &mut [u64], e: RtoEstimator)
    requires { estimator_words ≤ length state.old }
    ensures { state.new ≡ sets state.old 9 (second_words e) }
{
    let stats = e.stats;
    let in_backoff = u64::from(e.in_backoff);
    state[9] = e.current_rto;
    state[10] = e.base_rto;
    state[11] = in_backoff;
    state[12] = e.consecutive_timeouts as u64;
    state[13] = stats.sample_count;
    state[14] = stats.karn_rejected_count;
    state[15] = stats.timeout_count;
    state[16] = stats.backoff_count;
}

fn put_third(state: &mut [u64], stats: RtoStats)
    requires { estimator_words ≤ length state.old }
    ensures { state.new ≡ sets state.old 17 (third_words stats) }
{
    let min_rtt = stats.min_rtt;
    let max_rtt = stats.max_rtt;
    let latest_rtt = stats.latest_rtt;
    let min_set = u64::from(min_rtt.is_some());
    let min_time = min_rtt.unwrap_or(0);
    let max_set = u64::from(max_rtt.is_some());
    let max_time = max_rtt.unwrap_or(0);
    let latest_set = u64::from(latest_rtt.is_some());
    let latest_time = latest_rtt.unwrap_or(0);
    state[17] = min_set;
    state[18] = min_time;
    state[19] = max_set;
    state[20] = max_time;
    state[21] = latest_set;
    state[22] = latest_time;
    state[23] = stats.max_consecutive_timeouts as u64;
}

fn put_doubles(doubles: &mut [f64], e: RtoEstimator)
    requires { 5 ≤ length doubles.old }
    ensures { doubles.new ≡ sets doubles.old 0 (doubles_of e) }
{
    let config = e.config;
    let stats = e.stats;
    doubles[0] = config.alpha;
    doubles[1] = config.beta;
    doubles[2] = config.k;
    doubles[3] = config.rto_multiplier;
    doubles[4] = stats.sum_rtt_millis;
}
