// The RTO estimator for a host outside Rattle: its state in lent words and doubles. What holds no estimator is a 9.
#![tactic(auto)]

mod words;

ghost use Rattle.std.specs.Prelude.{◌≡◌};
ghost use Rattle.rto.specs.Rto.{default_config, has_exceeded_retry_limit};
ghost use Rattle.host_estimator.specs.Words.{with_words, with_doubles, Room};
ghost use Rattle.host_estimator.specs.Estimator.{estimator_exit, make_estimator, update, rto_code};
ghost use Rattle.host_estimator.specs.Estimator.{timeout, reset, exceeded, mean_exit, mean_to, mean};

use refusal::Refusal;
use rto::{RtoConfig, RtoEstimator};

pub const ESTIMATOR_WORDS: usize = 24;

pub const ESTIMATOR_DOUBLES: usize = 5;

// An estimator without samples.
pub fn make_estimator(state: &mut [u64], doubles: &mut [f64], config: RtoConfig) -> u64
    ensures { estimator_exit result state.new doubles.new
        ≡ make_estimator state.old doubles.old config }
{
    if !rto::config_in_bounds(config) {
        return host_answer::refusal_answer(Refusal::Setup);
    }
    if state.len() < ESTIMATOR_WORDS {
        return host_answer::refusal_answer(Refusal::Full);
    }
    if doubles.len() < ESTIMATOR_DOUBLES {
        return host_answer::refusal_answer(Refusal::Full);
    }
    words::put_estimator(state, doubles, RtoEstimator::with_config_unchecked(config));
    host_answer::pack_unchecked(host_answer::DONE, 0)
}

// The same with the source's default setup.
pub fn make_default_estimator(state: &mut [u64], doubles: &mut [f64]) -> u64
    ensures { estimator_exit result state.new doubles.new
        ≡ make_estimator state.old doubles.old default_config }
{
    make_estimator(state, doubles, RtoConfig::default())
}

// A sample of the round trip: done with 1 where it was used, else 0; or refused.
pub fn update_rtt(state: &mut [u64], doubles: &mut [f64], sample: u64, retransmitted: bool) -> u64
    ensures { estimator_exit result state.new doubles.new
        ≡ update state.old doubles.old sample retransmitted }
{
    match words::held_estimator(state, doubles) {
        Some(e) => {
            let result = e.update_rtt(sample, retransmitted);
            let e = result.estimator;
            let answer = result.answer;
            words::put_estimator(state, doubles, e);
            host_answer::test_answer(answer)
        }
        None => host_answer::refusal_answer(Refusal::State),
    }
}

// A timeout: done with the RTO, doubled within its limits, or refused.
pub fn on_timeout(state: &mut [u64], doubles: &mut [f64]) -> u64
    ensures { estimator_exit result state.new doubles.new
        ≡ timeout state.old doubles.old }
{
    match words::held_estimator(state, doubles) {
        Some(e) => {
            let result = e.on_timeout();
            let e = result.estimator;
            let answer = result.answer;
            words::put_estimator(state, doubles, e);
            rto_code(answer)
        }
        None => host_answer::refusal_answer(Refusal::State),
    }
}

// Back to the RTO from before the timeouts: done, or refused.
pub fn reset_backoff(state: &mut [u64], doubles: &mut [f64]) -> u64
    ensures { estimator_exit result state.new doubles.new
        ≡ reset state.old doubles.old }
{
    match words::held_estimator(state, doubles) {
        Some(e) => {
            let result = e.reset_backoff();
            let e = result.estimator;
            let answer = result.answer;
            words::put_estimator(state, doubles, e);
            host_answer::done_answer(answer)
        }
        None => host_answer::refusal_answer(Refusal::State),
    }
}

// Whether max_retries timeouts or more came since the last sample: done with 1 or 0, or refused.
pub fn has_exceeded_retry_limit(state: &[u64], doubles: &[f64], max_retries: u64) -> u64
    ensures { result ≡ exceeded state.now doubles.now max_retries }
{
    match words::held_estimator(state, doubles) {
        Some(e) => host_answer::test_answer(exceeded(e, max_retries)),
        None => host_answer::refusal_answer(Refusal::State),
    }
}

// The mean of the samples in milliseconds to the first of out, 0 without samples: done, or refused.
pub fn mean_rtt_ms(state: &[u64], doubles: &[f64], out: &mut [f64]) -> u64
    ensures { mean_exit result out.new
        ≡ mean state.now doubles.now out.old }
{
    match words::held_estimator(state, doubles) {
        Some(e) => mean_to(e.mean_rtt_ms(), out),
        None => host_answer::refusal_answer(Refusal::State),
    }
}

pub fn put_estimator_unchecked(state: &mut [u64], doubles: &mut [f64], e: RtoEstimator)
    requires { Room state.old doubles.old }
    ensures state_after { state.new ≡ with_words state.old e }
    ensures doubles_after { doubles.new ≡ with_doubles doubles.old e }
{
    words::put_estimator(state, doubles, e);
}

fn rto_code(a: Result<u64, Refusal>) -> u64
    ensures { result ≡ rto_code a }
{
    match a {
        Ok(n) => host_answer::pack_unchecked(host_answer::DONE, n),
        Err(r) => host_answer::refusal_answer(r),
    }
}

fn mean_to(a: Result<f64, Refusal>, out: &mut [f64]) -> u64
    ensures { mean_exit result out.new ≡ mean_to a out.old }
{
    match a {
        Ok(x) => {
            if out.len() < 1 {
                return host_answer::refusal_answer(Refusal::Full);
            }
            out[0] = x;
            host_answer::pack_unchecked(host_answer::DONE, 0)
        }
        Err(r) => host_answer::refusal_answer(r),
    }
}

// The limit may have more than 32 bits: a count of timeouts is then below it.
fn exceeded(e: RtoEstimator, max_retries: u64) -> Result<bool, Refusal>
    ensures { result ≡ has_exceeded_retry_limit e max_retries }
{
    e.has_exceeded_retry_limit(0)?;
    Ok(max_retries <= e.consecutive_timeouts as u64)
}
