// The retransmission timer for a host outside Rattle: its state in lent words. Words that hold no timer are a 9.
#![tactic(auto)]

ghost use Rattle.std.specs.Prelude.{◌≡◌, ◌≤◌, length};
ghost use Rattle.host_answer.specs.Exit.{words_exit};
ghost use Rattle.host_single_timer.specs.SingleTimer.{timer_words, held_timer, with_timer, make_timer};
ghost use Rattle.host_single_timer.specs.SingleTimer.{start, cancel, active, remaining, expired, expired_for};

use refusal::Refusal;
use timer::RetransmissionTimer;

// Word 0: the layout's version times 256 and the kind.
const TIMER: u64 = 264;

pub const TIMER_WORDS: usize = 4;

// A timer that doesn't run.
pub fn make_timer(state: &mut [u64]) -> u64
    ensures { words_exit result state.new ≡ make_timer state.old }
{
    if state.len() < TIMER_WORDS {
        return host_answer::refusal_answer(Refusal::Full);
    }
    put_timer(state, RetransmissionTimer::new());
    host_answer::pack_unchecked(host_answer::DONE, 0)
}

// Starts or restarts the timer: done, or refused.
pub fn start(state: &mut [u64], now: u64, duration: u64) -> u64
    ensures { words_exit result state.new ≡ start state.old now duration }
{
    match held_timer(state) {
        Some(t) => {
            let result = t.started_at(now, duration);
            let t = result.timer;
            let answer = result.answer;
            put_timer(state, t);
            host_answer::done_answer(answer.map(|_| ()))
        }
        None => host_answer::refusal_answer(Refusal::State),
    }
}

// Stops the timer: done, or refused.
pub fn cancel(state: &mut [u64]) -> u64
    ensures { words_exit result state.new ≡ cancel state.old }
{
    match held_timer(state) {
        Some(t) => {
            let result = t.cancelled();
            let t = result.timer;
            let answer = result.answer;
            put_timer(state, t);
            host_answer::done_answer(answer.map(|_| ()))
        }
        None => host_answer::refusal_answer(Refusal::State),
    }
}

// Whether it runs: done with 1 or 0, or refused.
pub fn is_active(state: &[u64]) -> u64
    ensures { result ≡ active state.now }
{
    match held_timer(state) {
        Some(t) => host_answer::test_answer(t.is_active()),
        None => host_answer::refusal_answer(Refusal::State),
    }
}

// How long until its deadline: done with the nanoseconds, nothing, or refused.
pub fn remaining(state: &[u64], now: u64) -> u64
    ensures { result ≡ remaining state.now now }
{
    match held_timer(state) {
        Some(t) => host_answer::optional_answer(t.remaining_at(now), host_answer::NOTHING),
        None => host_answer::refusal_answer(Refusal::State),
    }
}

// Whether it has run out: done with 1 or 0, or refused.
pub fn is_expired(state: &[u64], now: u64) -> u64
    ensures { result ≡ expired state.now now }
{
    match held_timer(state) {
        Some(t) => host_answer::test_answer(t.is_expired_at(now)),
        None => host_answer::refusal_answer(Refusal::State),
    }
}

// The same of an event of one generation: 0 where the timer was started or stopped since.
pub fn is_expired_for(state: &[u64], expected: u64, now: u64) -> u64
    ensures { result ≡ expired_for state.now expected now }
{
    match held_timer(state) {
        Some(t) => host_answer::test_answer(t.is_expired_for_at(expected, now)),
        None => host_answer::refusal_answer(Refusal::State),
    }
}

fn held_timer(state: &[u64]) -> Option<RetransmissionTimer>
    ensures { result ≡ held_timer state.now }
{
    if state.len() < TIMER_WORDS {
        return None;
    }
    if state[0] != TIMER {
        return None;
    }
    if state[1] == 1 {
        return Some(RetransmissionTimer {
            deadline: Some(state[2]),
            generation: state[3],
        });
    }
    if state[1] != 0 {
        return None;
    }
    if state[2] != 0 {
        return None;
    }
    Some(RetransmissionTimer {
        deadline: None,
        generation: state[3],
    })
}

fn put_timer(state: &mut [u64], t: RetransmissionTimer)
    requires { timer_words ≤ length state.old }
    ensures { state.new ≡ with_timer state.old t }
{
    let d = t.deadline;
    let set = u64::from(d.is_some());
    let time = d.unwrap_or(0);
    state[0] = TIMER;
    state[1] = set;
    state[2] = time;
    state[3] = t.generation;
}
