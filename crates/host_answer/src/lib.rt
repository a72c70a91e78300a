// What a call of the host interface answers: one number of 64 bits, a status in its lowest 8 bits (0 done, 1 to 11 a
// refusal's number, from 16 on the other ordinary answers) and a value in the 56 above them.
#![tactic(auto)]

ghost use Rattle.std.specs.Prelude.{◌≡◌, ◌<◌};
ghost use Rattle.host_answer.specs.Answer.{packed, status_limit, refusal_answer, test_answer, count_answer};
ghost use Rattle.host_answer.specs.Answer.{done_answer, optional_answer};

use refusal::Refusal;

pub const DONE: u64 = 0;

pub const WINDOW_FULL: u64 = 16;

pub const NOT_ACCEPTED: u64 = 17;

pub const NOTHING: u64 = 18;

pub const SILENT: u64 = 19;

pub const INVALID: u64 = 20;

const VALUE_LIMIT: u64 = 72_057_594_037_927_936;

const WORD_LIMIT: u64 = 65_536;

pub fn pack_unchecked(status: u64, value: u64) -> u64
    requires { status < status_limit }
    ensures { result ≡ packed status value }
{
    status + value % VALUE_LIMIT * 256
}

// Its number, and its values in 16 bits each.
#[tactic(auto, unfolding(crate::specs::Answer::refusal_answer))]
pub fn refusal_answer(r: Refusal) -> u64
    ensures { result ≡ refusal_answer r }
{
    let values = r.values();
    pack_unchecked(
        r.number() as u64,
        values.first % WORD_LIMIT + values.second % WORD_LIMIT * WORD_LIMIT,
    )
}

#[tactic(auto, unfolding(crate::specs::Answer::test_answer))]
pub fn test_answer(a: Result<bool, Refusal>) -> u64
    ensures { result ≡ test_answer a }
{
    match a {
        Ok(b) => pack_unchecked(DONE, u64::from(b)),
        Err(r) => refusal_answer(r),
    }
}

#[tactic(auto, unfolding(crate::specs::Answer::count_answer))]
pub fn count_answer(a: Result<usize, Refusal>) -> u64
    ensures { result ≡ count_answer a }
{
    match a {
        Ok(n) => pack_unchecked(DONE, n as u64),
        Err(r) => refusal_answer(r),
    }
}

#[tactic(auto, unfolding(crate::specs::Answer::done_answer))]
pub fn done_answer(a: Result<(), Refusal>) -> u64
    ensures { result ≡ done_answer a }
{
    match a {
        Ok(()) => pack_unchecked(DONE, 0),
        Err(r) => refusal_answer(r),
    }
}

// With the value where there is one, otherwise the status `none`.
pub fn optional_answer(a: Result<Option<u64>, Refusal>, none: u64) -> u64
    ensures { result ≡ optional_answer a none }
{
    match a {
        Ok(Some(n)) => pack_unchecked(DONE, n),
        Ok(None) => none,
        Err(r) => refusal_answer(r),
    }
}
