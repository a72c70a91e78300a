// The checks of the entry points: 9 and 10 of what is held and given, 5 of what is lent.
ghost use Rattle.std.specs.Prelude.{◌≡◌, ◌≤◌, false, length, take};
ghost use Rattle.refusal.specs.Order.{verdict};
ghost use Rattle.multi_timer.specs.Map.{ascending, lookup, is_some};
ghost use Rattle.multi_timer.specs.Internal.{due_in};
ghost use Rattle.multi_timer.specs.MultiTimer.{used, broken, held_too_late, read_too_late, start_too_late, start_full};
ghost use Rattle.multi_timer.specs.MultiTimer.{held_checks, read_checks, start_checks, pop_checks};

use super::MultiTimer;
use super::entries::search;
use bounds::MAX_TIME;
use refusal::Refusal;

// Of a call that is given no time.
pub(crate) fn check_held(timers: MultiTimer, keys: &[u32], deadlines: &[u64]) -> Result<(), Refusal>
    ensures { result ≡ verdict (held_checks timers keys.now deadlines.now) }
{
    let count = timers.count;
    if is_broken(count, keys, deadlines) {
        return Err(Refusal::State);
    }
    if any_late(count, deadlines) {
        return Err(Refusal::Time);
    }
    Ok(())
}

pub(crate) fn check_read(
    timers: MultiTimer,
    keys: &[u32],
    deadlines: &[u64],
    time: u64,
) -> Result<(), Refusal>
    ensures { result ≡ verdict (read_checks timers keys.now deadlines.now time) }
{
    let count = timers.count;
    if is_broken(count, keys, deadlines) {
        return Err(Refusal::State);
    }
    if read_too_late(count, deadlines, time) {
        return Err(Refusal::Time);
    }
    Ok(())
}

pub(crate) fn check_start(
    timers: MultiTimer,
    keys: &[u32],
    deadlines: &[u64],
    key: u32,
    time: u64,
    duration: u64,
) -> Result<(), Refusal>
    ensures { result
        ≡ verdict (start_checks timers keys.now deadlines.now key time duration) }
{
    let count = timers.count;
    if is_broken(count, keys, deadlines) {
        return Err(Refusal::State);
    }
    if start_too_late(count, deadlines, time, duration) {
        return Err(Refusal::Time);
    }
    if start_full(timers, keys, deadlines, key) {
        return Err(Refusal::Full);
    }
    Ok(())
}

// For a slice of size keys that the pop writes to.
pub(crate) fn check_pop(
    timers: MultiTimer,
    keys: &[u32],
    deadlines: &[u64],
    time: u64,
    size: usize,
) -> Result<(), Refusal>
    ensures { result ≡ verdict (pop_checks timers keys.now deadlines.now time size) }
{
    let count = timers.count;
    if is_broken(count, keys, deadlines) {
        return Err(Refusal::State);
    }
    if read_too_late(count, deadlines, time) {
        return Err(Refusal::Time);
    }
    if size < due_count(count, deadlines, time) {
        return Err(Refusal::Full);
    }
    Ok(())
}

fn is_broken(count: usize, keys: &[u32], deadlines: &[u64]) -> bool
    ensures { result ≡ broken count keys.now deadlines.now }
{
    if keys.len() != deadlines.len() {
        return true;
    }
    if count > keys.len() {
        return true;
    }
    !is_ascending(count, keys)
}

fn is_ascending(count: usize, keys: &[u32]) -> bool
    requires { count ≤ length keys.now }
    ensures { result ≡ ascending (take count keys.now) }
{
    let mut sorted = true;
    for i in 1..count {
        sorted &= keys[i - 1] < keys[i];
    }
    sorted
}

fn any_late(count: usize, deadlines: &[u64]) -> bool
    requires { count ≤ length deadlines.now }
    ensures { result ≡ held_too_late count deadlines.now }
{
    deadlines[..count].iter().any(|d| *d > MAX_TIME)
}

fn read_too_late(count: usize, deadlines: &[u64], time: u64) -> bool
    requires { count ≤ length deadlines.now }
    ensures { result ≡ read_too_late count deadlines.now time }
{
    if any_late(count, deadlines) {
        return true;
    }
    time > MAX_TIME
}

fn start_too_late(count: usize, deadlines: &[u64], time: u64, duration: u64) -> bool
    requires { count ≤ length deadlines.now }
    ensures { result ≡ start_too_late count deadlines.now time duration }
{
    if any_late(count, deadlines) {
        return true;
    }
    duration::start_late(time, duration)
}

fn start_full(timers: MultiTimer, keys: &[u32], deadlines: &[u64], key: u32) -> bool
    requires { broken timers.count keys.now deadlines.now ≡ false }
    ensures { result ≡ start_full timers keys.now deadlines.now key }
{
    let count = timers.count;
    if count < keys.len() {
        return false;
    }
    !has_key(timers, keys, deadlines, key)
}

fn has_key(timers: MultiTimer, keys: &[u32], deadlines: &[u64], key: u32) -> bool
    requires { broken timers.count keys.now deadlines.now ≡ false }
    ensures { result ≡ is_some (lookup key (used timers keys.now deadlines.now)) }
{
    search(timers.count, keys, key).is_ok()
}

fn due_count(count: usize, deadlines: &[u64], time: u64) -> usize
    requires { count ≤ length deadlines.now }
    ensures { result ≡ due_in time (take count deadlines.now) }
{
    // Faster than filter and count, which jump at each deadline.
    let mut n = 0;
    for deadline in &deadlines[..count] {
        if time >= *deadline {
            n += 1;
        }
    }
    n
}
