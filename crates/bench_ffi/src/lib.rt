// For comparison and benchmark, not for hosts: what crates/pindrelo doesn't export, by numbers and slices. No contract
// says what is answered: the answers are compared. An export named `_unchecked` is for a caller who keeps what it
// requires; one named `_each` makes a call many times, as the inner call beside which an export is timed.
#![tactic(auto)]

mod channels;
mod ends;
mod packets;
mod timing;

// A place past the slice is read as 0.
pub fn at(s: &[u64], i: usize) -> u64 {
    if i < s.len() { s[i] } else { 0 }
}

// A place past the slice isn't written.
pub fn put(s: &mut [u64], i: usize, n: u64) {
    if i < s.len() {
        s[i] = n;
    }
}

// An answer as a host's: done with a value.
pub fn done(value: u64) -> u64 {
    host_answer::pack_unchecked(host_answer::DONE, value)
}
