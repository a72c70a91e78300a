// What the lines of the replay make: rolls and a file. compare/transfer.rs makes the same.
use super::{EVENTS, NOTES, OUTPUT, PLACES, RECORDS, STORE, TIMERS};

// Rolls: how many, by which rule, from which seed; and literals, the first of which says where they go.
#[derive(Clone, Copy)]
pub struct Draws {
    pub count: usize,
    pub kind: u64,
    pub seed: u64,
    pub literal: [u64; 12],
    pub literals: usize,
}

impl Draws {
    pub fn new(count: usize, kind: u64, seed: u64) -> Draws {
        Draws {
            count,
            kind,
            seed,
            literal: [0; 12],
            literals: 0,
        }
    }

    // With these literals.
    pub fn with(self, literal: [u64; 12], literals: usize) -> Draws {
        Draws {
            literal,
            literals,
            ..self
        }
    }
}

// How much a line m may lend at most, in its order.
fn capacity(i: usize) -> usize {
    match i {
        0 => STORE,
        1 => STORE,
        2 => OUTPUT,
        3 => NOTES,
        4 => EVENTS,
        5 => RECORDS,
        6 => PLACES,
        7 => RECORDS,
        8 => PLACES,
        9 => TIMERS,
        _ => TIMERS,
    }
}

pub fn sizes_fit(v: [u64; 12]) -> bool {
    for i in 0..11 {
        if (capacity(i) as u64) < v[i] {
            return false;
        }
    }
    true
}

// Never 0.
fn started(seed: u64) -> u64 {
    let x = std::num::wrapping_add_u64(seed, 0x9E37_79B9_7F4A_7C15);
    if x == 0 { 1 } else { x }
}

// Marsaglia's xorshift, 13, 7, 17: the next of 2^64 - 1 numbers.
fn shifted(x: u64) -> u64 {
    let a = x ^ (x << 13);
    let b = a ^ (a >> 7);
    b ^ (b << 17)
}

// Kind 0: evenly spread; 1: edges among them; 2: the double of the seed's bits.
fn roll_of(kind: u64, seed: u64, x: u64) -> f64 {
    match kind {
        0 => float::roll_from_bits(x),
        1 => edge_roll(x),
        _ => replay_io::real(seed),
    }
}

// 0, the highest, -0, the lowest above 0, a multiple of 1/64, or any.
fn edge_roll(x: u64) -> f64 {
    match x % 8 {
        0 => 0.0,
        1 => replay_io::real(0x3FEF_FFFF_FFFF_FFFF),
        2 => replay_io::real(0x8000_0000_0000_0000),
        3 => replay_io::real(1),
        4 => float::roll_from_bits((x >> 58) << 58),
        5 => float::roll_from_bits((x >> 58) << 58),
        _ => float::roll_from_bits(x),
    }
}

pub fn fill_rolls(rolls: &mut [f64], d: Draws) {
    make_rolls(rolls, d.kind, d.seed);
    put_literals(rolls, d.literal, d.literals);
}

fn make_rolls(rolls: &mut [f64], kind: u64, seed: u64) {
    let mut x = started(seed);
    for roll in rolls.iter_mut() {
        x = shifted(x);
        *roll = roll_of(kind, seed, x);
    }
}

// The rolls from the first number on, as many as are given and have a place.
fn put_literals(rolls: &mut [f64], literal: [u64; 12], literals: usize) {
    let mut at = literal[0] as usize;
    for i in 1..12 {
        if literals <= i || rolls.len() <= at {
            return;
        }
        rolls[at] = replay_io::real(literal[i]);
        at += 1;
    }
}

pub fn fill_bytes(bytes: &mut [u8], seed: u64) {
    let mut x = started(seed);
    for byte in bytes.iter_mut() {
        x = shifted(x);
        *byte = (x % 256) as u8;
    }
}
