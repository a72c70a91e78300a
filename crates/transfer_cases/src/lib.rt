// The lines of transfer_replay, and the answers: what doesn't run. A check that reaches `run_transfer` reads all proofs
// below it, so the program has little else.
// The form of lines is replay_io's; times are in ns, delays in ms, chances, factors and rolls are doubles. A line sets
// a part of the setup, which stays until it is set again; `r` runs. The letters, and what follows them:
//   p PROTOCOL CLOCK WINDOW CHUNK LIMIT CEILING   Stop-and-Wait (0), Go-Back-N (1) or Selective Repeat (2); the
//     source's timing (0) or the edition clock (1); window_size, chunk_size, max_virtual_time, max_retransmissions
//   c LOSS DUPLICATE REORDER CORRUPT EXTRA BASE JITTER   the forward channel
//   t INITIAL MIN MAX GRANULARITY ALPHA BETA K MULTIPLIER   the RTO's setup
//   m SENDER RECEIVER OUTPUT NOTES EVENTS RECORDS PLACES RECORDS PLACES KEYS DEADLINES   the lengths of the lent
//     slices, forward before reverse, stores and places in bytes; the most of each is below
//   f LENGTH SEED, f BYTES   the file: so many made bytes, or these
//   g COUNT KIND SEED, h COUNT KIND SEED   the forward rolls, and the reverse ones, made by making.rt
//   i AT ROLL .., j AT ROLL ..   of the forward rolls, and of the reverse ones, those from AT on are these; until the
//     next g or h
//   r                        a run on lent slices with each byte a5 and each number 5 before. Answers the refusal, or
//     `ended`, `rolls spent`, `events full` or `schedule full`, whether the run is completed, and its finishing time;
//     then, a line each and not where it is refused, the sender's fields (s), the receiver's (v), the driver's counts
//     (d), the estimator's fields (t), the forward channel's counts and the reverse one's (c); and last the lent slices
//     (l), in the order of m, as printing.rt prints them
#![tactic(auto)]

use channel::ChannelConfig;
use protocol::ProtocolType;
use replay_io::Fields;
use rto::RtoConfig;
use setup::{ClockChoice, TransferConfig};
use std::io;
use std::io::Write;

mod making;
mod printing;

pub use making::{Draws, fill_rolls};
pub use printing::{print_answer, print_end, print_lent};

// The most of what a run is given and lent: bytes of the file, rolls of each direction, bytes of each store and of the
// output, rows, records and bytes of places of each direction, timer entries.
pub const FILE: usize = 65600;

pub const ROLLS: usize = 8192;

pub const STORE: usize = 46336;

pub const OUTPUT: usize = 16384;

pub const NOTES: usize = 320;

pub const EVENTS: usize = 1024;

pub const RECORDS: usize = 320;

pub const PLACES: usize = 451204;

pub const TIMERS: usize = 64;

// The long ones among them, as functions for the reason of `replay_io::buffer`.
pub fn no_rolls() -> [f64; ROLLS] {
    [0.0f64; ROLLS]
}

pub fn marked_store() -> [u8; STORE] {
    [0xA5u8; STORE]
}

pub fn marked_output() -> [u8; OUTPUT] {
    [0xA5u8; OUTPUT]
}

pub fn marked_places() -> [u8; PLACES] {
    [0xA5u8; PLACES]
}

// The numbers of the lines p, c, t and m, the file's bytes and how many they are, and the rolls.
#[derive(Clone, Copy)]
pub struct Setup {
    pub run: [u64; 12],
    pub channel: [u64; 12],
    pub rto: [u64; 12],
    pub sizes: [u64; 12],
    pub file: [u8; FILE],
    pub file_len: usize,
    pub forward: Draws,
    pub reverse: Draws,
}

impl Setup {
    pub fn new() -> Setup {
        Setup {
            run: [0; 12],
            channel: [0; 12],
            rto: [0; 12],
            sizes: [0; 12],
            file: [0; FILE],
            file_len: 0,
            forward: Draws::new(0, 0, 0),
            reverse: Draws::new(0, 0, 0),
        }
    }

    // A line that sets a part of the setup.
    pub fn set(&mut self, writer: &mut impl Write, f: Fields, bytes: &[u8]) -> io::Result<()> {
        let v = f.values;
        match (f.letter, f.count) {
            (b'p', 6) if v[0] < 3 && v[1] < 2 => self.run = v,
            (b'c', 7) => self.channel = v,
            (b't', 8) => self.rto = v,
            (b'm', 11) if making::sizes_fit(v) => self.sizes = v,
            (b'f', 0) => {
                let n = bytes.len().min(FILE);
                self.file[..n].copy_from_slice(&bytes[..n]);
                self.file_len = n;
            }
            (b'f', 2) if v[0] <= FILE as u64 => {
                let n = v[0] as usize;
                making::fill_bytes(&mut self.file[..n], v[1]);
                self.file_len = n;
            }
            (b'g', 3) if v[0] <= ROLLS as u64 => {
                self.forward = Draws::new(v[0] as usize, v[1], v[2]);
            }
            (b'h', 3) if v[0] <= ROLLS as u64 => {
                self.reverse = Draws::new(v[0] as usize, v[1], v[2]);
            }
            (b'i', 2..=12) => self.forward = self.forward.with(v, f.count),
            (b'j', 2..=12) => self.reverse = self.reverse.with(v, f.count),
            _ => return replay_io::print_bad_line(writer),
        }
        Ok(())
    }

    pub fn config(&self) -> TransferConfig {
        let run = self.run;
        TransferConfig {
            protocol: protocol_of(run[0]),
            clock: clock_of(run[1]),
            window_size: run[2] as usize,
            chunk_size: run[3] as usize,
            channel: channel_of(self.channel),
            rto: rto_of(self.rto),
            max_virtual_time: run[4],
            max_retransmissions: run[5],
        }
    }
}

fn protocol_of(n: u64) -> ProtocolType {
    match n {
        0 => ProtocolType::StopAndWait,
        1 => ProtocolType::GoBackN,
        _ => ProtocolType::SelectiveRepeat,
    }
}

fn clock_of(n: u64) -> ClockChoice {
    match n {
        0 => ClockChoice::Source,
        _ => ClockChoice::Edition,
    }
}

fn channel_of(v: [u64; 12]) -> ChannelConfig {
    ChannelConfig {
        loss: replay_io::real(v[0]),
        duplicate: replay_io::real(v[1]),
        reorder: replay_io::real(v[2]),
        reorder_extra_ms: v[4],
        corrupt: replay_io::real(v[3]),
        base_delay_ms: v[5],
        jitter_ms: v[6],
    }
}

fn rto_of(v: [u64; 12]) -> RtoConfig {
    RtoConfig {
        initial_rto: v[0],
        min_rto: v[1],
        max_rto: v[2],
        granularity: v[3],
        alpha: replay_io::real(v[4]),
        beta: replay_io::real(v[5]),
        k: replay_io::real(v[6]),
        rto_multiplier: replay_io::real(v[7]),
    }
}
