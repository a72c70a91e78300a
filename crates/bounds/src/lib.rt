// Every bound of document 01 by name; specs/Bounds.antt has the same for definitions.
#![tactic(auto)]

// Bytes of a header, of a payload and of a datagram at most, of a slot, of a place in the schedule's store.
pub const HEADER_SIZE: usize = 10;

pub const MAX_PAYLOAD_SIZE: usize = 1400;

pub const MAX_DATAGRAM_SIZE: usize = 1410;

pub const SLOT_SIZE: usize = 1404;

pub const PLACE_SIZE: usize = 1410;

pub const MAX_WINDOW_SIZE: usize = 32;

pub const MAX_CHUNKS: usize = 65_536;

// A chunk never has this number or a higher one.
pub const SEQ_NUM_LIMIT: u32 = 4_294_901_760;

// 2^60: a counter at this value or above it is refused.
pub const COUNT_LIMIT: u64 = 1_152_921_504_606_846_976;

// Nanoseconds: 86,400 s, 172,800 s, 86,401 s and 1 s.
pub const MAX_DURATION: u64 = 86_400_000_000_000;

pub const MAX_TIME: u64 = 172_800_000_000_000;

pub const MAX_ESTIMATE: u64 = 86_401_000_000_000;

pub const MAX_GRANULARITY: u64 = 1_000_000_000;

// Milliseconds: each delay of a setup, the delay of a delivery.
pub const MAX_SETUP_DELAY: u64 = 60_000;

pub const MAX_DELIVERY_DELAY: u64 = 180_000;
