// The setup of a run: the reference's `TransferConfig`, and what a run refuses at its start.
#![tactic(auto)]

ghost use Rattle.std.specs.Prelude.{◌≡◌, ◌||◌, ◌<◌};
ghost use Rattle.refusal.specs.Order.{verdict};
ghost use Rattle.window.specs.State.{store_short};
ghost use Rattle.path.specs.Rolls.{rolls_broken, Doubles};
ghost use Rattle.setup.specs.Setup.{stores_short, state_broken, chunks_broken, clock_broken, setup_broken};
ghost use Rattle.setup.specs.Setup.{timers_short, room_missing, start_checks, start};
ghost use Rattle.setup.specs.Setup.{is_edition, edition_times, edition_factors};

use channel::ChannelConfig;
use protocol::ProtocolType;
use refusal::Refusal;
use rto::RtoConfig;

// The source's timing, or document 01's edition clock.
#[derive(Clone, Copy)]
pub enum ClockChoice {
    Source,
    Edition,
}

// channel is the forward direction's; the reverse one has its delays and no faults.
#[derive(Clone, Copy)]
pub struct TransferConfig {
    pub protocol: ProtocolType,
    pub clock: ClockChoice,
    pub window_size: usize,
    pub chunk_size: usize,
    pub channel: ChannelConfig,
    pub rto: RtoConfig,
    pub max_virtual_time: u64,
    pub max_retransmissions: u64,
}

// The first of checks 9, 11, 4 and 5 that is true at a run's start; and what a slice of doubles is by its type.
pub fn start_verdict(
    config: TransferConfig,
    file: &[u8],
    forward_rolls: &[f64],
    reverse_rolls: &[f64],
    sender_store: &[u8],
    receiver_store: &[u8],
    output: &[u8],
    notes: &[[u64; 7]],
    keys: &[u32],
    deadlines: &[u64],
) -> Result<(), Refusal>
    ensures { (result ≡ verdict (start_checks (start config file.now forward_rolls.now
        reverse_rolls.now sender_store.now receiver_store.now
        output.now notes.now keys.now deadlines.now)))
        × Doubles forward_rolls.now × Doubles reverse_rolls.now }
{
    let state = state_broken(config, sender_store, receiver_store, keys, deadlines);
    let rolls = any_rolls_broken(forward_rolls, reverse_rolls);
    if state {
        return Err(Refusal::State);
    }
    if rolls {
        return Err(Refusal::Roll);
    }
    if setup_broken(config, file) {
        return Err(Refusal::Setup);
    }
    if room_missing(config, file, output, notes, keys) {
        return Err(Refusal::Full);
    }
    Ok(())
}

// Check 9: timer slices of unequal length, stores shorter than their slots.
#[tactic(auto, unfolding(crate::specs::Setup::state_broken))]
fn state_broken(
    config: TransferConfig,
    sender_store: &[u8],
    receiver_store: &[u8],
    keys: &[u32],
    deadlines: &[u64],
) -> bool
    ensures { result ≡ state_broken config sender_store.now receiver_store.now
        keys.now deadlines.now }
{
    keys.len() != deadlines.len()
        || stores_short(
            config.protocol,
            config.window_size,
            sender_store,
            receiver_store,
        )
}

fn stores_short(
    protocol: ProtocolType,
    window_size: usize,
    sender_store: &[u8],
    receiver_store: &[u8],
) -> bool
    ensures { result ≡ stores_short protocol window_size sender_store.now
        receiver_store.now }
{
    match protocol {
        ProtocolType::StopAndWait => window::store_short(sender_store, 1),
        ProtocolType::GoBackN => window::store_short(sender_store, window_size),
        ProtocolType::SelectiveRepeat => both_short(sender_store, receiver_store, window_size),
    }
}

fn both_short(sender_store: &[u8], receiver_store: &[u8], window_size: usize) -> bool
    ensures { result ≡ (store_short sender_store.now window_size
        || store_short receiver_store.now window_size) }
{
    window::store_short(sender_store, window_size)
        || window::store_short(receiver_store, window_size)
}

// Check 11, of all rolls, used or not.
fn any_rolls_broken(forward_rolls: &[f64], reverse_rolls: &[f64]) -> bool
    ensures { (result ≡ (rolls_broken forward_rolls.now || rolls_broken reverse_rolls.now))
        × Doubles forward_rolls.now × Doubles reverse_rolls.now }
{
    let forward = path::rolls_broken(forward_rolls);
    let reverse = path::rolls_broken(reverse_rolls);
    forward || reverse
}

// Check 4.
#[tactic(auto, unfolding(crate::specs::Setup::setup_broken))]
fn setup_broken(config: TransferConfig, file: &[u8]) -> bool
    ensures { result ≡ setup_broken config file.now }
{
    window::window_broken(config.window_size)
        || chunks_broken(file, config.chunk_size)
        || config.channel.config_broken()
        || !rto::config_in_bounds(config.rto)
        || bounds::MAX_DURATION < config.max_virtual_time
        || clock_broken(config.clock, config.protocol, config.rto)
}

fn chunks_broken(file: &[u8], chunk_size: usize) -> bool
    ensures { result ≡ chunks_broken chunk_size file.now }
{
    chunk_size < 1
        || bounds::MAX_PAYLOAD_SIZE < chunk_size
        || bounds::MAX_CHUNKS < chunks::chunk_count_unchecked(file, chunk_size)
}

fn clock_broken(clock: ClockChoice, protocol: ProtocolType, rto: RtoConfig) -> bool
    ensures { result ≡ clock_broken clock protocol rto }
{
    match clock {
        ClockChoice::Source => false,
        ClockChoice::Edition => match protocol {
            ProtocolType::StopAndWait => !is_edition(rto),
            ProtocolType::GoBackN => !is_edition(rto),
            ProtocolType::SelectiveRepeat => true,
        },
    }
}

// The numbers of the edition clock.
fn is_edition(c: RtoConfig) -> bool
    ensures { result ≡ is_edition c }
{
    edition_times(c) && edition_factors(c)
}

fn edition_times(c: RtoConfig) -> bool
    ensures { result ≡ edition_times c }
{
    c.initial_rto == 1_000_000_000
        && c.min_rto == 1_000_000_000
        && c.max_rto == 60_000_000_000
        && c.granularity == 1_000_000
}

fn edition_factors(c: RtoConfig) -> bool
    ensures { result ≡ edition_factors c }
{
    c.alpha == 0.125 && c.beta == 0.25 && c.k == 4.0 && c.rto_multiplier == 1.0
}

// Check 5.
#[tactic(auto, unfolding(crate::specs::Setup::room_missing))]
fn room_missing(
    config: TransferConfig,
    file: &[u8],
    output: &[u8],
    notes: &[[u64; 7]],
    keys: &[u32],
) -> bool
    requires { 0 < config.chunk_size }
    ensures { result ≡ room_missing config file.now output.now notes.now
        keys.now }
{
    output.len() < file.len()
        || notes.len() < chunks::chunk_count_unchecked(file, config.chunk_size)
        || timers_short(config.protocol, config.window_size, keys)
}

fn timers_short(protocol: ProtocolType, window_size: usize, keys: &[u32]) -> bool
    ensures { result ≡ timers_short protocol window_size keys.now }
{
    match protocol {
        ProtocolType::StopAndWait => false,
        ProtocolType::GoBackN => false,
        ProtocolType::SelectiveRepeat => keys.len() < window_size,
    }
}
