// The setup that numbers and doubles hold.
ghost use Rattle.std.specs.Prelude.{◌≡◌};
ghost use Rattle.host_run.specs.Setup.{channel_in, rto_in, config_in, by_clock, setup_short, read_setup, Long};

use crate::{SETUP_DOUBLES, SETUP_NUMBERS};
use channel::ChannelConfig;
use protocol::ProtocolType;
use refusal::Refusal;
use rto::RtoConfig;
use setup::{ClockChoice, TransferConfig};

pub fn read_setup(numbers: &[u64], reals: &[f64]) -> Result<TransferConfig, Refusal>
    ensures { result ≡ read_setup numbers.now reals.now }
{
    if setup_short(numbers, reals) {
        return Err(Refusal::State);
    }
    let protocol = numbers[0];
    if protocol == 1 {
        return by_clock(numbers, reals, ProtocolType::StopAndWait);
    }
    if protocol == 2 {
        return by_clock(numbers, reals, ProtocolType::GoBackN);
    }
    if protocol == 3 {
        return by_clock(numbers, reals, ProtocolType::SelectiveRepeat);
    }
    Err(Refusal::Setup)
}

fn setup_short(numbers: &[u64], reals: &[f64]) -> bool
    ensures { result ≡ setup_short numbers.now reals.now }
{
    if numbers.len() < SETUP_NUMBERS {
        return true;
    }
    if reals.len() < SETUP_DOUBLES {
        return true;
    }
    false
}

fn by_clock(
    numbers: &[u64],
    reals: &[f64],
    protocol: ProtocolType,
) -> Result<TransferConfig, Refusal>
    requires { Long numbers.now reals.now }
    ensures { result ≡ by_clock numbers.now reals.now protocol }
{
    let clock = numbers[1];
    if clock == 1 {
        return Ok(config_in(numbers, reals, protocol, ClockChoice::Source));
    }
    if clock == 2 {
        return Ok(config_in(numbers, reals, protocol, ClockChoice::Edition));
    }
    Err(Refusal::Setup)
}

fn config_in(
    numbers: &[u64],
    reals: &[f64],
    protocol: ProtocolType,
    clock: ClockChoice,
) -> TransferConfig
    requires { Long numbers.now reals.now }
    ensures { result ≡ config_in numbers.now reals.now protocol clock }
{
    let channel = channel_in(numbers, reals);
    let rto = rto_in(numbers, reals);
    TransferConfig {
        protocol,
        clock,
        window_size: numbers[2] as usize,
        chunk_size: numbers[3] as usize,
        channel,
        rto,
        max_virtual_time: numbers[11],
        max_retransmissions: numbers[12],
    }
}

fn channel_in(numbers: &[u64], reals: &[f64]) -> ChannelConfig
    requires { Long numbers.now reals.now }
    ensures { result ≡ channel_in numbers.now reals.now }
{
    ChannelConfig {
        loss: reals[0],
        duplicate: reals[1],
        reorder: reals[2],
        reorder_extra_ms: numbers[4],
        corrupt: reals[3],
        base_delay_ms: numbers[5],
        jitter_ms: numbers[6],
    }
}

fn rto_in(numbers: &[u64], reals: &[f64]) -> RtoConfig
    requires { Long numbers.now reals.now }
    ensures { result ≡ rto_in numbers.now reals.now }
{
    RtoConfig {
        initial_rto: numbers[7],
        min_rto: numbers[8],
        max_rto: numbers[9],
        granularity: numbers[10],
        alpha: reals[4],
        beta: reals[5],
        k: reals[6],
        rto_multiplier: reals[7],
    }
}
