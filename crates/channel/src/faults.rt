// What the setup, the rolls and the length decide about a packet.
ghost use Rattle.std.specs.Prelude.{◌≡◌, false, ◌≤◌, ◌<◌, T, length};
ghost use Rattle.bounds.specs.Bounds.{max_datagram, max_delivery_delay, max_setup_delay};
ghost use Rattle.octets.specs.Flip.{flip};
ghost use Rattle.float.specs.Roll.{roll_in_bounds};
ghost use Rattle.schedule.specs.State.{copies};
ghost use Rattle.channel.specs.Bounds.{config_broken, stats_full, rolls_broken};
ghost use Rattle.channel.specs.Faults.{is_lost, is_duplicated, is_reordered, is_corrupted, carried_bytes};
ghost use Rattle.channel.specs.Faults.{hold_of, delay_of, deliveries_of};
ghost use Rattle.channel.specs.Process.{counted_stats};

use super::{ChannelConfig, ChannelStats, Rolls};
use schedule::Deliveries;

impl ChannelConfig {
    pub(super) fn is_lost(self, rolls: Rolls) -> bool
        ensures { result ≡ is_lost self rolls }
    {
        rolls.loss_roll < self.loss
    }

    fn is_duplicated(self, rolls: Rolls) -> bool
        ensures { result ≡ is_duplicated self rolls }
    {
        if rolls.loss_roll < self.loss {
            return false;
        }
        rolls.dup_roll < self.duplicate
    }

    fn is_reordered(self, rolls: Rolls) -> bool
        ensures { result ≡ is_reordered self rolls }
    {
        if rolls.loss_roll < self.loss {
            return false;
        }
        rolls.reorder_roll < self.reorder
    }

    fn is_corrupted(self, rolls: Rolls, len: usize) -> bool
        ensures { result ≡ is_corrupted self rolls len }
    {
        if rolls.loss_roll < self.loss {
            return false;
        }
        if rolls.corrupt_roll < self.corrupt {
            return 0 < len;
        }
        false
    }
}

pub(super) fn deliveries_of(config: ChannelConfig, rolls: Rolls) -> Deliveries
    requires { (config_broken config ≡ false) × (rolls_broken rolls ≡ false) }
    ensures { result ≡ deliveries_of config rolls }
{
    if config.is_lost(rolls) {
        return Deliveries::Lost;
    }
    let first = delay_of(config, rolls, rolls.jitter_roll);
    if config.is_duplicated(rolls) {
        return Deliveries::Two(first, delay_of(config, rolls, rolls.dup_jitter_roll));
    }
    Deliveries::One(first)
}

// The counters after a packet of `len` bytes.
pub(super) fn counted(
    config: ChannelConfig,
    rolls: Rolls,
    len: usize,
    stats: ChannelStats,
) -> ChannelStats
    requires { stats_full stats ≡ false }
    ensures { result ≡ counted_stats config rolls len stats }
{
    ChannelStats {
        packets_seen: stats.packets_seen + 1,
        lost: stats.lost + u64::from(config.is_lost(rolls)),
        corrupted: stats.corrupted + u64::from(config.is_corrupted(rolls, len)),
        duplicated: stats.duplicated + u64::from(config.is_duplicated(rolls)),
        reordered: stats.reordered + u64::from(config.is_reordered(rolls)),
        copies_delivered: stats.copies_delivered + granted(config, rolls),
    }
}

// Corrupts a packet, if the rolls say so.
pub(super) fn corrupt(config: ChannelConfig, rolls: Rolls, d: &mut [u8])
    requires { (length d.old ≤ max_datagram) × (rolls_broken rolls ≡ false) }
    ensures { d.new ≡ carried_bytes config rolls d.old }
{
    let len = d.len();
    if config.is_corrupted(rolls, len) {
        let byte = float::index_unchecked(rolls.byte_roll, len);
        let bit = float::scaled_unchecked(rolls.bit_roll, 8);
        flip_bit(d, byte, bit as u32);
    }
}

// Base, jitter and hold.
fn delay_of(config: ChannelConfig, rolls: Rolls, roll: f64) -> u64
    requires { (config_broken config ≡ false) × T (roll_in_bounds roll) }
    ensures { (result ≡ delay_of config rolls roll) × (result ≤ max_delivery_delay) }
{
    config.base_delay_ms
        + float::scaled_unchecked(roll, config.jitter_ms + 1)
        + hold_of(config, rolls)
}

// The extra delay of a copy that is held back.
fn hold_of(config: ChannelConfig, rolls: Rolls) -> u64
    requires { config_broken config ≡ false }
    ensures { (result ≡ hold_of config rolls) × (result ≤ max_setup_delay) }
{
    if config.is_reordered(rolls) {
        return config.reorder_extra_ms;
    }
    0
}

// How many copies the rolls grant.
fn granted(config: ChannelConfig, rolls: Rolls) -> u64
    ensures { result ≡ copies (deliveries_of config rolls) }
{
    if config.is_lost(rolls) {
        return 0;
    }
    if config.is_duplicated(rolls) {
        return 2;
    }
    1
}

// Turns over bit `bit` of byte `byte`.
fn flip_bit(d: &mut [u8], byte: usize, bit: u32)
    requires { (byte < length d.old) × (bit < 8) }
    ensures { d.new ≡ flip d.old byte bit }
{
    let mask: u8 = 1 << bit;
    d[byte] ^= mask;
}
