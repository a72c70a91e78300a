// The channel: loss, duplication, reordering, corruption, delay and jitter, decided by eight rolls a packet.
// Document 01, `channel/mod.rs`.
#![tactic(auto)]

ghost use Rattle.std.specs.Prelude.{◌≡◌};
ghost use Rattle.channel.specs.Process.{new_channel, new_channel_unchecked};
ghost use Rattle.channel.specs.Process.{transit_exit, process_unchecked, CanProcess};
ghost use Rattle.channel.specs.Process.{process_exit, process};

use faults::{corrupt, counted, deliveries_of};
use refusal::Refusal;
use schedule::Deliveries;

mod checks;
mod faults;

// Chances from 0 to 1, times in milliseconds.
#[derive(Clone, Copy)]
pub struct ChannelConfig {
    pub loss: f64,
    pub duplicate: f64,
    pub reorder: f64,
    pub reorder_extra_ms: u64,
    pub corrupt: f64,
    pub base_delay_ms: u64,
    pub jitter_ms: u64,
}

#[derive(Clone, Copy)]
pub struct ChannelStats {
    pub packets_seen: u64,
    pub lost: u64,
    pub corrupted: u64,
    pub duplicated: u64,
    pub reordered: u64,
    pub copies_delivered: u64,
}

#[derive(Clone, Copy)]
pub struct Channel {
    pub config: ChannelConfig,
    pub stats: ChannelStats,
}

// The rolls of one packet, in the order in which the source draws them.
#[derive(Clone, Copy)]
pub struct Rolls {
    pub loss_roll: f64,
    pub dup_roll: f64,
    pub reorder_roll: f64,
    pub corrupt_roll: f64,
    pub byte_roll: f64,
    pub bit_roll: f64,
    pub jitter_roll: f64,
    pub dup_jitter_roll: f64,
}

#[derive(Clone, Copy)]
pub struct ProcessResult {
    pub channel: Channel,
    pub answer: Result<Deliveries, Refusal>,
}

#[derive(Clone, Copy)]
pub struct Transit {
    pub channel: Channel,
    pub deliveries: Deliveries,
}

impl Channel {
    // A channel that has seen no packet.
    pub fn new(config: ChannelConfig) -> Result<Channel, Refusal>
        ensures { result ≡ new_channel config }
    {
        if config.config_broken() {
            return Err(Refusal::Setup);
        }
        Ok(Channel::new_unchecked(config))
    }

    // Takes one packet and answers when its copies are delivered.
    pub fn process(self, packet: &[u8], rolls: Rolls, out: &mut [u8]) -> ProcessResult
        ensures { process_exit out.new result
            ≡ process self packet.now rolls out.old }
    {
        match self.process_verdict(rolls, packet.len(), out.len()) {
            Err(r) => ProcessResult {
                channel: self,
                answer: Err(r),
            },
            Ok(()) => {
                let done = self.process_unchecked(packet, rolls, out);
                let next = done.channel;
                let deliveries = done.deliveries;
                ProcessResult {
                    channel: next,
                    answer: Ok(deliveries),
                }
            }
        }
    }
}

impl Channel {
    // A channel that has seen no packet, of a setup that isn't looked at.
    pub fn new_unchecked(config: ChannelConfig) -> Channel
        ensures { result ≡ new_channel_unchecked config }
    {
        Channel {
            config: config,
            stats: ChannelStats {
                packets_seen: 0,
                lost: 0,
                corrupted: 0,
                duplicated: 0,
                reordered: 0,
                copies_delivered: 0,
            },
        }
    }

    // What becomes of one packet; the bytes of its copies are written to the front of `out`.
    pub fn process_unchecked(self, packet: &[u8], rolls: Rolls, out: &mut [u8]) -> Transit
        requires { CanProcess self packet.now rolls out.old }
        ensures { transit_exit out.new result
            ≡ process_unchecked self packet.now rolls out.old }
    {
        let config = self.config;
        let before = self.stats;
        let len = packet.len();
        let stats = counted(config, rolls, len, before);
        if config.is_lost(rolls) {
            return Transit {
                channel: Channel {
                    config: config,
                    stats: stats,
                },
                deliveries: Deliveries::Lost,
            };
        }
        octets::copy_unchecked(packet, &mut out[..len]);
        corrupt(config, rolls, &mut out[..len]);
        Transit {
            channel: Channel {
                config: config,
                stats: stats,
            },
            deliveries: deliveries_of(config, rolls),
        }
    }

    // The same where the packet lies: its bytes become those of its copies.
    pub fn process_in_place_unchecked(self, packet: &mut [u8], rolls: Rolls) -> Transit
        requires { CanProcess self packet.old rolls packet.old }
        ensures { transit_exit packet.new result
            ≡ process_unchecked self packet.old rolls packet.old }
    {
        let config = self.config;
        let before = self.stats;
        let stats = counted(config, rolls, packet.len(), before);
        corrupt(config, rolls, packet);
        Transit {
            channel: Channel {
                config: config,
                stats: stats,
            },
            deliveries: deliveries_of(config, rolls),
        }
    }
}
