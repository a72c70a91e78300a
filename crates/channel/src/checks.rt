// The checks of a channel's calls.
ghost use Rattle.std.specs.Prelude.{◌≡◌, not, ◌||◌};
ghost use Rattle.refusal.specs.Order.{verdict};
ghost use Rattle.channel.specs.Bounds.{chances_broken, delays_broken, config_broken, any_count_full, stats_full};
ghost use Rattle.channel.specs.Bounds.{any_roll_broken, rolls_broken};
ghost use Rattle.channel.specs.Process.{out_short, process_checks};

use super::{Channel, ChannelConfig, ChannelStats, Rolls};
use bounds::{COUNT_LIMIT, MAX_DATAGRAM_SIZE};
use refusal::Refusal;

impl Channel {
    // The checks of `process`, of a packet of `len` bytes and a buffer of `size`.
    pub(super) fn process_verdict(
        self,
        rolls: Rolls,
        len: usize,
        size: usize,
    ) -> Result<(), Refusal>
        ensures { result ≡ verdict (process_checks self rolls len size) }
    {
        let config = self.config;
        if config.config_broken() {
            return Err(Refusal::State);
        }
        let stats = self.stats;
        if stats.stats_full() {
            return Err(Refusal::Counts);
        }
        if rolls.rolls_broken() {
            return Err(Refusal::Roll);
        }
        if MAX_DATAGRAM_SIZE < len {
            return Err(Refusal::Long);
        }
        if self.out_short(rolls, len, size) {
            return Err(Refusal::Full);
        }
        Ok(())
    }

    // Check 5.
    fn out_short(self, rolls: Rolls, len: usize, size: usize) -> bool
        ensures { result ≡ out_short self rolls len size }
    {
        let config = self.config;
        if config.is_lost(rolls) {
            return false;
        }
        size < len
    }
}

impl ChannelConfig {
    // A bound of a setup is broken.
    #[tactic(auto, unfolding(crate::specs::Bounds::config_broken))]
    pub fn config_broken(self) -> bool
        ensures { result ≡ config_broken self }
    {
        chances_broken(self.loss, self.duplicate, self.reorder, self.corrupt)
            || delays_broken(self.reorder_extra_ms, self.base_delay_ms, self.jitter_ms)
    }
}

impl ChannelStats {
    // A counter is too high to be raised.
    #[tactic(auto, unfolding(crate::specs::Bounds::stats_full))]
    fn stats_full(self) -> bool
        ensures { result ≡ stats_full self }
    {
        any_count_full(self.packets_seen, self.lost, self.corrupted)
            || any_count_full(self.duplicated, self.reordered, self.copies_delivered)
    }
}

impl Rolls {
    #[tactic(auto, unfolding(crate::specs::Bounds::rolls_broken))]
    fn rolls_broken(self) -> bool
        ensures { result ≡ rolls_broken self }
    {
        any_roll_broken(
            self.loss_roll,
            self.dup_roll,
            self.reorder_roll,
            self.corrupt_roll,
        ) || any_roll_broken(
            self.byte_roll,
            self.bit_roll,
            self.jitter_roll,
            self.dup_jitter_roll,
        )
    }
}

fn any_false(a: bool, b: bool, c: bool, d: bool) -> bool
    ensures { result ≡ (not a || (not b || (not c || not d))) }
{
    !a || !b || !c || !d
}

fn chances_broken(a: f64, b: f64, c: f64, d: f64) -> bool
    ensures { result ≡ chances_broken a b c d }
{
    any_false(
        float::chance_in_bounds(a),
        float::chance_in_bounds(b),
        float::chance_in_bounds(c),
        float::chance_in_bounds(d),
    )
}

fn delays_broken(a: u64, b: u64, c: u64) -> bool
    ensures { result ≡ delays_broken a b c }
{
    bounds::MAX_SETUP_DELAY < a || bounds::MAX_SETUP_DELAY < b || bounds::MAX_SETUP_DELAY < c
}

fn any_count_full(a: u64, b: u64, c: u64) -> bool
    ensures { result ≡ any_count_full a b c }
{
    COUNT_LIMIT <= a || COUNT_LIMIT <= b || COUNT_LIMIT <= c
}

fn any_roll_broken(a: f64, b: f64, c: f64, d: f64) -> bool
    ensures { result ≡ any_roll_broken a b c d }
{
    any_false(
        float::roll_in_bounds(a),
        float::roll_in_bounds(b),
        float::roll_in_bounds(c),
        float::roll_in_bounds(d),
    )
}
