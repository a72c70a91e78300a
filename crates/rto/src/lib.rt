// The RTO estimator of RFC 6298 by value: the reference's timing/rto.rs on nanoseconds.
#![tactic(auto)]

ghost use Rattle.std.specs.Prelude.{◌≡◌, ◌≤◌, min, max, true, false, ◌||◌, [], ◌∷◌, nat_lt};
ghost use Rattle.refusal.specs.Order.{check, verdict};
ghost use Rattle.refusal.specs.declared.Refusal.TheVariants.{State, Counts, Time};
ghost use Rattle.bounds.specs.Bounds.{max_duration, max_estimate};
ghost use Rattle.rto.specs.Rto.{durations_in_bounds, factors_in_bounds, config_in_bounds};
ghost use Rattle.rto.specs.Rto.{estimate_broken, state_broken, counts_full, rtt_too_long, held_too_long};
ghost use Rattle.rto.specs.Rto.{sample_too_long};
ghost use Rattle.rto.specs.Rto.{default_config, no_stats, fresh, first_of, next_of, estimate_for, min_rtt, max_rtt};
ghost use Rattle.rto.specs.Rto.{sampled, accept_sample, reject_sample};
ghost use Rattle.rto.specs.Rto.{update_rtt_unchecked, on_timeout_unchecked, reset_backoff_unchecked};
ghost use Rattle.rto.specs.Rto.{mean_rtt_ms_unchecked, with_config, update_rtt, on_timeout, reset_backoff};
ghost use Rattle.rto.specs.Rto.{has_exceeded_retry_limit, mean_rtt_ms};

use bounds::{COUNT_LIMIT, MAX_DURATION, MAX_ESTIMATE, MAX_GRANULARITY};
use refusal::Refusal;
use rtt::Estimate;

#[derive(Clone, Copy)]
pub struct RtoConfig {
    pub initial_rto: u64,
    pub min_rto: u64,
    pub max_rto: u64,
    pub granularity: u64,
    pub alpha: f64,
    pub beta: f64,
    pub k: f64,
    pub rto_multiplier: f64,
}

#[derive(Clone, Copy)]
pub struct RtoStats {
    pub sample_count: u64,
    pub karn_rejected_count: u64,
    pub timeout_count: u64,
    pub backoff_count: u64,
    pub min_rtt: Option<u64>,
    pub max_rtt: Option<u64>,
    pub sum_rtt_millis: f64,
    pub latest_rtt: Option<u64>,
    pub max_consecutive_timeouts: u32,
}

#[derive(Clone, Copy)]
pub struct RtoEstimator {
    pub config: RtoConfig,
    pub srtt: Option<u64>,
    pub rttvar: Option<u64>,
    pub current_rto: u64,
    pub base_rto: u64,
    pub in_backoff: bool,
    pub consecutive_timeouts: u32,
    pub stats: RtoStats,
}

#[derive(Clone, Copy)]
pub struct UpdateResult {
    pub estimator: RtoEstimator,
    pub answer: Result<bool, Refusal>,
}

#[derive(Clone, Copy)]
pub struct TimeoutResult {
    pub estimator: RtoEstimator,
    pub answer: Result<u64, Refusal>,
}

#[derive(Clone, Copy)]
pub struct ResetResult {
    pub estimator: RtoEstimator,
    pub answer: Result<(), Refusal>,
}

#[tactic(auto, unfolding(crate::specs::Rto::config_in_bounds))]
pub fn config_in_bounds(c: RtoConfig) -> bool
    ensures { result ≡ config_in_bounds c }
{
    durations_in_bounds(c) && factors_in_bounds(c)
}

impl RtoConfig {
    pub fn default() -> RtoConfig
        ensures { result ≡ default_config }
    {
        RtoConfig {
            initial_rto: 1_000_000_000,
            min_rto: 200_000_000,
            max_rto: 60_000_000_000,
            granularity: 1_000_000,
            alpha: 0.125,
            beta: 0.25,
            k: 4.0,
            rto_multiplier: 1.0,
        }
    }
}

impl RtoEstimator {
    pub fn new() -> RtoEstimator
        ensures { result ≡ fresh default_config }
    {
        RtoEstimator::with_config_unchecked(RtoConfig::default())
    }

    pub fn with_config(config: RtoConfig) -> Result<RtoEstimator, Refusal>
        ensures { result ≡ with_config config }
    {
        if !config_in_bounds(config) {
            return Err(Refusal::Setup);
        }
        Ok(RtoEstimator::with_config_unchecked(config))
    }

    // Whether the sample was used: a retransmitted one is not.
    pub fn update_rtt(self, sample: u64, is_retransmission: bool) -> UpdateResult
        ensures { result ≡ update_rtt self sample is_retransmission }
    {
        let stats = self.stats;
        match call_verdict(
            state_broken(self),
            counts_full(stats),
            sample_too_long(self, sample),
        ) {
            Err(r) => UpdateResult {
                estimator: self,
                answer: Err(r),
            },
            Ok(()) => UpdateResult {
                estimator: self.update_rtt_unchecked(sample, is_retransmission),
                answer: Ok(!is_retransmission),
            },
        }
    }

    // Doubles the RTO, within its limits.
    pub fn on_timeout(self) -> TimeoutResult
        ensures { result ≡ on_timeout self }
    {
        let stats = self.stats;
        match call_verdict(state_broken(self), counts_full(stats), held_too_long(self)) {
            Err(r) => TimeoutResult {
                estimator: self,
                answer: Err(r),
            },
            Ok(()) => {
                let e = self.on_timeout_unchecked();
                TimeoutResult {
                    estimator: e,
                    answer: Ok(e.current_rto),
                }
            }
        }
    }

    pub fn reset_backoff(self) -> ResetResult
        ensures { result ≡ reset_backoff self }
    {
        let stats = self.stats;
        match call_verdict(state_broken(self), counts_full(stats), held_too_long(self)) {
            Err(r) => ResetResult {
                estimator: self,
                answer: Err(r),
            },
            Ok(()) => ResetResult {
                estimator: self.reset_backoff_unchecked(),
                answer: Ok(()),
            },
        }
    }

    pub fn has_exceeded_retry_limit(self, max_retries: u32) -> Result<bool, Refusal>
        ensures { result ≡ has_exceeded_retry_limit self max_retries }
    {
        let stats = self.stats;
        call_verdict(state_broken(self), counts_full(stats), held_too_long(self))?;
        Ok(self.consecutive_timeouts >= max_retries)
    }

    pub fn mean_rtt_ms(self) -> Result<f64, Refusal>
        ensures { result ≡ mean_rtt_ms self }
    {
        let stats = self.stats;
        call_verdict(state_broken(self), counts_full(stats), held_too_long(self))?;
        Ok(self.mean_rtt_ms_unchecked())
    }

    // The initial RTO is not clamped.
    pub fn with_config_unchecked(config: RtoConfig) -> RtoEstimator
        ensures { result ≡ fresh config }
    {
        RtoEstimator {
            config,
            srtt: None,
            rttvar: None,
            current_rto: config.initial_rto,
            base_rto: config.initial_rto,
            in_backoff: false,
            consecutive_timeouts: 0,
            stats: no_stats(),
        }
    }

    pub fn update_rtt_unchecked(self, sample: u64, is_retransmission: bool) -> RtoEstimator
        requires { (state_broken self ≡ false) × (counts_full self.stats ≡ false) × (sample ≤ max_duration) }
        ensures { result ≡ update_rtt_unchecked self sample is_retransmission }
    {
        if is_retransmission {
            return reject_sample(self);
        }
        accept_sample(self, sample)
    }

    pub fn on_timeout_unchecked(self) -> RtoEstimator
        requires { (counts_full self.stats ≡ false) × (self.current_rto ≤ max_duration) }
        ensures { result ≡ on_timeout_unchecked self }
    {
        let n = self.consecutive_timeouts.saturating_add(1);
        let mut stats = self.stats;
        stats.timeout_count += 1;
        stats.backoff_count += 1;
        stats.max_consecutive_timeouts = stats.max_consecutive_timeouts.max(n);
        let mut e = self;
        e.current_rto = limit(
            self.current_rto * 2,
            self.config.min_rto,
            self.config.max_rto,
        );
        e.in_backoff = true;
        e.consecutive_timeouts = n;
        e.stats = stats;
        e
    }

    // Back to the RTO before any timeout, as it was made: an initial RTO is not clamped here.
    pub fn reset_backoff_unchecked(self) -> RtoEstimator
        ensures { result ≡ reset_backoff_unchecked self }
    {
        let mut e = self;
        e.current_rto = e.base_rto;
        e.in_backoff = false;
        e.consecutive_timeouts = 0;
        e
    }

    pub fn mean_rtt_ms_unchecked(self) -> f64
        ensures { result ≡ mean_rtt_ms_unchecked self.stats }
    {
        let stats = self.stats;
        if stats.sample_count == 0 {
            return 0.0;
        }
        stats.sum_rtt_millis / std::num::nearest_u64_to_f64(stats.sample_count)
    }
}

// Checks 9, 8 and 10 in their order. It takes their results: one that looked at the estimator itself was too large to
// be inlined, and update_rtt took half as long again.
fn call_verdict(broken: bool, full: bool, late: bool) -> Result<(), Refusal>
    ensures { result ≡ verdict (check broken State ∷ check full Counts ∷ check late Time ∷ []) }
{
    if broken {
        return Err(Refusal::State);
    }
    if full {
        return Err(Refusal::Counts);
    }
    if late {
        return Err(Refusal::Time);
    }
    Ok(())
}

fn durations_in_bounds(c: RtoConfig) -> bool
    ensures { result ≡ durations_in_bounds c }
{
    c.initial_rto <= MAX_DURATION
        && c.min_rto <= MAX_DURATION
        && c.max_rto <= MAX_DURATION
        && c.granularity <= MAX_GRANULARITY
        && c.min_rto <= c.max_rto
}

fn factors_in_bounds(c: RtoConfig) -> bool
    ensures { result ≡ factors_in_bounds c }
{
    float::chance_in_bounds(c.alpha)
        && float::chance_in_bounds(c.beta)
        && rtt::factor_in_bounds(c.k)
        && rtt::factor_in_bounds(c.rto_multiplier)
}

#[tactic(auto, unfolding(crate::specs::Rto::state_broken))]
fn state_broken(e: RtoEstimator) -> bool
    ensures { result ≡ state_broken e }
{
    !config_in_bounds(e.config) || estimate_broken(e.srtt, e.rttvar)
}

fn estimate_broken(srtt: Option<u64>, rttvar: Option<u64>) -> bool
    ensures { result ≡ estimate_broken srtt rttvar }
{
    match srtt {
        None => match rttvar {
            None => false,
            Some(_) => true,
        },
        Some(s) => match rttvar {
            None => true,
            Some(v) => too_large(s, v),
        },
    }
}

fn too_large(srtt: u64, rttvar: u64) -> bool
    ensures { result ≡ nat_lt max_estimate srtt || nat_lt max_estimate rttvar }
{
    srtt > MAX_ESTIMATE || rttvar > MAX_ESTIMATE
}

#[tactic(auto, unfolding(crate::specs::Rto::counts_full))]
fn counts_full(s: RtoStats) -> bool
    ensures { result ≡ counts_full s }
{
    s.sample_count >= COUNT_LIMIT
        || s.karn_rejected_count >= COUNT_LIMIT
        || s.timeout_count >= COUNT_LIMIT
        || s.backoff_count >= COUNT_LIMIT
}

#[tactic(auto, unfolding(crate::specs::Rto::held_too_long))]
fn held_too_long(e: RtoEstimator) -> bool
    ensures { result ≡ held_too_long e }
{
    e.current_rto > MAX_DURATION
        || e.base_rto > MAX_DURATION
        || rtt_too_long(e.stats.min_rtt)
        || rtt_too_long(e.stats.max_rtt)
        || rtt_too_long(e.stats.latest_rtt)
}

fn sample_too_long(e: RtoEstimator, sample: u64) -> bool
    ensures { result ≡ sample_too_long e sample }
{
    held_too_long(e) || sample > MAX_DURATION
}

fn rtt_too_long(r: Option<u64>) -> bool
    ensures { result ≡ rtt_too_long r }
{
    match r {
        None => false,
        Some(d) => d > MAX_DURATION,
    }
}

fn accept_sample(e: RtoEstimator, sample: u64) -> RtoEstimator
    requires { (state_broken e ≡ false) × (counts_full e.stats ≡ false) × (sample ≤ max_duration) }
    ensures { result ≡ accept_sample e sample }
{
    let config = e.config;
    let srtt = e.srtt;
    let rttvar = e.rttvar;
    let stats = e.stats;
    let x = estimate_for(config, srtt, rttvar, sample);
    let rto = limit(x.rto, config.min_rto, config.max_rto);
    RtoEstimator {
        config,
        srtt: Some(x.srtt),
        rttvar: Some(x.rttvar),
        current_rto: rto,
        base_rto: rto,
        in_backoff: false,
        consecutive_timeouts: 0,
        stats: stats_with_sample(stats, sample),
    }
}

// Karn's algorithm: a retransmitted sample is only counted.
fn reject_sample(e: RtoEstimator) -> RtoEstimator
    requires { counts_full e.stats ≡ false }
    ensures { result ≡ reject_sample e }
{
    let mut stats = e.stats;
    stats.karn_rejected_count += 1;
    let mut after = e;
    after.stats = stats;
    after
}

fn estimate_for(c: RtoConfig, srtt: Option<u64>, rttvar: Option<u64>, sample: u64) -> Estimate
    requires { (config_in_bounds c ≡ true) × (estimate_broken srtt rttvar ≡ false) × (sample ≤ max_duration) }
    ensures { result ≡ estimate_for c srtt rttvar sample }
{
    match srtt {
        None => first_estimate(c, sample),
        Some(s) => match rttvar {
            None => first_estimate(c, sample),
            Some(v) => next_estimate(c, s, v, sample),
        },
    }
}

fn first_estimate(c: RtoConfig, sample: u64) -> Estimate
    requires { (config_in_bounds c ≡ true) × (sample ≤ max_duration) }
    ensures { result ≡ first_of c sample }
{
    rtt::first_estimate_unchecked(c.k, c.rto_multiplier, c.granularity, sample)
}

fn next_estimate(c: RtoConfig, srtt: u64, rttvar: u64, sample: u64) -> Estimate
    requires { (config_in_bounds c ≡ true) × (srtt ≤ max_estimate) × (rttvar ≤ max_estimate)
        × (sample ≤ max_duration) }
    ensures { result ≡ next_of c srtt rttvar sample }
{
    rtt::next_estimate_unchecked(
        c.alpha,
        c.beta,
        c.k,
        c.rto_multiplier,
        c.granularity,
        srtt,
        rttvar,
        sample,
    )
}

fn stats_with_sample(s: RtoStats, sample: u64) -> RtoStats
    requires { counts_full s ≡ false }
    ensures { result ≡ sampled s sample }
{
    let shortest = s.min_rtt;
    let longest = s.max_rtt;
    RtoStats {
        sample_count: s.sample_count + 1,
        karn_rejected_count: s.karn_rejected_count,
        timeout_count: s.timeout_count,
        backoff_count: s.backoff_count,
        min_rtt: min_rtt(shortest, sample),
        max_rtt: max_rtt(longest, sample),
        sum_rtt_millis: s.sum_rtt_millis + rtt::to_ms(sample),
        latest_rtt: Some(sample),
        max_consecutive_timeouts: s.max_consecutive_timeouts,
    }
}

fn no_stats() -> RtoStats
    ensures { result ≡ no_stats }
{
    RtoStats {
        sample_count: 0,
        karn_rejected_count: 0,
        timeout_count: 0,
        backoff_count: 0,
        min_rtt: None,
        max_rtt: None,
        sum_rtt_millis: 0.0,
        latest_rtt: None,
        max_consecutive_timeouts: 0,
    }
}

fn min_rtt(r: Option<u64>, d: u64) -> Option<u64>
    ensures { result ≡ min_rtt r d }
{
    match r {
        None => Some(d),
        Some(m) => Some(m.min(d)),
    }
}

fn max_rtt(r: Option<u64>, d: u64) -> Option<u64>
    ensures { result ≡ max_rtt r d }
{
    match r {
        None => Some(d),
        Some(m) => Some(m.max(d)),
    }
}

fn limit(rto: u64, min_rto: u64, max_rto: u64) -> u64
    ensures { result ≡ min (max rto min_rto) max_rto }
{
    rto.max(min_rto).min(max_rto)
}
