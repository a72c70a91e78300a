// RFC 6298's estimates on nanoseconds, worked out in doubles of milliseconds.
#![tactic(auto)]

ghost use Rattle.std.specs.Prelude.{◌≡◌, ◌≤◌, T};
ghost use Rattle.std.specs.Float.{binary64};
ghost use Rattle.std.specs.Float.Ieee.{div};
ghost use Rattle.bounds.specs.Bounds.{max_duration, max_estimate, max_granularity};
ghost use Rattle.float.specs.Sign.{unsigned};
ghost use Rattle.float.specs.Roll.{chance_in_bounds};
ghost use Rattle.duration.specs.Duration.{secs_in_bounds};
ghost use Rattle.rtt.specs.Rtt as Rtt;
ghost use Rattle.rtt.specs.Rtt.{thousand64, factor_in_bounds, to_ms, from_ms, rto_ms};
ghost use Rattle.rtt.specs.Rtt.{unlimited_ms, estimate_of, first_estimate, next_estimate};

// SRTT and RTTVAR in nanoseconds, and the RTO before its limits.
#[derive(Clone, Copy)]
pub struct Estimate {
    pub srtt: u64,
    pub rttvar: u64,
    pub rto: u64,
}

// 0 <= x <= 16; -0.0 is in bounds, a NaN is not.
pub fn factor_in_bounds(x: f64) -> bool
    ensures { result ≡ factor_in_bounds x }
{
    x >= 0.0 && x <= 16.0
}

pub fn to_ms(ns: u64) -> f64
    ensures { result ≡ to_ms ns }
{
    duration::as_secs_f64(ns) * 1000.0
}

pub fn first_estimate_unchecked(k: f64, multiplier: f64, granularity: u64, sample: u64) -> Estimate
    requires { T (factor_in_bounds k) × T (factor_in_bounds multiplier) × (granularity ≤ max_granularity)
        × (sample ≤ max_duration) }
    ensures { result ≡ first_estimate k multiplier granularity sample }
{
    let sample_ms = to_ms(sample);
    estimate_from(k, multiplier, granularity, sample_ms, sample_ms / 2.0)
}

// RTTVAR first, from the old SRTT.
pub fn next_estimate_unchecked(
    alpha: f64,
    beta: f64,
    k: f64,
    multiplier: f64,
    granularity: u64,
    srtt: u64,
    rttvar: u64,
    sample: u64,
) -> Estimate
    requires { T (chance_in_bounds alpha) × T (chance_in_bounds beta) × T (factor_in_bounds k)
        × T (factor_in_bounds multiplier) × (granularity ≤ max_granularity) × (srtt ≤ max_estimate)
        × (rttvar ≤ max_estimate) × (sample ≤ max_duration) }
    ensures { result ≡ next_estimate alpha beta k multiplier granularity srtt rttvar sample }
{
    let sample_ms = to_ms(sample);
    let srtt_ms = to_ms(srtt);
    let new_rttvar_ms = weighted(beta, to_ms(rttvar), distance(srtt_ms, sample_ms));
    let new_srtt_ms = weighted(alpha, srtt_ms, sample_ms);
    estimate_from(k, multiplier, granularity, new_srtt_ms, new_rttvar_ms)
}

fn estimate_from(
    k: f64,
    multiplier: f64,
    granularity: u64,
    srtt_ms: f64,
    rttvar_ms: f64,
) -> Estimate
    requires { T (secs_in_bounds (div binary64 srtt_ms thousand64))
        × T (secs_in_bounds (div binary64 rttvar_ms thousand64))
        × T (secs_in_bounds (div binary64 (unlimited_ms k multiplier granularity srtt_ms rttvar_ms) thousand64)) }
    ensures { result ≡ estimate_of k multiplier granularity srtt_ms rttvar_ms }
{
    let rto = from_ms(rto_ms(k, granularity, srtt_ms, rttvar_ms) * multiplier);
    Estimate {
        srtt: from_ms(srtt_ms),
        rttvar: from_ms(rttvar_ms),
        rto,
    }
}

// The RTO in ms before its limits.
fn rto_ms(k: f64, granularity: u64, srtt_ms: f64, rttvar_ms: f64) -> f64
    ensures { result ≡ rto_ms k granularity srtt_ms rttvar_ms }
{
    srtt_ms + larger(k * rttvar_ms, to_ms(granularity))
}

fn weighted(w: f64, x: f64, y: f64) -> f64
    ensures { result ≡ Rtt.weighted w x y }
{
    (1.0 - w) * x + w * y
}

// Both without a sign.
fn distance(x: f64, y: f64) -> f64
    requires { T (unsigned x) × T (unsigned y) }
    ensures { result ≡ Rtt.distance x y }
{
    (x - y).abs()
}

// Not `x.max(y)`, whose contract leaves open which of two equal doubles it gives.
fn larger(x: f64, y: f64) -> f64
    ensures { result ≡ Rtt.larger x y }
{
    if x < y { y } else { x }
}

fn from_ms(x: f64) -> u64
    requires { T (secs_in_bounds (div binary64 x thousand64)) }
    ensures { result ≡ from_ms x }
{
    duration::from_secs_f64_unchecked(x / 1000.0)
}
