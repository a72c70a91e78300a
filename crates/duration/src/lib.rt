// Bounds of times in nanoseconds, and durations to and from seconds as a double, as Rust's Duration converts them.
#![tactic(auto)]

ghost use Rattle.std.specs.Prelude.{◌≡◌, ◌^◌, ◌<◌, ◌≤◌, T};
ghost use Rattle.std.specs.Float.Ieee.Nearest.{closest};
ghost use Rattle.float.proofs.Sticky.{sticky};
ghost use Rattle.duration.specs.Bounds.{start_late};
ghost use Rattle.duration.specs.Duration.{as_secs_f64, from_secs_f64, secs_in_bounds, below21, from21};
ghost use Rattle.duration.specs.Duration.{from_secs_checked};

use bounds::{MAX_DURATION, MAX_TIME};

pub fn start_late(now: u64, duration: u64) -> bool
    ensures { result ≡ start_late now duration }
{
    if now > MAX_TIME {
        return true;
    }
    if duration > MAX_DURATION {
        return true;
    }
    now + duration > MAX_TIME
}

pub fn as_secs_f64(ns: u64) -> f64
    ensures { result ≡ as_secs_f64 ns }
{
    let whole = ns / 1000000000;
    let part = ns % 1000000000;
    (whole as f64) + (part as f64) / 1000000000.0
}

pub fn from_secs_f64(x: f64) -> Option<u64>
    ensures { result ≡ from_secs_checked x }
{
    if x >= 0.0 {
        if x < 17179869184.0 {
            return Some(from_secs_f64_unchecked(x));
        }
    }
    None
}

// For 0 <= x < 2^34; below 2^-31 it is 0.
pub fn from_secs_f64_unchecked(x: f64) -> u64
    requires { T (secs_in_bounds x) }
    ensures { result ≡ from_secs_f64 x }
{
    if x >= 2097152.0 {
        return nanos_from_2_pow_21(x);
    }
    if x >= 0.0000000004656612873077392578125 {
        return nanos_below_2_pow_21(x);
    }
    0
}

// For 2^-31 <= x < 2^21. x is significand * 2^(field - 1075), and 10^9 is 1953125 * 2^9.
fn nanos_below_2_pow_21(x: f64) -> u64
    requires { T (below21 x) }
    ensures { result ≡ from_secs_f64 x }
{
    let bits = x.to_bits();
    let field = bits / 4503599627370496;
    let significand = bits % 4503599627370496 + 4503599627370496;
    let low = significand % 4194304 * 1953125;
    let high = significand / 4194304 * 1953125 + low / 4194304;
    let n = 2 * high + sticky_u64(low % 4194304);
    closest_shifted(n, 1045 - field)
}

// For 2^21 <= x < 2^34: the whole seconds, and what is left to the nearest nanosecond.
fn nanos_from_2_pow_21(x: f64) -> u64
    requires { T (from21 x) }
    ensures { result ≡ from_secs_f64 x }
{
    let bits = x.to_bits();
    let field = bits / 4503599627370496;
    let significand = bits % 4503599627370496 + 4503599627370496;
    let places = 1075 - field;
    let unit = 1 << places;
    let whole = significand / unit * 1000000000;
    whole + closest_shifted(significand % unit * 1000000000, places)
}

// a / 2^k to the nearest whole number, a tie to the even one.
fn closest_shifted(a: u64, k: u64) -> u64
    requires { (k ≤ 53) × (a < 9223372036854775808) }
    ensures { result ≡ closest a (2 ^ k) }
{
    let b = 1 << k;
    let q = a / b;
    let r = a % b * 2;
    if r < b {
        return q;
    }
    if b < r {
        return q + 1;
    }
    q + q % 2
}

// 1 where any bit of b is set: the sticky bit of a rounding.
fn sticky_u64(b: u64) -> u64
    ensures { result ≡ sticky b }
{
    u64::from(b != 0)
}
