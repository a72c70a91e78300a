// Doubles: rolls and chances, and the whole part of a roll times a number.
#![tactic(auto)]

ghost use Rattle.std.specs.Prelude.{◌≡◌, ◌/◌, ◌<◌, ◌≤◌, T};
ghost use Rattle.float.specs.Roll.{roll_in_bounds, chance_in_bounds, scaled, roll_of};

// 0 <= x < 1; -0.0 is in bounds, a NaN is not.
pub fn roll_in_bounds(x: f64) -> bool
    ensures { result ≡ roll_in_bounds x }
{
    x >= 0.0 && x < 1.0
}

// 0 <= x <= 1; -0.0 is in bounds, a NaN is not.
pub fn chance_in_bounds(x: f64) -> bool
    ensures { result ≡ chance_in_bounds x }
{
    x >= 0.0 && x <= 1.0
}

// The whole part of roll * n as a double.
pub fn scaled_unchecked(roll: f64, n: u64) -> u64
    requires { T (roll_in_bounds roll) × (1 ≤ n) × (n ≤ 9007199254740992) }
    ensures { (result ≡ scaled roll n) × (result < n) }
{
    std::num::truncating_f64_to_u64(roll * (n as f64))
}

// The same for an index.
pub fn index_unchecked(roll: f64, len: usize) -> usize
    requires { T (roll_in_bounds roll) × (1 ≤ len) × (len ≤ 9007199254740992) }
    ensures { (result ≡ scaled roll len) × (result < len) }
{
    scaled_unchecked(roll, len as u64) as usize
}

// The roll of 64 random bits: their upper 53, times 2^-53, which is exact.
pub fn roll_from_bits(bits: u64) -> f64
    ensures { (result ≡ roll_of (bits / 2048)) × T (roll_in_bounds result) }
{
    ((bits / 2048) as f64) * 0.00000000000000011102230246251565404236316680908203125
}
