// The used entries in the two slices: where a key stands, and the changes at a place.
ghost use Rattle.std.specs.Prelude.{◌≡◌, ◌<◌, ◌≤◌, true, length, take, drop, slice_set, Some};
ghost use Rattle.multi_timer.specs.Map.{ascending, earliest};
ghost use Rattle.multi_timer.specs.Internal.{search_in, later, index_of, next_due, due_in, Partitioned};
ghost use Rattle.multi_timer.specs.Internal.{inserted_at, inserted_first, removed_at, removed_first, cleared_in};

pub(crate) fn search(count: usize, keys: &[u32], key: u32) -> Result<usize, usize>
    requires { (count ≤ length keys.now) × (ascending (take count keys.now) ≡ true) }
    ensures { result ≡ search_in key (take count keys.now) }
{
    let start = skip_below(count, keys, key);
    for i in start..count {
        let k = keys[i];
        if k >= key {
            if k == key {
                return Ok(i);
            }
            return Err(i);
        }
    }
    Err(count)
}

// Passes by four keys at a time while the last of them is below key.
fn skip_below(count: usize, keys: &[u32], key: u32) -> usize
    requires { (count ≤ length keys.now) × (ascending (take count keys.now) ≡ true) }
    ensures { (result ≤ count) × (later result (search_in key (drop result (take count keys.now)))
        ≡ search_in key (take count keys.now)) }
{
    // A for over chunks_exact(4) would have to count the keys passed besides.
    let mut i = 0;
    while 4 <= count - i {
        if keys[i + 3] >= key {
            return i;
        }
        i += 4;
    }
    i
}

// The index of a position, of a key that is there or is not.
pub(crate) fn position_index(position: Result<usize, usize>) -> usize
    ensures { result ≡ index_of position }
{
    match position {
        Ok(i) | Err(i) => i,
    }
}

// The first key from an index on whose deadline is due.
pub(crate) fn next_due(
    count: usize,
    keys: &[u32],
    deadlines: &[u64],
    from: usize,
    time: u64,
) -> Option<u32>
    requires { (count ≤ length keys.now) × (count ≤ length deadlines.now) }
    ensures { result ≡ next_due count from time keys.now deadlines.now }
{
    for i in from..count {
        if time >= deadlines[i] {
            return Some(keys[i]);
        }
    }
    None
}

pub(crate) fn insert_at(
    keys: &mut [u32],
    deadlines: &mut [u64],
    i: usize,
    count: usize,
    key: u32,
    deadline: u64,
)
    requires { (i ≤ count) × (count < length keys.old) × (count < length deadlines.old) }
    ensures { (keys.new ≡ inserted_at i count key keys.old)
        × (deadlines.new ≡ inserted_at i count deadline deadlines.old) }
{
    insert_first(
        &mut keys[i..],
        &mut deadlines[i..],
        count - i,
        key,
        deadline,
    );
}

// The first n entries move up by one, and a new one comes first. One loop for both slices is faster than one for each.
fn insert_first(keys: &mut [u32], deadlines: &mut [u64], n: usize, key: u32, deadline: u64)
    requires { (n < length keys.old) × (n < length deadlines.old) }
    ensures { (keys.new ≡ inserted_first n key keys.old)
        × (deadlines.new ≡ inserted_first n deadline deadlines.old) }
{
    for i in (0..n).rev() {
        keys[i + 1] = keys[i];
        deadlines[i + 1] = deadlines[i];
    }
    keys[0] = key;
    deadlines[0] = deadline;
}

pub(crate) fn remove_at(keys: &mut [u32], deadlines: &mut [u64], i: usize, count: usize)
    requires { (i < count) × (count ≤ length keys.old) × (count ≤ length deadlines.old) }
    ensures { (keys.new ≡ removed_at i count keys.old)
        × (deadlines.new ≡ removed_at i count deadlines.old) }
{
    remove_first(&mut keys[i..], &mut deadlines[i..], count - i);
}

// Of the first n entries, all but the first move down by one, and a 0 comes last.
fn remove_first(keys: &mut [u32], deadlines: &mut [u64], n: usize)
    requires { (0 < n) × (n ≤ length keys.old) × (n ≤ length deadlines.old) }
    ensures { (keys.new ≡ removed_first n keys.old)
        × (deadlines.new ≡ removed_first n deadlines.old) }
{
    for i in 1..n {
        keys[i - 1] = keys[i];
        deadlines[i - 1] = deadlines[i];
    }
    keys[n - 1] = 0;
    deadlines[n - 1] = 0;
}

pub(crate) fn set_deadline(deadlines: &mut [u64], i: usize, deadline: u64)
    requires { i < length deadlines.old }
    ensures { deadlines.new ≡ slice_set deadlines.old i deadline }
{
    deadlines[i] = deadline;
}

// The expired keys go to out and the other entries to the front; gives how many are left.
pub(crate) fn partition(
    keys: &mut [u32],
    deadlines: &mut [u64],
    out: &mut [u32],
    count: usize,
    time: u64,
) -> usize
    requires { (count ≤ length keys.old) × (count ≤ length deadlines.old)
        × (due_in time (take count deadlines.old) ≤ length out.old) }
    ensures { Partitioned count time keys.old deadlines.old out.old
        result keys.new deadlines.new out.new }
{
    let mut left = 0;
    for i in 0..count {
        let key = keys[i];
        let deadline = deadlines[i];
        if time >= deadline {
            out[i - left] = key;
        } else {
            keys[left] = key;
            deadlines[left] = deadline;
            left += 1;
        }
    }
    left
}

pub(crate) fn clear_keys_in(keys: &mut [u32], from: usize, to: usize)
    requires { (from ≤ to) × (to ≤ length keys.old) }
    ensures { keys.new ≡ cleared_in from to keys.old }
{
    keys[from..to].fill(0);
}

pub(crate) fn clear_deadlines_in(deadlines: &mut [u64], from: usize, to: usize)
    requires { (from ≤ to) × (to ≤ length deadlines.old) }
    ensures { deadlines.new ≡ cleared_in from to deadlines.old }
{
    deadlines[from..to].fill(0);
}

pub(crate) fn min_deadline(count: usize, deadlines: &[u64]) -> u64
    requires { (0 < count) × (count ≤ length deadlines.now) }
    ensures { Some result ≡ earliest (take count deadlines.now) }
{
    deadlines[1..count]
        .iter()
        .fold(deadlines[0], |least, d| least.min(*d))
}
