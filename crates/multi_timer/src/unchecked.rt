// The calls below the entry points: nothing is checked, the caller shows what they require.
ghost use Rattle.std.specs.Prelude.{◌≡◌, ◌≤◌, false, length};
ghost use Rattle.multi_timer.specs.Map.{due_keys};
ghost use Rattle.multi_timer.specs.MultiTimer.{used, timers_exit, pop_exit, broken, start_full, new_unchecked};
ghost use Rattle.multi_timer.specs.MultiTimer.{start_timer_at_unchecked, cancel_timer_unchecked};
ghost use Rattle.multi_timer.specs.MultiTimer.{pop_expired_at_unchecked, clear_unchecked, is_expired_at_unchecked};
ghost use Rattle.multi_timer.specs.MultiTimer.{next_expired_unchecked, earliest_deadline_unchecked};

use super::MultiTimer;
use super::entries::{
    clear_deadlines_in, clear_keys_in, insert_at, min_deadline, next_due, partition,
    position_index, remove_at, search, set_deadline,
};
use refusal::Refusal;

impl MultiTimer {
    // Makes an empty set in two slices of one length.
    pub fn new_unchecked(keys: &mut [u32], deadlines: &mut [u64]) -> MultiTimer
        requires { length keys.old ≡ length deadlines.old }
        ensures { timers_exit result keys.new deadlines.new
            ≡ new_unchecked keys.old deadlines.old }
    {
        keys.fill(0);
        deadlines.fill(0);
        MultiTimer {
            count: 0,
            global_generation: 0,
        }
    }

    pub fn start_timer_at_unchecked(
        self,
        keys: &mut [u32],
        deadlines: &mut [u64],
        key: u32,
        deadline: u64,
    ) -> MultiTimer
        requires { (broken self.count keys.old deadlines.old ≡ false)
            × (start_full self keys.old deadlines.old key ≡ false) }
        ensures { timers_exit result keys.new deadlines.new
            ≡ start_timer_at_unchecked self keys.old deadlines.old key deadline }
    {
        let count = self.count;
        let next = std::num::wrapping_add_u64(self.global_generation, 1);
        let position = search(count, keys, key);
        match position {
            Ok(i) => {
                set_deadline(deadlines, i, deadline);
                MultiTimer {
                    count,
                    global_generation: next,
                }
            }
            Err(i) => {
                insert_at(keys, deadlines, i, count, key, deadline);
                MultiTimer {
                    count: count + 1,
                    global_generation: next,
                }
            }
        }
    }

    pub fn cancel_timer_unchecked(
        self,
        keys: &mut [u32],
        deadlines: &mut [u64],
        key: u32,
    ) -> MultiTimer
        requires { broken self.count keys.old deadlines.old ≡ false }
        ensures { timers_exit result keys.new deadlines.new
            ≡ cancel_timer_unchecked self keys.old deadlines.old key }
    {
        let count = self.count;
        let position = search(count, keys, key);
        match position {
            Ok(i) => {
                remove_at(keys, deadlines, i, count);
                MultiTimer {
                    count: count - 1,
                    global_generation: self.global_generation,
                }
            }
            Err(_) => self,
        }
    }

    pub fn is_expired_at_unchecked(
        self,
        keys: &[u32],
        deadlines: &[u64],
        key: u32,
        time: u64,
    ) -> bool
        requires { broken self.count keys.now deadlines.now ≡ false }
        ensures { result ≡ is_expired_at_unchecked self keys.now deadlines.now key time }
    {
        let position = search(self.count, keys, key);
        match position {
            Ok(i) => time >= deadlines[i],
            Err(_) => false,
        }
    }

    // The lowest expired key that is not below from.
    pub fn next_expired_unchecked(
        self,
        keys: &[u32],
        deadlines: &[u64],
        from: u32,
        time: u64,
    ) -> Option<u32>
        requires { broken self.count keys.now deadlines.now ≡ false }
        ensures { result ≡ next_expired_unchecked self keys.now deadlines.now from time }
    {
        let count = self.count;
        let position = search(count, keys, from);
        let i = position_index(position);
        next_due(count, keys, deadlines, i, time)
    }

    pub fn pop_expired_at_unchecked(
        self,
        keys: &mut [u32],
        deadlines: &mut [u64],
        time: u64,
        out: &mut [u32],
    ) -> MultiTimer
        requires { (broken self.count keys.old deadlines.old ≡ false)
            × (length (due_keys time (used self keys.old deadlines.old)) ≤ length out.old) }
        ensures { pop_exit (timers_exit result keys.new deadlines.new) out.new
            ≡ pop_expired_at_unchecked self keys.old deadlines.old time out.old }
    {
        let count = self.count;
        let left = partition(keys, deadlines, out, count, time);
        clear_keys_in(keys, left, count);
        clear_deadlines_in(deadlines, left, count);
        MultiTimer {
            count: left,
            global_generation: self.global_generation,
        }
    }

    // The keys are lent for the contract alone.
    pub fn earliest_deadline_unchecked(
        self,
        keys: &[u32],
        deadlines: &[u64],
    ) -> Result<Option<u64>, Refusal>
        requires { broken self.count keys.now deadlines.now ≡ false }
        ensures { result ≡ earliest_deadline_unchecked self keys.now deadlines.now }
    {
        let count = self.count;
        if count == 0 {
            return Ok(None);
        }
        Ok(Some(min_deadline(count, deadlines)))
    }

    pub fn clear_unchecked(self, keys: &mut [u32], deadlines: &mut [u64]) -> MultiTimer
        requires { broken self.count keys.old deadlines.old ≡ false }
        ensures { timers_exit result keys.new deadlines.new
            ≡ clear_unchecked self keys.old deadlines.old }
    {
        let count = self.count;
        clear_keys_in(keys, 0, count);
        clear_deadlines_in(deadlines, 0, count);
        MultiTimer {
            count: 0,
            global_generation: self.global_generation,
        }
    }
}
