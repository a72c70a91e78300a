// Whether the timers have something to do.
ghost use Rattle.std.specs.Prelude.{◌≡◌, false, ◌≤◌};
ghost use Rattle.bounds.specs.Bounds.{max_time};
ghost use Rattle.window.specs.State.{numbers_broken};
ghost use Rattle.multi_timer.specs.MultiTimer.{timers_exit};
ghost use Rattle.clock.specs.Clock.{Held};
ghost use Rattle.session.specs.Sending.{window_of};
ghost use Rattle.timeouts.specs.Timeouts.{timers_due};

use clock::{Clock, Due, Timing};
use sending::Resends;
use session::Sender;

// Whether the ceiling is met or a timer has run out.
pub fn timers_due_unchecked(
    sender: Sender,
    resends: Resends,
    clock: Clock,
    timing: Timing,
    max_retransmissions: u64,
    now: u64,
    keys: &[u32],
    deadlines: &[u64],
) -> bool
    requires held { Held (timers_exit clock keys.now deadlines.now) × (now ≤ max_time) }
    requires sender_value { numbers_broken (window_of sender) ≡ false }
    ensures { result ≡ timers_due max_retransmissions timing now sender resends
        (timers_exit clock keys.now deadlines.now) }
{
    let met = sending::ceiling_met(resends, max_retransmissions);
    if met {
        return true;
    }
    let outstanding = sender.has_outstanding_unchecked();
    let due = clock.due_unchecked(timing, keys, deadlines, now, outstanding);
    match due {
        Due::Nothing => false,
        Due::Idle => true,
        Due::Single => true,
        Due::Numbers => true,
    }
}
