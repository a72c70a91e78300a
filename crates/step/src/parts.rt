// The state of a run with what a part of a round left.
ghost use Rattle.std.specs.Prelude.{◌≡◌, ◌||◌, ◌<◌};
ghost use Rattle.step.specs.State.{less_state, forward_state, reverse_state, fired_state, pumped_state};

use super::State;
use acks::ServeResult;
use receiving::ServeForwardResult;
use sending::PumpResult;
use timeouts::FireResult;

// One round less.
pub(super) fn round_less(mut state: State) -> State
    requires { 0 < state.rounds }
    ensures { result ≡ less_state state }
{
    state.rounds -= 1;
    state
}

pub(super) fn with_forward(mut state: State, served: ServeForwardResult) -> State
    ensures { result ≡ forward_state state served }
{
    state.arrivals.forward = served.forward;
    state.arrivals.receiving = served.side;
    state.arrivals.reverse = served.reverse;
    state.arrivals.notes = served.notes;
    state
}

pub(super) fn with_reverse(mut state: State, served: ServeResult) -> State
    ensures { result ≡ reverse_state state served }
{
    state.arrivals.reverse = served.reverse;
    state.arrivals.acks = served.side;
    state
}

pub(super) fn with_fired(mut state: State, fired: FireResult) -> State
    ensures { result ≡ fired_state state fired }
{
    state.arrivals.forward = fired.outbound.forward;
    state.arrivals.notes = fired.outbound.notes;
    state.arrivals.acks.sender = fired.sender;
    state.arrivals.acks.estimator = fired.estimator;
    state.arrivals.acks.clock = fired.outbound.clock;
    state.resends = fired.resends;
    state.events = fired.outbound.events;
    state
}

pub(super) fn with_pumped(mut state: State, pumped: PumpResult) -> State
    ensures { result ≡ pumped_state state pumped }
{
    state.arrivals.forward = pumped.outbound.forward;
    state.arrivals.notes = pumped.outbound.notes;
    state.arrivals.acks.sender = pumped.sender;
    state.arrivals.acks.clock = pumped.outbound.clock;
    state.events = pumped.outbound.events;
    state
}

pub(super) fn either(a: bool, b: bool) -> bool
    ensures { result ≡ (a || b) }
{
    a || b
}
