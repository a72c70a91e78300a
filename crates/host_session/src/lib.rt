// Timeouts and receiving by the entry points of the three protocols, behind a session's types.
#![tactic(auto)]

ghost use Rattle.std.specs.Prelude.{◌≡◌};
ghost use Rattle.window.specs.Slots.{sender};
ghost use Rattle.window.specs.Resending.{timeout_exit};
ghost use Rattle.receiver.specs.Receive.{receive_exit};
ghost use Rattle.session.specs.Sending.{sender_end, go_back_nTimeout, timeout_number, handle_timeout};
ghost use Rattle.session.specs.Receiving.{receiver_end, handle_packet};

use go_back_n::{GoBackNSender, GoBackNTimeoutResult};
use refusal::Refusal;
use session::{Receiver, ReceiverState, Sender, SenderState, Timeout};
use window::SendWindow;

#[derive(Clone, Copy)]
pub struct TimeoutResult {
    pub sender: Sender,
    pub answer: Result<Option<usize>, Refusal>,
}

#[derive(Clone, Copy)]
pub struct ReceiveResult {
    pub receiver: Receiver,
    pub answer: Result<Option<u32>, Refusal>,
}

pub fn handle_timeout(
    sender: Sender,
    store: &mut [u8],
    timeout: Timeout,
    out: &mut [u8],
) -> TimeoutResult
    ensures { timeout_exit result.answer (sender_end result.sender store.new) out.new
        ≡ handle_timeout (sender_end sender store.old) timeout out.old }
{
    let state = sender.state;
    match state {
        SenderState::StopAndWait(s) => {
            let result = s.handle_timeout(store, out);
            let s = result.sender;
            let answer = result.answer;
            TimeoutResult {
                sender: Sender {
                    state: SenderState::StopAndWait(s),
                },
                answer,
            }
        }
        SenderState::GoBackN(s) => {
            let result = go_back_n_timeout(s, store, timeout, out);
            let s = result.sender;
            let answer = result.answer;
            TimeoutResult {
                sender: Sender {
                    state: SenderState::GoBackN(s),
                },
                answer,
            }
        }
        SenderState::SelectiveRepeat(s) => {
            let n = timeout_number(s.window, timeout);
            let result = s.handle_timeout(store, n, out);
            let s = result.sender;
            let answer = result.answer;
            TimeoutResult {
                sender: Sender {
                    state: SenderState::SelectiveRepeat(s),
                },
                answer,
            }
        }
    }
}

pub fn handle_packet(
    receiver: Receiver,
    store: &mut [u8],
    raw: &[u8],
    output: &mut [u8],
    ack: &mut [u8],
) -> ReceiveResult
    ensures { receive_exit result.answer (receiver_end result.receiver store.new)
        output.new ack.new
        ≡ handle_packet (receiver_end receiver store.old) raw.now
        output.old ack.old }
{
    let state = receiver.state;
    match state {
        ReceiverState::StopAndWait(s) => {
            let result = s.handle_packet(raw, output, ack);
            let s = result.receiver;
            let answer = result.answer;
            ReceiveResult {
                receiver: Receiver {
                    state: ReceiverState::StopAndWait(s),
                },
                answer,
            }
        }
        ReceiverState::GoBackN(s) => {
            let result = s.handle_packet(raw, output, ack);
            let s = result.receiver;
            let answer = result.answer;
            ReceiveResult {
                receiver: Receiver {
                    state: ReceiverState::GoBackN(s),
                },
                answer,
            }
        }
        ReceiverState::SelectiveRepeat(s) => {
            let result = s.handle_packet(store, raw, output, ack);
            let s = result.receiver;
            let answer = result.answer;
            ReceiveResult {
                receiver: Receiver {
                    state: ReceiverState::SelectiveRepeat(s),
                },
                answer,
            }
        }
    }
}

// Of all outstanding numbers, or of the earliest; a number means all.
fn go_back_n_timeout(
    s: GoBackNSender,
    store: &mut [u8],
    timeout: Timeout,
    out: &mut [u8],
) -> GoBackNTimeoutResult
    ensures { timeout_exit result.answer (sender result.sender.window store.new) out.new
        ≡ go_back_nTimeout (sender s.window store.old) timeout out.old }
{
    match timeout {
        Timeout::All => s.handle_timeout(store, out),
        Timeout::Earliest => s.handle_timeout_earliest(store, out),
        Timeout::Number(_) => s.handle_timeout(store, out),
    }
}

// The number that a Selective Repeat timeout is of: all and the earliest mean the one at base.
fn timeout_number(window: SendWindow, timeout: Timeout) -> u32
    ensures { result ≡ timeout_number window timeout }
{
    match timeout {
        Timeout::Number(n) => n,
        Timeout::All => window.send_base,
        Timeout::Earliest => window.send_base,
    }
}
