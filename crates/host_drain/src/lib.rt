// What a receiver has delivered, taken from its output by the host: `drain_delivered` of the source. The fill mark
// goes back to 0, so that a file needs no output of its length.
#![tactic(auto)]

ghost use Rattle.std.specs.Prelude.{◌≡◌};
ghost use Rattle.selective_repeat.specs.Receiver.{receiving_broken};
ghost use Rattle.session.specs.Receiving.{receiver_end};
ghost use Rattle.session.specs.GoodReceiver.{broken_in, counts_broken_in};
ghost use Rattle.host_answer.specs.Exit.{words_exit};
ghost use Rattle.host_drain.specs.Drain.{emptied_in, drain_receiver, drain};

use refusal::Refusal;
use selective_repeat::SelectiveRepeatReceiver;
use session::{Receiver, ReceiverState};

#[derive(Clone, Copy)]
pub struct DrainResult {
    pub receiver: Receiver,
    pub answer: Result<usize, Refusal>,
}

// Done with how many bytes at the output's start are delivered, or refused.
pub fn drain(state: &mut [u64], store: &[u8], output: &[u8]) -> u64
    ensures { words_exit result state.new
        ≡ drain state.old store.now output.now }
{
    match host_words::held_receiver(state) {
        Some(receiver) => {
            let result = drain_receiver(receiver, store, output);
            let receiver = result.receiver;
            let answer = result.answer;
            host_words::put_receiver_unchecked(state, receiver);
            host_answer::count_answer(answer)
        }
        None => host_answer::refusal_answer(Refusal::State),
    }
}

pub fn drain_receiver(receiver: Receiver, store: &[u8], output: &[u8]) -> DrainResult
    ensures { result ≡ drain_receiver (receiver_end receiver store.now) output.now }
{
    let held = receiver.state;
    match refusal::held_verdict(state_broken(held, store, output), counts_broken(held)) {
        Ok(()) => DrainResult {
            receiver: Receiver {
                state: emptied(held),
            },
            answer: Ok(receiver.filled()),
        },
        Err(r) => DrainResult {
            receiver: receiver,
            answer: Err(r),
        },
    }
}

fn emptied(state: ReceiverState) -> ReceiverState
    ensures { result ≡ emptied_in state }
{
    match state {
        ReceiverState::StopAndWait(r) => {
            let mut r = r;
            r.filled = 0;
            ReceiverState::StopAndWait(r)
        }
        ReceiverState::GoBackN(r) => {
            let mut r = r;
            r.filled = 0;
            ReceiverState::GoBackN(r)
        }
        ReceiverState::SelectiveRepeat(r) => {
            let mut r = r;
            r.filled = 0;
            ReceiverState::SelectiveRepeat(r)
        }
    }
}

// Whether check 9 is true.
fn state_broken(state: ReceiverState, store: &[u8], output: &[u8]) -> bool
    ensures { result ≡ broken_in state store.now output.now }
{
    match state {
        ReceiverState::StopAndWait(r) => receiver::state_broken(r.expected_seq, r.filled, output),
        ReceiverState::GoBackN(r) => receiver::state_broken(r.expected_seq, r.filled, output),
        ReceiverState::SelectiveRepeat(r) => selective_repeat_broken(r, store, output),
    }
}

fn selective_repeat_broken(r: SelectiveRepeatReceiver, store: &[u8], output: &[u8]) -> bool
    ensures { result ≡ receiving_broken r store.now output.now }
{
    if r.state_broken(store) {
        return true;
    }
    output.len() < r.filled
}

// Whether check 8 is true.
fn counts_broken(state: ReceiverState) -> bool
    ensures { result ≡ counts_broken_in state }
{
    match state {
        ReceiverState::StopAndWait(r) => {
            receiver::counts_broken(r.total_received, r.duplicates_count, r.corrupted_count)
        }
        ReceiverState::GoBackN(r) => receiver::counts_broken(
            r.total_received,
            r.discarded_out_of_order,
            r.duplicate_acks_sent,
        ),
        ReceiverState::SelectiveRepeat(r) => receiver::counts_broken(
            r.total_received,
            r.buffered_out_of_order,
            r.duplicates_count,
        ),
    }
}
