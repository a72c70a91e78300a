// The states of the ends in lent words: what words hold, and words with a state put into them.
#![tactic(auto)]

ghost use Rattle.std.specs.Prelude.{◌≡◌, cond, ◌+◌, ◌≤◌, ◌<◌, length, set};
ghost use Rattle.host_words.specs.Words.{state_words, sender_word, receiver_word, window_in, stop_and_wait_in};
ghost use Rattle.host_words.specs.Words.{with_kind};
ghost use Rattle.host_words.specs.Words.{sender_unreadable, not_single, held_sender, with_window, with_stop_and_wait};
ghost use Rattle.host_words.specs.Words.{with_sender, stop_and_wait_receiver_in, go_back_nReceiver_in};
ghost use Rattle.host_words.specs.Words.{selective_repeat_receiver_in, receiver_unreadable, held_receiver, with_fields};
ghost use Rattle.host_words.specs.Words.{receiver_fields, with_receiver};
ghost use Rattle.host_words.specs.Words.{SenderReadable, RetriesReadable, SenderAs, ReceiverReadable};

use go_back_n::{GoBackNReceiver, GoBackNSender};
use protocol::ProtocolType;
use selective_repeat::{SelectiveRepeatReceiver, SelectiveRepeatSender};
use session::{Receiver, ReceiverState, Sender, SenderState};
use stop_and_wait::{StopAndWaitReceiver, StopAndWaitSender};
use window::SendWindow;

// Word 0 of a state: the layout's version times 256 and the kind.
const STOP_AND_WAIT_SENDER: u64 = 257;

const GO_BACK_N_SENDER: u64 = 258;

const SELECTIVE_REPEAT_SENDER: u64 = 259;

const STOP_AND_WAIT_RECEIVER: u64 = 260;

const GO_BACK_N_RECEIVER: u64 = 261;

const SELECTIVE_REPEAT_RECEIVER: u64 = 262;

pub const STATE_WORDS: usize = 8;

const MAX_U32: u64 = 4_294_967_295;

// The protocol of the end in words, or that they hold none.
#[derive(Clone, Copy)]
pub enum Kind {
    StopAndWait,
    GoBackN,
    SelectiveRepeat,
    Broken,
}

// Words that a receiver is put into.
#[derive(Clone, Copy)]
pub struct ReceiverFields {
    pub window: usize,
    pub base: u32,
    pub filled: usize,
    pub received: u64,
    pub second: u64,
    pub third: u64,
}

pub fn sender_kind(state: &[u64]) -> Kind
    ensures { SenderAs state.now result }
{
    if sender_unreadable(state) {
        return Kind::Broken;
    }
    let kind = state[0];
    if kind == SELECTIVE_REPEAT_SENDER {
        return Kind::SelectiveRepeat;
    }
    if kind == GO_BACK_N_SENDER {
        return Kind::GoBackN;
    }
    if kind == STOP_AND_WAIT_SENDER {
        if not_single(state) {
            return Kind::Broken;
        }
        return Kind::StopAndWait;
    }
    Kind::Broken
}

pub fn held_sender(state: &[u64]) -> Option<Sender>
    ensures { result ≡ held_sender state.now }
{
    match sender_kind(state) {
        Kind::StopAndWait => {
            let sender = stop_and_wait_in_unchecked(state);
            Some(Sender {
                state: SenderState::StopAndWait(sender),
            })
        }
        Kind::GoBackN => {
            let window = window_in_unchecked(state);
            Some(Sender {
                state: SenderState::GoBackN(GoBackNSender { window }),
            })
        }
        Kind::SelectiveRepeat => {
            let window = window_in_unchecked(state);
            Some(Sender {
                state: SenderState::SelectiveRepeat(SelectiveRepeatSender { window }),
            })
        }
        Kind::Broken => None,
    }
}

pub fn held_receiver(state: &[u64]) -> Option<Receiver>
    ensures { result ≡ held_receiver state.now }
{
    if receiver_unreadable(state) {
        return None;
    }
    let kind = state[0];
    if kind == SELECTIVE_REPEAT_RECEIVER {
        return Some(Receiver {
            state: ReceiverState::SelectiveRepeat(selective_repeat_receiver_in(state)),
        });
    }
    if state[1] != 1 {
        return None;
    }
    if kind == GO_BACK_N_RECEIVER {
        return Some(Receiver {
            state: ReceiverState::GoBackN(go_back_n_receiver_in(state)),
        });
    }
    if kind == STOP_AND_WAIT_RECEIVER {
        return Some(Receiver {
            state: ReceiverState::StopAndWait(stop_and_wait_receiver_in(state)),
        });
    }
    None
}

pub fn put_kind_unchecked(state: &mut [u64], word: u64)
    requires { state_words ≤ length state.old }
    ensures { state.new ≡ with_kind state.old word }
{
    state[0] = word;
    state[6] = 0;
    state[7] = 0;
}

pub fn put_sender_unchecked(state: &mut [u64], sender: Sender)
    requires { state_words ≤ length state.old }
    ensures { state.new ≡ with_sender state.old sender.state }
{
    let held = sender.state;
    match held {
        SenderState::StopAndWait(s) => put_stop_and_wait_unchecked(state, s),
        SenderState::GoBackN(s) => put_window_unchecked(state, s.window),
        SenderState::SelectiveRepeat(s) => put_window_unchecked(state, s.window),
    }
}

pub fn put_receiver_unchecked(state: &mut [u64], receiver: Receiver)
    requires { state_words ≤ length state.old }
    ensures { state.new ≡ with_receiver state.old receiver.state }
{
    let held = receiver.state;
    put_fields(state, receiver_fields(held));
}

// A sender has kinds of its own, and a receiver others: two tables of the layout, each with its definition.
pub fn sender_word(protocol: ProtocolType) -> u64
    ensures { result ≡ sender_word protocol }
{
    match protocol {
        ProtocolType::StopAndWait => STOP_AND_WAIT_SENDER,
        ProtocolType::GoBackN => GO_BACK_N_SENDER,
        ProtocolType::SelectiveRepeat => SELECTIVE_REPEAT_SENDER,
    }
}

pub fn receiver_word(protocol: ProtocolType) -> u64
    ensures { result ≡ receiver_word protocol }
{
    match protocol {
        ProtocolType::StopAndWait => STOP_AND_WAIT_RECEIVER,
        ProtocolType::GoBackN => GO_BACK_N_RECEIVER,
        ProtocolType::SelectiveRepeat => SELECTIVE_REPEAT_RECEIVER,
    }
}

#[tactic(auto, unfolding(crate::specs::Words::sender_unreadable, refusal::specs::Clauses::any_of))]
fn sender_unreadable(state: &[u64]) -> bool
    ensures { result ≡ sender_unreadable state.now }
{
    state.len() < STATE_WORDS || MAX_U32 < state[2] || MAX_U32 < state[3]
}

#[tactic(auto, unfolding(crate::specs::Words::not_single, refusal::specs::Clauses::any_of))]
fn not_single(state: &[u64]) -> bool
    requires { SenderReadable state.now }
    ensures { result ≡ not_single state.now }
{
    state[1] != 1
        || MAX_U32 < state[6]
        || MAX_U32 < state[7]
        || (state[2] != state[3] && state[2] + 1 != state[3])
}

pub fn window_in_unchecked(state: &[u64]) -> SendWindow
    requires { SenderReadable state.now }
    ensures { result ≡ window_in state.now }
{
    SendWindow {
        window_size: state[1] as usize,
        send_base: state[2] as u32,
        next_seq_num: state[3] as u32,
        total_sent: state[4],
        retransmissions: state[5],
    }
}

pub fn stop_and_wait_in_unchecked(state: &[u64]) -> StopAndWaitSender
    requires { SenderReadable state.now × RetriesReadable state.now }
    ensures { result ≡ stop_and_wait_in state.now }
{
    StopAndWaitSender {
        current_seq: state[2] as u32,
        in_flight: state[2] != state[3],
        max_retries: state[6] as u32,
        current_retries: state[7] as u32,
        total_sent: state[4],
        retransmissions: state[5],
    }
}

pub fn put_window_unchecked(state: &mut [u64], w: SendWindow)
    requires { state_words ≤ length state.old }
    ensures { state.new ≡ with_window state.old w }
{
    put_word(state, 1, w.window_size as u64);
    put_word(state, 2, w.send_base as u64);
    put_word(state, 3, w.next_seq_num as u64);
    put_word(state, 4, w.total_sent);
    put_word(state, 5, w.retransmissions);
}

pub fn put_stop_and_wait_unchecked(state: &mut [u64], s: StopAndWaitSender)
    requires { state_words ≤ length state.old }
    ensures { state.new ≡ with_stop_and_wait state.old s }
{
    let base = s.current_seq as u64;
    let next = next_number(s.in_flight, base);
    put_word(state, 1, 1);
    put_word(state, 2, base);
    put_word(state, 3, next);
    put_word(state, 4, s.total_sent);
    put_word(state, 5, s.retransmissions);
    put_word(state, 6, s.max_retries as u64);
    put_word(state, 7, s.current_retries as u64);
}

// Stored only where it differs: without the tests the compiler loads two fields at once that a call has just stored one
// by one, and the processor waits for them.
fn put_word(state: &mut [u64], i: usize, word: u64)
    requires { i < length state.old }
    ensures { state.new ≡ set state.old i word }
{
    if state[i] != word {
        state[i] = word;
    }
}

fn next_number(in_flight: bool, base: u64) -> u64
    requires { base ≤ 4294967295 }
    ensures { result ≡ cond in_flight (base + 1) base }
{
    if in_flight {
        return base + 1;
    }
    base
}

#[tactic(auto, unfolding(crate::specs::Words::receiver_unreadable, refusal::specs::Clauses::any_of))]
fn receiver_unreadable(state: &[u64]) -> bool
    ensures { result ≡ receiver_unreadable state.now }
{
    state.len() < STATE_WORDS || MAX_U32 < state[2]
}

fn selective_repeat_receiver_in(state: &[u64]) -> SelectiveRepeatReceiver
    requires { ReceiverReadable state.now }
    ensures { result ≡ selective_repeat_receiver_in state.now }
{
    SelectiveRepeatReceiver {
        window_size: state[1] as usize,
        recv_base: state[2] as u32,
        filled: state[3] as usize,
        total_received: state[4],
        buffered_out_of_order: state[5],
        duplicates_count: state[6],
    }
}

fn go_back_n_receiver_in(state: &[u64]) -> GoBackNReceiver
    requires { ReceiverReadable state.now }
    ensures { result ≡ go_back_nReceiver_in state.now }
{
    GoBackNReceiver {
        expected_seq: state[2] as u32,
        filled: state[3] as usize,
        total_received: state[4],
        discarded_out_of_order: state[5],
        duplicate_acks_sent: state[6],
    }
}

fn stop_and_wait_receiver_in(state: &[u64]) -> StopAndWaitReceiver
    requires { ReceiverReadable state.now }
    ensures { result ≡ stop_and_wait_receiver_in state.now }
{
    StopAndWaitReceiver {
        expected_seq: state[2] as u32,
        filled: state[3] as usize,
        total_received: state[4],
        duplicates_count: state[5],
        corrupted_count: state[6],
    }
}

fn put_fields(state: &mut [u64], f: ReceiverFields)
    requires { state_words ≤ length state.old }
    ensures { state.new ≡ with_fields state.old f }
{
    state[1] = f.window as u64;
    state[2] = f.base as u64;
    state[3] = f.filled as u64;
    state[4] = f.received;
    state[5] = f.second;
    state[6] = f.third;
}

pub fn receiver_fields(state: ReceiverState) -> ReceiverFields
    ensures { result ≡ receiver_fields state }
{
    match state {
        ReceiverState::StopAndWait(r) => ReceiverFields {
            window: 1,
            base: r.expected_seq,
            filled: r.filled,
            received: r.total_received,
            second: r.duplicates_count,
            third: r.corrupted_count,
        },
        ReceiverState::GoBackN(r) => ReceiverFields {
            window: 1,
            base: r.expected_seq,
            filled: r.filled,
            received: r.total_received,
            second: r.discarded_out_of_order,
            third: r.duplicate_acks_sent,
        },
        ReceiverState::SelectiveRepeat(r) => ReceiverFields {
            window: r.window_size,
            base: r.recv_base,
            filled: r.filled,
            received: r.total_received,
            second: r.buffered_out_of_order,
            third: r.duplicates_count,
        },
    }
}
