// The calls of the ends for a host outside Rattle: states in lent words, answers packed in one number. Every call takes
// any words; those that hold no such end are a 9.
#![tactic(auto)]

ghost use Rattle.std.specs.Prelude.{◌≡◌, [], ◌∷◌, ◌*◌, ◌≤◌, ◌<◌, min, length};
ghost use Rattle.bounds.specs.Bounds.{slot_size};
ghost use Rattle.window.specs.Slots as slots;
ghost use Rattle.session.specs.Sending.{slot_count, sender_in, sender_end, window_end};
ghost use Rattle.session.specs.Receiving.{receiver_slot_count};
ghost use Rattle.host_ends.specs.Answers.{call_exit, ack_code};
ghost use Rattle.host_ends.specs.Sender.{send, number_of, acknowledge, timeout, can_send_in, can_send, in_flight_in};
ghost use Rattle.host_ends.specs.Sender.{in_flight, sender_verdict, unless_broken, sent_again, is_retransmitted};
ghost use Rattle.host_ends.specs.Internal.{verdict_of};
ghost use Rattle.host_ends.specs.Receiver.{receive, none_held, buffered_count_in, buffered_count};
ghost use Rattle.refusal.specs.Order.{decide};
ghost use Rattle.host_answer.specs.Answer.{refusal_answer};
ghost use Rattle.host_ends.specs.Making.{make_sender_of, make_receiver_of, make_sender, make_receiver};

use go_back_n::GoBackNSender;
use host_words::Kind;
use packet::Packet;
use protocol::ProtocolType;
use refusal::Refusal;
use selective_repeat::SelectiveRepeatSender;
use session::{Receiver, ReceiverState, Sender, SenderState, Timeout};
use window::{SendWindow, TimeoutDecision};

const MAX_U32: u64 = 4_294_967_295;

// A sender of protocol 1 Stop-and-Wait, 2 Go-Back-N or 3 Selective Repeat; max_retries is Stop-and-Wait's.
pub fn make_sender(
    protocol: u64,
    window_size: usize,
    max_retries: u64,
    state: &mut [u64],
    store: &mut [u8],
) -> u64
    ensures { call_exit result (state.new ∷ store.new ∷ [])
        ≡ make_sender protocol window_size max_retries state.old store.old }
{
    if protocol == 1 {
        let p = ProtocolType::StopAndWait;
        return make_sender_of(p, window_size, max_retries, state, store);
    }
    if protocol == 2 {
        let p = ProtocolType::GoBackN;
        return make_sender_of(p, window_size, max_retries, state, store);
    }
    if protocol == 3 {
        let p = ProtocolType::SelectiveRepeat;
        return make_sender_of(p, window_size, max_retries, state, store);
    }
    host_answer::refusal_answer(Refusal::Setup)
}

// A receiver; Stop-and-Wait's and Go-Back-N's leave the store as it is.
pub fn make_receiver(protocol: u64, window_size: usize, state: &mut [u64], store: &mut [u8]) -> u64
    ensures { call_exit result (state.new ∷ store.new ∷ [])
        ≡ make_receiver protocol window_size state.old store.old }
{
    if protocol == 1 {
        return make_receiver_of(ProtocolType::StopAndWait, window_size, state, store);
    }
    if protocol == 2 {
        return make_receiver_of(ProtocolType::GoBackN, window_size, state, store);
    }
    if protocol == 3 {
        return make_receiver_of(ProtocolType::SelectiveRepeat, window_size, state, store);
    }
    host_answer::refusal_answer(Refusal::Setup)
}

// A chunk to send: done with the datagram's length, window full, or refused.
pub fn send(state: &mut [u64], store: &mut [u8], payload: &[u8], out: &mut [u8]) -> u64
    ensures { call_exit result (state.new ∷ store.new ∷ out.new ∷ [])
        ≡ send state.old store.old payload.now out.old }
{
    match host_words::sender_kind(state) {
        Kind::StopAndWait => {
            let sender = host_words::stop_and_wait_in_unchecked(state);
            let result = sender.send_chunk(store, payload, out);
            let sender = result.sender;
            let answer = result.answer;
            host_words::put_stop_and_wait_unchecked(state, sender);
            host_answer::optional_answer(widened(answer), host_answer::WINDOW_FULL)
        }
        Kind::GoBackN => {
            let window = host_words::window_in_unchecked(state);
            let result = GoBackNSender { window }.send_chunk(store, payload, out);
            let sender = result.sender;
            let answer = result.answer;
            host_words::put_window_unchecked(state, sender.window);
            host_answer::optional_answer(widened(answer), host_answer::WINDOW_FULL)
        }
        Kind::SelectiveRepeat => {
            let window = host_words::window_in_unchecked(state);
            let result = SelectiveRepeatSender { window }.send_chunk(store, payload, out);
            let sender = result.sender;
            let answer = result.answer;
            host_words::put_window_unchecked(state, sender.window);
            host_answer::optional_answer(widened(answer), host_answer::WINDOW_FULL)
        }
        Kind::Broken => host_answer::refusal_answer(Refusal::State),
    }
}

// A datagram as an ACK: done with its number, not accepted, or refused.
pub fn acknowledge(state: &mut [u64], store: &mut [u8], raw: &[u8]) -> u64
    ensures { call_exit result (state.new ∷ store.new ∷ [])
        ≡ acknowledge state.old store.old raw.now }
{
    match host_words::sender_kind(state) {
        Kind::StopAndWait => {
            let sender = host_words::stop_and_wait_in_unchecked(state);
            let result = sender.handle_ack(store, raw);
            let sender = result.sender;
            let answer = result.answer;
            host_words::put_stop_and_wait_unchecked(state, sender);
            ack_code(number_of(raw), answer)
        }
        Kind::GoBackN => {
            let window = host_words::window_in_unchecked(state);
            let result = GoBackNSender { window }.handle_ack(store, raw);
            let sender = result.sender;
            let answer = result.answer;
            host_words::put_window_unchecked(state, sender.window);
            ack_code(number_of(raw), answer)
        }
        Kind::SelectiveRepeat => {
            let window = host_words::window_in_unchecked(state);
            let result = SelectiveRepeatSender { window }.handle_ack(store, raw);
            let sender = result.sender;
            let answer = result.answer;
            host_words::put_window_unchecked(state, sender.window);
            ack_code(number_of(raw), answer)
        }
        Kind::Broken => host_answer::refusal_answer(Refusal::State),
    }
}

// A timeout: done with the bytes written, nothing, or refused.
pub fn timeout(state: &mut [u64], store: &mut [u8], which: Timeout, out: &mut [u8]) -> u64
    ensures { call_exit result (state.new ∷ store.new ∷ out.new ∷ [])
        ≡ timeout state.old store.old which out.old }
{
    match host_words::held_sender(state) {
        Some(sender) => {
            let result = host_session::handle_timeout(sender, store, which, out);
            let sender = result.sender;
            let answer = result.answer;
            host_words::put_sender_unchecked(state, sender);
            host_answer::optional_answer(widened(answer), host_answer::NOTHING)
        }
        None => host_answer::refusal_answer(Refusal::State),
    }
}

// A timeout of a number, as above; one above 32 bits isn't outstanding.
pub fn timeout_number(state: &mut [u64], store: &mut [u8], seq_num: u64, out: &mut [u8]) -> u64
    ensures { call_exit result (state.new ∷ store.new ∷ out.new ∷ [])
        ≡ timeout state.old store.old (Timeout.Number seq_num) out.old }
{
    timeout(state, store, Timeout::Number(at_most_u32(seq_num)), out)
}

// Whether the window is free: done with 1 or 0, or refused.
pub fn can_send(state: &[u64]) -> u64
    ensures { result ≡ can_send state.now }
{
    match host_words::held_sender(state) {
        Some(sender) => {
            let held = sender.state;
            host_answer::test_answer(can_send_in(held))
        }
        None => host_answer::refusal_answer(Refusal::State),
    }
}

// How many numbers are outstanding and not acknowledged: done with the count, or refused.
pub fn in_flight(state: &[u64], store: &[u8]) -> u64
    ensures { result ≡ in_flight state.now store.now }
{
    match host_words::held_sender(state) {
        Some(sender) => {
            let held = sender.state;
            in_flight_in(held, store)
        }
        None => host_answer::refusal_answer(Refusal::State),
    }
}

// Whether a number was sent again: done with 1 or 0, nothing where it isn't outstanding, or refused.
pub fn is_retransmitted(state: &[u64], store: &[u8], seq_num: u64) -> u64
    ensures { result ≡ is_retransmitted state.now store.now seq_num }
{
    match host_words::held_sender(state) {
        Some(sender) => is_retransmitted_in(sender, store, seq_num),
        None => host_answer::refusal_answer(Refusal::State),
    }
}

// A datagram: done with the number of the ACK that was written, silent, or refused.
pub fn receive(
    state: &mut [u64],
    store: &mut [u8],
    raw: &[u8],
    output: &mut [u8],
    ack: &mut [u8],
) -> u64
    ensures { call_exit result
        (state.new ∷ store.new ∷ output.new ∷ ack.new ∷ [])
        ≡ receive state.old store.old raw.now output.old
        ack.old }
{
    match host_words::held_receiver(state) {
        Some(receiver) => {
            let result = host_session::handle_packet(receiver, store, raw, output, ack);
            let receiver = result.receiver;
            let answer = result.answer;
            host_words::put_receiver_unchecked(state, receiver);
            match answer {
                Ok(n) => host_answer::optional_answer(Ok(n.map(u64::from)), host_answer::SILENT),
                Err(r) => host_answer::refusal_answer(r),
            }
        }
        None => host_answer::refusal_answer(Refusal::State),
    }
}

// How many payloads are held: done with the count, or refused.
pub fn buffered_count(state: &[u64], store: &[u8]) -> u64
    ensures { result ≡ buffered_count state.now store.now }
{
    match host_words::held_receiver(state) {
        Some(receiver) => {
            let held = receiver.state;
            host_answer::count_answer(buffered_count_in(held, store))
        }
        None => host_answer::refusal_answer(Refusal::State),
    }
}

fn make_sender_of(
    protocol: ProtocolType,
    window_size: usize,
    max_retries: u64,
    state: &mut [u64],
    store: &mut [u8],
) -> u64
    ensures { call_exit result (state.new ∷ store.new ∷ [])
        ≡ make_sender_of protocol window_size max_retries state.old store.old }
{
    let slots = slot_count(protocol, window_size);
    if window::store_short(store, slots) {
        return host_answer::refusal_answer(Refusal::State);
    }
    if window::window_broken(window_size) {
        return host_answer::refusal_answer(Refusal::Setup);
    }
    if MAX_U32 < max_retries {
        return host_answer::refusal_answer(Refusal::Setup);
    }
    if state.len() < host_words::STATE_WORDS {
        return host_answer::refusal_answer(Refusal::Full);
    }
    let sender = Sender::new_unchecked(protocol, window_size, max_retries as u32, store);
    host_words::put_kind_unchecked(state, host_words::sender_word(protocol));
    host_words::put_sender_unchecked(state, sender);
    host_answer::pack_unchecked(host_answer::DONE, 0)
}

fn make_receiver_of(
    protocol: ProtocolType,
    window_size: usize,
    state: &mut [u64],
    store: &mut [u8],
) -> u64
    ensures { call_exit result (state.new ∷ store.new ∷ [])
        ≡ make_receiver_of protocol window_size state.old store.old }
{
    let slots = receiver_slot_count(protocol, window_size);
    if window::store_short(store, slots) {
        return host_answer::refusal_answer(Refusal::State);
    }
    if window::window_broken(window_size) {
        return host_answer::refusal_answer(Refusal::Setup);
    }
    if state.len() < host_words::STATE_WORDS {
        return host_answer::refusal_answer(Refusal::Full);
    }
    let receiver = Receiver::new_unchecked(protocol, window_size, store);
    host_words::put_kind_unchecked(state, host_words::receiver_word(protocol));
    host_words::put_receiver_unchecked(state, receiver);
    host_answer::pack_unchecked(host_answer::DONE, 0)
}

fn slot_count(protocol: ProtocolType, window_size: usize) -> usize
    ensures { result ≡ slot_count protocol window_size }
{
    match protocol {
        ProtocolType::StopAndWait => 1,
        ProtocolType::GoBackN => window_size,
        ProtocolType::SelectiveRepeat => window_size,
    }
}

fn receiver_slot_count(protocol: ProtocolType, window_size: usize) -> usize
    ensures { result ≡ receiver_slot_count protocol window_size }
{
    match protocol {
        ProtocolType::StopAndWait => 0,
        ProtocolType::GoBackN => 0,
        ProtocolType::SelectiveRepeat => window_size,
    }
}

fn can_send_in(state: SenderState) -> Result<bool, Refusal>
    ensures { result ≡ can_send_in state }
{
    match state {
        SenderState::StopAndWait(s) => s.can_send(),
        SenderState::GoBackN(s) => s.can_send(),
        SenderState::SelectiveRepeat(s) => s.can_send(),
    }
}

fn in_flight_in(state: SenderState, store: &[u8]) -> u64
    ensures { result ≡ in_flight_in state store.now }
{
    match state {
        SenderState::StopAndWait(s) => {
            let answer = host_answer::test_answer(s.is_waiting_for_ack());
            unless_refused(check_sender(state, store), answer)
        }
        SenderState::GoBackN(s) => {
            let answer = host_answer::count_answer(s.in_flight_count());
            unless_refused(check_sender(state, store), answer)
        }
        SenderState::SelectiveRepeat(s) => host_answer::count_answer(s.in_flight_count(store)),
    }
}

fn is_retransmitted_in(sender: Sender, store: &[u8], seq_num: u64) -> u64
    ensures { result ≡ unless_broken (sender_end sender store.now)
        (sent_again (window_end (sender_end sender store.now)) seq_num) }
{
    let held = sender.state;
    match check_sender(held, store) {
        Ok(()) => sent_again(sender.window_unchecked(), store, seq_num),
        Err(r) => host_answer::refusal_answer(r),
    }
}

// By the flags in the number's slot.
fn sent_again(window: SendWindow, store: &[u8], seq_num: u64) -> u64
    requires window_size_nonzero { 0 < window.window_size }
    requires slot_size_in_bounds { window.window_size * slot_size ≤ length store.now }
    ensures { result ≡ sent_again (slots.sender window store.now) seq_num }
{
    if seq_num < window.send_base as u64 {
        return host_answer::pack_unchecked(host_answer::NOTHING, 0);
    }
    if window.next_seq_num as u64 <= seq_num {
        return host_answer::pack_unchecked(host_answer::NOTHING, 0);
    }
    let slot = seq_num as usize % window.window_size;
    let again = store::flags_unchecked(store, slot) % 2 == 1;
    host_answer::test_answer(Ok(again))
}

// Checks 9 and 8 of a sender and its store.
fn check_sender(state: SenderState, store: &[u8]) -> Result<(), Refusal>
    ensures { result ≡ sender_verdict (sender_in state store.now) }
{
    match state {
        SenderState::StopAndWait(s) => verdict_of(s.decide_timeout(store)),
        SenderState::GoBackN(s) => {
            let window = s.window;
            refusal::held_verdict(window.state_broken(false, store), window.counts_broken())
        }
        SenderState::SelectiveRepeat(s) => {
            let window = s.window;
            refusal::held_verdict(window.state_broken(true, store), window.counts_broken())
        }
    }
}

fn verdict_of(decision: Result<TimeoutDecision, Refusal>) -> Result<(), Refusal>
    ensures { result ≡ verdict_of decision }
{
    decision?;
    Ok(())
}

// The answer, unless the state was refused.
fn unless_refused(verdict: Result<(), Refusal>, answer: u64) -> u64
    ensures { result ≡ decide verdict refusal_answer answer }
{
    match verdict {
        Ok(()) => answer,
        Err(r) => host_answer::refusal_answer(r),
    }
}

fn buffered_count_in(state: ReceiverState, store: &[u8]) -> Result<usize, Refusal>
    ensures { result ≡ buffered_count_in state store.now }
{
    match state {
        ReceiverState::StopAndWait(r) => none_held(
            r.expected_seq,
            receiver::counts_broken(r.total_received, r.duplicates_count, r.corrupted_count),
        ),
        ReceiverState::GoBackN(r) => none_held(
            r.expected_seq,
            receiver::counts_broken(
                r.total_received,
                r.discarded_out_of_order,
                r.duplicate_acks_sent,
            ),
        ),
        ReceiverState::SelectiveRepeat(r) => r.buffered_count(store),
    }
}

fn none_held(base: u32, counts_broken: bool) -> Result<usize, Refusal>
    ensures { result ≡ none_held base counts_broken }
{
    refusal::held_verdict(bounds::SEQ_NUM_LIMIT < base, counts_broken)?;
    Ok(0)
}

fn at_most_u32(n: u64) -> u32
    ensures { result ≡ min n 4294967295 }
{
    n.min(MAX_U32) as u32
}

// A datagram's number, 0 where it can't be read.
fn number_of(raw: &[u8]) -> u32
    ensures { result ≡ number_of raw.now }
{
    match Packet::from_bytes(raw) {
        Ok(p) => p.seq_num,
        Err(_) => 0,
    }
}

fn ack_code(seq_num: u32, a: Result<bool, Refusal>) -> u64
    ensures { result ≡ ack_code seq_num a }
{
    match a {
        Ok(true) => host_answer::pack_unchecked(host_answer::DONE, seq_num as u64),
        Ok(false) => host_answer::pack_unchecked(host_answer::NOT_ACCEPTED, 0),
        Err(r) => host_answer::refusal_answer(r),
    }
}

// The same value in 64 bits.
fn widened(a: Result<Option<usize>, Refusal>) -> Result<Option<u64>, Refusal>
    ensures { result ≡ a }
{
    Ok(a?.map(|n| n as u64))
}
