// Stop-and-Wait: arq/sw.rs of the reference.
#![tactic(auto)]

ghost use Rattle.std.specs.Prelude.{◌≡◌, ℕ, ◌+◌, ◌-◌, ◌≤◌, ◌<◌, length, true, false};
ghost use Rattle.bounds.specs.Bounds.{count_limit, header_size, seq_num_limit, slot_size};
ghost use Rattle.window.specs.State.{numbers_broken};
ghost use Rattle.window.specs.Slots.{Clean};
ghost use Rattle.window.specs.Outstanding.{unless_broken};
ghost use Rattle.window.specs.Sending.{make_exit, send_exit, CanSendChunk};
ghost use Rattle.window.specs.Acknowledgement.{ack_exit};
ghost use Rattle.window.specs.Resending.{timeout_exit};
ghost use Rattle.stop_and_wait.specs.Sender.{window_of, window_end, end_of, new_sender, can_send, is_waiting_for_ack};
ghost use Rattle.stop_and_wait.specs.Sender.{by_send, send_chunk, send_chunk_unchecked, decide_ack, acknowledged};
ghost use Rattle.stop_and_wait.specs.Sender.{handle_ack, retries_left, marked_again, by_timeout, decide_timeout};
ghost use Rattle.stop_and_wait.specs.Sender.{handle_timeout};
ghost use Rattle.stop_and_wait.specs.Receiver.{new_receiver, decided, data_decision, decision, handle_packet};
ghost use Rattle.stop_and_wait.specs.Receiver.{handle_packet_unchecked};
ghost use Rattle.receiver.specs.Receive.{receive_exit};
ghost use Rattle.receiver.specs.State as receiverState;
ghost use Rattle.receiver.specs.State.{counts_broken};

use packet::Packet;
use receiver::{Decision, PacketReading};
use refusal::Refusal;
use window::{AckDecision, SendWindow, TimeoutDecision};

#[derive(Clone, Copy)]
pub struct StopAndWaitSender {
    pub current_seq: u32,
    pub in_flight: bool,
    pub max_retries: u32,
    pub current_retries: u32,
    pub total_sent: u64,
    pub retransmissions: u64,
}

#[derive(Clone, Copy)]
pub struct StopAndWaitSendResult {
    pub sender: StopAndWaitSender,
    pub answer: Result<Option<usize>, Refusal>,
}

#[derive(Clone, Copy)]
pub struct StopAndWaitAckResult {
    pub sender: StopAndWaitSender,
    pub answer: Result<bool, Refusal>,
}

#[derive(Clone, Copy)]
pub struct StopAndWaitTimeoutResult {
    pub sender: StopAndWaitSender,
    pub answer: Result<Option<usize>, Refusal>,
}

impl StopAndWaitSender {
    pub fn new(max_retries: u32, store: &mut [u8]) -> Result<StopAndWaitSender, Refusal>
        ensures { make_exit result store.new ≡ new_sender max_retries store.old }
    {
        if window::store_short(store, 1) {
            return Err(Refusal::State);
        }
        store::empty_all_unchecked(store, 1);
        Ok(StopAndWaitSender {
            current_seq: 0,
            in_flight: false,
            max_retries,
            current_retries: 0,
            total_sent: 0,
            retransmissions: 0,
        })
    }

    pub fn can_send(self) -> Result<bool, Refusal>
        ensures { result ≡ can_send self }
    {
        self.unless_broken(!self.in_flight)
    }

    pub fn is_waiting_for_ack(self) -> Result<bool, Refusal>
        ensures { result ≡ is_waiting_for_ack self }
    {
        self.unless_broken(self.in_flight)
    }

    // A chunk into the slot and as a datagram to the start of out.
    pub fn send_chunk(
        self,
        store: &mut [u8],
        payload: &[u8],
        out: &mut [u8],
    ) -> StopAndWaitSendResult
        ensures { send_exit result.answer (end_of result.sender store.new) out.new
            ≡ send_chunk (end_of self store.old) payload.now out.old }
    {
        if self.numbers_broken() {
            return StopAndWaitSendResult {
                sender: self,
                answer: Err(Refusal::State),
            };
        }
        let window = self.window_unchecked();
        let result = window.send_chunk(false, store, payload, out);
        StopAndWaitSendResult {
            sender: self.after_send(result.answer, result.window),
            answer: result.answer,
        }
    }

    // A datagram as an ACK. Go-Back-N's does the same with another sender and its `acknowledge_unchecked`.
    pub fn handle_ack(self, store: &mut [u8], raw: &[u8]) -> StopAndWaitAckResult
        ensures { ack_exit result.answer (end_of result.sender store.new)
            ≡ handle_ack (end_of self store.old) raw.now }
    {
        match self.decide_ack(store, raw) {
            Ok(AckDecision::Accept { seq_num, .. }) => StopAndWaitAckResult {
                sender: self.acknowledge_unchecked(store, seq_num, false),
                answer: Ok(true),
            },
            Ok(AckDecision::NotAccepted) => StopAndWaitAckResult {
                sender: self,
                answer: Ok(false),
            },
            Err(r) => StopAndWaitAckResult {
                sender: self,
                answer: Err(r),
            },
        }
    }

    // The packet in flight again, unless the retry limit is met.
    pub fn handle_timeout(self, store: &mut [u8], out: &mut [u8]) -> StopAndWaitTimeoutResult
        ensures { timeout_exit result.answer (end_of result.sender store.new) out.new
            ≡ handle_timeout (end_of self store.old) out.old }
    {
        match self.decide_timeout(store) {
            Ok(TimeoutDecision::Resend { first, count }) => {
                let window = self.window_unchecked();
                let result = window.resend_unchecked(store, first, count, out);
                StopAndWaitTimeoutResult {
                    sender: self.after_timeout_unchecked(result.answer, result.window),
                    answer: result.answer,
                }
            }
            Ok(TimeoutDecision::Nothing) => StopAndWaitTimeoutResult {
                sender: self,
                answer: Ok(None),
            },
            Err(r) => StopAndWaitTimeoutResult {
                sender: self,
                answer: Err(r),
            },
        }
    }

    // What a datagram as an ACK does.
    pub fn decide_ack(self, store: &[u8], raw: &[u8]) -> Result<AckDecision, Refusal>
        ensures { result ≡ decide_ack (end_of self store.now) raw.now }
    {
        if self.numbers_broken() {
            return Err(Refusal::State);
        }
        let window = self.window_unchecked();
        window.decide_ack(false, store, raw)
    }

    // What a timeout does.
    pub fn decide_timeout(self, store: &[u8]) -> Result<TimeoutDecision, Refusal>
        ensures { result ≡ decide_timeout (end_of self store.now) }
    {
        if self.numbers_broken() {
            return Err(Refusal::State);
        }
        let window = self.window_unchecked();
        window.decide_timeout(store, self.retries_left())
    }

    // A chunk into the slot and as a datagram to the start of out. `clean`: whether the bytes of the slot past its
    // length are zeros.
    pub fn send_chunk_unchecked(
        self,
        store: &mut [u8],
        payload: &[u8],
        out: &mut [u8],
        clean: bool,
    ) -> StopAndWaitSender
        requires self_value { numbers_broken (window_of self) ≡ false }
        requires can_send_chunk { CanSendChunk (window_end (end_of self store.old)) payload.now out.old }
        requires clean { clean ≡ true → Clean (window_end (end_of self store.old)) }
        ensures { send_exit (Ok (Some (header_size + length payload.now)))
            (end_of result store.new) out.new
            ≡ send_chunk_unchecked (end_of self store.old) payload.now out.old }
    {
        let window = self.window_unchecked();
        let window = window.send_chunk_unchecked(store, payload, out, clean);
        let size = Packet::HEADER_SIZE + payload.len();
        self.after_send(Ok(Some(size)), window)
    }

    // What the accepted ACK of the packet in flight does.
    pub fn acknowledge_unchecked(
        mut self,
        store: &mut [u8],
        seq_num: u32,
        clean: bool,
    ) -> StopAndWaitSender
        requires self_value { numbers_broken (window_of self) ≡ false }
        requires current_seq_bound { (self.current_seq ≤ seq_num) × (seq_num < seq_num_limit)
            × (slot_size ≤ length store.old) }
        requires clean { clean ≡ true → Clean (window_end (end_of self store.old)) }
        ensures { end_of result store.new ≡ acknowledged (end_of self store.old) seq_num }
    {
        let window = self.window_unchecked();
        window.release_unchecked(store, seq_num + 1, clean);
        self.current_seq += 1;
        self.in_flight = false;
        self.current_retries = 0;
        self
    }

    // Marks the packet in flight as sent again and counts it.
    pub fn mark_retransmitted_unchecked(mut self, store: &mut [u8]) -> StopAndWaitSender
        requires self_value { (numbers_broken (window_of self) ≡ false) × (slot_size ≤ length store.old) }
        requires total_sent_bound { (self.total_sent < count_limit) × (self.retransmissions < count_limit) }
        requires current_retries_bound { self.current_retries < self.max_retries }
        ensures { end_of result store.new ≡ marked_again (end_of self store.old) }
    {
        let window = self.window_unchecked();
        let window = window.mark_retransmitted_unchecked(store, self.current_seq);
        self.current_retries += 1;
        self.total_sent = window.total_sent;
        self.retransmissions = window.retransmissions;
        self
    }

    fn unless_broken(self, answer: bool) -> Result<bool, Refusal>
        ensures { result ≡ unless_broken (window_of self) Err (Ok answer) }
    {
        if self.numbers_broken() {
            return Err(Refusal::State);
        }
        let window = self.window_unchecked();
        if window.counts_broken() {
            return Err(Refusal::Counts);
        }
        Ok(answer)
    }

    // Whether its window breaks the clauses of check 9 that don't speak of the store.
    fn numbers_broken(self) -> bool
        ensures { result ≡ numbers_broken (window_of self) }
    {
        if self.in_flight {
            bounds::SEQ_NUM_LIMIT <= self.current_seq
        } else {
            bounds::SEQ_NUM_LIMIT < self.current_seq
        }
    }

    // Its window of 1: base, next number and counters.
    pub fn window_unchecked(self) -> SendWindow
        requires { numbers_broken (window_of self) ≡ false }
        ensures { result ≡ window_of self }
    {
        let mut window = SendWindow {
            window_size: 1,
            send_base: self.current_seq,
            next_seq_num: self.current_seq,
            total_sent: self.total_sent,
            retransmissions: self.retransmissions,
        };
        if self.in_flight {
            window.next_seq_num = self.current_seq + 1;
            return window;
        }
        window
    }

    fn after_send(
        mut self,
        answer: Result<Option<usize>, Refusal>,
        window: SendWindow,
    ) -> StopAndWaitSender
        ensures { result ≡ by_send self answer window }
    {
        if let Ok(Some(_)) = answer {
            self.in_flight = true;
            self.current_retries = 0;
            self.total_sent = window.total_sent;
            self.retransmissions = window.retransmissions;
        }
        self
    }

    fn after_timeout_unchecked(
        mut self,
        answer: Result<Option<usize>, Refusal>,
        window: SendWindow,
    ) -> StopAndWaitSender
        requires { (n : ℕ) → answer ≡ Ok (Some n) → self.current_retries < self.max_retries }
        ensures { result ≡ by_timeout self answer window }
    {
        if let Ok(Some(_)) = answer {
            self.current_retries += 1;
            self.total_sent = window.total_sent;
            self.retransmissions = window.retransmissions;
        }
        self
    }

    // How many packets a timeout may send again.
    fn retries_left(self) -> u32
        ensures { result ≡ retries_left self }
    {
        if self.current_retries < self.max_retries {
            1
        } else {
            0
        }
    }
}

#[derive(Clone, Copy)]
pub struct StopAndWaitReceiver {
    pub expected_seq: u32,
    // How many bytes of the output are filled.
    pub filled: usize,
    pub total_received: u64,
    pub duplicates_count: u64,
    pub corrupted_count: u64,
}

// The state after a packet, and what is to be written; the fill mark is still the old one.
#[derive(Clone, Copy)]
pub struct StopAndWaitDecision {
    pub receiver: StopAndWaitReceiver,
    pub decision: Decision,
}

#[derive(Clone, Copy)]
pub struct StopAndWaitReceiveResult {
    pub receiver: StopAndWaitReceiver,
    pub answer: Result<Option<u32>, Refusal>,
}

impl StopAndWaitReceiver {
    pub fn new() -> StopAndWaitReceiver
        ensures { result ≡ new_receiver }
    {
        StopAndWaitReceiver {
            expected_seq: 0,
            filled: 0,
            total_received: 0,
            duplicates_count: 0,
            corrupted_count: 0,
        }
    }

    // A datagram, with the lent output and a buffer for the ACK.
    pub fn handle_packet(
        self,
        raw: &[u8],
        output: &mut [u8],
        ack: &mut [u8],
    ) -> StopAndWaitReceiveResult
        ensures { receive_exit result.answer result.receiver output.new ack.new
            ≡ handle_packet self raw.now output.old ack.old }
    {
        match receiver::read_in_order(
            self.expected_seq,
            self.filled,
            self.total_received,
            self.duplicates_count,
            self.corrupted_count,
            raw,
            output,
        ) {
            Ok(reading) => {
                self.handle_packet_unchecked(reading, Packet::payload(raw), output, ack)
            }
            Err(r) => StopAndWaitReceiveResult {
                receiver: self,
                answer: Err(r),
            },
        }
    }

    // A packet that was read. Go-Back-N's does the same with another receiver, which decides otherwise.
    pub fn handle_packet_unchecked(
        self,
        reading: PacketReading,
        payload: &[u8],
        output: &mut [u8],
        ack: &mut [u8],
    ) -> StopAndWaitReceiveResult
        requires output_value { receiverState.state_broken self.expected_seq self.filled output.old ≡ false }
        requires corrupted_count_value { counts_broken self.total_received self.duplicates_count self.corrupted_count
            ≡ false }
        ensures { receive_exit result.answer result.receiver output.new ack.new
            ≡ handle_packet_unchecked self reading payload.now output.old ack.old }
    {
        let after = self.decide_unchecked(reading);
        let decision = after.decision;
        let result = receiver::apply_unchecked(decision, payload, self.filled, output, ack);
        let answer = result.answer;
        if answer.is_err() {
            return StopAndWaitReceiveResult {
                receiver: self,
                answer,
            };
        }
        let mut receiver = after.receiver;
        receiver.filled = result.filled;
        StopAndWaitReceiveResult { receiver, answer }
    }

    // What a packet does to the state, and what is to be written.
    pub fn decide_unchecked(mut self, reading: PacketReading) -> StopAndWaitDecision
        requires corrupted_count_value { counts_broken self.total_received self.duplicates_count self.corrupted_count
            ≡ false }
        requires expected_seq_bound { self.expected_seq ≤ seq_num_limit }
        ensures { result ≡ decision self reading }
    {
        self.total_received += 1;
        match reading {
            PacketReading::Data(n) => self.decide_data(n),
            PacketReading::Fin(n) => self.decided(false, Some(n)),
            PacketReading::Ack => self.decided(false, None),
            PacketReading::Corrupted => {
                self.corrupted_count += 1;
                self.decided(false, None)
            }
        }
    }

    fn decide_data(mut self, n: u32) -> StopAndWaitDecision
        requires { (self.expected_seq ≤ seq_num_limit) × (self.duplicates_count < count_limit) }
        ensures { result ≡ data_decision self n }
    {
        let expected = self.expected_seq;
        if n == expected {
            self.expected_seq = expected + 1;
            return self.decided(true, Some(n));
        }
        if n < expected {
            self.duplicates_count += 1;
            return self.decided(false, Some(n));
        }
        // The number before the expected one; 0 before the first.
        self.decided(false, Some(expected.saturating_sub(1)))
    }

    // Go-Back-N's differs in the type of the state alone, which both give back.
    fn decided(self, deliver: bool, reply: Option<u32>) -> StopAndWaitDecision
        ensures { result ≡ decided self deliver reply }
    {
        StopAndWaitDecision {
            receiver: self,
            decision: Decision { deliver, reply },
        }
    }
}
