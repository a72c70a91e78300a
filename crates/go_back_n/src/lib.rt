// Go-Back-N: arq/gbn.rs of the reference.
#![tactic(auto)]

ghost use Rattle.std.specs.Prelude.{◌≡◌, ◌*◌, ◌≤◌, ◌<◌, length, true, false};
ghost use Rattle.bounds.specs.Bounds.{count_limit, seq_num_limit, slot_size};
ghost use Rattle.window.specs.Slots.{sender, Clean};
ghost use Rattle.window.specs.Sending.{make_exit, make_window, send_exit, send_chunk};
ghost use Rattle.window.specs.Acknowledgement.{ack_exit};
ghost use Rattle.window.specs.Resending.{timeout_exit};
ghost use Rattle.window.specs.Outstanding.{can_send, in_flight_count, has_unacked_packets};
ghost use Rattle.go_back_n.specs.Sender.{made_window, decide_ack, acknowledged, handle_ack, handle_timeout};
ghost use Rattle.go_back_n.specs.Sender.{handle_timeout_earliest};
ghost use Rattle.go_back_n.specs.Receiver.{new_receiver, decided, data_decision, decision, handle_packet};
ghost use Rattle.go_back_n.specs.Receiver.{handle_packet_unchecked};
ghost use Rattle.receiver.specs.Receive.{receive_exit};
ghost use Rattle.receiver.specs.State as receiverState;
ghost use Rattle.receiver.specs.State.{counts_broken};

use packet::Packet;
use receiver::{Decision, PacketReading};
use refusal::Refusal;
use window::{AckDecision, SendWindow};

#[derive(Clone, Copy)]
pub struct GoBackNSender {
    pub window: SendWindow,
}

#[derive(Clone, Copy)]
pub struct GoBackNSendResult {
    pub sender: GoBackNSender,
    pub answer: Result<Option<usize>, Refusal>,
}

#[derive(Clone, Copy)]
pub struct GoBackNAckResult {
    pub sender: GoBackNSender,
    pub answer: Result<bool, Refusal>,
}

#[derive(Clone, Copy)]
pub struct GoBackNTimeoutResult {
    pub sender: GoBackNSender,
    pub answer: Result<Option<usize>, Refusal>,
}

impl GoBackNSender {
    pub fn new(window_size: usize, store: &mut [u8]) -> Result<GoBackNSender, Refusal>
        ensures { make_exit (made_window result) store.new ≡ make_window window_size store.old }
    {
        let window = SendWindow::new(window_size, store)?;
        Ok(GoBackNSender { window })
    }

    // A chunk into its slot and as a datagram to the start of out.
    pub fn send_chunk(self, store: &mut [u8], payload: &[u8], out: &mut [u8]) -> GoBackNSendResult
        ensures { send_exit result.answer (sender result.sender.window store.new) out.new
            ≡ send_chunk false (sender self.window store.old) payload.now out.old }
    {
        let sent = self.window.send_chunk(false, store, payload, out);
        GoBackNSendResult {
            sender: GoBackNSender {
                window: sent.window,
            },
            answer: sent.answer,
        }
    }

    // A datagram as an ACK. Stop-and-Wait's does the same with another sender and its `acknowledge_unchecked`.
    pub fn handle_ack(self, store: &mut [u8], raw: &[u8]) -> GoBackNAckResult
        ensures { ack_exit result.answer (sender result.sender.window store.new)
            ≡ handle_ack (sender self.window store.old) raw.now }
    {
        match self.decide_ack(store, raw) {
            Ok(AckDecision::Accept { seq_num, .. }) => GoBackNAckResult {
                sender: self.acknowledge_unchecked(store, seq_num, false),
                answer: Ok(true),
            },
            Ok(AckDecision::NotAccepted) => GoBackNAckResult {
                sender: self,
                answer: Ok(false),
            },
            Err(r) => GoBackNAckResult {
                sender: self,
                answer: Err(r),
            },
        }
    }

    // Every outstanding number again, lowest first.
    pub fn handle_timeout(self, store: &mut [u8], out: &mut [u8]) -> GoBackNTimeoutResult
        ensures { timeout_exit result.answer (sender result.sender.window store.new) out.new
            ≡ handle_timeout (sender self.window store.old) out.old }
    {
        let all = bounds::MAX_WINDOW_SIZE as u32;
        let result = self.window.resend_outstanding(store, all, out);
        GoBackNTimeoutResult {
            sender: GoBackNSender {
                window: result.window,
            },
            answer: result.answer,
        }
    }

    // Only the number at send_base again: the edition clock's timeout.
    pub fn handle_timeout_earliest(self, store: &mut [u8], out: &mut [u8]) -> GoBackNTimeoutResult
        ensures { timeout_exit result.answer (sender result.sender.window store.new) out.new
            ≡ handle_timeout_earliest (sender self.window store.old) out.old }
    {
        let result = self.window.resend_outstanding(store, 1, out);
        GoBackNTimeoutResult {
            sender: GoBackNSender {
                window: result.window,
            },
            answer: result.answer,
        }
    }

    // What a datagram as an ACK does.
    pub fn decide_ack(self, store: &[u8], raw: &[u8]) -> Result<AckDecision, Refusal>
        ensures { result ≡ decide_ack (sender self.window store.now) raw.now }
    {
        self.window.decide_ack(false, store, raw)
    }

    // What the accepted ACK of an outstanding number does. `clean`: whether the bytes of the slots past their lengths
    // are zeros.
    pub fn acknowledge_unchecked(self, store: &mut [u8], seq_num: u32, clean: bool) -> GoBackNSender
        requires window_size_nonzero { (0 < self.window.window_size)
            × (self.window.window_size * slot_size ≤ length store.old) }
        requires send_base_bound { (self.window.send_base ≤ seq_num) × (seq_num < seq_num_limit) }
        requires clean { clean ≡ true → Clean (sender self.window store.old) }
        ensures { sender result.window store.new
            ≡ acknowledged (sender self.window store.old) seq_num }
    {
        let window = self.window.release_unchecked(store, seq_num + 1, clean);
        GoBackNSender { window }
    }

    pub fn can_send(self) -> Result<bool, Refusal>
        ensures { result ≡ can_send self.window }
    {
        self.window.can_send()
    }

    pub fn in_flight_count(self) -> Result<usize, Refusal>
        ensures { result ≡ in_flight_count self.window }
    {
        self.window.in_flight_count()
    }

    pub fn has_unacked_packets(self) -> Result<bool, Refusal>
        ensures { result ≡ has_unacked_packets self.window }
    {
        self.window.has_unacked_packets()
    }
}

#[derive(Clone, Copy)]
pub struct GoBackNReceiver {
    pub expected_seq: u32,
    // How many bytes of the output are filled.
    pub filled: usize,
    pub total_received: u64,
    pub discarded_out_of_order: u64,
    pub duplicate_acks_sent: u64,
}

// The state after a packet, and what is to be written; the fill mark is still the old one.
#[derive(Clone, Copy)]
pub struct GoBackNDecision {
    pub receiver: GoBackNReceiver,
    pub decision: Decision,
}

#[derive(Clone, Copy)]
pub struct GoBackNReceiveResult {
    pub receiver: GoBackNReceiver,
    pub answer: Result<Option<u32>, Refusal>,
}

impl GoBackNReceiver {
    pub fn new() -> GoBackNReceiver
        ensures { result ≡ new_receiver }
    {
        GoBackNReceiver {
            expected_seq: 0,
            filled: 0,
            total_received: 0,
            discarded_out_of_order: 0,
            duplicate_acks_sent: 0,
        }
    }

    // A datagram, with the lent output and a buffer for the ACK.
    pub fn handle_packet(
        self,
        raw: &[u8],
        output: &mut [u8],
        ack: &mut [u8],
    ) -> GoBackNReceiveResult
        ensures { receive_exit result.answer result.receiver output.new ack.new
            ≡ handle_packet self raw.now output.old ack.old }
    {
        match receiver::read_in_order(
            self.expected_seq,
            self.filled,
            self.total_received,
            self.discarded_out_of_order,
            self.duplicate_acks_sent,
            raw,
            output,
        ) {
            Ok(reading) => {
                self.handle_packet_unchecked(reading, Packet::payload(raw), output, ack)
            }
            Err(r) => GoBackNReceiveResult {
                receiver: self,
                answer: Err(r),
            },
        }
    }

    // A packet that was read. Stop-and-Wait's does the same with another receiver, which decides otherwise.
    pub fn handle_packet_unchecked(
        self,
        reading: PacketReading,
        payload: &[u8],
        output: &mut [u8],
        ack: &mut [u8],
    ) -> GoBackNReceiveResult
        requires output_value { receiverState.state_broken self.expected_seq self.filled output.old ≡ false }
        requires duplicate_acks_sent_value { counts_broken self.total_received self.discarded_out_of_order
            self.duplicate_acks_sent ≡ false }
        ensures { receive_exit result.answer result.receiver output.new ack.new
            ≡ handle_packet_unchecked self reading payload.now output.old ack.old }
    {
        let after = self.decide_unchecked(reading);
        let decision = after.decision;
        let result = receiver::apply_unchecked(decision, payload, self.filled, output, ack);
        let answer = result.answer;
        if answer.is_err() {
            return GoBackNReceiveResult {
                receiver: self,
                answer,
            };
        }
        let mut receiver = after.receiver;
        receiver.filled = result.filled;
        GoBackNReceiveResult { receiver, answer }
    }

    // What a packet does to the state, and what is to be written.
    pub fn decide_unchecked(mut self, reading: PacketReading) -> GoBackNDecision
        requires duplicate_acks_sent_value { counts_broken self.total_received self.discarded_out_of_order
            self.duplicate_acks_sent ≡ false }
        requires expected_seq_bound { self.expected_seq ≤ seq_num_limit }
        ensures { result ≡ decision self reading }
    {
        self.total_received += 1;
        match reading {
            PacketReading::Data(n) => self.decide_data(n),
            PacketReading::Fin(n) => self.decided(false, Some(n)),
            PacketReading::Ack => self.decided(false, None),
            PacketReading::Corrupted => self.decided(false, None),
        }
    }

    fn decide_data(mut self, n: u32) -> GoBackNDecision
        requires { (self.expected_seq ≤ seq_num_limit) × (self.discarded_out_of_order < count_limit)
            × (self.duplicate_acks_sent < count_limit) }
        ensures { result ≡ data_decision self n }
    {
        let expected = self.expected_seq;
        if n == expected {
            self.expected_seq = expected + 1;
            return self.decided(true, Some(n));
        }
        self.discarded_out_of_order += 1;
        if expected == 0 {
            return self.decided(false, None);
        }
        self.duplicate_acks_sent += 1;
        self.decided(false, Some(expected - 1))
    }

    // Stop-and-Wait's differs in the type of the state alone, which both give back.
    fn decided(self, deliver: bool, reply: Option<u32>) -> GoBackNDecision
        ensures { result ≡ decided self deliver reply }
    {
        GoBackNDecision {
            receiver: self,
            decision: Decision { deliver, reply },
        }
    }
}
