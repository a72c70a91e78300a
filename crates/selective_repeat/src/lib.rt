// Selective Repeat: arq/sr.rs of the reference.
#![tactic(auto)]

ghost use Rattle.std.specs.Prelude.{◌≡◌, ◌+◌, ◌-◌, ◌*◌, ◌≤◌, ◌<◌, true, false, length};
ghost use Rattle.bounds.specs.Bounds.{count_limit, max_payload, slot_size};
ghost use Rattle.window.specs.State as windowState;
ghost use Rattle.window.specs.Slots.{sender, Clean};
ghost use Rattle.window.specs.Sending.{make_exit, make_window, send_exit, send_chunk};
ghost use Rattle.window.specs.Acknowledgement.{is_in_window, ack_exit};
ghost use Rattle.window.specs.Resending.{timeout_exit};
ghost use Rattle.window.specs.Outstanding.{can_send};
ghost use Rattle.receiver.specs.Reply.{apply_exit, applied, RoomFor};
ghost use Rattle.receiver.specs.Receive.{receive_exit};
ghost use Rattle.selective_repeat.specs.Sender.{made_window, base_after, acknowledge_one, decide_ack, handle_ack};
ghost use Rattle.selective_repeat.specs.Sender.{due, decide_timeout, handle_timeout};
ghost use Rattle.selective_repeat.specs.Sender.{in_flight_count, in_flight_count_unchecked};
ghost use Rattle.selective_repeat.specs.Receiver.{receiver, make_receiver, buffered_count};
ghost use Rattle.selective_repeat.specs.Receiver.{state_broken, receiving_broken, counters_broken, Ready};
ghost use Rattle.selective_repeat.specs.Receiver.{released, decided, data_decision, decision};
ghost use Rattle.selective_repeat.specs.Receiver.{delivered_bytes, changed_slots, handle_packet};
ghost use Rattle.selective_repeat.specs.Receiver.{handle_packet_unchecked};

use packet::Packet;
use receiver::{Decision, PacketReading};
use refusal::Refusal;
use window::{AckDecision, SendWindow, TimeoutDecision};

#[derive(Clone, Copy)]
pub struct SelectiveRepeatSender {
    pub window: SendWindow,
}

#[derive(Clone, Copy)]
pub struct SelectiveRepeatSendResult {
    pub sender: SelectiveRepeatSender,
    pub answer: Result<Option<usize>, Refusal>,
}

#[derive(Clone, Copy)]
pub struct SelectiveRepeatAckResult {
    pub sender: SelectiveRepeatSender,
    pub answer: Result<bool, Refusal>,
}

#[derive(Clone, Copy)]
pub struct SelectiveRepeatTimeoutResult {
    pub sender: SelectiveRepeatSender,
    pub answer: Result<Option<usize>, Refusal>,
}

impl SelectiveRepeatSender {
    pub fn new(window_size: usize, store: &mut [u8]) -> Result<SelectiveRepeatSender, Refusal>
        ensures { make_exit (made_window result) store.new ≡ make_window window_size store.old }
    {
        let window = SendWindow::new(window_size, store)?;
        Ok(SelectiveRepeatSender { window })
    }

    // A chunk into its slot and as a datagram to the start of out.
    pub fn send_chunk(
        self,
        store: &mut [u8],
        payload: &[u8],
        out: &mut [u8],
    ) -> SelectiveRepeatSendResult
        ensures { send_exit result.answer (sender result.sender.window store.new) out.new
            ≡ send_chunk true (sender self.window store.old) payload.now out.old }
    {
        let sent = self.window.send_chunk(true, store, payload, out);
        SelectiveRepeatSendResult {
            sender: SelectiveRepeatSender {
                window: sent.window,
            },
            answer: sent.answer,
        }
    }

    // A datagram as an ACK.
    pub fn handle_ack(self, store: &mut [u8], raw: &[u8]) -> SelectiveRepeatAckResult
        ensures { ack_exit result.answer (sender result.sender.window store.new)
            ≡ handle_ack (sender self.window store.old) raw.now }
    {
        match self.decide_ack(store, raw) {
            Ok(AckDecision::Accept { seq_num, base }) => {
                let window = acknowledge_one(self.window, store, seq_num, base, false);
                SelectiveRepeatAckResult {
                    sender: SelectiveRepeatSender { window },
                    answer: Ok(true),
                }
            }
            Ok(AckDecision::NotAccepted) => SelectiveRepeatAckResult {
                sender: self,
                answer: Ok(false),
            },
            Err(r) => SelectiveRepeatAckResult {
                sender: self,
                answer: Err(r),
            },
        }
    }

    // Sends a number again, if it is outstanding and not acknowledged.
    pub fn handle_timeout(
        self,
        store: &mut [u8],
        seq_num: u32,
        out: &mut [u8],
    ) -> SelectiveRepeatTimeoutResult
        ensures { timeout_exit result.answer (sender result.sender.window store.new) out.new
            ≡ handle_timeout (sender self.window store.old) seq_num out.old }
    {
        match self.decide_timeout(store, seq_num) {
            Ok(TimeoutDecision::Resend { first, count }) => {
                let result = self.window.resend_unchecked(store, first, count, out);
                SelectiveRepeatTimeoutResult {
                    sender: SelectiveRepeatSender {
                        window: result.window,
                    },
                    answer: result.answer,
                }
            }
            Ok(TimeoutDecision::Nothing) => SelectiveRepeatTimeoutResult {
                sender: self,
                answer: Ok(None),
            },
            Err(r) => SelectiveRepeatTimeoutResult {
                sender: self,
                answer: Err(r),
            },
        }
    }

    // What a datagram as an ACK does: the number that it acknowledges, and the base after it.
    pub fn decide_ack(self, store: &[u8], raw: &[u8]) -> Result<AckDecision, Refusal>
        ensures { result ≡ decide_ack (sender self.window store.now) raw.now }
    {
        let window = self.window;
        match window.decide_ack(true, store, raw)? {
            AckDecision::Accept { seq_num, .. } => Ok(AckDecision::Accept {
                seq_num,
                base: base_after(window, store, seq_num),
            }),
            AckDecision::NotAccepted => Ok(AckDecision::NotAccepted),
        }
    }

    // What a number's timeout does.
    pub fn decide_timeout(self, store: &[u8], seq_num: u32) -> Result<TimeoutDecision, Refusal>
        ensures { result ≡ decide_timeout (sender self.window store.now) seq_num }
    {
        let window = self.window;
        if window.state_broken(true, store) {
            return Err(Refusal::State);
        }
        if window.counts_broken() {
            return Err(Refusal::Counts);
        }
        if !self.is_due_unchecked(store, seq_num) {
            return Ok(TimeoutDecision::Nothing);
        }
        Ok(TimeoutDecision::Resend {
            first: seq_num,
            count: 1,
        })
    }

    pub fn can_send(self) -> Result<bool, Refusal>
        ensures { result ≡ can_send self.window }
    {
        self.window.can_send()
    }

    // How many numbers are outstanding and not acknowledged.
    pub fn in_flight_count(self, store: &[u8]) -> Result<usize, Refusal>
        ensures { result ≡ in_flight_count (sender self.window store.now) }
    {
        let window = self.window;
        refusal::held_verdict(window.state_broken(true, store), window.counts_broken())?;
        Ok(self.in_flight_count_unchecked(store))
    }

    // What an accepted ACK of an outstanding number does. `clean`: whether the bytes of the slots past their lengths
    // are zeros.
    pub fn acknowledge_unchecked(
        self,
        store: &mut [u8],
        seq_num: u32,
        clean: bool,
    ) -> SelectiveRepeatSender
        requires store_value { windowState.state_broken true self.window store.old ≡ false }
        requires seq_num_value { is_in_window self.window seq_num ≡ true }
        requires clean { clean ≡ true → Clean (sender self.window store.old) }
        ensures { sender result.window store.new
            ≡ acknowledge_one (sender self.window store.old) seq_num }
    {
        let window = self.window;
        let base = base_after(window, store, seq_num);
        SelectiveRepeatSender {
            window: acknowledge_one(window, store, seq_num, base, clean),
        }
    }

    // Whether a number is outstanding and not acknowledged.
    pub fn is_due_unchecked(self, store: &[u8], seq_num: u32) -> bool
        requires window_size_nonzero { 0 < self.window.window_size }
        requires slot_size_in_bounds { self.window.window_size * slot_size ≤ length store.now }
        ensures { result ≡ due (sender self.window store.now) seq_num }
    {
        let window = self.window;
        window.is_outstanding(seq_num)
            && store::mark_unchecked(store, seq_num as usize % window.window_size) != 2
    }

    pub fn in_flight_count_unchecked(self, store: &[u8]) -> usize
        requires { windowState.state_broken true self.window store.now ≡ false }
        ensures { result ≡ in_flight_count_unchecked (sender self.window store.now) }
    {
        let window = self.window;
        let base = window.send_base;
        let outstanding = (window.next_seq_num - base) as usize;
        store::marked_count_unchecked(store, window.window_size, base, outstanding, 1)
    }
}

// The base after the ACK of an outstanding number: at send_base past it and those acknowledged after it.
fn base_after(window: SendWindow, store: &[u8], n: u32) -> u32
    requires store_value { windowState.state_broken true window store.now ≡ false }
    requires n_value { is_in_window window n ≡ true }
    ensures { result ≡ base_after (sender window store.now) n }
{
    let base = window.send_base;
    if n != base {
        return base;
    }
    let others = (window.next_seq_num - base - 1) as usize;
    let run = store::marked_run_unchecked(store, window.window_size, base + 1, others, 2);
    base + 1 + run as u32
}

// Marks an outstanding number as acknowledged, or releases those that send_base moves past.
fn acknowledge_one(
    window: SendWindow,
    store: &mut [u8],
    n: u32,
    base: u32,
    clean: bool,
) -> SendWindow
    requires store_value { (windowState.state_broken true window store.old ≡ false) × (is_in_window window n ≡ true) }
    requires base_value { base ≡ base_after (sender window store.old) n }
    requires clean { clean ≡ true → Clean (sender window store.old) }
    ensures { sender result store.new ≡ acknowledge_one (sender window store.old) n }
{
    if base == window.send_base {
        store::set_mark_unchecked(store, n as usize % window.window_size, 2);
        return window;
    }
    window.release_unchecked(store, base, clean)
}

#[derive(Clone, Copy)]
pub struct SelectiveRepeatReceiver {
    pub window_size: usize,
    pub recv_base: u32,
    // How many bytes of the output are filled.
    pub filled: usize,
    pub total_received: u64,
    pub buffered_out_of_order: u64,
    pub duplicates_count: u64,
}

// What a packet does to the slots.
#[derive(Clone, Copy)]
pub enum SlotChange {
    Unchanged,
    // The payload is held under this number.
    Hold(u32),
    // So many held payloads are delivered after this one.
    Release(usize),
}

// The state after a packet, and what is to be written; the fill mark is still the old one.
#[derive(Clone, Copy)]
pub struct SelectiveRepeatDecision {
    pub receiver: SelectiveRepeatReceiver,
    pub decision: Decision,
    pub change: SlotChange,
}

#[derive(Clone, Copy)]
pub struct SelectiveRepeatReceiveResult {
    pub receiver: SelectiveRepeatReceiver,
    pub answer: Result<Option<u32>, Refusal>,
}

impl SlotChange {
    pub fn released(self) -> usize
        ensures { result ≡ released self }
    {
        match self {
            SlotChange::Release(k) => k,
            SlotChange::Hold(_) | SlotChange::Unchanged => 0,
        }
    }
}

impl SelectiveRepeatReceiver {
    pub fn new(window_size: usize, store: &mut [u8]) -> Result<SelectiveRepeatReceiver, Refusal>
        ensures { make_exit result store.new ≡ make_receiver window_size store.old }
    {
        if window::store_short(store, window_size) {
            return Err(Refusal::State);
        }
        if window::window_broken(window_size) {
            return Err(Refusal::Setup);
        }
        store::empty_all_unchecked(store, window_size);
        Ok(SelectiveRepeatReceiver {
            window_size,
            recv_base: 0,
            filled: 0,
            total_received: 0,
            buffered_out_of_order: 0,
            duplicates_count: 0,
        })
    }

    // A datagram, with the lent output and a buffer for the ACK.
    pub fn handle_packet(
        self,
        store: &mut [u8],
        raw: &[u8],
        output: &mut [u8],
        ack: &mut [u8],
    ) -> SelectiveRepeatReceiveResult
        ensures { receive_exit result.answer (receiver result.receiver store.new)
            output.new ack.new
            ≡ handle_packet (receiver self store.old) raw.now
            output.old ack.old }
    {
        let verdict = refusal::held_verdict(
            self.receiving_broken(store, output),
            self.counts_broken(),
        );
        match receiver::read_after(verdict, raw) {
            Ok(reading) => {
                self.handle_packet_unchecked(store, reading, Packet::payload(raw), output, ack)
            }
            Err(r) => SelectiveRepeatReceiveResult {
                receiver: self,
                answer: Err(r),
            },
        }
    }

    // How many payloads are held.
    pub fn buffered_count(self, store: &[u8]) -> Result<usize, Refusal>
        ensures { result ≡ buffered_count (receiver self store.now) }
    {
        refusal::held_verdict(self.state_broken(store), self.counts_broken())?;
        let window = self.window_size;
        Ok(store::marked_count_unchecked(store, window, self.recv_base, window, 1))
    }

    // Whether check 9 is true of all but the fill mark.
    pub fn state_broken(self, store: &[u8]) -> bool
        ensures { result ≡ state_broken self store.now }
    {
        let window = self.window_size;
        let base = self.recv_base;
        // Early returns and no `||`: the last call asks that the first two clauses are false.
        if window::window_broken(window) {
            return true;
        }
        if window::store_short(store, window) {
            return true;
        }
        if bounds::SEQ_NUM_LIMIT < base {
            return true;
        }
        store::receiver_slots_broken_unchecked(store, window, base)
    }

    // A packet that was read, with its payload; refused only where a buffer is too short.
    pub fn handle_packet_unchecked(
        self,
        store: &mut [u8],
        reading: PacketReading,
        payload: &[u8],
        output: &mut [u8],
        ack: &mut [u8],
    ) -> SelectiveRepeatReceiveResult
        requires output_value { (receiving_broken self store.old output.old ≡ false) × (counters_broken self ≡ false) }
        requires payload_len_bound { length payload.now ≤ max_payload }
        ensures { receive_exit result.answer (receiver result.receiver store.new)
            output.new ack.new
            ≡ handle_packet_unchecked (receiver self store.old) reading
            payload.now output.old ack.old }
    {
        let after = self.decide_unchecked(store, reading);
        let decision = after.decision;
        let change = after.change;
        let size = self.delivered_length(store, change, payload);
        if receiver::room_missing_unchecked(decision, size, self.filled, output, ack) {
            return SelectiveRepeatReceiveResult {
                receiver: self,
                answer: Err(Refusal::Full),
            };
        }
        let filled = self.apply_in_room(store, decision, change, payload, output, ack);
        let mut receiver = after.receiver;
        receiver.filled = filled;
        SelectiveRepeatReceiveResult {
            receiver,
            answer: Ok(decision.reply),
        }
    }

    // What a packet that isn't refused does to the state, and what is to be written.
    pub fn decide_unchecked(
        mut self,
        store: &[u8],
        reading: PacketReading,
    ) -> SelectiveRepeatDecision
        requires store_value { state_broken self store.now ≡ false }
        requires self_value { counters_broken self ≡ false }
        ensures { result ≡ decision (receiver self store.now) reading }
    {
        self.total_received += 1;
        match reading {
            PacketReading::Data(n) => self.decide_data(store, n),
            PacketReading::Fin(n) => self.decided(false, Some(n), SlotChange::Unchanged),
            PacketReading::Ack => self.decided(false, None, SlotChange::Unchanged),
            PacketReading::Corrupted => self.decided(false, None, SlotChange::Unchanged),
        }
    }

    fn decide_data(mut self, store: &[u8], n: u32) -> SelectiveRepeatDecision
        requires ready { Ready self store.now }
        requires buffered_out_of_order_bound { (self.buffered_out_of_order < count_limit)
            × (self.duplicates_count < count_limit) }
        ensures { result ≡ data_decision (receiver self store.now) n }
    {
        let window = self.window_size;
        let base = self.recv_base;
        if n == base {
            let released = store::marked_run_unchecked(store, window, base + 1, window - 1, 1);
            self.recv_base = base + 1 + released as u32;
            return self.decided(true, Some(n), SlotChange::Release(released));
        }
        if base + window as u32 <= n {
            return self.decided(false, None, SlotChange::Unchanged);
        }
        if n + (window as u32) < base {
            return self.decided(false, None, SlotChange::Unchanged);
        }
        if base < n {
            if store::mark_unchecked(store, n as usize % window) != 1 {
                self.buffered_out_of_order += 1;
                return self.decided(false, Some(n), SlotChange::Hold(n));
            }
        }
        self.duplicates_count += 1;
        self.decided(false, Some(n), SlotChange::Unchanged)
    }

    fn decided(
        self,
        deliver: bool,
        reply: Option<u32>,
        change: SlotChange,
    ) -> SelectiveRepeatDecision
        ensures { result ≡ decided self deliver reply change }
    {
        SelectiveRepeatDecision {
            receiver: self,
            decision: Decision { deliver, reply },
            change,
        }
    }

    // The length of the payload and the held payloads that are delivered after it.
    fn delivered_length(self, store: &[u8], change: SlotChange, payload: &[u8]) -> usize
        requires { Ready self store.now × (released change < self.window_size) }
        ensures { result
            ≡ length (delivered_bytes (receiver self store.now) payload.now change) }
    {
        let held = store::payloads_length_unchecked(
            store,
            self.window_size,
            self.recv_base + 1,
            change.released(),
        );
        payload.len() + held
    }

    // Carries a decision out: payloads to the output, the ACK to its buffer, the slots. Answers the fill mark.
    fn apply_in_room(
        self,
        store: &mut [u8],
        decision: Decision,
        change: SlotChange,
        payload: &[u8],
        output: &mut [u8],
        ack: &mut [u8],
    ) -> usize
        requires ready { Ready self store.old × (released change < self.window_size) }
        requires change_value { (decision.deliver ≡ false → released change ≡ 0) × (length payload.now ≤ max_payload) }
        requires room_for { RoomFor decision (length (delivered_bytes (receiver self store.old) payload.now change))
            self.filled output.old ack.old }
        ensures ack_after { apply_exit result output.new ack.new
            ≡ applied decision (delivered_bytes (receiver self store.old) payload.now change)
            self.filled output.old ack.old }
        ensures store_after { store.new
            ≡ changed_slots (receiver self store.old) payload.now change }
    {
        let filled = receiver::apply_in_room_unchecked(decision, payload, self.filled, output, ack);
        let end = store::copy_payloads_unchecked(
            store,
            self.window_size,
            self.recv_base + 1,
            change.released(),
            output,
            filled,
        );
        self.change_slots(store, change, payload);
        end
    }

    // Holds the payload, or empties the slots of the payloads that were delivered.
    fn change_slots(self, store: &mut [u8], change: SlotChange, payload: &[u8])
        requires ready { Ready self store.old × (released change < self.window_size) }
        requires payload_len_bound { length payload.now ≤ max_payload }
        ensures { store.new
            ≡ changed_slots (receiver self store.old) payload.now change }
    {
        let window = self.window_size;
        let next = self.recv_base + 1;
        match change {
            SlotChange::Unchanged => {}
            SlotChange::Hold(n) => {
                store::fill_unchecked(store, n as usize % window, payload, 1, 0, false);
            }
            SlotChange::Release(k) => {
                window::empty_slots_unchecked(store, window, next, next + k as u32, false);
            }
        }
    }

    // Whether check 9 is true, with the fill mark.
    #[tactic(auto, unfolding(crate::specs::Receiver::receiving_broken, refusal::specs::Clauses::any_of))]
    fn receiving_broken(self, store: &[u8], output: &[u8]) -> bool
        ensures { result ≡ receiving_broken self store.now output.now }
    {
        self.state_broken(store) || output.len() < self.filled
    }

    // Whether check 8 is true.
    fn counts_broken(self) -> bool
        ensures { result ≡ counters_broken self }
    {
        let received = self.total_received;
        receiver::counts_broken(received, self.buffered_out_of_order, self.duplicates_count)
    }
}
