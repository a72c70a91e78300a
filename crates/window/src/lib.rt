// The sliding window that the three senders share: the chunks from send_base to next_seq_num - 1 lie in the store's
// slots.
#![tactic(auto)]

ghost use Rattle.std.specs.Prelude.{◌≡◌, ◌+◌, ◌-◌, ◌*◌, ◌≤◌, ◌<◌, true, false, length, drop, ◌++◌};
ghost use Rattle.bounds.specs.Bounds.{count_limit, header_size, max_payload, slot_size};
ghost use Rattle.window.specs.Acknowledgement.{is_in_window, by_packet, by_reading, ack_decision};
ghost use Rattle.window.specs.Sending.{make_exit, make_window, send_exit, send_chunk, send_chunk_unchecked};
ghost use Rattle.window.specs.Sending.{CanSendChunk};
ghost use Rattle.window.specs.Slots.{sender, fresh, slot_for, mark_retransmitted, datagram_for};
ghost use Rattle.window.specs.Slots.{empty_from, release, Clean};
ghost use Rattle.window.specs.Resending.{datagrams_from, mark_from, timeout_exit, resend, resend_outstanding};
ghost use Rattle.window.specs.Resending.{outstanding_decision, Resendable};
ghost use Rattle.store.specs.Slot.{slot_at, slot_length};
ghost use Rattle.store.specs.Clean.{CleanSlots};
ghost use Rattle.window.specs.State.{state_broken, numbers_broken, counts_broken, window_broken, store_short};
ghost use Rattle.window.specs.Outstanding.{in_flight_count, can_send, has_unacked_packets};

use bounds::{COUNT_LIMIT, MAX_WINDOW_SIZE, SEQ_NUM_LIMIT};
use packet::{DatagramReading, Packet, PacketType};
use refusal::Refusal;

#[derive(Clone, Copy)]
pub struct SendWindow {
    pub window_size: usize,
    pub send_base: u32,
    pub next_seq_num: u32,
    pub total_sent: u64,
    pub retransmissions: u64,
}

#[derive(Clone, Copy)]
pub struct SendResult {
    pub window: SendWindow,
    pub answer: Result<Option<usize>, Refusal>,
}

// Whether an ACK is accepted, decided before anything is written: the number that it acknowledges, and the new base.
// An enum and not an Option of a pair: two u32 side by side would say less than their names.
#[derive(Clone, Copy)]
pub enum AckDecision {
    Accept { seq_num: u32, base: u32 },
    NotAccepted,
}

// Which numbers a timeout sends again, decided before anything is written.
// An enum and not an Option of a pair: two u32 side by side would say less than their names.
#[derive(Clone, Copy)]
pub enum TimeoutDecision {
    Resend { first: u32, count: u32 },
    Nothing,
}

#[derive(Clone, Copy)]
pub struct TimeoutResult {
    pub window: SendWindow,
    pub answer: Result<Option<usize>, Refusal>,
}

impl SendWindow {
    pub fn new(window: usize, store: &mut [u8]) -> Result<SendWindow, Refusal>
        ensures { make_exit result store.new ≡ make_window window store.old }
    {
        if store_short(store, window) {
            return Err(Refusal::State);
        }
        if window_broken(window) {
            return Err(Refusal::Setup);
        }
        Ok(SendWindow::new_unchecked(window, store))
    }

    // A chunk into its slot and as a datagram to the start of out.
    pub fn send_chunk(
        self,
        selective: bool,
        store: &mut [u8],
        payload: &[u8],
        out: &mut [u8],
    ) -> SendResult
        ensures { send_exit result.answer (sender result.window store.new) out.new
            ≡ send_chunk selective (sender self store.old) payload.now out.old }
    {
        let n = payload.len();
        if self.state_broken(selective, store) {
            return SendResult {
                window: self,
                answer: Err(Refusal::State),
            };
        }
        if self.counts_broken() {
            return SendResult {
                window: self,
                answer: Err(Refusal::Counts),
            };
        }
        if Packet::MAX_PAYLOAD_SIZE < n {
            return SendResult {
                window: self,
                answer: Err(Refusal::Long),
            };
        }
        if self.window_size <= (self.next_seq_num - self.send_base) as usize {
            return SendResult {
                window: self,
                answer: Ok(None),
            };
        }
        if self.next_seq_num == SEQ_NUM_LIMIT {
            return SendResult {
                window: self,
                answer: Err(Refusal::Numbers),
            };
        }
        if out.len() < Packet::HEADER_SIZE + n {
            return SendResult {
                window: self,
                answer: Err(Refusal::Full),
            };
        }
        let window = self.send_chunk_unchecked(store, payload, out, false);
        SendResult {
            window,
            answer: Ok(Some(Packet::HEADER_SIZE + n)),
        }
    }

    // How many numbers are outstanding.
    pub fn in_flight_count(self) -> Result<usize, Refusal>
        ensures { result ≡ in_flight_count self }
    {
        if self.numbers_broken() {
            return Err(Refusal::State);
        }
        if self.counts_broken() {
            return Err(Refusal::Counts);
        }
        Ok((self.next_seq_num - self.send_base) as usize)
    }

    pub fn can_send(self) -> Result<bool, Refusal>
        ensures { result ≡ can_send self }
    {
        let n = self.in_flight_count()?;
        Ok(n < self.window_size)
    }

    pub fn has_unacked_packets(self) -> Result<bool, Refusal>
        ensures { result ≡ has_unacked_packets self }
    {
        let n = self.in_flight_count()?;
        Ok(0 < n)
    }

    // Sends the lowest outstanding numbers of a Stop-and-Wait or Go-Back-N sender again, at most so many.
    pub fn resend_outstanding(self, store: &mut [u8], most: u32, out: &mut [u8]) -> TimeoutResult
        ensures { timeout_exit result.answer (sender result.window store.new) out.new
            ≡ resend_outstanding (sender self store.old) most out.old }
    {
        match self.decide_timeout(store, most) {
            Ok(TimeoutDecision::Resend { first, count }) => {
                self.resend_unchecked(store, first, count, out)
            }
            Ok(TimeoutDecision::Nothing) => TimeoutResult {
                window: self,
                answer: Ok(None),
            },
            Err(r) => TimeoutResult {
                window: self,
                answer: Err(r),
            },
        }
    }

    pub fn new_unchecked(window: usize, store: &mut [u8]) -> SendWindow
        requires { window * slot_size ≤ length store.old }
        ensures { sender result store.new ≡ fresh window store.old }
    {
        store::empty_all_unchecked(store, window);
        SendWindow {
            window_size: window,
            send_base: 0,
            next_seq_num: 0,
            total_sent: 0,
            retransmissions: 0,
        }
    }

    // `clean`: whether the bytes of the slots past their lengths are zeros.
    pub fn send_chunk_unchecked(
        mut self,
        store: &mut [u8],
        payload: &[u8],
        out: &mut [u8],
        clean: bool,
    ) -> SendWindow
        requires can_send_chunk { CanSendChunk (sender self store.old) payload.now out.old }
        requires clean { clean ≡ true → Clean (sender self store.old) }
        ensures { send_exit (Ok (Some (header_size + length payload.now)))
            (sender result store.new) out.new
            ≡ send_chunk_unchecked (sender self store.old) payload.now out.old }
    {
        let next = self.next_seq_num;
        let slot = next as usize % self.window_size;
        store::fill_unchecked(store, slot, payload, 1, 0, clean);
        let packet = Packet::new_data(next).compute_and_set_checksum_unchecked(payload);
        packet.to_bytes_unchecked(payload, out);
        self.next_seq_num = next + 1;
        self.total_sent += 1;
        self
    }

    // Marks a number's slot as sent again and counts it.
    pub fn mark_retransmitted_unchecked(mut self, store: &mut [u8], seq_num: u32) -> SendWindow
        requires window_size_nonzero { (0 < self.window_size) × (self.window_size * slot_size ≤ length store.old) }
        requires total_sent_bound { (self.total_sent < 9223372036854775808)
            × (self.retransmissions < 9223372036854775808) }
        ensures { sender result store.new
            ≡ mark_retransmitted (sender self store.old) seq_num }
    {
        let slot = seq_num as usize % self.window_size;
        let flags = store::flags_unchecked(store, slot) | packet::FLAG_RETRANSMITTED;
        store::set_flags_unchecked(store, slot, flags);
        self.total_sent += 1;
        self.retransmissions += 1;
        self
    }

    // Writes a number's datagram, as its slot has it, to the start of out, and answers its length.
    pub fn write_datagram_unchecked(self, store: &[u8], seq_num: u32, out: &mut [u8]) -> usize
        requires window_size_nonzero { (0 < self.window_size) × (self.window_size * slot_size ≤ length store.now) }
        requires seq_num_bound { (slot_length (slot_at store.now (slot_for self seq_num)) ≤ max_payload)
            × (header_size + slot_length (slot_at store.now (slot_for self seq_num)) ≤ length out.old) }
        ensures value { result ≡ length (datagram_for (sender self store.now) seq_num) }
        ensures out_after { out.new
            ≡ datagram_for (sender self store.now) seq_num
            ++ drop (length (datagram_for (sender self store.now) seq_num)) out.old }
    {
        let slot = seq_num as usize % self.window_size;
        let payload = store::payload_unchecked(store, slot);
        let packet = Packet {
            seq_num,
            pkt_type: PacketType::Data,
            flags: store::flags_unchecked(store, slot),
            checksum: 0,
        };
        packet
            .compute_and_set_checksum_unchecked(payload)
            .to_bytes_unchecked(payload, out);
        Packet::HEADER_SIZE + payload.len()
    }

    // How many bytes the datagrams of count numbers from first on take.
    pub fn datagrams_length_unchecked(self, store: &[u8], first: u32, count: u32) -> usize
        requires { Resendable self store.now first count }
        ensures { result ≡ length (datagrams_from (sender self store.now) first count) }
    {
        let mut total: usize = 0;
        for n in first..first + count {
            let slot = n as usize % self.window_size;
            total += Packet::HEADER_SIZE + store::length_unchecked(store, slot) as usize;
        }
        total
    }

    // Marks count numbers from first on as sent again and counts them.
    pub fn mark_retransmitted_from_unchecked(
        mut self,
        store: &mut [u8],
        first: u32,
        count: u32,
    ) -> SendWindow
        requires resendable { Resendable self store.old first count }
        requires total_sent_bound { (self.total_sent < count_limit) × (self.retransmissions < count_limit) }
        ensures { sender result store.new ≡ mark_from (sender self store.old) first count }
    {
        for n in first..first + count {
            self = self.mark_retransmitted_unchecked(store, n);
        }
        self
    }

    // Writes the datagrams of count numbers from first on, one after another, to the start of out.
    pub fn write_datagrams_unchecked(self, store: &[u8], first: u32, count: u32, out: &mut [u8])
        requires resendable { Resendable self store.now first count }
        requires count_in_bounds { length (datagrams_from (sender self store.now) first count) ≤ length out.old }
        ensures { out.new
            ≡ datagrams_from (sender self store.now) first count
            ++ drop (length (datagrams_from (sender self store.now) first count)) out.old }
    {
        let mut at: usize = 0;
        for n in first..first + count {
            at += self.write_datagram_unchecked(store, n, &mut out[at..]);
        }
    }

    // Sends count numbers from first on again, their datagrams one after another to the start of out.
    pub fn resend_unchecked(
        self,
        store: &mut [u8],
        first: u32,
        count: u32,
        out: &mut [u8],
    ) -> TimeoutResult
        requires resendable { Resendable self store.old first count }
        requires total_sent_bound { (self.total_sent < count_limit) × (self.retransmissions < count_limit) }
        ensures { timeout_exit result.answer (sender result.window store.new) out.new
            ≡ resend false false (sender self store.old) first count out.old }
    {
        if count == 0 {
            return TimeoutResult {
                window: self,
                answer: Ok(None),
            };
        }
        let total = self.datagrams_length_unchecked(store, first, count);
        if out.len() < total {
            return TimeoutResult {
                window: self,
                answer: Err(Refusal::Full),
            };
        }
        let window = self.mark_retransmitted_from_unchecked(store, first, count);
        window.write_datagrams_unchecked(store, first, count, out);
        TimeoutResult {
            window,
            answer: Ok(Some(total)),
        }
    }

    // Empties the slots of the numbers below until and moves send_base there.
    pub fn release_unchecked(mut self, store: &mut [u8], until: u32, clean: bool) -> SendWindow
        requires window_size_nonzero { (0 < self.window_size) × (self.window_size * slot_size ≤ length store.old) }
        requires send_base_bound { self.send_base ≤ until }
        requires clean { clean ≡ true → Clean (sender self store.old) }
        ensures { sender result store.new ≡ release (sender self store.old) until }
    {
        empty_slots_unchecked(store, self.window_size, self.send_base, until, clean);
        self.send_base = until;
        self
    }

    // What a datagram as an ACK does; selective is set for a Selective Repeat sender, whose base moves otherwise.
    pub fn decide_ack(
        self,
        selective: bool,
        store: &[u8],
        raw: &[u8],
    ) -> Result<AckDecision, Refusal>
        ensures { result ≡ ack_decision selective self store.now raw.now }
    {
        if self.state_broken(selective, store) {
            return Err(Refusal::State);
        }
        if self.counts_broken() {
            return Err(Refusal::Counts);
        }
        self.decide_reading(Packet::read_datagram(raw))
    }

    // The same of a datagram that was read, on a state that isn't refused.
    pub fn decide_reading(
        self,
        reading: Result<DatagramReading, Refusal>,
    ) -> Result<AckDecision, Refusal>
        ensures { result ≡ by_reading self reading }
    {
        match reading? {
            DatagramReading::Valid(packet) => self.decide_packet(packet),
            DatagramReading::Corrupted(_) => Ok(AckDecision::NotAccepted),
        }
    }

    fn decide_packet(self, packet: Packet) -> Result<AckDecision, Refusal>
        ensures { result ≡ by_packet self packet }
    {
        let seq_num = packet.seq_num;
        if matches!(packet.pkt_type, PacketType::Ack) && self.is_outstanding(seq_num) {
            return Ok(AckDecision::Accept {
                seq_num,
                base: seq_num + 1,
            });
        }
        Ok(AckDecision::NotAccepted)
    }

    // Whether a number is one of those from send_base to next_seq_num - 1.
    pub fn is_outstanding(self, seq_num: u32) -> bool
        ensures { result ≡ is_in_window self seq_num }
    {
        self.send_base <= seq_num && seq_num < self.next_seq_num
    }

    // What a timeout of a Stop-and-Wait or Go-Back-N sender does: the lowest outstanding numbers, at most so many.
    pub fn decide_timeout(self, store: &[u8], most: u32) -> Result<TimeoutDecision, Refusal>
        ensures { result ≡ outstanding_decision self store.now most }
    {
        if self.state_broken(false, store) {
            return Err(Refusal::State);
        }
        if self.counts_broken() {
            return Err(Refusal::Counts);
        }
        let count = most.min(self.next_seq_num - self.send_base);
        if count == 0 {
            return Ok(TimeoutDecision::Nothing);
        }
        Ok(TimeoutDecision::Resend {
            first: self.send_base,
            count,
        })
    }

    // Whether check 9 is true; selective is set for a Selective Repeat sender.
    pub fn state_broken(self, selective: bool, store: &[u8]) -> bool
        ensures { result ≡ state_broken selective self store.now }
    {
        let window = self.window_size;
        if self.numbers_broken() {
            return true;
        }
        if store_short(store, window) {
            return true;
        }
        let count = (self.next_seq_num - self.send_base) as usize;
        store::sender_slots_broken_unchecked(selective, store, window, self.send_base, count)
    }

    // Whether the clauses of check 9 that don't speak of the store are true.
    #[tactic(auto, unfolding(crate::specs::State::numbers_broken, refusal::specs::Clauses::any_of))]
    pub fn numbers_broken(self) -> bool
        ensures { result ≡ numbers_broken self }
    {
        let window = self.window_size;
        let base = self.send_base;
        let next = self.next_seq_num;
        window_broken(window)
            || next < base
            || window < (next - base) as usize
            || SEQ_NUM_LIMIT < next
    }

    // Whether check 8 is true.
    #[tactic(auto, unfolding(crate::specs::State::counts_broken, refusal::specs::Clauses::any_of))]
    pub fn counts_broken(self) -> bool
        ensures { result ≡ counts_broken self }
    {
        COUNT_LIMIT <= self.total_sent || COUNT_LIMIT <= self.retransmissions
    }
}

#[tactic(auto, unfolding(crate::specs::State::window_broken, refusal::specs::Clauses::any_of))]
pub fn window_broken(window: usize) -> bool
    ensures { result ≡ window_broken window }
{
    window < 1 || MAX_WINDOW_SIZE < window
}

pub fn store_short(store: &[u8], window: usize) -> bool
    ensures { result ≡ store_short store.now window }
{
    store.len() / bounds::SLOT_SIZE < window
}

// Empties the slots of the numbers from `from` up to until.
pub fn empty_slots_unchecked(store: &mut [u8], window: usize, from: u32, until: u32, clean: bool)
    requires window_nonzero { (0 < window) × (window * slot_size ≤ length store.old) × (from ≤ until) }
    requires clean_slots { clean ≡ true → CleanSlots store.old window }
    ensures { store.new ≡ empty_from store.old window from (until - from) }
{
    for n in from..until {
        store::empty_unchecked(store, n as usize % window, clean);
    }
}
