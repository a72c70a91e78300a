// The two ends of a transfer, of any of the three protocols: `Session` of app/transfer.rs of the reference. Nothing is
// checked here that a run knows of its states.
#![tactic(auto)]

ghost use Rattle.std.specs.Prelude.{◌≡◌, ◌+◌, ◌*◌, ◌≤◌, ◌<◌, min, true, false, ◌++◌, length, drop};
ghost use Rattle.bounds.specs.Bounds.{header_size, slot_size};
ghost use Rattle.window.specs.State.{numbers_broken, outstanding};
ghost use Rattle.window.specs.Slots.{datagram_for};
ghost use Rattle.window.specs.Sending.{send_exit};
ghost use Rattle.window.specs.Acknowledgement.{is_in_window, ack_exit};
ghost use Rattle.stop_and_wait.specs.Sender.{retries_left};
ghost use Rattle.stop_and_wait.specs.Sender as stop_and_wait;
ghost use Rattle.session.specs.Sending.{sender_end, sender_in, window_of, window_end, slot_count, new_sender, can_send};
ghost use Rattle.session.specs.Sending.{has_outstanding, oldest_outstanding, send_chunk, acknowledged, ack_answer_of};
ghost use Rattle.session.specs.Sending.{handle_ack_unchecked, timeout_number, resent, resent_numbers};
ghost use Rattle.session.specs.GoodSender.{CleanSender, SenderUnbroken, CanSendChunk, Within, CanWriteDatagram};
ghost use Rattle.session.specs.Internal.{resend_count};
ghost use Rattle.receiver.specs.Receive.{receive_exit};
ghost use Rattle.session.specs.Receiving.{receiver_end, new_receiver, base, filled, is_cumulative, duplicate_count};
ghost use Rattle.session.specs.Receiving.{receiver_slot_count, gbn_already_delivered, handle_reading, is_high};
ghost use Rattle.session.specs.Receiving.{handle_packet_unchecked};
ghost use Rattle.session.specs.GoodReceiver.{CanHandlePacket};

use go_back_n::{GoBackNReceiver, GoBackNSender};
use packet::Packet;
use protocol::ProtocolType;
use receiver::PacketReading;
use refusal::Refusal;
use selective_repeat::{SelectiveRepeatReceiver, SelectiveRepeatSender};
use stop_and_wait::{StopAndWaitReceiver, StopAndWaitSender};
use window::SendWindow;

#[derive(Clone, Copy)]
pub enum SenderState {
    StopAndWait(StopAndWaitSender),
    GoBackN(GoBackNSender),
    SelectiveRepeat(SelectiveRepeatSender),
}

#[derive(Clone, Copy)]
pub struct Sender {
    pub state: SenderState,
}

#[derive(Clone, Copy)]
pub enum ReceiverState {
    StopAndWait(StopAndWaitReceiver),
    GoBackN(GoBackNReceiver),
    SelectiveRepeat(SelectiveRepeatReceiver),
}

#[derive(Clone, Copy)]
pub struct Receiver {
    pub state: ReceiverState,
}

// What a timeout is of: Go-Back-N's of all outstanding numbers or of the earliest, Selective Repeat's of a number.
// Stop-and-Wait has one.
#[derive(Clone, Copy)]
pub enum Timeout {
    All,
    Earliest,
    Number(u32),
}

#[derive(Clone, Copy)]
pub struct AckResult {
    pub sender: Sender,
    pub accepted: bool,
}

// The numbers that a timeout sends again, marked and counted: count from first on.
#[derive(Clone, Copy)]
pub struct TimeoutResult {
    pub sender: Sender,
    pub first: u32,
    pub count: u32,
}

#[derive(Clone, Copy)]
pub struct ReceiveResult {
    pub receiver: Receiver,
    pub answer: Result<Option<u32>, Refusal>,
}

impl Sender {
    pub fn new_unchecked(
        protocol: ProtocolType,
        window_size: usize,
        max_retries: u32,
        store: &mut [u8],
    ) -> Sender
        requires { slot_count protocol window_size * slot_size ≤ length store.old }
        ensures { sender_end result store.new
            ≡ new_sender protocol window_size max_retries store.old }
    {
        match protocol {
            ProtocolType::StopAndWait => {
                let window = SendWindow::new_unchecked(1, store);
                Sender {
                    state: SenderState::StopAndWait(StopAndWaitSender {
                        current_seq: window.send_base,
                        in_flight: false,
                        max_retries,
                        current_retries: 0,
                        total_sent: window.total_sent,
                        retransmissions: window.retransmissions,
                    }),
                }
            }
            ProtocolType::GoBackN => {
                let window = SendWindow::new_unchecked(window_size, store);
                Sender {
                    state: SenderState::GoBackN(GoBackNSender { window }),
                }
            }
            ProtocolType::SelectiveRepeat => {
                let window = SendWindow::new_unchecked(window_size, store);
                Sender {
                    state: SenderState::SelectiveRepeat(SelectiveRepeatSender { window }),
                }
            }
        }
    }

    // Its window; Stop-and-Wait's is of size 1.
    pub fn window_unchecked(self) -> SendWindow
        requires { numbers_broken (window_of self) ≡ false }
        ensures { result ≡ window_of self }
    {
        let state = self.state;
        match state {
            SenderState::StopAndWait(s) => s.window_unchecked(),
            SenderState::GoBackN(s) => s.window,
            SenderState::SelectiveRepeat(s) => s.window,
        }
    }

    pub fn send_base_unchecked(self) -> u32
        requires { numbers_broken (window_of self) ≡ false }
        ensures { result ≡ (window_of self).send_base }
    {
        let window = self.window_unchecked();
        window.send_base
    }

    pub fn next_seq_num_unchecked(self) -> u32
        requires { numbers_broken (window_of self) ≡ false }
        ensures { result ≡ (window_of self).next_seq_num }
    {
        let window = self.window_unchecked();
        window.next_seq_num
    }

    pub fn can_send_unchecked(self) -> bool
        requires { numbers_broken (window_of self) ≡ false }
        ensures { result ≡ can_send self }
    {
        let window = self.window_unchecked();
        ((window.next_seq_num - window.send_base) as usize) < window.window_size
    }

    pub fn has_outstanding_unchecked(self) -> bool
        requires { numbers_broken (window_of self) ≡ false }
        ensures { result ≡ has_outstanding self }
    {
        let window = self.window_unchecked();
        0 < window.next_seq_num - window.send_base
    }

    pub fn oldest_outstanding_unchecked(self) -> Option<u32>
        requires { numbers_broken (window_of self) ≡ false }
        ensures { result ≡ oldest_outstanding self }
    {
        let base = self.send_base_unchecked();
        if self.has_outstanding_unchecked() {
            return Some(base);
        }
        None
    }

    // A chunk into its slot and as a datagram to the start of out.
    pub fn send_chunk_unchecked(self, store: &mut [u8], payload: &[u8], out: &mut [u8]) -> Sender
        requires { CanSendChunk (sender_end self store.old) payload.now out.old }
        ensures { send_exit (Ok (Some (header_size + length payload.now)))
            (sender_end result store.new) out.new
            ≡ send_chunk (sender_end self store.old) payload.now out.old }
    {
        let state = self.state;
        match state {
            SenderState::StopAndWait(s) => {
                let s = s.send_chunk_unchecked(store, payload, out, true);
                Sender {
                    state: SenderState::StopAndWait(s),
                }
            }
            SenderState::GoBackN(s) => {
                let window = s.window;
                let window = window.send_chunk_unchecked(store, payload, out, true);
                Sender {
                    state: SenderState::GoBackN(GoBackNSender { window }),
                }
            }
            SenderState::SelectiveRepeat(s) => {
                let window = s.window;
                let window = window.send_chunk_unchecked(store, payload, out, true);
                Sender {
                    state: SenderState::SelectiveRepeat(SelectiveRepeatSender { window }),
                }
            }
        }
    }

    // A valid ACK of a number.
    pub fn handle_ack_unchecked(self, store: &mut [u8], seq_num: u32) -> AckResult
        requires { CleanSender (sender_end self store.old) }
        ensures { ack_exit (ack_answer_of result.accepted) (sender_end result.sender store.new)
            ≡ handle_ack_unchecked (sender_end self store.old) seq_num }
    {
        let window = self.window_unchecked();
        if window.is_outstanding(seq_num) {
            return AckResult {
                sender: self.acknowledge(store, seq_num),
                accepted: true,
            };
        }
        AckResult {
            sender: self,
            accepted: false,
        }
    }

    // What the accepted ACK of an outstanding number does.
    fn acknowledge(self, store: &mut [u8], seq_num: u32) -> Sender
        requires clean_sender { CleanSender (sender_end self store.old) }
        requires seq_num_value { is_in_window (window_of self) seq_num ≡ true }
        ensures { sender_end result store.new
            ≡ acknowledged (sender_end self store.old) seq_num }
    {
        let state = self.state;
        match state {
            SenderState::StopAndWait(s) => {
                let s = s.acknowledge_unchecked(store, seq_num, true);
                Sender {
                    state: SenderState::StopAndWait(s),
                }
            }
            SenderState::GoBackN(s) => {
                let s = s.acknowledge_unchecked(store, seq_num, true);
                Sender {
                    state: SenderState::GoBackN(s),
                }
            }
            SenderState::SelectiveRepeat(s) => {
                let s = s.acknowledge_unchecked(store, seq_num, true);
                Sender {
                    state: SenderState::SelectiveRepeat(s),
                }
            }
        }
    }

    // Marks and counts the numbers that a timeout sends again.
    pub fn handle_timeout_unchecked(self, store: &mut [u8], timeout: Timeout) -> TimeoutResult
        requires { SenderUnbroken (sender_end self store.old) }
        ensures count_after { resent_numbers (sender_end result.sender store.new) result.first result.count
            ≡ resent (sender_end self store.old) timeout }
        ensures within { Within (window_of result.sender) result.first result.count }
    {
        let state = self.state;
        match state {
            SenderState::StopAndWait(s) => stop_and_wait_timeout(s, store, timeout),
            SenderState::GoBackN(s) => go_back_n_timeout(s, store, timeout),
            SenderState::SelectiveRepeat(s) => selective_repeat_timeout(s, store, timeout),
        }
    }

    // Writes the datagram of an outstanding number to the start of out, and answers its length.
    pub fn write_datagram_unchecked(self, store: &[u8], seq_num: u32, out: &mut [u8]) -> usize
        requires { CanWriteDatagram (sender_end self store.now) seq_num out.old }
        ensures value { result ≡ length (datagram_for (window_end (sender_end self store.now)) seq_num) }
        ensures out_after { out.new
            ≡ datagram_for (window_end (sender_end self store.now)) seq_num ++ drop result out.old }
    {
        let window = self.window_unchecked();
        window.write_datagram_unchecked(store, seq_num, out)
    }
}

// The packet in flight, unless the retry limit is met.
fn stop_and_wait_timeout(s: StopAndWaitSender, store: &mut [u8], timeout: Timeout) -> TimeoutResult
    requires { SenderUnbroken (sender_in (SenderState.StopAndWait s) store.old) }
    ensures count_after { resent_numbers (sender_end result.sender store.new) result.first result.count
        ≡ resent (sender_in (SenderState.StopAndWait s) store.old) timeout }
    ensures within { Within (window_of result.sender) result.first result.count }
{
    let first = s.current_seq;
    let count = stop_and_wait_count(s);
    if count == 0 {
        return TimeoutResult {
            sender: Sender {
                state: SenderState::StopAndWait(s),
            },
            first,
            count,
        };
    }
    let s = s.mark_retransmitted_unchecked(store);
    TimeoutResult {
        sender: Sender {
            state: SenderState::StopAndWait(s),
        },
        first,
        count,
    }
}

// How many packets a Stop-and-Wait timeout sends again.
fn stop_and_wait_count(s: StopAndWaitSender) -> u32
    ensures { result ≡ min (retries_left s) (outstanding (stop_and_wait.window_of s)) }
{
    if s.in_flight {
        if s.current_retries < s.max_retries {
            return 1;
        }
        return 0;
    }
    0
}

// All outstanding numbers, or the earliest.
fn go_back_n_timeout(s: GoBackNSender, store: &mut [u8], timeout: Timeout) -> TimeoutResult
    requires { SenderUnbroken (sender_in (SenderState.GoBackN s) store.old) }
    ensures count_after { resent_numbers (sender_end result.sender store.new) result.first result.count
        ≡ resent (sender_in (SenderState.GoBackN s) store.old) timeout }
    ensures within { Within (window_of result.sender) result.first result.count }
{
    let window = s.window;
    let first = window.send_base;
    let count = resend_count(window.next_seq_num - first, timeout);
    let window = window.mark_retransmitted_from_unchecked(store, first, count);
    TimeoutResult {
        sender: Sender {
            state: SenderState::GoBackN(GoBackNSender { window }),
        },
        first,
        count,
    }
}

// How many of so many outstanding numbers a Go-Back-N timeout sends again.
fn resend_count(outstanding: u32, timeout: Timeout) -> u32
    ensures { result ≡ resend_count outstanding timeout }
{
    match timeout {
        Timeout::Earliest => {
            if outstanding == 0 {
                return 0;
            }
            1
        }
        Timeout::All => outstanding,
        Timeout::Number(_) => outstanding,
    }
}

// A number, if it is outstanding and not acknowledged.
fn selective_repeat_timeout(
    s: SelectiveRepeatSender,
    store: &mut [u8],
    timeout: Timeout,
) -> TimeoutResult
    requires { SenderUnbroken (sender_in (SenderState.SelectiveRepeat s) store.old) }
    ensures count_after { resent_numbers (sender_end result.sender store.new) result.first result.count
        ≡ resent (sender_in (SenderState.SelectiveRepeat s) store.old) timeout }
    ensures within { Within (window_of result.sender) result.first result.count }
{
    let window = s.window;
    let n = timeout_number(window, timeout);
    if s.is_due_unchecked(store, n) {
        let window = window.mark_retransmitted_from_unchecked(store, n, 1);
        return TimeoutResult {
            sender: Sender {
                state: SenderState::SelectiveRepeat(SelectiveRepeatSender { window }),
            },
            first: n,
            count: 1,
        };
    }
    TimeoutResult {
        sender: Sender {
            state: SenderState::SelectiveRepeat(s),
        },
        first: window.send_base,
        count: 0,
    }
}

fn timeout_number(window: SendWindow, timeout: Timeout) -> u32
    ensures { result ≡ timeout_number window timeout }
{
    match timeout {
        Timeout::Number(n) => n,
        Timeout::All => window.send_base,
        Timeout::Earliest => window.send_base,
    }
}

impl Receiver {
    // Only Selective Repeat touches the store.
    pub fn new_unchecked(protocol: ProtocolType, window_size: usize, store: &mut [u8]) -> Receiver
        requires { receiver_slot_count protocol window_size * slot_size ≤ length store.old }
        ensures { receiver_end result store.new
            ≡ new_receiver protocol window_size store.old }
    {
        match protocol {
            ProtocolType::StopAndWait => Receiver {
                state: ReceiverState::StopAndWait(StopAndWaitReceiver::new()),
            },
            ProtocolType::GoBackN => Receiver {
                state: ReceiverState::GoBackN(GoBackNReceiver::new()),
            },
            ProtocolType::SelectiveRepeat => {
                store::empty_all_unchecked(store, window_size);
                Receiver {
                    state: ReceiverState::SelectiveRepeat(SelectiveRepeatReceiver {
                        window_size,
                        recv_base: 0,
                        filled: 0,
                        total_received: 0,
                        buffered_out_of_order: 0,
                        duplicates_count: 0,
                    }),
                }
            }
        }
    }

    // The number of the next chunk to be delivered.
    pub fn base(self) -> u32
        ensures { result ≡ base self }
    {
        let state = self.state;
        match state {
            ReceiverState::StopAndWait(r) => r.expected_seq,
            ReceiverState::GoBackN(r) => r.expected_seq,
            ReceiverState::SelectiveRepeat(r) => r.recv_base,
        }
    }

    // How many bytes of the output are filled.
    pub fn filled(self) -> usize
        ensures { result ≡ filled self }
    {
        let state = self.state;
        match state {
            ReceiverState::StopAndWait(r) => r.filled,
            ReceiverState::GoBackN(r) => r.filled,
            ReceiverState::SelectiveRepeat(r) => r.filled,
        }
    }

    // Whether its ACKs are cumulative.
    pub fn is_cumulative(self) -> bool
        ensures { result ≡ is_cumulative self }
    {
        let state = self.state;
        match state {
            ReceiverState::StopAndWait(_) => false,
            ReceiverState::GoBackN(_) => true,
            ReceiverState::SelectiveRepeat(_) => false,
        }
    }

    // The reference's sw_sr_duplicate_count.
    pub fn duplicate_count(self) -> u64
        ensures { result ≡ duplicate_count self }
    {
        let state = self.state;
        match state {
            ReceiverState::StopAndWait(r) => r.duplicates_count,
            ReceiverState::GoBackN(_) => 0,
            ReceiverState::SelectiveRepeat(r) => r.duplicates_count,
        }
    }

    // Whether a Go-Back-N receiver has delivered a number.
    pub fn gbn_already_delivered(self, n: u32) -> bool
        ensures { result ≡ gbn_already_delivered self n }
    {
        if self.is_cumulative() {
            return n < self.base();
        }
        false
    }

    // A packet that was read by Packet::read_datagram, valid or corrupted, with its payload.
    pub fn handle_packet_unchecked(
        self,
        store: &mut [u8],
        packet: Packet,
        valid: bool,
        payload: &[u8],
        output: &mut [u8],
        ack: &mut [u8],
    ) -> ReceiveResult
        requires { CanHandlePacket (receiver_end self store.old) payload.now output.old }
        ensures { receive_exit result.answer (receiver_end result.receiver store.new)
            output.new ack.new
            ≡ handle_packet_unchecked (receiver_end self store.old) packet valid
            payload.now output.old ack.old }
    {
        if is_high(packet, valid) {
            return ReceiveResult {
                receiver: self,
                answer: Err(Refusal::Numbers),
            };
        }
        let reading = receiver::packet_reading(packet, valid);
        self.handle_reading(store, reading, payload, output, ack)
    }

    fn handle_reading(
        self,
        store: &mut [u8],
        reading: PacketReading,
        payload: &[u8],
        output: &mut [u8],
        ack: &mut [u8],
    ) -> ReceiveResult
        requires { CanHandlePacket (receiver_end self store.old) payload.now output.old }
        ensures { receive_exit result.answer (receiver_end result.receiver store.new)
            output.new ack.new
            ≡ handle_reading (receiver_end self store.old) reading
            payload.now output.old ack.old }
    {
        let state = self.state;
        match state {
            ReceiverState::StopAndWait(r) => {
                let result = r.handle_packet_unchecked(reading, payload, output, ack);
                let r = result.receiver;
                let answer = result.answer;
                ReceiveResult {
                    receiver: Receiver {
                        state: ReceiverState::StopAndWait(r),
                    },
                    answer,
                }
            }
            ReceiverState::GoBackN(r) => {
                let result = r.handle_packet_unchecked(reading, payload, output, ack);
                let r = result.receiver;
                let answer = result.answer;
                ReceiveResult {
                    receiver: Receiver {
                        state: ReceiverState::GoBackN(r),
                    },
                    answer,
                }
            }
            ReceiverState::SelectiveRepeat(r) => {
                let result = r.handle_packet_unchecked(store, reading, payload, output, ack);
                let r = result.receiver;
                let answer = result.answer;
                ReceiveResult {
                    receiver: Receiver {
                        state: ReceiverState::SelectiveRepeat(r),
                    },
                    answer,
                }
            }
        }
    }
}

// Whether check 7 is true of a packet that was read.
fn is_high(packet: Packet, valid: bool) -> bool
    ensures { result ≡ is_high packet valid }
{
    if valid {
        return receiver::is_number_high(packet);
    }
    false
}
