// Replays calls on the ends of a protocol from standard input, and writes an answer for each, as the reference gave
// it (file `stdout`). The form of lines is replay_io's. The letters, and what follows them:
//   n PROTOCOL WINDOW RETRIES SENT HELD OUTPUT   new ends of Stop-and-Wait (0), Go-Back-N (1) or Selective Repeat
//     (2), with a sender's store of SENT bytes, a receiver's of HELD and an output of OUTPUT, each byte a5 before;
//     answers `made` or the refusal of each. A refused end is one of Stop-and-Wait
//   s ROOM PAYLOAD         send_chunk
//   o NUMBER ROOM          handle_timeout, of Selective Repeat for this number
//   a DATAGRAM             handle_ack
//   p ROOM DATAGRAM        handle_packet
//   q                      can_send, in_flight_count, has_unacked_packets and buffered_count, where the protocol has
//     them
//   d                      answers the slots of both stores, their payloads up to their lengths, and the CRC-32 of
//     each store
//   i BASE NEXT SENT AGAIN           sets the sender's base, next number and counters
//   j BASE FILLED FIRST SECOND THIRD   sets the receiver's base, fill mark and counters
//   k PLACE BYTE, l PLACE BYTE       set a byte of the sender's store, or of the receiver's
// ROOM is the length of the lent buffer, each byte a5 before; it is answered whole. After the answer of s, o and a
// come the sender's base, next number, counters and retries; after that of p the base, the fill mark, the counters,
// the bytes delivered and the CRC-32 of the output.
#![tactic(auto)]

use go_back_n::{GoBackNReceiver, GoBackNSender};
use refusal::Refusal;
use replay_io::{Answer, Fields, Replay};
use selective_repeat::{SelectiveRepeatReceiver, SelectiveRepeatSender};
use std::io;
use std::io::Write;
use stop_and_wait::{StopAndWaitReceiver, StopAndWaitSender};
use window::SendWindow;

#[derive(Clone, Copy)]
enum Sender {
    StopAndWait(StopAndWaitSender),
    GoBackN(GoBackNSender),
    SelectiveRepeat(SelectiveRepeatSender),
}

#[derive(Clone, Copy)]
enum Receiver {
    StopAndWait(StopAndWaitReceiver),
    GoBackN(GoBackNReceiver),
    SelectiveRepeat(SelectiveRepeatReceiver),
}

// sent: the sender's store; held: the receiver's. The ends have as much of each as its length says.
#[derive(Drop)]
struct Ends {
    sender: Sender,
    receiver: Receiver,
    sent: [u8; 46332],
    held: [u8; 46332],
    output: [u8; 65536],
    sent_len: usize,
    held_len: usize,
    output_len: usize,
}

fn main(rt: HostRuntime) -> io::Result<()> {
    replay_io::answer_lines(
        &mut Ends::new(),
        &mut replay_io::buffer(),
        &mut rt.stdin(),
        &mut rt.stdout(),
    )
}

impl Replay for Ends {
    fn answer(&mut self, writer: &mut impl Write, f: Fields, bytes: &[u8]) -> io::Result<()> {
        let v = f.values;
        match (f.letter, f.count) {
            (b'n', 6) => self.make(writer, v),
            (b's', 1) => self.send_chunk(writer, v[0] as usize, bytes),
            (b'o', 2) => self.handle_timeout(writer, replay_io::low(v[0]), v[1] as usize),
            (b'a', 0) => self.handle_ack(writer, bytes),
            (b'p', 1) => self.handle_packet(writer, v[0] as usize, bytes),
            (b'q', 0) => self.print_ends(writer),
            (b'd', 0) => {
                print_store(writer, replay_io::prefix(&self.sent, self.sent_len))?;
                print_store(writer, replay_io::prefix(&self.held, self.held_len))
            }
            (b'i', 4) => {
                self.sender = set_sender(v, self.sender);
                Ok(())
            }
            (b'j', 5) => {
                self.receiver = set_receiver(v, self.receiver);
                Ok(())
            }
            (b'k', 2) => {
                let n = self.sent_len;
                set_byte(writer, v, replay_io::prefix_mut(&mut self.sent, n))
            }
            (b'l', 2) => {
                let n = self.held_len;
                set_byte(writer, v, replay_io::prefix_mut(&mut self.held, n))
            }
            _ => replay_io::print_bad_line(writer),
        }
    }
}

impl Ends {
    fn new() -> Ends {
        Ends {
            sender: idle_sender(),
            receiver: idle_receiver(),
            sent: [0; 46332],
            held: [0; 46332],
            output: [0; 65536],
            sent_len: 0,
            held_len: 0,
            output_len: 0,
        }
    }

    fn make(&mut self, writer: &mut impl Write, v: [u64; 12]) -> io::Result<()> {
        let (sent, held, output) = (v[3] as usize, v[4] as usize, v[5] as usize);
        if 2 < v[0]
            || self.sent.len() < sent
            || self.held.len() < held
            || self.output.len() < output
        {
            return replay_io::print_bad_line(writer);
        }
        self.sent[..sent].fill(0xa5);
        self.held[..held].fill(0xa5);
        self.output[..output].fill(0xa5);
        self.sent_len = sent;
        self.held_len = held;
        self.output_len = output;
        let window = v[1] as usize;
        let store = &mut self.sent[..sent];
        let sender = match v[0] {
            0 => StopAndWaitSender::new(replay_io::low(v[2]), store).map(Sender::StopAndWait),
            1 => GoBackNSender::new(window, store).map(Sender::GoBackN),
            _ => SelectiveRepeatSender::new(window, store).map(Sender::SelectiveRepeat),
        };
        self.sender = sender.unwrap_or(idle_sender());
        let store = &mut self.held[..held];
        let receiver = match v[0] {
            0 => Ok(idle_receiver()),
            1 => Ok(Receiver::GoBackN(GoBackNReceiver::new())),
            _ => SelectiveRepeatReceiver::new(window, store).map(Receiver::SelectiveRepeat),
        };
        self.receiver = receiver.unwrap_or(idle_receiver());
        sender.map(|_| "made").print(writer)?;
        receiver.map(|_| "made").print(writer)
    }

    fn send_chunk(
        &mut self,
        writer: &mut impl Write,
        room: usize,
        payload: &[u8],
    ) -> io::Result<()> {
        let mut out = [0xa5u8; 2048];
        if out.len() < room {
            replay_io::print_bad_line(writer)?;
            return print_sender(writer, self.sender);
        }
        let n = self.sent_len;
        let store = replay_io::prefix_mut(&mut self.sent, n);
        let (sender, answer) = match self.sender {
            Sender::StopAndWait(s) => {
                let done = s.send_chunk(store, payload, &mut out[..room]);
                (Sender::StopAndWait(done.sender), done.answer)
            }
            Sender::GoBackN(s) => {
                let done = s.send_chunk(store, payload, &mut out[..room]);
                (Sender::GoBackN(done.sender), done.answer)
            }
            Sender::SelectiveRepeat(s) => {
                let done = s.send_chunk(store, payload, &mut out[..room]);
                (Sender::SelectiveRepeat(done.sender), done.answer)
            }
        };
        self.sender = sender;
        match answer {
            Ok(None) => "full".print(writer)?,
            _ => answer.print(writer)?,
        }
        replay_io::print_bytes(writer, &out[..room])?;
        print_sender(writer, sender)
    }

    fn handle_timeout(
        &mut self,
        writer: &mut impl Write,
        seq_num: u32,
        room: usize,
    ) -> io::Result<()> {
        let mut out = marked();
        if out.len() < room {
            replay_io::print_bad_line(writer)?;
            return print_sender(writer, self.sender);
        }
        let n = self.sent_len;
        let store = replay_io::prefix_mut(&mut self.sent, n);
        let (sender, answer) = match self.sender {
            Sender::StopAndWait(s) => {
                let done = s.handle_timeout(store, &mut out[..room]);
                (Sender::StopAndWait(done.sender), done.answer)
            }
            Sender::GoBackN(s) => {
                let done = s.handle_timeout(store, &mut out[..room]);
                (Sender::GoBackN(done.sender), done.answer)
            }
            Sender::SelectiveRepeat(s) => {
                let done = s.handle_timeout(store, seq_num, &mut out[..room]);
                (Sender::SelectiveRepeat(done.sender), done.answer)
            }
        };
        self.sender = sender;
        answer.print(writer)?;
        replay_io::print_bytes(writer, &out[..room])?;
        print_sender(writer, sender)
    }

    fn handle_ack(&mut self, writer: &mut impl Write, raw: &[u8]) -> io::Result<()> {
        let n = self.sent_len;
        let store = replay_io::prefix_mut(&mut self.sent, n);
        let (sender, answer) = match self.sender {
            Sender::StopAndWait(s) => {
                let done = s.handle_ack(store, raw);
                (Sender::StopAndWait(done.sender), done.answer)
            }
            Sender::GoBackN(s) => {
                let done = s.handle_ack(store, raw);
                (Sender::GoBackN(done.sender), done.answer)
            }
            Sender::SelectiveRepeat(s) => {
                let done = s.handle_ack(store, raw);
                (Sender::SelectiveRepeat(done.sender), done.answer)
            }
        };
        self.sender = sender;
        answer
            .map(|accepted| if accepted { "accepted" } else { "ignored" })
            .print(writer)?;
        print_sender(writer, sender)
    }

    fn handle_packet(
        &mut self,
        writer: &mut impl Write,
        room: usize,
        raw: &[u8],
    ) -> io::Result<()> {
        let mut ack = [0xa5u8; 64];
        if ack.len() < room {
            return replay_io::print_bad_line(writer);
        }
        let before = self.receiver;
        let (held_len, output_len) = (self.held_len, self.output_len);
        let Ends { held, output, .. } = self;
        let (receiver, answer) = receive(
            before,
            held,
            held_len,
            output,
            output_len,
            raw,
            &mut ack[..room],
        );
        self.receiver = receiver;
        answer.print(writer)?;
        replay_io::print_bytes(writer, &ack[..room])?;
        print_receiver(
            writer,
            before,
            receiver,
            replay_io::prefix(&self.output, self.output_len),
        )
    }

    fn print_ends(&self, writer: &mut impl Write) -> io::Result<()> {
        match self.sender {
            Sender::StopAndWait(s) => {
                s.can_send().print(writer)?;
                s.is_waiting_for_ack().print(writer)?;
            }
            Sender::GoBackN(s) => {
                s.can_send().print(writer)?;
                s.in_flight_count().print(writer)?;
                s.has_unacked_packets().print(writer)?;
            }
            Sender::SelectiveRepeat(s) => {
                s.can_send().print(writer)?;
                s.in_flight_count(replay_io::prefix(&self.sent, self.sent_len))
                    .print(writer)?;
            }
        }
        match self.receiver {
            Receiver::SelectiveRepeat(r) => r
                .buffered_count(replay_io::prefix(&self.held, self.held_len))
                .print(writer),
            _ => Ok(()),
        }
    }
}

// Of the arrays the receiver has as much as the lengths say: two fields of a struct can be lent whole alone.
fn receive(
    receiver: Receiver,
    held: &mut [u8; 46332],
    held_len: usize,
    output: &mut [u8; 65536],
    output_len: usize,
    raw: &[u8],
    ack: &mut [u8],
) -> (Receiver, Result<Option<u32>, Refusal>) {
    let output = replay_io::prefix_mut(output, output_len);
    match receiver {
        Receiver::StopAndWait(r) => {
            let done = r.handle_packet(raw, output, ack);
            (Receiver::StopAndWait(done.receiver), done.answer)
        }
        Receiver::GoBackN(r) => {
            let done = r.handle_packet(raw, output, ack);
            (Receiver::GoBackN(done.receiver), done.answer)
        }
        Receiver::SelectiveRepeat(r) => {
            let store = replay_io::prefix_mut(held, held_len);
            let done = r.handle_packet(store, raw, output, ack);
            (Receiver::SelectiveRepeat(done.receiver), done.answer)
        }
    }
}

// A function for the reason of `replay_io::buffer`.
fn marked() -> [u8; 46080] {
    [0xa5u8; 46080]
}

fn idle_sender() -> Sender {
    Sender::StopAndWait(StopAndWaitSender {
        current_seq: 0,
        in_flight: false,
        max_retries: 0,
        current_retries: 0,
        total_sent: 0,
        retransmissions: 0,
    })
}

fn idle_receiver() -> Receiver {
    Receiver::StopAndWait(StopAndWaitReceiver::new())
}

fn set_byte(writer: &mut impl Write, v: [u64; 12], store: &mut [u8]) -> io::Result<()> {
    let at = v[0] as usize;
    if at < store.len() {
        store[at] = (v[1] % 256) as u8;
        Ok(())
    } else {
        replay_io::print_bad_line(writer)
    }
}

// Stop-and-Wait is in flight where next is not base.
fn set_sender(v: [u64; 12], sender: Sender) -> Sender {
    match sender {
        Sender::StopAndWait(s) => Sender::StopAndWait(StopAndWaitSender {
            current_seq: replay_io::low(v[0]),
            in_flight: v[0] != v[1],
            total_sent: v[2],
            retransmissions: v[3],
            ..s
        }),
        Sender::GoBackN(s) => Sender::GoBackN(GoBackNSender {
            window: set_window(v, s.window),
        }),
        Sender::SelectiveRepeat(s) => Sender::SelectiveRepeat(SelectiveRepeatSender {
            window: set_window(v, s.window),
        }),
    }
}

fn set_window(v: [u64; 12], w: SendWindow) -> SendWindow {
    SendWindow {
        send_base: replay_io::low(v[0]),
        next_seq_num: replay_io::low(v[1]),
        total_sent: v[2],
        retransmissions: v[3],
        ..w
    }
}

fn set_receiver(v: [u64; 12], receiver: Receiver) -> Receiver {
    match receiver {
        Receiver::StopAndWait(_) => Receiver::StopAndWait(StopAndWaitReceiver {
            expected_seq: replay_io::low(v[0]),
            filled: v[1] as usize,
            total_received: v[2],
            duplicates_count: v[3],
            corrupted_count: v[4],
        }),
        Receiver::GoBackN(_) => Receiver::GoBackN(GoBackNReceiver {
            expected_seq: replay_io::low(v[0]),
            filled: v[1] as usize,
            total_received: v[2],
            discarded_out_of_order: v[3],
            duplicate_acks_sent: v[4],
        }),
        Receiver::SelectiveRepeat(r) => Receiver::SelectiveRepeat(SelectiveRepeatReceiver {
            window_size: r.window_size,
            recv_base: replay_io::low(v[0]),
            filled: v[1] as usize,
            total_received: v[2],
            buffered_out_of_order: v[3],
            duplicates_count: v[4],
        }),
    }
}

fn print_sender(writer: &mut impl Write, sender: Sender) -> io::Result<()> {
    let (w, retries) = match sender {
        Sender::StopAndWait(s) => (window_of(s), s.current_retries),
        Sender::GoBackN(s) => (s.window, 0),
        Sender::SelectiveRepeat(s) => (s.window, 0),
    };
    w.send_base.print(writer)?;
    w.next_seq_num.print(writer)?;
    w.total_sent.print(writer)?;
    w.retransmissions.print(writer)?;
    retries.print(writer)
}

fn window_of(s: StopAndWaitSender) -> SendWindow {
    let base = s.current_seq;
    SendWindow {
        window_size: 1,
        send_base: base,
        next_seq_num: if s.in_flight {
            replay_io::low(base as u64 + 1)
        } else {
            base
        },
        total_sent: s.total_sent,
        retransmissions: s.retransmissions,
    }
}

fn print_receiver(
    writer: &mut impl Write,
    before: Receiver,
    receiver: Receiver,
    output: &[u8],
) -> io::Result<()> {
    marks_of(receiver).print(writer)?;
    let [_, from, ..] = marks_of(before);
    let [_, to, ..] = marks_of(receiver);
    replay_io::print_bytes(writer, replay_io::part(output, from as usize, to as usize))?;
    replay_io::print_crc32(writer, output)
}

// The base, the fill mark and the counters.
fn marks_of(receiver: Receiver) -> [u64; 5] {
    match receiver {
        Receiver::StopAndWait(r) => [
            r.expected_seq as u64,
            r.filled as u64,
            r.total_received,
            r.duplicates_count,
            r.corrupted_count,
        ],
        Receiver::GoBackN(r) => [
            r.expected_seq as u64,
            r.filled as u64,
            r.total_received,
            r.discarded_out_of_order,
            r.duplicate_acks_sent,
        ],
        Receiver::SelectiveRepeat(r) => [
            r.recv_base as u64,
            r.filled as u64,
            r.total_received,
            r.buffered_out_of_order,
            r.duplicates_count,
        ],
    }
}

fn print_store(writer: &mut impl Write, store: &[u8]) -> io::Result<()> {
    for slot in store.chunks_exact(bounds::SLOT_SIZE) {
        print_slot(writer, slot)?;
    }
    replay_io::print_crc32(writer, store)
}

// Length, mark and flags, and the payload where the length is in bounds.
fn print_slot(writer: &mut impl Write, slot: &[u8]) -> io::Result<()> {
    let n = slot_length(slot);
    let shown = if n <= bounds::MAX_PAYLOAD_SIZE {
        4 + n
    } else {
        4
    };
    replay_io::print_bytes(writer, replay_io::prefix(slot, shown))
}

fn slot_length(slot: &[u8]) -> usize {
    if slot.len() < 2 {
        return 0;
    }
    u16::from_be_bytes([slot[0], slot[1]]) as usize
}
