// Senders and receivers. A state is seven words, a host's from word 1 on.
use crate::{at, put};
use go_back_n::GoBackNSender;
use selective_repeat::{SelectiveRepeatReceiver, SelectiveRepeatSender};
use window::SendWindow;

#[unsafe(no_mangle)]
pub extern "C" fn arq_has_unacked_packets(state: &[u64]) -> u64 {
    let s = GoBackNSender {
        window: window_of(state),
    };
    host_answer::test_answer(s.has_unacked_packets())
}

// Selective Repeat's `send_chunk` of one payload, into each place of 1,410 bytes.
#[unsafe(no_mangle)]
pub extern "C" fn arq_send_chunk_each(
    state: &mut [u64],
    store: &mut [u8],
    payload: &[u8],
    wire: &mut [u8],
) {
    let s = sent(sender_of(state), store, payload, wire);
    put_window(state, s.window);
}

fn sent(
    mut s: SelectiveRepeatSender,
    store: &mut [u8],
    payload: &[u8],
    wire: &mut [u8],
) -> SelectiveRepeatSender {
    for out in wire.chunks_exact_mut(bounds::MAX_DATAGRAM_SIZE) {
        s = s.send_chunk(store, payload, out).sender;
    }
    s
}

// Its `handle_ack` of each ten bytes.
#[unsafe(no_mangle)]
pub extern "C" fn arq_handle_ack_each(state: &mut [u64], store: &mut [u8], acks: &[u8]) {
    let s = acknowledged(sender_of(state), store, acks);
    put_window(state, s.window);
}

fn acknowledged(
    mut s: SelectiveRepeatSender,
    store: &mut [u8],
    acks: &[u8],
) -> SelectiveRepeatSender {
    for raw in acks.chunks_exact(bounds::HEADER_SIZE) {
        s = s.handle_ack(store, raw).sender;
    }
    s
}

// Its `handle_packet` of each place of 1,410 bytes, all ACKs into one buffer.
#[unsafe(no_mangle)]
pub extern "C" fn arq_handle_packet_each(
    state: &mut [u64],
    store: &mut [u8],
    wire: &[u8],
    output: &mut [u8],
    ack: &mut [u8],
) {
    let r = received(receiver_of(state), store, wire, output, ack);
    put(state, 1, r.recv_base as u64);
    put(state, 2, r.filled as u64);
    put(state, 3, r.total_received);
    put(state, 4, r.buffered_out_of_order);
    put(state, 5, r.duplicates_count);
}

fn received(
    mut r: SelectiveRepeatReceiver,
    store: &mut [u8],
    wire: &[u8],
    output: &mut [u8],
    ack: &mut [u8],
) -> SelectiveRepeatReceiver {
    for raw in wire.chunks_exact(bounds::MAX_DATAGRAM_SIZE) {
        r = r.handle_packet(store, raw, output, ack).receiver;
    }
    r
}

fn sender_of(state: &[u64]) -> SelectiveRepeatSender {
    SelectiveRepeatSender {
        window: window_of(state),
    }
}

fn window_of(state: &[u64]) -> SendWindow {
    SendWindow {
        window_size: at(state, 0) as usize,
        send_base: low(at(state, 1)),
        next_seq_num: low(at(state, 2)),
        total_sent: at(state, 3),
        retransmissions: at(state, 4),
    }
}

fn put_window(state: &mut [u64], s: SendWindow) {
    put(state, 0, s.window_size as u64);
    put(state, 1, s.send_base as u64);
    put(state, 2, s.next_seq_num as u64);
    put(state, 3, s.total_sent);
    put(state, 4, s.retransmissions);
}

fn receiver_of(state: &[u64]) -> SelectiveRepeatReceiver {
    SelectiveRepeatReceiver {
        window_size: at(state, 0) as usize,
        recv_base: low(at(state, 1)),
        filled: at(state, 2) as usize,
        total_received: at(state, 3),
        buffered_out_of_order: at(state, 4),
        duplicates_count: at(state, 5),
    }
}

// The lower 32 bits.
fn low(n: u64) -> u32 {
    (n % 4_294_967_296) as u32
}
