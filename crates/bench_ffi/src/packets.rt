// Packets. An export answers as a host's; a packet's number, kind, flags and checksum go to the first four places of
// `answer`.
use crate::{done, put};
use packet::{Packet, PacketType};
use refusal::Refusal;

#[unsafe(no_mangle)]
pub extern "C" fn packet_header_size() -> usize {
    Packet::HEADER_SIZE
}

#[unsafe(no_mangle)]
pub extern "C" fn packet_max_payload_size() -> usize {
    Packet::MAX_PAYLOAD_SIZE
}

#[unsafe(no_mangle)]
pub extern "C" fn packet_flag_retransmitted() -> u8 {
    packet::FLAG_RETRANSMITTED
}

// The kind's byte, through the type and back.
#[unsafe(no_mangle)]
pub extern "C" fn packet_try_from(byte: u8) -> u64 {
    answered(PacketType::try_from(byte).map(|t| t.to_byte() as u64))
}

#[unsafe(no_mangle)]
pub extern "C" fn packet_new_data(seq_num: u32, answer: &mut [u64]) -> u64 {
    put_packet(answer, Packet::new_data(seq_num))
}

#[unsafe(no_mangle)]
pub extern "C" fn packet_new_ack(seq_num: u32, answer: &mut [u64]) -> u64 {
    put_packet(answer, Packet::new_ack(seq_num))
}

#[unsafe(no_mangle)]
pub extern "C" fn packet_new_fin(seq_num: u32, answer: &mut [u64]) -> u64 {
    put_packet(answer, Packet::new_fin(seq_num))
}

#[unsafe(no_mangle)]
pub extern "C" fn packet_is_retransmitted(seq_num: u32, kind: u8, flags: u8, checksum: u16) -> u64 {
    answered(packet_of(seq_num, kind, flags, checksum).map(|p| p.is_retransmitted() as u64))
}

#[unsafe(no_mangle)]
pub extern "C" fn packet_set_retransmitted(
    seq_num: u32,
    kind: u8,
    flags: u8,
    checksum: u16,
    answer: &mut [u64],
) -> u64 {
    put_packet_answer(
        answer,
        packet_of(seq_num, kind, flags, checksum).map(|p| p.set_retransmitted()),
    )
}

#[unsafe(no_mangle)]
pub extern "C" fn packet_compute_checksum(
    seq_num: u32,
    kind: u8,
    flags: u8,
    checksum: u16,
    payload: &[u8],
) -> u64 {
    answered(
        packet_of(seq_num, kind, flags, checksum)
            .and_then(|p| p.compute_checksum(payload))
            .map(|k| k as u64),
    )
}

#[unsafe(no_mangle)]
pub extern "C" fn packet_compute_and_set_checksum(
    seq_num: u32,
    kind: u8,
    flags: u8,
    checksum: u16,
    payload: &[u8],
    answer: &mut [u64],
) -> u64 {
    put_packet_answer(
        answer,
        packet_of(seq_num, kind, flags, checksum).and_then(|p| p.compute_and_set_checksum(payload)),
    )
}

#[unsafe(no_mangle)]
pub extern "C" fn packet_to_bytes(
    seq_num: u32,
    kind: u8,
    flags: u8,
    checksum: u16,
    payload: &[u8],
    out: &mut [u8],
) -> u64 {
    match packet_of(seq_num, kind, flags, checksum) {
        Ok(p) => host_answer::count_answer(p.to_bytes(payload, out)),
        Err(r) => host_answer::refusal_answer(r),
    }
}

#[unsafe(no_mangle)]
pub extern "C" fn packet_from_bytes(raw: &[u8], answer: &mut [u64]) -> u64 {
    put_packet_answer(answer, Packet::from_bytes(raw))
}

// Copies the payload to the start of `out`, as much of it as fits, and answers the payload's length.
#[unsafe(no_mangle)]
pub extern "C" fn packet_payload(raw: &[u8], out: &mut [u8]) -> usize {
    let payload = Packet::payload(raw);
    copy(payload, out);
    payload.len()
}

// `from_bytes` of the datagram in each place of 1,410 bytes; something of all that was read.
#[unsafe(no_mangle)]
pub extern "C" fn packet_from_bytes_each(wire: &[u8]) -> u64 {
    let mut read: u64 = 0;
    for raw in wire.chunks_exact(bounds::MAX_DATAGRAM_SIZE) {
        read ^= fields(Packet::from_bytes(raw));
    }
    read
}

fn fields(a: Result<Packet, Refusal>) -> u64 {
    match a {
        Ok(p) => {
            p.seq_num as u64 ^ p.pkt_type.to_byte() as u64 ^ p.flags as u64 ^ p.checksum as u64
        }
        Err(_) => 0,
    }
}

fn put_packet(answer: &mut [u64], p: Packet) -> u64 {
    put(answer, 0, p.seq_num as u64);
    put(answer, 1, p.pkt_type.to_byte() as u64);
    put(answer, 2, p.flags as u64);
    put(answer, 3, p.checksum as u64);
    done(0)
}

fn put_packet_answer(answer: &mut [u64], a: Result<Packet, Refusal>) -> u64 {
    match a {
        Ok(p) => put_packet(answer, p),
        Err(r) => host_answer::refusal_answer(r),
    }
}

// The packet of these fields, or a refusal of the kind.
fn packet_of(seq_num: u32, kind: u8, flags: u8, checksum: u16) -> Result<Packet, Refusal> {
    Ok(Packet {
        seq_num,
        pkt_type: PacketType::try_from(kind)?,
        flags,
        checksum,
    })
}

// A value or a refusal, as a host's answer.
fn answered(a: Result<u64, Refusal>) -> u64 {
    match a {
        Ok(n) => done(n),
        Err(r) => host_answer::refusal_answer(r),
    }
}

fn copy(src: &[u8], dst: &mut [u8]) {
    let n = src.len().min(dst.len());
    octets::copy_unchecked(&src[..n], &mut dst[..n]);
}
