// Replays calls of the packet layer from standard input, and writes an answer for each, as the reference gave it
// (file `stdout`). The form of lines is replay_io's. The letters, and what follows them:
//   r DATAGRAM                                  from_bytes, is_valid and payload
//   c NUMBER KIND FLAGS CHECKSUM PAYLOAD        compute_checksum and compute_and_set_checksum
//   w NUMBER KIND FLAGS CHECKSUM ROOM PAYLOAD   to_bytes into a buffer of ROOM bytes, each a5 before
//   t KIND                                      try_from and to_byte
//   f NUMBER KIND FLAGS CHECKSUM                is_retransmitted, set_retransmitted, and the maker of this kind
// A packet is answered by number, kind, flags and checksum, a refusal by `refused`, its number and its values.
#![tactic(auto)]

use packet::{Packet, PacketType};
use refusal::Refusal;
use replay_io::{Answer, Fields, Replay};
use std::io;
use std::io::Write;

#[derive(Drop)]
struct Packets;

fn main(rt: HostRuntime) -> io::Result<()> {
    replay_io::answer_lines(
        &mut Packets,
        &mut replay_io::buffer(),
        &mut rt.stdin(),
        &mut rt.stdout(),
    )
}

impl Replay for Packets {
    fn answer(&mut self, writer: &mut impl Write, f: Fields, bytes: &[u8]) -> io::Result<()> {
        let v = f.values;
        match (f.letter, f.count) {
            (b'r', 0) => read_case(writer, bytes),
            (b'c', 4) => checksum_case(writer, packet_of(v), bytes),
            (b'w', 5) => write_case(writer, packet_of(v), v[4] as usize, bytes),
            (b't', 1) => kind_of(v[0]).map(|t| t.to_byte()).print(writer),
            (b'f', 4) => flags_case(writer, packet_of(v)),
            _ => replay_io::print_bad_line(writer),
        }
    }
}

fn read_case(writer: &mut impl Write, raw: &[u8]) -> io::Result<()> {
    Packet::from_bytes(raw).map(fields).print(writer)?;
    Packet::is_valid(raw)
        .map(|valid| if valid { "valid" } else { "invalid" })
        .print(writer)?;
    replay_io::print_bytes(writer, Packet::payload(raw))
}

fn checksum_case(
    writer: &mut impl Write,
    a: Result<Packet, Refusal>,
    payload: &[u8],
) -> io::Result<()> {
    match a {
        Ok(p) => {
            p.compute_checksum(payload).print(writer)?;
            p.compute_and_set_checksum(payload)
                .map(fields)
                .print(writer)
        }
        Err(r) => r.print(writer),
    }
}

fn write_case(
    writer: &mut impl Write,
    a: Result<Packet, Refusal>,
    room: usize,
    payload: &[u8],
) -> io::Result<()> {
    let mut out = [0xa5u8; 2048];
    if out.len() < room {
        return replay_io::print_bad_line(writer);
    }
    match a {
        Ok(p) => {
            p.to_bytes(payload, &mut out[..room]).print(writer)?;
            replay_io::print_bytes(writer, &out[..room])
        }
        Err(r) => r.print(writer),
    }
}

fn flags_case(writer: &mut impl Write, a: Result<Packet, Refusal>) -> io::Result<()> {
    match a {
        Ok(p) => {
            p.is_retransmitted().print(writer)?;
            fields(p.set_retransmitted()).print(writer)?;
            fields(new_packet(p)).print(writer)
        }
        Err(r) => r.print(writer),
    }
}

// What the maker of p's kind makes of p's number.
fn new_packet(p: Packet) -> Packet {
    match p.pkt_type {
        PacketType::Data => Packet::new_data(p.seq_num),
        PacketType::Ack => Packet::new_ack(p.seq_num),
        PacketType::Fin => Packet::new_fin(p.seq_num),
    }
}

fn kind_of(n: u64) -> Result<PacketType, Refusal> {
    PacketType::try_from((n % 256) as u8)
}

// The packet of number, kind, flags and checksum, each cut to its width.
fn packet_of(v: [u64; 12]) -> Result<Packet, Refusal> {
    Ok(Packet {
        seq_num: replay_io::low(v[0]),
        pkt_type: kind_of(v[1])?,
        flags: (v[2] % 256) as u8,
        checksum: (v[3] % 65536) as u16,
    })
}

fn fields(p: Packet) -> [u64; 4] {
    [
        p.seq_num as u64,
        p.pkt_type.to_byte() as u64,
        p.flags as u64,
        p.checksum as u64,
    ]
}
