// Packets for a host outside Rattle.
#![tactic(auto)]

ghost use Rattle.std.specs.Prelude.{◌≡◌};
ghost use Rattle.host_packet.specs.Packet.{header_value, read, validate, payload_length, write_exit};
ghost use Rattle.host_packet.specs.Packet.{written, write_of, write};

use packet::{Packet, PacketType};
use refusal::Refusal;

const MAX_U32: u64 = 4_294_967_295;

const MAX_BYTE: u64 = 255;

// The header: done with number, kind and flags, or refused.
pub fn read(raw: &[u8]) -> u64
    ensures { result ≡ read raw.now }
{
    match Packet::from_bytes(raw) {
        Ok(p) => host_answer::pack_unchecked(host_answer::DONE, header_value(p)),
        Err(r) => host_answer::refusal_answer(r),
    }
}

// Whether the checksum matches: done, invalid, or refused.
pub fn validate(raw: &[u8]) -> u64
    ensures { result ≡ validate raw.now }
{
    match Packet::is_valid(raw) {
        Ok(true) => host_answer::pack_unchecked(host_answer::DONE, 0),
        Ok(false) => host_answer::pack_unchecked(host_answer::INVALID, 0),
        Err(r) => host_answer::refusal_answer(r),
    }
}

// The payload stands behind the header: done with its length, or refused.
pub fn payload_length(raw: &[u8]) -> u64
    ensures { result ≡ payload_length raw.now }
{
    match Packet::from_bytes(raw) {
        Ok(_) => {
            let payload = Packet::payload(raw);
            host_answer::pack_unchecked(host_answer::DONE, payload.len() as u64)
        }
        Err(r) => host_answer::refusal_answer(r),
    }
}

// A datagram with its checksum to the start of out: done with its length, or refused.
pub fn write(kind: u64, seq_num: u64, flags: u64, payload: &[u8], out: &mut [u8]) -> u64
    ensures { write_exit result out.new
        ≡ write kind seq_num flags payload.now out.old }
{
    match PacketType::try_from(kind.min(MAX_BYTE) as u8) {
        Ok(pkt_type) => write_packet(seq_num, pkt_type, flags, payload, out),
        Err(r) => host_answer::refusal_answer(r),
    }
}

fn write_packet(
    seq_num: u64,
    pkt_type: PacketType,
    flags: u64,
    payload: &[u8],
    out: &mut [u8],
) -> u64
    ensures { write_exit result out.new
        ≡ written (write_of (Ok pkt_type) seq_num flags
        payload.now out.old) }
{
    if Packet::MAX_PAYLOAD_SIZE < payload.len() {
        return host_answer::refusal_answer(Refusal::Long);
    }
    if MAX_U32 < seq_num {
        return host_answer::refusal_answer(Refusal::Numbers);
    }
    if MAX_BYTE < flags {
        return host_answer::refusal_answer(Refusal::Numbers);
    }
    let p = Packet {
        seq_num: seq_num as u32,
        pkt_type,
        flags: flags as u8,
        checksum: 0,
    };
    let p = p.compute_and_set_checksum_unchecked(payload);
    host_answer::count_answer(p.to_bytes(payload, out))
}

fn header_value(p: Packet) -> u64
    ensures { result ≡ header_value p }
{
    let kind = p.pkt_type.to_byte() as u64;
    let flags = p.flags as u64;
    p.seq_num as u64 + kind * 4_294_967_296 + flags * 1_099_511_627_776
}
