// What the three receivers share: reading a datagram, delivering a payload into the lent output, writing the ACK.
#![tactic(auto)]

ghost use Rattle.std.specs.Prelude.{◌≡◌, ◌+◌, ◌≤◌, length};
ghost use Rattle.packet.specs.Reading.{read_datagram};
ghost use Rattle.receiver.specs.State.{state_broken, counts_broken};
ghost use Rattle.receiver.specs.Reading.{packet_reading, is_number_high, reading_answer, read_after, read_held};
ghost use Rattle.receiver.specs.Reply.{apply_exit, applied, room_missing, RoomFor, RoomForReply, ack_after};
ghost use Rattle.receiver.specs.Receive.{receive_exit, apply};

use bounds::{COUNT_LIMIT, SEQ_NUM_LIMIT};
use packet::{DatagramReading, Packet, PacketType};
use refusal::Refusal;

// What a packet that was read is to a receiver.
#[derive(Clone, Copy)]
pub enum PacketReading {
    // Valid, with its number.
    Data(u32),
    Fin(u32),
    // Valid, and nothing for a receiver.
    Ack,
    // The checksum doesn't match.
    Corrupted,
}

// What a receiver decided on a packet, before anything is written.
#[derive(Clone, Copy)]
pub struct Decision {
    pub deliver: bool,
    pub reply: Option<u32>,
}

// The fill mark and the answer when a decision is carried out, or refused.
#[derive(Clone, Copy)]
pub struct ApplyResult {
    pub filled: usize,
    pub answer: Result<Option<u32>, Refusal>,
}

// A datagram for a receiver, after the verdict on what it holds.
pub fn read_after(verdict: Result<(), Refusal>, raw: &[u8]) -> Result<PacketReading, Refusal>
    ensures { result ≡ read_after verdict raw.now }
{
    verdict?;
    read_packet(raw)
}

// A datagram for a receiver in order, by what it holds: its base, its fill mark in the output and its counters.
pub fn read_in_order(
    base: u32,
    filled: usize,
    a: u64,
    b: u64,
    c: u64,
    raw: &[u8],
    output: &[u8],
) -> Result<PacketReading, Refusal>
    ensures { result ≡ read_held (state_broken base filled output.now) (counts_broken a b c)
        raw.now }
{
    let held = refusal::held_verdict(state_broken(base, filled, output), counts_broken(a, b, c));
    read_after(held, raw)
}

// A packet that was read, and whether its checksum matches.
pub fn packet_reading(packet: Packet, valid: bool) -> PacketReading
    ensures { result ≡ packet_reading packet valid }
{
    if valid {
        let seq_num = packet.seq_num;
        match packet.pkt_type {
            PacketType::Data => PacketReading::Data(seq_num),
            PacketType::Ack => PacketReading::Ack,
            PacketType::Fin => PacketReading::Fin(seq_num),
        }
    } else {
        PacketReading::Corrupted
    }
}

// Carries a decision out, or refuses it where a buffer is too short.
pub fn apply_unchecked(
    decision: Decision,
    payload: &[u8],
    filled: usize,
    output: &mut [u8],
    ack: &mut [u8],
) -> ApplyResult
    requires { filled ≤ length output.old }
    ensures { receive_exit result.answer result.filled output.new ack.new
        ≡ apply decision payload.now filled output.old ack.old }
{
    if room_missing_unchecked(decision, payload.len(), filled, output, ack) {
        return ApplyResult {
            filled,
            answer: Err(Refusal::Full),
        };
    }
    let end = apply_in_room_unchecked(decision, payload, filled, output, ack);
    ApplyResult {
        filled: end,
        answer: Ok(decision.reply),
    }
}

// Whether a buffer is shorter than what the decision writes: size bytes to the output from its fill mark on, an ACK.
#[tactic(auto, using(crate::proofs::Replies::ack_missing_is), unfolding(crate::specs::Reply::room_missing))]
pub fn room_missing_unchecked(
    decision: Decision,
    size: usize,
    filled: usize,
    output: &[u8],
    ack: &[u8],
) -> bool
    requires { filled ≤ length output.now }
    ensures { result ≡ room_missing decision size filled output.now ack.now }
{
    (decision.deliver && output.len() - filled < size)
        || (decision.reply.is_some() && ack.len() < Packet::HEADER_SIZE)
}

// Carries a decision out: the payload to the output, the ACK to its buffer. Answers the fill mark.
pub fn apply_in_room_unchecked(
    decision: Decision,
    payload: &[u8],
    filled: usize,
    output: &mut [u8],
    ack: &mut [u8],
) -> usize
    requires { RoomFor decision (length payload.now) filled output.old ack.old }
    ensures { apply_exit result output.new ack.new
        ≡ applied decision payload.now filled output.old ack.old }
{
    write_reply(decision.reply, ack);
    if decision.deliver {
        let end = filled + payload.len();
        octets::copy_unchecked(payload, &mut output[filled..end]);
        return end;
    }
    filled
}

fn write_reply(reply: Option<u32>, ack: &mut [u8])
    requires { RoomForReply reply ack.old }
    ensures { ack.new ≡ ack_after reply ack.old }
{
    if let Some(n) = reply {
        let none = b"";
        Packet::new_ack(n)
            .compute_and_set_checksum_unchecked(none)
            .to_bytes_unchecked(none, ack);
    }
}

// Whether check 9 is true of a receiver's base and fill mark.
#[tactic(auto, unfolding(crate::specs::State::state_broken, refusal::specs::Clauses::any_of))]
pub fn state_broken(base: u32, filled: usize, output: &[u8]) -> bool
    ensures { result ≡ state_broken base filled output.now }
{
    SEQ_NUM_LIMIT < base || output.len() < filled
}

// Whether check 8 is true of a receiver's counters.
#[tactic(auto, unfolding(crate::specs::State::counts_broken, refusal::specs::Clauses::any_of))]
pub fn counts_broken(a: u64, b: u64, c: u64) -> bool
    ensures { result ≡ counts_broken a b c }
{
    COUNT_LIMIT <= a || COUNT_LIMIT <= b || COUNT_LIMIT <= c
}

fn read_packet(raw: &[u8]) -> Result<PacketReading, Refusal>
    ensures { result ≡ reading_answer (read_datagram raw.now) }
{
    match Packet::read_datagram(raw)? {
        DatagramReading::Valid(packet) => {
            if is_number_high(packet) {
                return Err(Refusal::Numbers);
            }
            Ok(packet_reading(packet, true))
        }
        DatagramReading::Corrupted(packet) => Ok(packet_reading(packet, false)),
    }
}

// Whether check 7 is true of a valid packet.
pub fn is_number_high(packet: Packet) -> bool
    ensures { result ≡ is_number_high packet }
{
    matches!(packet.pkt_type, PacketType::Data) && SEQ_NUM_LIMIT <= packet.seq_num
}
