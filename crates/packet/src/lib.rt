// Packets and their wire format: packet.rs of the reference. The payload lies beside the packet, in the caller's
// memory.
#![tactic(auto)]

ghost use Rattle.std.specs.Prelude.{◌≡◌, ◌+◌, ◌≤◌, ◌++◌, length, drop};
ghost use Rattle.bounds.specs.Bounds.{header_size};
ghost use Rattle.packet.specs.Format.{byte_of, new_packet, is_retransmitted, set_retransmitted, header_bytes};
ghost use Rattle.packet.specs.Format.{datagram, checksum_of, with_checksum, matches};
ghost use Rattle.packet.specs.Reading.{try_from, declared, payload_part, from_bytes, payload_of, validity};
ghost use Rattle.packet.specs.Reading.{read_datagram};
ghost use Rattle.packet.specs.Writing.{compute_checksum, compute_and_set_checksum, to_bytes, written};

use refusal::Refusal;

pub const FLAG_RETRANSMITTED: u8 = 1;

#[derive(Clone, Copy)]
pub enum PacketType {
    Data,
    Ack,
    Fin,
}

#[derive(Clone, Copy)]
pub struct Packet {
    pub seq_num: u32,
    pub pkt_type: PacketType,
    pub flags: u8,
    pub checksum: u16,
}

// What a datagram given to a sender or a receiver is.
#[derive(Clone, Copy)]
pub enum DatagramReading {
    // Its checksum matches.
    Valid(Packet),
    // It doesn't.
    Corrupted(Packet),
}

impl PacketType {
    // The byte on the wire.
    pub fn to_byte(self) -> u8
        ensures { result ≡ byte_of self }
    {
        match self {
            PacketType::Data => 1,
            PacketType::Ack => 2,
            PacketType::Fin => 3,
        }
    }
}

// The kind of a byte on the wire, or a refusal that names the byte.
impl TryFrom<u8> for PacketType {
    type Error = Refusal;

    ghost try_from_gives = { λ byte answer. answer ≡ try_from byte };

    fn try_from(byte: u8) -> Result<Self, Refusal> {
        match byte {
            1 => Ok(PacketType::Data),
            2 => Ok(PacketType::Ack),
            3 => Ok(PacketType::Fin),
            _ => Err(Refusal::Kind(byte)),
        }
    }
}

// The byte on the wire.
impl From<PacketType> for u8 {
    ghost from_gives = { λ kind byte. byte ≡ byte_of kind };

    fn from(kind: PacketType) -> u8 {
        kind.to_byte()
    }
}

impl Packet {
    pub const HEADER_SIZE: usize = bounds::HEADER_SIZE;

    pub const MAX_PAYLOAD_SIZE: usize = bounds::MAX_PAYLOAD_SIZE;

    pub fn new_data(seq_num: u32) -> Packet
        ensures { result ≡ new_packet seq_num PacketType.Data }
    {
        Packet::new(seq_num, PacketType::Data)
    }

    pub fn new_ack(seq_num: u32) -> Packet
        ensures { result ≡ new_packet seq_num PacketType.Ack }
    {
        Packet::new(seq_num, PacketType::Ack)
    }

    pub fn new_fin(seq_num: u32) -> Packet
        ensures { result ≡ new_packet seq_num PacketType.Fin }
    {
        Packet::new(seq_num, PacketType::Fin)
    }

    fn new(seq_num: u32, pkt_type: PacketType) -> Packet
        ensures { result ≡ new_packet seq_num pkt_type }
    {
        Packet {
            seq_num,
            pkt_type,
            flags: 0,
            checksum: 0,
        }
    }

    pub fn is_retransmitted(self) -> bool
        ensures { result ≡ is_retransmitted self }
    {
        (self.flags & FLAG_RETRANSMITTED) != 0
    }

    pub fn set_retransmitted(mut self) -> Packet
        ensures { result ≡ set_retransmitted self }
    {
        self.flags |= FLAG_RETRANSMITTED;
        self
    }

    // The checksum over header and payload, its own field counted as 0.
    pub fn compute_checksum(self, payload: &[u8]) -> Result<u16, Refusal>
        ensures { result ≡ compute_checksum self payload.now }
    {
        if Packet::MAX_PAYLOAD_SIZE < payload.len() {
            return Err(Refusal::Long);
        }
        Ok(self.compute_checksum_unchecked(payload))
    }

    pub fn compute_and_set_checksum(self, payload: &[u8]) -> Result<Packet, Refusal>
        ensures { result ≡ compute_and_set_checksum self payload.now }
    {
        if Packet::MAX_PAYLOAD_SIZE < payload.len() {
            return Err(Refusal::Long);
        }
        Ok(self.compute_and_set_checksum_unchecked(payload))
    }

    // Whether a datagram's checksum matches.
    pub fn is_valid(raw: &[u8]) -> Result<bool, Refusal>
        ensures { result ≡ validity raw.now }
    {
        let p = Packet::from_bytes(raw)?;
        Ok(p.is_valid_unchecked(Packet::payload_unchecked(raw)))
    }

    // Writes the datagram, with the checksum field as it stands, to the start of out.
    pub fn to_bytes(self, payload: &[u8], out: &mut [u8]) -> Result<usize, Refusal>
        ensures { written result out.new ≡ to_bytes self payload.now out.old }
    {
        let n = payload.len();
        if Packet::MAX_PAYLOAD_SIZE < n {
            return Err(Refusal::Long);
        }
        if out.len() < Packet::HEADER_SIZE + n {
            return Err(Refusal::Full);
        }
        self.to_bytes_unchecked(payload, out);
        Ok(Packet::HEADER_SIZE + n)
    }

    // The packet of a datagram; bytes after the declared payload are ignored.
    pub fn from_bytes(raw: &[u8]) -> Result<Packet, Refusal>
        ensures { result ≡ from_bytes raw.now }
    {
        if raw.len() < Packet::HEADER_SIZE {
            return Err(Refusal::Short(raw.len()));
        }
        let pkt_type = PacketType::try_from(raw[4])?;
        let declared = octets::be16(raw[6], raw[7]);
        let present = raw.len() - Packet::HEADER_SIZE;
        if present < declared as usize {
            return Err(Refusal::Cut { declared, present });
        }
        Ok(Packet {
            seq_num: octets::be32(raw[0], raw[1], raw[2], raw[3]),
            pkt_type,
            flags: raw[5],
            checksum: octets::be16(raw[8], raw[9]),
        })
    }

    // The payload, as that part of the datagram; empty where reading is refused.
    pub fn payload(raw: &[u8]) -> &[u8]
        ensures { result.now ≡ payload_of raw.now }
    {
        match Packet::from_bytes(raw) {
            Ok(_) => Packet::payload_unchecked(raw),
            Err(_) => &raw[..0],
        }
    }

    // What a datagram given to a sender or a receiver is: refused by 1, 2, 3 or 6, else its packet and whether its
    // checksum matches.
    pub fn read_datagram(raw: &[u8]) -> Result<DatagramReading, Refusal>
        ensures { result ≡ read_datagram raw.now }
    {
        let p = Packet::from_bytes(raw)?;
        let payload = Packet::payload_unchecked(raw);
        if Packet::MAX_PAYLOAD_SIZE < payload.len() {
            return Err(Refusal::Long);
        }
        if p.is_valid_unchecked(payload) {
            Ok(DatagramReading::Valid(p))
        } else {
            Ok(DatagramReading::Corrupted(p))
        }
    }

    pub fn payload_unchecked(raw: &[u8]) -> &[u8]
        requires { header_size + declared raw.now ≤ length raw.now }
        ensures { result.now ≡ payload_part raw.now }
    {
        let end = Packet::HEADER_SIZE + octets::be16(raw[6], raw[7]) as usize;
        &raw[Packet::HEADER_SIZE..end]
    }

    pub fn compute_checksum_unchecked(self, payload: &[u8]) -> u16
        requires { length payload.now ≤ 65535 }
        ensures { result ≡ checksum_of self payload.now }
    {
        let high = (self.seq_num >> 16) as u16;
        let low = (self.seq_num % 65536) as u16;
        let kind_and_flags = octets::be16(self.pkt_type.to_byte(), self.flags);
        let header = checksum::ones_add(
            checksum::ones_add(checksum::ones_add(high, low), kind_and_flags),
            payload.len() as u16,
        );
        !checksum::ones_sum_unchecked(header, payload)
    }

    pub fn compute_and_set_checksum_unchecked(self, payload: &[u8]) -> Packet
        requires { length payload.now ≤ 65535 }
        ensures { result ≡ with_checksum self payload.now }
    {
        Packet {
            checksum: self.compute_checksum_unchecked(payload),
            ..self
        }
    }

    pub fn is_valid_unchecked(self, payload: &[u8]) -> bool
        requires { length payload.now ≤ 65535 }
        ensures { result ≡ matches self payload.now }
    {
        self.checksum == self.compute_checksum_unchecked(payload)
    }

    pub fn to_bytes_unchecked(self, payload: &[u8], out: &mut [u8])
        requires { (length payload.now ≤ 65535) × (header_size + length payload.now ≤ length out.old) }
        ensures { out.new
            ≡ datagram self payload.now
            ++ drop (header_size + length payload.now) out.old }
    {
        let n = payload.len();
        put_header(self, n as u16, out);
        let end = Packet::HEADER_SIZE + n;
        octets::copy_unchecked(payload, &mut out[Packet::HEADER_SIZE..end]);
    }
}

fn put_header(p: Packet, payload_len: u16, out: &mut [u8])
    requires { header_size ≤ length out.old }
    ensures { out.new
        ≡ header_bytes p payload_len p.checksum ++ drop header_size out.old }
{
    out[0] = (p.seq_num >> 24) as u8;
    out[1] = ((p.seq_num >> 16) % 256) as u8;
    out[2] = ((p.seq_num >> 8) % 256) as u8;
    out[3] = (p.seq_num % 256) as u8;
    out[4] = p.pkt_type.to_byte();
    out[5] = p.flags;
    out[6] = (payload_len >> 8) as u8;
    out[7] = (payload_len % 256) as u8;
    out[8] = (p.checksum >> 8) as u8;
    out[9] = (p.checksum % 256) as u8;
}
