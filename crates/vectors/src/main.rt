// Prints what the library answers for RFC 1071's numerical example and the rows of the proof sheet. Times are
// in ms; of a receiver the answer and the buffer for the ACK are printed.
#![tactic(auto)]

use channel::{Channel, ChannelConfig, ChannelStats, Rolls};
use go_back_n::GoBackNReceiver;
use packet::Packet;
use refusal::Refusal;
use rto::{RtoConfig, RtoEstimator};
use schedule::Deliveries;
use selective_repeat::SelectiveRepeatReceiver;
use std::io;
use std::io::Write;
use stop_and_wait::StopAndWaitReceiver;

fn main(rt: HostRuntime) -> io::Result<()> {
    let mut writer = rt.stdout();
    rfc1071_example(&mut writer)?;
    checksums(&mut writer)?;
    readings(&mut writer)?;
    jitter(&mut writer)?;
    print_millis(&mut writer, b"R1", rto_after_sample(1000000))?;
    print_millis(&mut writer, b"R1", rto_after_sample(1000000000))?;
    print_millis(&mut writer, b"R2", rto_after_timeout())?;
    selective_repeat(&mut writer, b"S1", 0, 3)?;
    selective_repeat(&mut writer, b"S1", 0, 4)?;
    selective_repeat(&mut writer, b"S2", 6, 2)?;
    selective_repeat(&mut writer, b"S2", 6, 1)?;
    one_for_zero(&mut writer)
}

fn checksums(writer: &mut impl Write) -> io::Result<()> {
    print_checksum(writer, b"K1", Packet::new_data(0), b"")?;
    print_checksum(writer, b"K2", Packet::new_data(0), b"A")?;
    print_checksum(writer, b"K3", Packet::new_data(0xFFFF_FFFF), b"")
}

fn readings(writer: &mut impl Write) -> io::Result<()> {
    print_reading(
        writer,
        b"K4",
        b"\x00\x00\x00\x00\x01\x00\x00\x00\xFE\xFF\xFF\xFD",
    )?;
    print_reading(
        writer,
        b"K4",
        b"\x00\x00\x00\x00\x01\x00\x00\x02\xFE\xFF\xFF\xFD",
    )?;
    print_reading(writer, b"K5", b"\x00\x00\x00\x00\x01\x00\x00\x00\x00")?;
    print_reading(writer, b"K5", b"\x00\x00\x00\x00\x04\x00\xFF\xFF\x00\x00")?;
    print_reading(writer, b"K6", b"\x00\x00\x00\x00\x01\x00\x00\x01\x00\x00")
}

fn jitter(writer: &mut impl Write) -> io::Result<()> {
    let mut out = [0u8; 1];
    let channel = Channel {
        config: ChannelConfig {
            loss: 0.0,
            duplicate: 0.0,
            reorder: 0.0,
            reorder_extra_ms: 0,
            corrupt: 0.0,
            base_delay_ms: 0,
            jitter_ms: 2,
        },
        stats: ChannelStats {
            packets_seen: 0,
            lost: 0,
            corrupted: 0,
            duplicated: 0,
            reordered: 0,
            copies_delivered: 0,
        },
    };
    let rolls = Rolls {
        loss_roll: 0.0,
        dup_roll: 0.0,
        reorder_roll: 0.0,
        corrupt_roll: 0.0,
        byte_roll: 0.0,
        bit_roll: 0.0,
        jitter_roll: 6004799503160661.0 / 9007199254740992.0,
        dup_jitter_roll: 0.0,
    };
    let done = channel.process(b"A", rolls, &mut out);
    print(writer, b"J1")?;
    match done.answer {
        Ok(d) => print_deliveries(writer, d)?,
        Err(r) => print_refusal(writer, r)?,
    }
    print_line_end(writer)
}

fn print_deliveries(writer: &mut impl Write, d: Deliveries) -> io::Result<()> {
    match d {
        Deliveries::Lost => print(writer, b"\t-"),
        Deliveries::One(delay) => print_number(writer, delay),
        Deliveries::Two(first, second) => {
            print_number(writer, first)?;
            print_number(writer, second)
        }
    }
}

// k 4, granularity 1 ms, multiplier 1.
fn estimator(initial: u64, min: u64, max: u64) -> Result<RtoEstimator, Refusal> {
    RtoEstimator::with_config(RtoConfig {
        initial_rto: initial,
        min_rto: min,
        max_rto: max,
        granularity: 1000000,
        alpha: 0.125,
        beta: 0.25,
        k: 4.0,
        rto_multiplier: 1.0,
    })
}

// The RTO after a first sample of 100 ms.
fn rto_after_sample(min: u64) -> Result<u64, Refusal> {
    let e = estimator(1000000000, min, 60000000000)?;
    Ok(e.update_rtt(100000000, false).estimator.current_rto)
}

fn rto_after_timeout() -> Result<u64, Refusal> {
    estimator(300000000, 1000000, 500000000)?
        .on_timeout()
        .answer
}

fn print_millis(
    writer: &mut impl Write,
    name: &[u8],
    nanos: Result<u64, Refusal>,
) -> io::Result<()> {
    print(writer, name)?;
    match nanos {
        Ok(n) => print_number(writer, n / 1000000)?,
        Err(r) => print_refusal(writer, r)?,
    }
    print_line_end(writer)
}

fn selective_repeat(
    writer: &mut impl Write,
    name: &[u8],
    base: u32,
    seq_num: u32,
) -> io::Result<()> {
    let mut store = [0u8; 5616];
    let mut raw = [0u8; 11];
    let mut output = [0u8; 1];
    let mut ack = [0u8; 10];
    write_data(seq_num, &mut raw);
    let receiver = SelectiveRepeatReceiver {
        window_size: 4,
        recv_base: base,
        filled: 0,
        total_received: 0,
        buffered_out_of_order: 0,
        duplicates_count: 0,
    };
    let done = receiver.handle_packet(&mut store, &raw, &mut output, &mut ack);
    print_received(writer, name, done.answer, &ack)
}

// Go-Back-N and Stop-and-Wait are handed number 1 where they expect 0.
fn one_for_zero(writer: &mut impl Write) -> io::Result<()> {
    let mut raw = [0u8; 11];
    let mut output = [0u8; 1];
    write_data(1, &mut raw);
    let mut ack = [0u8; 10];
    let done = GoBackNReceiver::new().handle_packet(&raw, &mut output, &mut ack);
    print_received(writer, b"S3", done.answer, &ack)?;
    ack.fill(0);
    let done = StopAndWaitReceiver::new().handle_packet(&raw, &mut output, &mut ack);
    print_received(writer, b"S3", done.answer, &ack)
}

// Data with one byte.
fn write_data(seq_num: u32, out: &mut [u8]) {
    if let Ok(p) = Packet::new_data(seq_num).compute_and_set_checksum(b"A") {
        let _ = p.to_bytes(b"A", out);
    }
}

fn print_received(
    writer: &mut impl Write,
    name: &[u8],
    answer: Result<Option<u32>, Refusal>,
    ack: &[u8],
) -> io::Result<()> {
    print(writer, name)?;
    match answer {
        Ok(Some(n)) => print_number(writer, n as u64)?,
        Ok(None) => print(writer, b"\t-")?,
        Err(r) => print_refusal(writer, r)?,
    }
    print_bytes(writer, ack)?;
    print_line_end(writer)
}

// The sum of section 3's octets, and its complement as a checksum: of a packet with these words as number and
// payload, and one word more, the complement of kind and length together, so that these add nothing.
fn rfc1071_example(writer: &mut impl Write) -> io::Result<()> {
    print(writer, b"RFC 1071")?;
    print_word(
        writer,
        checksum::ones_sum_unchecked(0, b"\x00\x01\xF2\x03\xF4\xF5\xF6\xF7"),
    )?;
    print_computed(
        writer,
        Packet::new_data(0x0001_F203),
        b"\xF4\xF5\xF6\xF7\xFE\xF9",
    )?;
    print_line_end(writer)
}

fn print_checksum(
    writer: &mut impl Write,
    name: &[u8],
    packet: Packet,
    payload: &[u8],
) -> io::Result<()> {
    print(writer, name)?;
    print_computed(writer, packet, payload)?;
    print_line_end(writer)
}

fn print_computed(writer: &mut impl Write, packet: Packet, payload: &[u8]) -> io::Result<()> {
    match packet.compute_checksum(payload) {
        Ok(k) => print_word(writer, k),
        Err(r) => print_refusal(writer, r),
    }
}

fn print_reading(writer: &mut impl Write, name: &[u8], raw: &[u8]) -> io::Result<()> {
    print(writer, name)?;
    match Packet::from_bytes(raw) {
        Ok(p) => {
            print_number(writer, p.seq_num as u64)?;
            print_validity(writer, raw)?;
            print_bytes(writer, Packet::payload(raw))?;
        }
        Err(r) => print_refusal(writer, r)?,
    }
    print_line_end(writer)
}

fn print_validity(writer: &mut impl Write, raw: &[u8]) -> io::Result<()> {
    match Packet::is_valid(raw) {
        Ok(true) => print(writer, b"\tvalid"),
        Ok(false) => print(writer, b"\tinvalid"),
        Err(r) => print_refusal(writer, r),
    }
}

// The number, the word and the values.
fn print_refusal(writer: &mut impl Write, r: Refusal) -> io::Result<()> {
    write!(writer, "\t{}\t{r}", r.number())?;
    let values = r.values();
    if 0 < values.count {
        print_number(writer, values.first)?;
    }
    if 1 < values.count {
        print_number(writer, values.second)?;
    }
    Ok(())
}

fn print_bytes(writer: &mut impl Write, bytes: &[u8]) -> io::Result<()> {
    print(writer, b"\t")?;
    if bytes.is_empty() {
        print(writer, b"-")?;
    }
    for byte in bytes {
        write!(writer, "{:02x}", *byte)?;
    }
    Ok(())
}

fn print_number(writer: &mut impl Write, n: u64) -> io::Result<()> {
    write!(writer, "\t{n}")
}

fn print_word(writer: &mut impl Write, n: u16) -> io::Result<()> {
    write!(writer, "\t{n:04x}")
}

fn print_line_end(writer: &mut impl Write) -> io::Result<()> {
    print(writer, b"\n")
}

fn print(writer: &mut impl Write, text: &[u8]) -> io::Result<()> {
    writer.write_all(text)
}
