// The answer of a run, and the lent slices.
use channel::ChannelStats;
use go_back_n::GoBackNReceiver;
use refusal::Refusal;
use replay_io::Answer;
use rto::{RtoConfig, RtoEstimator, RtoStats};
use selective_repeat::SelectiveRepeatReceiver;
use session::{Receiver, ReceiverState, Sender, SenderState};
use std::io;
use std::io::Write;
use step::End;
use stop_and_wait::{StopAndWaitReceiver, StopAndWaitSender};
use transfer::{DriverCounts, Outcome};
use window::SendWindow;

pub fn print_answer(writer: &mut impl Write, a: Result<Outcome, Refusal>) -> io::Result<()> {
    match a {
        Ok(o) => print_outcome(writer, o),
        Err(r) => r.print(writer),
    }
}

fn print_outcome(writer: &mut impl Write, o: Outcome) -> io::Result<()> {
    print_end(writer, o.end)?;
    o.completed.print(writer)?;
    o.finished_at.print(writer)?;
    print_sender(writer, o.sender)?;
    print_receiver(writer, o.receiver)?;
    print_driver(writer, o.driver)?;
    print_estimator(writer, o.estimator)?;
    print_channel(writer, o.forward)?;
    print_channel(writer, o.reverse)
}

pub fn print_end(writer: &mut impl Write, end: End) -> io::Result<()> {
    match end {
        End::Ended => "ended".print(writer),
        End::RollsSpent => "rolls spent".print(writer),
        End::EventsFull => "events full".print(writer),
        End::ScheduleFull => "schedule full".print(writer),
    }
}

fn print_sender(writer: &mut impl Write, sender: Sender) -> io::Result<()> {
    replay_io::print(writer, b"\ns")?;
    match sender.state {
        SenderState::StopAndWait(s) => print_stop_and_wait_sender(writer, s),
        SenderState::GoBackN(s) => print_window(writer, s.window),
        SenderState::SelectiveRepeat(s) => print_window(writer, s.window),
    }
}

fn print_stop_and_wait_sender(writer: &mut impl Write, s: StopAndWaitSender) -> io::Result<()> {
    s.current_seq.print(writer)?;
    s.in_flight.print(writer)?;
    s.max_retries.print(writer)?;
    s.current_retries.print(writer)?;
    s.total_sent.print(writer)?;
    s.retransmissions.print(writer)
}

fn print_window(writer: &mut impl Write, w: SendWindow) -> io::Result<()> {
    w.window_size.print(writer)?;
    w.send_base.print(writer)?;
    w.next_seq_num.print(writer)?;
    w.total_sent.print(writer)?;
    w.retransmissions.print(writer)
}

fn print_receiver(writer: &mut impl Write, receiver: Receiver) -> io::Result<()> {
    replay_io::print(writer, b"\nv")?;
    match receiver.state {
        ReceiverState::StopAndWait(r) => print_stop_and_wait_receiver(writer, r),
        ReceiverState::GoBackN(r) => print_go_back_n_receiver(writer, r),
        ReceiverState::SelectiveRepeat(r) => print_selective_repeat_receiver(writer, r),
    }
}

fn print_stop_and_wait_receiver(writer: &mut impl Write, r: StopAndWaitReceiver) -> io::Result<()> {
    r.expected_seq.print(writer)?;
    r.filled.print(writer)?;
    r.total_received.print(writer)?;
    r.duplicates_count.print(writer)?;
    r.corrupted_count.print(writer)
}

fn print_go_back_n_receiver(writer: &mut impl Write, r: GoBackNReceiver) -> io::Result<()> {
    r.expected_seq.print(writer)?;
    r.filled.print(writer)?;
    r.total_received.print(writer)?;
    r.discarded_out_of_order.print(writer)?;
    r.duplicate_acks_sent.print(writer)
}

fn print_selective_repeat_receiver(
    writer: &mut impl Write,
    r: SelectiveRepeatReceiver,
) -> io::Result<()> {
    r.window_size.print(writer)?;
    r.recv_base.print(writer)?;
    r.filled.print(writer)?;
    r.total_received.print(writer)?;
    r.buffered_out_of_order.print(writer)?;
    r.duplicates_count.print(writer)
}

fn print_driver(writer: &mut impl Write, d: DriverCounts) -> io::Result<()> {
    replay_io::print(writer, b"\nd")?;
    d.retx_submitted.print(writer)?;
    d.premature.print(writer)?;
    d.data_received.print(writer)?;
    d.ack_sent.print(writer)?;
    d.ack_received.print(writer)?;
    d.duplicate_data.print(writer)?;
    d.duplicate_acks.print(writer)?;
    d.events.print(writer)
}

fn print_estimator(writer: &mut impl Write, e: RtoEstimator) -> io::Result<()> {
    replay_io::print(writer, b"\nt")?;
    print_config(writer, e.config)?;
    e.srtt.print(writer)?;
    e.rttvar.print(writer)?;
    e.current_rto.print(writer)?;
    e.base_rto.print(writer)?;
    e.in_backoff.print(writer)?;
    e.consecutive_timeouts.print(writer)?;
    print_stats(writer, e.stats)
}

fn print_config(writer: &mut impl Write, c: RtoConfig) -> io::Result<()> {
    c.initial_rto.print(writer)?;
    c.min_rto.print(writer)?;
    c.max_rto.print(writer)?;
    c.granularity.print(writer)?;
    c.alpha.print(writer)?;
    c.beta.print(writer)?;
    c.k.print(writer)?;
    c.rto_multiplier.print(writer)
}

fn print_stats(writer: &mut impl Write, s: RtoStats) -> io::Result<()> {
    s.sample_count.print(writer)?;
    s.karn_rejected_count.print(writer)?;
    s.timeout_count.print(writer)?;
    s.backoff_count.print(writer)?;
    s.min_rtt.print(writer)?;
    s.max_rtt.print(writer)?;
    s.sum_rtt_millis.print(writer)?;
    s.latest_rtt.print(writer)?;
    s.max_consecutive_timeouts.print(writer)
}

fn print_channel(writer: &mut impl Write, s: ChannelStats) -> io::Result<()> {
    replay_io::print(writer, b"\nc")?;
    s.packets_seen.print(writer)?;
    s.lost.print(writer)?;
    s.corrupted.print(writer)?;
    s.duplicated.print(writer)?;
    s.reordered.print(writer)?;
    s.copies_delivered.print(writer)
}

// What stands in a row: a number, how often so far, and whether it is an octet.
#[derive(Clone, Copy)]
struct Repeat {
    value: u64,
    count: u64,
    octet: bool,
}

// The start of a line.
fn begun(writer: &mut impl Write, octet: bool) -> io::Result<Repeat> {
    replay_io::print(writer, b"\nl")?;
    Ok(Repeat {
        value: 0,
        count: 0,
        octet,
    })
}

// With n after it; prints what stood before another number.
fn followed(writer: &mut impl Write, r: Repeat, n: u64) -> io::Result<Repeat> {
    if r.value == n {
        return Ok(repeated(r));
    }
    print_repeat(writer, r)?;
    Ok(Repeat {
        value: n,
        count: 1,
        octet: r.octet,
    })
}

fn repeated(r: Repeat) -> Repeat {
    let mut next = r;
    next.count = std::num::wrapping_add_u64(r.count, 1);
    next
}

fn print_repeat(writer: &mut impl Write, r: Repeat) -> io::Result<()> {
    if r.count == 0 {
        return Ok(());
    }
    replay_io::print(writer, b" ")?;
    print_value(writer, r.value, r.octet)?;
    if 1 < r.count {
        write!(writer, "*{}", r.count)?;
    }
    Ok(())
}

fn print_value(writer: &mut impl Write, value: u64, octet: bool) -> io::Result<()> {
    if octet {
        write!(writer, "{value:02x}")
    } else {
        write!(writer, "{value}")
    }
}

fn print_octets(writer: &mut impl Write, octets: &[u8]) -> io::Result<()> {
    print_list(writer, octets, true)
}

fn print_list<T: Copy + Into<u64>>(
    writer: &mut impl Write,
    list: &[T],
    octet: bool,
) -> io::Result<()> {
    let mut r = begun(writer, octet)?;
    for x in list {
        r = followed(writer, r, (*x).into())?;
    }
    print_repeat(writer, r)
}

fn print_rows<const N: usize>(writer: &mut impl Write, rows: &[[u64; N]]) -> io::Result<()> {
    let mut r = begun(writer, false)?;
    for row in rows {
        for x in row {
            r = followed(writer, r, *x)?;
        }
    }
    print_repeat(writer, r)
}

// The lent slices, a line each: octets in hexadecimal, numbers in decimal, *N after one that stands N times in a row.
pub fn print_lent(
    writer: &mut impl Write,
    sender_store: &[u8],
    receiver_store: &[u8],
    output: &[u8],
    notes: &[[u64; 7]],
    events: &[[u64; 7]],
    forward_records: &[[u64; 4]],
    forward_places: &[u8],
    reverse_records: &[[u64; 4]],
    reverse_places: &[u8],
    keys: &[u32],
    deadlines: &[u64],
) -> io::Result<()> {
    print_octets(writer, sender_store)?;
    print_octets(writer, receiver_store)?;
    print_octets(writer, output)?;
    print_rows(writer, notes)?;
    print_rows(writer, events)?;
    print_rows(writer, forward_records)?;
    print_octets(writer, forward_places)?;
    print_rows(writer, reverse_records)?;
    print_octets(writer, reverse_places)?;
    print_list(writer, keys, false)?;
    print_list(writer, deadlines, false)
}
