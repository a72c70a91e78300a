// ACKs from the reverse line: the reference's `on_ack`, with its sample and its timer.
#![tactic(auto)]

ghost use Rattle.std.specs.Prelude.{◌≡◌, List, ℕ};
ghost use Rattle.packet.specs.Reading.{read_datagram};
ghost use Rattle.path.specs.Direction.{direction};
ghost use Rattle.notes.specs.Notes.{seg_metas};
ghost use Rattle.multi_timer.specs.MultiTimer.{timers_exit};
ghost use Rattle.session.specs.Sending.{sender_end};
ghost use Rattle.acks.specs.Acks.{ack_state, of_type, ack_number, sample_seq, on_accepted, on_ack};
ghost use Rattle.acks.specs.Good.{CanOnAck};
ghost use Rattle.acks.specs.Internal.{CanAccept};
ghost use Rattle.acks.specs.Reverse.{serve_exit, serve_reverse, CanServeReverse};

use bounds::PLACE_SIZE;
use clock::{Clock, Timing};
use notes::{Note, Notes};
use packet::{DatagramReading, Packet, PacketType};
use path::Path;
use rto::RtoEstimator;
use schedule::ScheduledRow;
use session::{Sender, SenderState};

// What ACKs change besides the lent slices.
#[derive(Clone, Copy)]
pub struct AckSide {
    pub sender: Sender,
    pub estimator: RtoEstimator,
    pub clock: Clock,
    pub ack_received: u64,
    pub duplicate_acks: u64,
}

// progress: whether a datagram was handed over.
#[derive(Clone, Copy)]
pub struct ServeResult {
    pub reverse: Path,
    pub side: AckSide,
    pub progress: bool,
}

// Hands over what is due on the reverse line.
pub fn serve_reverse_unchecked(
    mut reverse: Path,
    mut side: AckSide,
    timing: Timing,
    notes: Notes,
    now: u64,
    store: &mut [u8],
    rows: &mut [Note],
    records: &mut [ScheduledRow],
    places: &mut [u8],
    keys: &mut [u32],
    deadlines: &mut [u64],
) -> ServeResult
    requires { CanServeReverse (direction records.old places.old reverse)
        (ack_state (sender_end side.sender store.old) side.estimator
        (timers_exit side.clock keys.old deadlines.old) (seg_metas notes rows.old) side.ack_received
        side.duplicate_acks) now }
    ensures { serve_exit (direction records.new places.new result.reverse)
        (ack_state (sender_end result.side.sender store.new) result.side.estimator
        (timers_exit result.side.clock keys.new deadlines.new) (seg_metas notes rows.new)
        result.side.ack_received result.side.duplicate_acks) result.progress
        ≡ serve_reverse timing now (direction records.old places.old reverse)
        (ack_state (sender_end side.sender store.old) side.estimator
        (timers_exit side.clock keys.old deadlines.old) (seg_metas notes rows.old)
        side.ack_received side.duplicate_acks) }
{
    let mut progress = false;
    loop {
        match reverse.first_due_unchecked(records, now) {
            None => {
                return ServeResult {
                    reverse,
                    side,
                    progress,
                };
            }
            Some((place, len)) => {
                let from = place * PLACE_SIZE;
                let end = from + len;
                let after = on_ack_unchecked(
                    side,
                    timing,
                    notes,
                    now,
                    &places[from..end],
                    store,
                    rows,
                    keys,
                    deadlines,
                );
                reverse = reverse.remove_first_unchecked(records, places);
                side = after;
                progress = true;
            }
        }
    }
}

// A datagram that the reverse line hands over.
pub fn on_ack_unchecked(
    side: AckSide,
    timing: Timing,
    notes: Notes,
    now: u64,
    raw: &[u8],
    store: &mut [u8],
    rows: &mut [Note],
    keys: &mut [u32],
    deadlines: &mut [u64],
) -> AckSide
    requires { CanOnAck (ack_state (sender_end side.sender store.old) side.estimator
        (timers_exit side.clock keys.old deadlines.old) (seg_metas notes rows.old) side.ack_received
        side.duplicate_acks) now }
    ensures { ack_state (sender_end result.sender store.new) result.estimator
        (timers_exit result.clock keys.new deadlines.new) (seg_metas notes rows.new)
        result.ack_received result.duplicate_acks
        ≡ on_ack timing now raw.now
        (ack_state (sender_end side.sender store.old) side.estimator
        (timers_exit side.clock keys.old deadlines.old) (seg_metas notes rows.old)
        side.ack_received side.duplicate_acks) }
{
    match ack_number(raw) {
        None => side,
        Some(n) => {
            let sender = side.sender;
            let seq = sample_seq(sender, n);
            let answer = sender.handle_ack_unchecked(store, n);
            let sender = answer.sender;
            let mut side = side;
            side.sender = sender;
            side.ack_received += 1;
            if answer.accepted {
                return on_accepted(side, timing, notes, now, n, seq, rows, keys, deadlines);
            }
            side.duplicate_acks += 1;
            side
        }
    }
}

fn ack_number(raw: &[u8]) -> Option<u32>
    ensures { result ≡ ack_number (read_datagram raw.now) }
{
    match Packet::read_datagram(raw) {
        Ok(DatagramReading::Valid(packet)) => number_of(packet),
        Ok(DatagramReading::Corrupted(_)) => None,
        Err(_) => None,
    }
}

fn number_of(packet: Packet) -> Option<u32>
    ensures { result ≡ of_type packet.pkt_type packet.seq_num }
{
    let pkt_type = packet.pkt_type;
    match pkt_type {
        PacketType::Data => None,
        PacketType::Ack => Some(packet.seq_num),
        PacketType::Fin => None,
    }
}

// The segment that the ACK of a number gives a sample of.
fn sample_seq(sender: Sender, n: u32) -> u32
    ensures { result ≡ sample_seq sender.state n }
{
    let state = sender.state;
    match state {
        SenderState::StopAndWait(s) => s.current_seq,
        SenderState::GoBackN(s) => {
            let window = s.window;
            window.send_base
        }
        SenderState::SelectiveRepeat(_) => n,
    }
}

// An ACK of n that was accepted; `seq` is the segment that it gives a sample of.
fn on_accepted(
    mut side: AckSide,
    timing: Timing,
    notes: Notes,
    now: u64,
    n: u32,
    seq: u32,
    rows: &mut [Note],
    keys: &mut [u32],
    deadlines: &mut [u64],
) -> AckSide
    requires { CanAccept side.sender side.estimator (timers_exit side.clock keys.old deadlines.old)
        (seg_metas notes rows.old) seq now }
    ensures { (store : List ℕ) → ack_state (sender_end result.sender store) result.estimator
        (timers_exit result.clock keys.new deadlines.new) (seg_metas notes rows.new)
        result.ack_received result.duplicate_acks
        ≡ on_accepted timing now n seq
        (ack_state (sender_end side.sender store) side.estimator
        (timers_exit side.clock keys.old deadlines.old) (seg_metas notes rows.old)
        side.ack_received side.duplicate_acks) }
{
    let estimator = side.estimator;
    let estimator = clock::sample_rtt_unchecked(estimator, notes, rows, seq, now);
    let sender = side.sender;
    let oldest = sender.oldest_outstanding_unchecked();
    let clock = side.clock;
    let clock = clock.rearm_after_ack_unchecked(
        timing,
        estimator.current_rto,
        notes,
        rows,
        keys,
        deadlines,
        now,
        n,
        oldest,
    );
    side.estimator = estimator;
    side.clock = clock;
    side
}
