// The receiving side of a run: what is due on the forward line to the receiver, its ACKs to the reverse line.
// app/transfer.rs of the reference.
#![tactic(auto)]

ghost use Rattle.std.specs.Prelude.{◌≡◌, true, ◌&&◌, cond, List, ℕ, ◌+◌, ◌-◌, ◌^◌, ◌≤◌, ◌<◌, length};
ghost use Rattle.packet.specs.Reading.{read_datagram};
ghost use Rattle.notes.specs.Notes.{seg_metas, mark_ack_scheduled, ScheduledBelow};
ghost use Rattle.path.specs.Direction.{direction};
ghost use Rattle.path.specs.Path.{wire_after, CanCarry};
ghost use Rattle.session.specs.Receiving.{gbn_already_delivered};
ghost use Rattle.receiving.specs.Receiving.{inbound, forward_exit, new_duplicates, delivered, absorb};
ghost use Rattle.receiving.specs.Receiving.{new_side, any_copies, submit_ack, on_forward};
ghost use Rattle.receiving.specs.Receiving.{serve_forward_exit, serve_forward};
ghost use Rattle.receiving.specs.Good.{CanOnForward, CanServeForward};
ghost use Rattle.receiving.specs.Internal.{data_arrival, arrival_of};

use bounds::{HEADER_SIZE, PLACE_SIZE};
use notes::{Note, Notes};
use packet::{DatagramReading, Packet, PacketType};
use path::{Path, Stop};
use schedule::{Deliveries, ScheduledRow, copies_of};
use session::Receiver;

// completed_at is the moment at which the last chunk was delivered, 0 before.
#[derive(Clone, Copy)]
pub struct ReceivingSide {
    pub receiver: Receiver,
    pub data_received: u64,
    pub ack_sent: u64,
    pub duplicate_data: u64,
    pub completed: bool,
    pub completed_at: u64,
}

#[derive(Clone, Copy)]
pub struct ForwardResult {
    pub side: ReceivingSide,
    pub reverse: Path,
    pub notes: Notes,
    pub stop: Option<Stop>,
}

// progress: whether a datagram was handed over.
#[derive(Clone, Copy)]
pub struct ServeForwardResult {
    pub forward: Path,
    pub side: ReceivingSide,
    pub reverse: Path,
    pub notes: Notes,
    pub progress: bool,
    pub stop: Option<Stop>,
}

impl ReceivingSide {
    // Nothing received.
    pub fn new(receiver: Receiver) -> ReceivingSide
        ensures { result ≡ new_side receiver }
    {
        ReceivingSide {
            receiver,
            data_received: 0,
            ack_sent: 0,
            duplicate_data: 0,
            completed: false,
            completed_at: 0,
        }
    }
}

// Hands over what is due on the forward line, until an ACK ends the run.
pub fn serve_forward_unchecked(
    mut forward: Path,
    mut side: ReceivingSide,
    mut reverse: Path,
    mut notes: Notes,
    total_chunks: u32,
    now: u64,
    rolls: &[f64],
    store: &mut [u8],
    output: &mut [u8],
    rows: &mut [Note],
    forward_records: &mut [ScheduledRow],
    forward_places: &mut [u8],
    reverse_records: &mut [ScheduledRow],
    reverse_places: &mut [u8],
) -> ServeForwardResult
    requires { CanServeForward (direction forward_records.old forward_places.old forward)
        (inbound side store.old output.old (seg_metas notes rows.old)
        (direction reverse_records.old reverse_places.old reverse)) rolls.now now }
    ensures { serve_forward_exit
        (direction forward_records.new forward_places.new result.forward)
        (inbound result.side store.new output.new (seg_metas result.notes rows.new)
        (direction reverse_records.new reverse_places.new result.reverse))
        result.progress result.stop
        ≡ serve_forward rolls.now total_chunks now
        (direction forward_records.old forward_places.old forward)
        (inbound side store.old output.old (seg_metas notes rows.old)
        (direction reverse_records.old reverse_places.old reverse)) }
{
    let mut progress = false;
    loop {
        match forward.first_due_unchecked(forward_records, now) {
            None => {
                return ServeForwardResult {
                    forward,
                    side,
                    reverse,
                    notes,
                    progress,
                    stop: None,
                };
            }
            Some((place, len)) => {
                let from = place * PLACE_SIZE;
                let end = from + len;
                let got = on_forward_unchecked(
                    side,
                    reverse,
                    notes,
                    total_chunks,
                    now,
                    &forward_places[from..end],
                    rolls,
                    store,
                    output,
                    rows,
                    reverse_records,
                    reverse_places,
                );
                forward = forward.remove_first_unchecked(forward_records, forward_places);
                side = got.side;
                reverse = got.reverse;
                notes = got.notes;
                progress = true;
                let stop = got.stop;
                if !path::is_going(stop) {
                    return ServeForwardResult {
                        forward,
                        side,
                        reverse,
                        notes,
                        progress,
                        stop,
                    };
                }
            }
        }
    }
}

// A datagram that the forward line hands over.
pub fn on_forward_unchecked(
    side: ReceivingSide,
    reverse: Path,
    notes: Notes,
    total_chunks: u32,
    now: u64,
    raw: &[u8],
    rolls: &[f64],
    store: &mut [u8],
    output: &mut [u8],
    rows: &mut [Note],
    records: &mut [ScheduledRow],
    places: &mut [u8],
) -> ForwardResult
    requires { CanOnForward (inbound side store.old output.old (seg_metas notes rows.old)
        (direction records.old places.old reverse)) rolls.now now }
    ensures { forward_exit (inbound result.side store.new output.new
        (seg_metas result.notes rows.new) (direction records.new places.new result.reverse))
        result.stop
        ≡ on_forward rolls.now total_chunks now raw.now
        (inbound side store.old output.old (seg_metas notes rows.old)
        (direction records.old places.old reverse)) }
{
    match arrival_of(raw) {
        None => ForwardResult {
            side,
            reverse,
            notes,
            stop: None,
        },
        Some((packet, valid)) => {
            let receiver = side.receiver;
            let late = gbn_duplicate(receiver, packet, valid);
            let mut ack = [0u8; HEADER_SIZE];
            let received = receiver.handle_packet_unchecked(
                store,
                packet,
                valid,
                Packet::payload(raw),
                output,
                &mut ack,
            );
            let after = received.receiver;
            let side = delivered(side, late, after);
            let side = absorb(side, total_chunks, now);
            let answer = received.answer;
            match answer {
                Ok(None) => ForwardResult {
                    side,
                    reverse,
                    notes,
                    stop: None,
                },
                Err(_) => ForwardResult {
                    side,
                    reverse,
                    notes,
                    stop: None,
                },
                Ok(Some(n)) => {
                    submit_ack(
                        side, reverse, notes, now, n, &mut ack, rolls, rows, records, places,
                    )
                }
            }
        }
    }
}

fn arrival_of(raw: &[u8]) -> Option<(Packet, bool)>
    ensures { result ≡ arrival_of (read_datagram raw.now) }
{
    match Packet::read_datagram(raw) {
        Ok(DatagramReading::Valid(packet)) => data_arrival(packet, true),
        Ok(DatagramReading::Corrupted(packet)) => data_arrival(packet, false),
        Err(_) => None,
    }
}

fn data_arrival(packet: Packet, valid: bool) -> Option<(Packet, bool)>
    ensures { result ≡ data_arrival packet.pkt_type packet valid }
{
    let pkt_type = packet.pkt_type;
    match pkt_type {
        PacketType::Data => Some((packet, valid)),
        PacketType::Ack => None,
        PacketType::Fin => None,
    }
}

// Whether a Go-Back-N receiver has delivered this Data before.
fn gbn_duplicate(receiver: Receiver, packet: Packet, valid: bool) -> bool
    ensures { result ≡ (valid && gbn_already_delivered receiver packet.seq_num) }
{
    if valid {
        return receiver.gbn_already_delivered(packet.seq_num);
    }
    false
}

// Counts Data, with the receiver after it.
fn delivered(mut side: ReceivingSide, late: bool, receiver: Receiver) -> ReceivingSide
    requires { (side.data_received + 1 < 2 ^ 64)
        × (side.duplicate_data + new_duplicates side.receiver late receiver < 2 ^ 64) }
    ensures { result ≡ delivered side late receiver }
{
    let before = side.receiver;
    let more = receiver
        .duplicate_count()
        .saturating_sub(before.duplicate_count())
        + rows::flag(late);
    side.receiver = receiver;
    side.data_received += 1;
    side.duplicate_data += more;
    side
}

// Notes the completion.
fn absorb(mut side: ReceivingSide, total_chunks: u32, now: u64) -> ReceivingSide
    ensures { result ≡ absorb total_chunks now side }
{
    if side.completed {
        return side;
    }
    let receiver = side.receiver;
    if receiver.base() < total_chunks {
        return side;
    }
    side.completed = true;
    side.completed_at = now;
    side
}

// An ACK to the reverse line.
fn submit_ack(
    mut side: ReceivingSide,
    reverse: Path,
    notes: Notes,
    now: u64,
    seq: u32,
    wire: &mut [u8],
    rolls: &[f64],
    rows: &mut [Note],
    records: &mut [ScheduledRow],
    places: &mut [u8],
) -> ForwardResult
    requires ack_sent_bound { side.ack_sent + 1 < 2 ^ 64 }
    requires count_in_bounds { (notes.count ≤ length rows.old) × ScheduledBelow (seg_metas notes rows.old) }
    requires can_carry { CanCarry (direction records.old places.old reverse) rolls.now now wire.old }
    ensures by_index { (store output : List ℕ)
        → forward_exit (inbound result.side store output (seg_metas result.notes rows.new)
        (direction records.new places.new result.reverse)) result.stop
        ≡ submit_ack rolls.now now seq wire.old
        (inbound side store output (seg_metas notes rows.old)
        (direction records.old places.old reverse)) }
    ensures wire_after { wire.new ≡ wire_after reverse rolls.now true wire.old }
{
    let receiver = side.receiver;
    let carried = reverse.carry_unchecked(rolls, true, records, places, now, wire);
    let reverse = carried.path;
    let answer = carried.answer;
    let notes = ack_scheduled(
        notes,
        rows,
        seq,
        receiver.is_cumulative(),
        any_copies(answer),
    );
    side.ack_sent += 1;
    ForwardResult {
        side,
        reverse,
        notes,
        stop: path::stop_of(answer),
    }
}

// Whether a copy was scheduled.
fn any_copies(answer: Result<(Deliveries, u16), Stop>) -> bool
    ensures { result ≡ any_copies answer }
{
    match answer {
        Ok((deliveries, _)) => 0 < copies_of(deliveries),
        Err(_) => false,
    }
}

// A dropped ACK is not scheduled.
fn ack_scheduled(
    notes: Notes,
    rows: &mut [Note],
    seq: u32,
    cumulative: bool,
    scheduled: bool,
) -> Notes
    requires { (notes.count ≤ length rows.old) × ScheduledBelow (seg_metas notes rows.old) }
    ensures { seg_metas result rows.new ≡ cond scheduled
        (mark_ack_scheduled (seg_metas notes rows.old) seq cumulative) (seg_metas notes rows.old) }
{
    if scheduled {
        return notes.mark_ack_scheduled_unchecked(rows, seq, cumulative);
    }
    notes
}
