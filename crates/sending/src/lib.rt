// What a run sends: the reference's `pump_sends`, new chunks as the window has space, and `retransmit`, a packet again.
#![tactic(auto)]

ghost use Rattle.std.specs.Prelude.{◌≡◌, true, false, map, length, ◌+◌, ◌^◌, ◌<◌};
ghost use Rattle.bounds.specs.Bounds.{max_datagram};
ghost use Rattle.protocol.specs.Runs.{up_from};
ghost use Rattle.window.specs.State.{numbers_broken};
ghost use Rattle.window.specs.Slots.{datagram_for};
ghost use Rattle.chunks.specs.Chunks.{chunks_of};
ghost use Rattle.path.specs.Direction.{direction};
ghost use Rattle.rows.specs.Rows.{as_number};
ghost use Rattle.notes.specs.Notes.{seg_metas};
ghost use Rattle.multi_timer.specs.MultiTimer.{timers_exit};
ghost use Rattle.session.specs.Sending.{sender_end, window_of, window_end, oldest_outstanding};
ghost use Rattle.submission.specs.Submission.{outgoing};
ghost use Rattle.sending.specs.Sending.{pump_state, pump_exit, can_pump, send_one, pump_sends};
ghost use Rattle.sending.specs.Good.{CanPump};
ghost use Rattle.sending.specs.Retransmit.{counted_again, retransmit_exit, retransmit, CanRetransmit};
ghost use Rattle.sending.specs.Retransmit.{ceiling_met, exhausted, retransmit_all, CanRetransmitAll};

use bounds::{HEADER_SIZE, MAX_DATAGRAM_SIZE};
use clock::Timing;
use events::Event;
use notes::Note;
use path::Stop;
use schedule::ScheduledRow;
use session::Sender;
use submission::Outbound;

#[derive(Clone, Copy)]
pub struct PumpResult {
    pub sender: Sender,
    pub outbound: Outbound,
    pub progress: bool,
    pub stop: Option<Stop>,
}

// What was sent again so far, and whether the run is exhausted.
#[derive(Clone, Copy)]
pub struct Resends {
    pub retx_submitted: u64,
    pub premature: u64,
    pub exhausted: bool,
}

#[derive(Clone, Copy)]
pub struct RetransmitResult {
    pub resends: Resends,
    pub outbound: Outbound,
    pub stop: Option<Stop>,
}

// Whether the window has space and a chunk is left.
pub fn can_pump_unchecked(sender: Sender, total_chunks: u32) -> bool
    requires { numbers_broken (window_of sender) ≡ false }
    ensures { result ≡ can_pump total_chunks sender }
{
    if sender.can_send_unchecked() {
        return sender.next_seq_num_unchecked() < total_chunks;
    }
    false
}

// The next chunk of the file, by way of a lent buffer.
fn send_one(
    sender: Sender,
    outbound: Outbound,
    timing: Timing,
    rto: u64,
    total_chunks: u32,
    chunk_size: usize,
    now: u64,
    file: &[u8],
    rolls: &[f64],
    store: &mut [u8],
    rows: &mut [Note],
    events: &mut [Event],
    records: &mut [ScheduledRow],
    places: &mut [u8],
    keys: &mut [u32],
    deadlines: &mut [u64],
    wire: &mut [u8],
) -> PumpResult
    requires can_pump { CanPump timing rolls.now chunk_size file.now total_chunks rto now
        (pump_state (sender_end sender store.old)
        (outgoing (direction records.old places.old outbound.forward) (seg_metas outbound.notes rows.old)
        outbound.events events.old (timers_exit outbound.clock keys.old deadlines.old))) }
    requires sender_value { (can_pump total_chunks sender ≡ true) × (length wire.old ≡ max_datagram) }
    ensures { pump_exit (pump_state (sender_end result.sender store.new)
        (outgoing (direction records.new places.new result.outbound.forward)
        (seg_metas result.outbound.notes rows.new) result.outbound.events events.new
        (timers_exit result.outbound.clock keys.new deadlines.new))) result.progress result.stop
        ≡ send_one timing rolls.now (chunks_of chunk_size file.now) rto now
        (pump_state (sender_end sender store.old)
        (outgoing (direction records.old places.old outbound.forward)
        (seg_metas outbound.notes rows.old) outbound.events events.old
        (timers_exit outbound.clock keys.old deadlines.old))) }
{
    let seq = sender.next_seq_num_unchecked();
    let payload = chunks::chunk_unchecked(file, chunk_size, seq);
    let len = HEADER_SIZE + payload.len();
    let sender = sender.send_chunk_unchecked(store, payload, wire);
    let oldest = sender.oldest_outstanding_unchecked();
    let submitted = submission::submit_unchecked(
        outbound,
        timing,
        now,
        rto,
        oldest,
        seq,
        false,
        &mut wire[..len],
        rolls,
        rows,
        events,
        records,
        places,
        keys,
        deadlines,
    );
    PumpResult {
        sender,
        outbound: submitted.outbound,
        progress: true,
        stop: submitted.stop,
    }
}

// The chunks that the window has space for.
pub fn pump_sends_unchecked(
    mut sender: Sender,
    mut outbound: Outbound,
    timing: Timing,
    rto: u64,
    total_chunks: u32,
    chunk_size: usize,
    now: u64,
    file: &[u8],
    rolls: &[f64],
    store: &mut [u8],
    rows: &mut [Note],
    events: &mut [Event],
    records: &mut [ScheduledRow],
    places: &mut [u8],
    keys: &mut [u32],
    deadlines: &mut [u64],
) -> PumpResult
    requires { CanPump timing rolls.now chunk_size file.now total_chunks rto now
        (pump_state (sender_end sender store.old)
        (outgoing (direction records.old places.old outbound.forward) (seg_metas outbound.notes rows.old)
        outbound.events events.old (timers_exit outbound.clock keys.old deadlines.old))) }
    ensures { pump_exit (pump_state (sender_end result.sender store.new)
        (outgoing (direction records.new places.new result.outbound.forward)
        (seg_metas result.outbound.notes rows.new) result.outbound.events events.new
        (timers_exit result.outbound.clock keys.new deadlines.new))) result.progress result.stop
        ≡ pump_sends timing rolls.now (chunks_of chunk_size file.now) rto now
        (pump_state (sender_end sender store.old)
        (outgoing (direction records.old places.old outbound.forward)
        (seg_metas outbound.notes rows.old) outbound.events events.old
        (timers_exit outbound.clock keys.old deadlines.old))) }
{
    let mut progress = false;
    let mut wire = [0u8; MAX_DATAGRAM_SIZE];
    while can_pump_unchecked(sender, total_chunks) {
        let sent = send_one(
            sender,
            outbound,
            timing,
            rto,
            total_chunks,
            chunk_size,
            now,
            file,
            rolls,
            store,
            rows,
            events,
            records,
            places,
            keys,
            deadlines,
            &mut wire,
        );
        if !path::is_going(sent.stop) {
            return sent;
        }
        sender = sent.sender;
        outbound = sent.outbound;
        progress = true;
    }
    PumpResult {
        sender,
        outbound,
        progress,
        stop: None,
    }
}

// An outstanding number's datagram again, as its slot has it.
pub fn retransmit_unchecked(
    sender: Sender,
    resends: Resends,
    outbound: Outbound,
    timing: Timing,
    rto: u64,
    now: u64,
    seq: u32,
    store: &[u8],
    rolls: &[f64],
    rows: &mut [Note],
    events: &mut [Event],
    records: &mut [ScheduledRow],
    places: &mut [u8],
    keys: &mut [u32],
    deadlines: &mut [u64],
) -> RetransmitResult
    requires { CanRetransmit timing rolls.now rto now (sender_end sender store.now) seq resends
        (outgoing (direction records.old places.old outbound.forward) (seg_metas outbound.notes rows.old)
        outbound.events events.old (timers_exit outbound.clock keys.old deadlines.old)) }
    ensures { retransmit_exit result.resends
        (outgoing (direction records.new places.new result.outbound.forward)
        (seg_metas result.outbound.notes rows.new) result.outbound.events events.new
        (timers_exit result.outbound.clock keys.new deadlines.new)) result.stop
        ≡ retransmit timing rolls.now rto now (oldest_outstanding sender) seq
        (datagram_for (window_end (sender_end sender store.now)) seq) resends
        (outgoing (direction records.old places.old outbound.forward)
        (seg_metas outbound.notes rows.old) outbound.events events.old
        (timers_exit outbound.clock keys.old deadlines.old)) }
{
    let oldest = sender.oldest_outstanding_unchecked();
    let notes = outbound.notes;
    let premature = notes.is_premature_unchecked(rows, seq);
    let resends = counted_again(resends, premature);
    let mut wire = [0u8; MAX_DATAGRAM_SIZE];
    let len = sender.write_datagram_unchecked(store, seq, &mut wire);
    let submitted = submission::submit_unchecked(
        outbound,
        timing,
        now,
        rto,
        oldest,
        seq,
        true,
        &mut wire[..len],
        rolls,
        rows,
        events,
        records,
        places,
        keys,
        deadlines,
    );
    RetransmitResult {
        resends,
        outbound: submitted.outbound,
        stop: submitted.stop,
    }
}

fn counted_again(resends: Resends, premature: bool) -> Resends
    requires { (resends.retx_submitted + 1 < 2 ^ 64) × (resends.premature + as_number premature < 2 ^ 64) }
    ensures { result ≡ counted_again resends premature }
{
    Resends {
        retx_submitted: resends.retx_submitted + 1,
        premature: resends.premature + rows::flag(premature),
        ..resends
    }
}

// Whether as many packets were sent again as a run may send.
pub fn ceiling_met(resends: Resends, max_retransmissions: u64) -> bool
    ensures { result ≡ ceiling_met max_retransmissions resends }
{
    max_retransmissions <= resends.retx_submitted
}

pub fn exhausted(resends: Resends) -> Resends
    ensures { result ≡ exhausted resends }
{
    Resends {
        exhausted: true,
        ..resends
    }
}

// So many outstanding numbers from `first` on, until the ceiling is met or a packet ends the run.
pub fn retransmit_from_unchecked(
    sender: Sender,
    mut resends: Resends,
    mut outbound: Outbound,
    timing: Timing,
    rto: u64,
    max_retransmissions: u64,
    now: u64,
    first: u32,
    count: u32,
    store: &[u8],
    rolls: &[f64],
    rows: &mut [Note],
    events: &mut [Event],
    records: &mut [ScheduledRow],
    places: &mut [u8],
    keys: &mut [u32],
    deadlines: &mut [u64],
) -> RetransmitResult
    requires { CanRetransmitAll timing rolls.now rto now (sender_end sender store.now) first count resends
        (outgoing (direction records.old places.old outbound.forward) (seg_metas outbound.notes rows.old)
        outbound.events events.old (timers_exit outbound.clock keys.old deadlines.old)) }
    ensures { retransmit_exit result.resends
        (outgoing (direction records.new places.new result.outbound.forward)
        (seg_metas result.outbound.notes rows.new) result.outbound.events events.new
        (timers_exit result.outbound.clock keys.new deadlines.new)) result.stop
        ≡ retransmit_all max_retransmissions timing rolls.now rto now (oldest_outstanding sender)
        (map (datagram_for (window_end (sender_end sender store.now))) (up_from first count)) resends
        (outgoing (direction records.old places.old outbound.forward)
        (seg_metas outbound.notes rows.old) outbound.events events.old
        (timers_exit outbound.clock keys.old deadlines.old)) }
{
    for seq in first..first + count {
        if ceiling_met(resends, max_retransmissions) {
            return RetransmitResult {
                resends: exhausted(resends),
                outbound,
                stop: None,
            };
        }
        let resent = retransmit_unchecked(
            sender, resends, outbound, timing, rto, now, seq, store, rolls, rows, events, records,
            places, keys, deadlines,
        );
        if !path::is_going(resent.stop) {
            return resent;
        }
        resends = resent.resends;
        outbound = resent.outbound;
    }
    RetransmitResult {
        resends,
        outbound,
        stop: None,
    }
}
