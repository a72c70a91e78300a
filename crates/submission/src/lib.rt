// A packet to the forward line: the reference's `submit`, with the note on its segment, its event and its timer.
#![tactic(auto)]

ghost use Rattle.std.specs.Prelude.{◌≡◌, ◌≤◌, ◌<◌, ltb, length};
ghost use Rattle.path.specs.Direction.{direction};
ghost use Rattle.path.specs.Path.{wire_after};
ghost use Rattle.notes.specs.Notes.{seg_metas};
ghost use Rattle.multi_timer.specs.MultiTimer.{timers_exit};
ghost use Rattle.submission.specs.Submission.{outgoing, note_before, note_after, submit_exit, submit, CanSubmit};

use clock::{Clock, Timing};
use events::Event;
use notes::{Note, Notes};
use path::{Path, Stop};
use schedule::{Deliveries, ScheduledRow, copies_of};

// What a submission changes besides the lent slices.
#[derive(Clone, Copy)]
pub struct Outbound {
    pub forward: Path,
    // How many events are written.
    pub events: usize,
    pub notes: Notes,
    pub clock: Clock,
}

#[derive(Clone, Copy)]
pub struct SubmitResult {
    pub outbound: Outbound,
    pub stop: Option<Stop>,
}

// A datagram of number `seq`, left with the bytes of its copies; `rto` is the current one, `oldest` the lowest
// outstanding number.
pub fn submit_unchecked(
    outbound: Outbound,
    timing: Timing,
    now: u64,
    rto: u64,
    oldest: Option<u32>,
    seq: u32,
    retransmission: bool,
    wire: &mut [u8],
    rolls: &[f64],
    rows: &mut [Note],
    events: &mut [Event],
    records: &mut [ScheduledRow],
    places: &mut [u8],
    keys: &mut [u32],
    deadlines: &mut [u64],
) -> SubmitResult
    requires { CanSubmit timing rolls.now
        (record { time = now; seq = seq; rto = rto; retransmission = retransmission; oldest = oldest }) wire.old
        (outgoing (direction records.old places.old outbound.forward) (seg_metas outbound.notes rows.old)
        outbound.events events.old (timers_exit outbound.clock keys.old deadlines.old)) }
    ensures stop_after { submit_exit (outgoing (direction records.new places.new result.outbound.forward)
        (seg_metas result.outbound.notes rows.new) result.outbound.events events.new
        (timers_exit result.outbound.clock keys.new deadlines.new)) result.stop
        ≡ submit timing rolls.now
        (record { time = now; seq = seq; rto = rto; retransmission = retransmission; oldest = oldest })
        wire.old
        (outgoing (direction records.old places.old outbound.forward)
        (seg_metas outbound.notes rows.old) outbound.events events.old
        (timers_exit outbound.clock keys.old deadlines.old)) }
    ensures wire_after { wire.new ≡ wire_after outbound.forward rolls.now
        (ltb outbound.events (length events.old)) wire.old }
{
    let at = outbound.events;
    let notes = outbound.notes;
    let notes = note_before(notes, rows, seq, retransmission, now, rto);
    let forward = outbound.forward;
    let carried = forward.carry_unchecked(rolls, at < events.len(), records, places, now, wire);
    let forward = carried.path;
    let answer = carried.answer;
    let clock = outbound.clock;
    match answer {
        Err(stop) => SubmitResult {
            outbound: Outbound {
                forward,
                events: at,
                notes,
                clock,
            },
            stop: Some(stop),
        },
        Ok((deliveries, fold)) => {
            note_after(notes, rows, seq, retransmission, deliveries);
            events::put_unchecked(
                events,
                at,
                events::event_row(seq, retransmission, deliveries, fold),
            );
            let clock = clock.arm_after_submit_unchecked(
                timing,
                rto,
                notes,
                rows,
                keys,
                deadlines,
                now,
                seq,
                retransmission,
                oldest,
            );
            SubmitResult {
                outbound: Outbound {
                    forward,
                    events: at + 1,
                    notes,
                    clock,
                },
                stop: None,
            }
        }
    }
}

// What is noted of a packet before it goes to the channel.
fn note_before(
    notes: Notes,
    rows: &mut [Note],
    seq: u32,
    retransmission: bool,
    now: u64,
    rto: u64,
) -> Notes
    requires { (notes.count ≤ length rows.old) × (seq < length rows.old) }
    ensures { seg_metas result rows.new
        ≡ note_before (seg_metas notes rows.old) seq retransmission now rto }
{
    if retransmission {
        notes.sent_again_unchecked(rows, seq, now, rto);
        return notes;
    }
    notes.sent_unchecked(rows, seq, now, rto)
}

// Whether a segment's first datagram was dropped.
fn note_after(
    notes: Notes,
    rows: &mut [Note],
    seq: u32,
    retransmission: bool,
    deliveries: Deliveries,
)
    requires { notes.count ≤ length rows.old }
    ensures { seg_metas notes rows.new
        ≡ note_after (seg_metas notes rows.old) seq retransmission deliveries }
{
    if retransmission {
        return;
    }
    notes.set_dropped_unchecked(rows, seq, copies_of(deliveries) == 0);
}
