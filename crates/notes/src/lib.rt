// What the driver notes of each segment: the reference's `SegMeta` in lent rows, one for each chunk.
#![tactic(auto)]

ghost use Rattle.std.specs.Prelude.{◌≡◌, [], ◌≤◌, ◌<◌, length, get_or, set};
ghost use Rattle.bounds.specs.Bounds.{max_duration};
ghost use Rattle.notes.specs.Notes.{seg_metas, new_notes, sent, sent_again, set_dropped, mark_ack_scheduled};
ghost use Rattle.notes.specs.Notes.{marked_row};
ghost use Rattle.notes.specs.Notes.{marked_below, marked_to, AllMarked, ScheduledBelow, is_premature, rto_at_send};
ghost use Rattle.notes.specs.Notes.{expiry, sample_exit, take_sample, Timely};
ghost use Rattle.notes.specs.SegMeta.{note_row, seg_meta, with_sending, with_dropped, with_ack_scheduled};
ghost use Rattle.notes.specs.SegMeta.{with_rtt_sampled};

use rows::Row;

// The columns of a row; the last four hold 0 or 1.
const ORIGINAL_SEND_AT: usize = 0;

const LAST_SEND_AT: usize = 1;

const RTO_AT_SEND: usize = 2;

const EVER_RETRANSMITTED: usize = 3;

const ORIGINAL_DROPPED: usize = 4;

const ACK_SCHEDULED: usize = 5;

const RTT_SAMPLED: usize = 6;

pub type Note = Row;

// The first `count` rows are in use. Below `scheduled` every row has ack_scheduled set, so that a cumulative ACK need
// not walk them again.
#[derive(Clone, Copy)]
pub struct Notes {
    pub count: usize,
    pub scheduled: usize,
}

impl Notes {
    pub fn new(rows: &mut [Note]) -> Notes
        ensures { seg_metas result rows.new ≡ new_notes rows.old }
    {
        rows::clear_rows(rows);
        Notes {
            count: 0,
            scheduled: 0,
        }
    }

    // A segment is sent for the first time.
    pub fn sent_unchecked(self, rows: &mut [Note], seq: u32, now: u64, rto: u64) -> Notes
        requires { seq < length rows.old }
        ensures { seg_metas result rows.new ≡ sent (seg_metas self rows.old) seq now rto }
    {
        let at = seq as usize;
        if at != self.count {
            return self;
        }
        rows[at] = [now, now, rto, 0, 0, 0, 0];
        let mut notes = self;
        notes.count = at + 1;
        notes
    }

    // A segment is sent again.
    pub fn sent_again_unchecked(self, rows: &mut [Note], seq: u32, now: u64, rto: u64)
        requires { self.count ≤ length rows.old }
        ensures { seg_metas self rows.new ≡ sent_again (seg_metas self rows.old) seq now rto }
    {
        let at = seq as usize;
        if self.count <= at {
            return;
        }
        let note = rows[at];
        rows[at] = with_sending(note, now, rto);
    }

    // Whether the channel dropped a segment's first datagram.
    pub fn set_dropped_unchecked(self, rows: &mut [Note], seq: u32, dropped: bool)
        requires { self.count ≤ length rows.old }
        ensures { seg_metas self rows.new
            ≡ set_dropped (seg_metas self rows.old) seq dropped }
    {
        let at = seq as usize;
        if self.count <= at {
            return;
        }
        let note = rows[at];
        rows[at] = with_dropped(note, dropped);
    }

    // An ACK of this number went into the reverse schedule; a cumulative one covers all numbers up to it.
    pub fn mark_ack_scheduled_unchecked(
        self,
        rows: &mut [Note],
        seq: u32,
        cumulative: bool,
    ) -> Notes
        requires { (self.count ≤ length rows.old) × ScheduledBelow (seg_metas self rows.old) }
        ensures { seg_metas result rows.new
            ≡ mark_ack_scheduled (seg_metas self rows.old) seq cumulative }
    {
        let at = seq as usize;
        if cumulative {
            let end = (at + 1).min(self.count);
            return self.mark_to(rows, end);
        }
        if self.count <= at {
            return self;
        }
        mark(rows, at);
        self
    }

    fn mark_to(self, rows: &mut [Note], end: usize) -> Notes
        requires { (end ≤ length rows.old) × ScheduledBelow (seg_metas self rows.old) }
        ensures { seg_metas result rows.new ≡ marked_to (seg_metas self rows.old) end }
    {
        let from = self.scheduled;
        if end <= from {
            return self;
        }
        mark_rows(rows, from, end);
        let mut notes = self;
        notes.scheduled = end;
        notes
    }

    // Whether an ACK of a segment is under way whose first datagram was not dropped.
    pub fn is_premature_unchecked(self, rows: &[Note], seq: u32) -> bool
        requires { self.count ≤ length rows.now }
        ensures { result ≡ is_premature (seg_metas self rows.now) seq }
    {
        let at = seq as usize;
        if self.count <= at {
            return false;
        }
        let note = rows[at];
        if note[ORIGINAL_DROPPED] == 1 {
            return false;
        }
        note[ACK_SCHEDULED] == 1
    }

    // The RTO of a segment's last sending; `current` if the segment isn't noted.
    pub fn rto_at_send_unchecked(self, rows: &[Note], seq: u32, current: u64) -> u64
        requires { self.count ≤ length rows.now }
        ensures { result ≡ rto_at_send (seg_metas self rows.now) seq current }
    {
        let at = seq as usize;
        if self.count <= at {
            return current;
        }
        let note = rows[at];
        note[RTO_AT_SEND]
    }

    pub fn expiry_unchecked(self, rows: &[Note], seq: u32) -> Option<u64>
        requires { Timely (seg_metas self rows.now) max_duration }
        ensures { result ≡ expiry (seg_metas self rows.now) seq }
    {
        let at = seq as usize;
        if self.count <= at {
            return None;
        }
        let note = rows[at];
        Some(note[LAST_SEND_AT] + note[RTO_AT_SEND])
    }

    // The sample of a segment that has given none yet.
    pub fn take_sample_unchecked(self, rows: &mut [Note], seq: u32, now: u64) -> Option<(u64, bool)>
        requires { self.count ≤ length rows.old }
        ensures { sample_exit (seg_metas self rows.new) result
            ≡ take_sample (seg_metas self rows.old) seq now }
    {
        let at = seq as usize;
        if self.count <= at {
            return None;
        }
        let note = rows[at];
        if note[RTT_SAMPLED] == 1 {
            return None;
        }
        rows[at] = with_rtt_sampled(note);
        Some((
            now.saturating_sub(note[ORIGINAL_SEND_AT]),
            note[EVER_RETRANSMITTED] == 1,
        ))
    }
}

fn with_sending(note: Note, now: u64, rto: u64) -> Note
    ensures { result ≡ note_row (with_sending now rto (seg_meta note)) }
{
    [
        note[ORIGINAL_SEND_AT],
        now,
        rto,
        1,
        note[ORIGINAL_DROPPED],
        note[ACK_SCHEDULED],
        note[RTT_SAMPLED],
    ]
}

fn with_dropped(note: Note, dropped: bool) -> Note
    ensures { result ≡ note_row (with_dropped dropped (seg_meta note)) }
{
    [
        note[ORIGINAL_SEND_AT],
        note[LAST_SEND_AT],
        note[RTO_AT_SEND],
        note[EVER_RETRANSMITTED],
        rows::flag(dropped),
        note[ACK_SCHEDULED],
        note[RTT_SAMPLED],
    ]
}

fn with_ack_scheduled(note: Note) -> Note
    ensures { result ≡ note_row (with_ack_scheduled (seg_meta note)) }
{
    [
        note[ORIGINAL_SEND_AT],
        note[LAST_SEND_AT],
        note[RTO_AT_SEND],
        note[EVER_RETRANSMITTED],
        note[ORIGINAL_DROPPED],
        1,
        note[RTT_SAMPLED],
    ]
}

fn with_rtt_sampled(note: Note) -> Note
    ensures { result ≡ note_row (with_rtt_sampled (seg_meta note)) }
{
    [
        note[ORIGINAL_SEND_AT],
        note[LAST_SEND_AT],
        note[RTO_AT_SEND],
        note[EVER_RETRANSMITTED],
        note[ORIGINAL_DROPPED],
        note[ACK_SCHEDULED],
        1,
    ]
}

fn mark(rows: &mut [Note], at: usize)
    requires { at < length rows.old }
    ensures { rows.new ≡ set rows.old at (marked_row (get_or rows.old at [])) }
{
    let note = rows[at];
    rows[at] = with_ack_scheduled(note);
}

// Sets ack_scheduled of the rows from `from` up to `end`; those below have it.
fn mark_rows(rows: &mut [Note], from: usize, end: usize)
    requires { (from ≤ end) × (end ≤ length rows.old) × AllMarked from rows.old }
    ensures { rows.new ≡ marked_below end rows.old }
{
    for i in from..end {
        mark(rows, i);
    }
}
