// The page for the job bag: the forward events of a run in columns, in lent memory.
#![tactic(auto)]

ghost use Rattle.std.specs.Prelude.{◌≡◌, false, cond, [], map, ◌+◌, ◌≤◌, length, ltb};
ghost use Rattle.refusal.specs.Order.{verdict};
ghost use Rattle.rows.specs.Rows.{is_set};
ghost use Rattle.events.specs.Events.{event_of};
ghost use Rattle.lent_events.specs.Checks.{row_checks};
ghost use Rattle.text.specs.Decimal.{digits, right_in, left_in};
ghost use Rattle.text.specs.Place.{written_at, place_exit, place};
ghost use Rattle.report.specs.Page.{sent_width, copy_width, sent_word, event_line, event_lines};
ghost use Rattle.report.specs.Page.{copy_count, repeat_count, last_line, page, write_report};
ghost use Rattle.refusal.specs.Order.{passed};

use events::Event;
use lent_events::{AGAIN, COPIES, FIRST_DELAY, FIRST_FOLD, SECOND_DELAY, SECOND_FOLD, SEQ};
use refusal::Refusal;

// Bytes of a line: 72 columns and a line feed.
const LINE_SIZE: usize = 73;

// The widths of the columns.
const SEQ_WIDTH: usize = 10;

const COPY_WIDTH: usize = 13;

const TOTAL_WIDTH: usize = 24;

// Writes the page of the first `count` rows: a head line, a line for each event, a line of totals.
pub fn write_report(rows: &[Event], count: usize, out: &mut [u8]) -> Result<usize, Refusal>
    ensures { place_exit out.new result ≡ write_report out.old count rows.now }
{
    lent_events::check_events(rows, count)?;
    place_page(&rows[..count], out)
}

// Writes the page of rows that are events.
fn place_page(rows: &[Event], out: &mut [u8]) -> Result<usize, Refusal>
    requires { verdict (row_checks false rows.now) ≡ passed }
    ensures { place_exit out.new result
        ≡ place out.old 0 (page (map event_of rows.now)) }
{
    let lines = out.len() / LINE_SIZE;
    if lines < 2 {
        return Err(Refusal::Full);
    }
    if lines - 2 < rows.len() {
        return Err(Refusal::Full);
    }
    let head = b"       seqsent           delay1       delay2        fold1        fold2  \n";
    let a = text::write_word_unchecked(head, out, 0);
    let b = write_lines(rows, out, a);
    let next = write_totals(rows, out, b);
    Ok(next)
}

// trace has this loop too, over lines of its own: shared, it would take the line's definition and writer as parameters.
fn write_lines(rows: &[Event], out: &mut [u8], at: usize) -> usize
    requires { at + length (event_lines (map event_of rows.now)) ≤ length out.old }
    ensures { (result ≡ at + length (event_lines (map event_of rows.now)))
        × (out.new ≡ written_at out.old at (event_lines (map event_of rows.now))) }
{
    let mut next = at;
    for row in rows {
        next = write_line(*row, out, next);
    }
    next
}

fn write_line(row: Event, out: &mut [u8], at: usize) -> usize
    requires { at + length (event_line (event_of row)) ≤ length out.old }
    ensures { (result ≡ at + length (event_line (event_of row)))
        × (out.new ≡ written_at out.old at (event_line (event_of row))) }
{
    let copies = row[COPIES];
    let a = text::write_right_unchecked(row[SEQ], SEQ_WIDTH, out, at);
    let b = write_sent(row[AGAIN], out, a);
    let c = write_copy(copies, 0, row[FIRST_DELAY], out, b);
    let d = write_copy(copies, 1, row[SECOND_DELAY], out, c);
    let e = write_copy(copies, 0, row[FIRST_FOLD], out, d);
    let f = write_copy(copies, 1, row[SECOND_FOLD], out, e);
    text::write_word_unchecked(b"  \n", out, f)
}

// Writes whether a packet is sent first or again, left in its column.
fn write_sent(again: u64, out: &mut [u8], at: usize) -> usize
    requires { at + length (left_in sent_width (sent_word (is_set again))) ≤ length out.old }
    ensures { (result ≡ at + length (left_in sent_width (sent_word (is_set again))))
        × (out.new ≡ written_at out.old at (left_in sent_width (sent_word (is_set again)))) }
{
    if again == 1 {
        return text::write_word_unchecked(b"again   ", out, at);
    }
    text::write_word_unchecked(b"first   ", out, at)
}

// Writes the number of a copy, counted from 0, right in its column; blanks where there is no such copy.
fn write_copy(copies: u64, index: u64, n: u64, out: &mut [u8], at: usize) -> usize
    requires { at + length (right_in copy_width (cond (ltb index copies) (digits n) [])) ≤ length out.old }
    ensures { (result ≡ at + length (right_in copy_width (cond (ltb index copies) (digits n) [])))
        × (out.new
        ≡ written_at out.old at (right_in copy_width (cond (ltb index copies) (digits n) []))) }
{
    if copies <= index {
        return text::write_word_unchecked(b"             ", out, at);
    }
    text::write_right_unchecked(n, COPY_WIDTH, out, at)
}

fn write_totals(rows: &[Event], out: &mut [u8], at: usize) -> usize
    requires { at + length (last_line (map event_of rows.now)) ≤ length out.old }
    ensures { (result ≡ at + length (last_line (map event_of rows.now)))
        × (out.new ≡ written_at out.old at (last_line (map event_of rows.now))) }
{
    let copies = count_copies(rows);
    let repeats = count_repeats(rows);
    let a = text::write_right_unchecked(rows.len() as u64, TOTAL_WIDTH, out, at);
    let b = text::write_right_unchecked(copies, TOTAL_WIDTH, out, a);
    let c = text::write_right_unchecked(repeats, TOTAL_WIDTH, out, b);
    text::write_octet_unchecked(b'\n', out, c)
}

// A row has numbers of two copies at most.
fn count_copies(rows: &[Event]) -> u64
    ensures { result ≡ copy_count (map event_of rows.now) }
{
    let mut sum: u64 = 0;
    for row in rows {
        sum += row[COPIES].min(2);
    }
    sum
}

fn count_repeats(rows: &[Event]) -> u64
    ensures { result ≡ repeat_count (map event_of rows.now) }
{
    rows.iter().filter(|row| row[AGAIN] == 1).count() as u64
}
