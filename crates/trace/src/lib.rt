// The forward events of a run as text in lent memory.
#![tactic(auto)]

ghost use Rattle.std.specs.Prelude.{◌≡◌, [], ◌∷◌, ◌++◌, map, ◌+◌, ◌≤◌, length, leb};
ghost use Rattle.events.specs.Events.{of_copies, event_of};
ghost use Rattle.rows.specs.Rows.{as_number, is_set};
ghost use Rattle.text.specs.Decimal.{digits};
ghost use Rattle.text.specs.Place.{written_at, place_exit, place};
ghost use Rattle.trace.specs.Text.{joined, columns, event_line, event_lines};
ghost use Rattle.trace.specs.Text.{events_text, write_events};

use events::Event;
use refusal::Refusal;

// The columns of a row.
const SEQ: usize = 0;

const AGAIN: usize = 1;

const COPIES: usize = 2;

const FIRST_DELAY: usize = 3;

const SECOND_DELAY: usize = 4;

const FIRST_FOLD: usize = 5;

const SECOND_FOLD: usize = 6;

// Writes the head line and a line for each of the first `count` rows.
pub fn write_events(rows: &[Event], count: usize, out: &mut [u8]) -> Result<usize, Refusal>
    ensures { place_exit out.new result ≡ write_events out.old count rows.now }
{
    if rows.len() < count {
        return Err(Refusal::State);
    }
    place_events(&rows[..count], out)
}

// Writes the head line and a line for each row.
fn place_events(rows: &[Event], out: &mut [u8]) -> Result<usize, Refusal>
    ensures { place_exit out.new result
        ≡ place out.old 0 (events_text (map event_of rows.now)) }
{
    let head = b"seq\tagain\tdelays\tfolds\n";
    let size = head.len();
    if out.len() < size {
        return Err(Refusal::Full);
    }
    let room = out.len() - size;
    let fit = lines_fit(rows, room);
    if !fit {
        return Err(Refusal::Full);
    }
    let at = text::write_word_unchecked(head, out, 0);
    let next = write_lines(rows, out, at);
    Ok(next)
}

// Whether the lines of all rows take at most so many bytes.
fn lines_fit(rows: &[Event], room: usize) -> bool
    ensures { result ≡ leb (length (event_lines (map event_of rows.now))) room }
{
    let mut left = room;
    for row in rows {
        let k = line_length(*row);
        if left < k {
            return false;
        }
        left -= k;
    }
    true
}

// report has this loop too, over lines of its own: shared, it would take the line's definition and writer as parameters.
fn write_lines(rows: &[Event], out: &mut [u8], at: usize) -> usize
    requires { at + length (event_lines (map event_of rows.now)) ≤ length out.old }
    ensures { (result ≡ at + length (event_lines (map event_of rows.now)))
        × (out.new ≡ written_at out.old at (event_lines (map event_of rows.now))) }
{
    let mut next = at;
    for row in rows {
        next = write_line(*row, out, next);
    }
    next
}

fn write_line(row: Event, out: &mut [u8], at: usize) -> usize
    requires { at + length (event_line (event_of row)) ≤ length out.old }
    ensures { (result ≡ at + length (event_line (event_of row)))
        × (out.new ≡ written_at out.old at (event_line (event_of row))) }
{
    let again = mark(row[AGAIN]);
    write_columns(
        row[SEQ],
        again,
        row[COPIES],
        row[FIRST_DELAY],
        row[SECOND_DELAY],
        row[FIRST_FOLD],
        row[SECOND_FOLD],
        out,
        at,
    )
}

fn write_columns(
    seq: u64,
    again: u64,
    copies: u64,
    first_delay: u64,
    second_delay: u64,
    first_fold: u64,
    second_fold: u64,
    out: &mut [u8],
    at: usize,
) -> usize
    requires { at + length (columns seq again (of_copies copies first_delay second_delay)
        (of_copies copies first_fold second_fold)) ≤ length out.old }
    ensures { (result ≡ at + length (columns seq again (of_copies copies first_delay second_delay)
        (of_copies copies first_fold second_fold)))
        × (out.new ≡ written_at out.old at
        (columns seq again (of_copies copies first_delay second_delay)
        (of_copies copies first_fold second_fold))) }
{
    let a = text::write_field_unchecked(seq, b'\t', out, at);
    let b = text::write_field_unchecked(again, b'\t', out, a);
    let c = write_joined(copies, first_delay, second_delay, b'\t', out, b);
    write_joined(copies, first_fold, second_fold, b'\n', out, c)
}

// Writes the numbers of at most two copies joined by a comma, none as a hyphen, and the letter after them.
fn write_joined(
    copies: u64,
    first: u64,
    second: u64,
    letter: u8,
    out: &mut [u8],
    at: usize,
) -> usize
    requires { at + length (joined (of_copies copies first second) ++ (letter ∷ [])) ≤ length out.old }
    ensures { (result ≡ at + length (joined (of_copies copies first second) ++ (letter ∷ [])))
        × (out.new
        ≡ written_at out.old at (joined (of_copies copies first second) ++ (letter ∷ []))) }
{
    if copies == 0 {
        let a = text::write_octet_unchecked(b'-', out, at);
        return text::write_octet_unchecked(letter, out, a);
    }
    if copies == 1 {
        return text::write_field_unchecked(first, letter, out, at);
    }
    let b = text::write_field_unchecked(first, b',', out, at);
    text::write_field_unchecked(second, letter, out, b)
}

// How many bytes a line takes.
fn line_length(row: Event) -> usize
    ensures { result ≡ length (event_line (event_of row)) }
{
    let again = mark(row[AGAIN]);
    let a = number_length(row[SEQ]);
    let b = number_length(again);
    let c = joined_length(row[COPIES], row[FIRST_DELAY], row[SECOND_DELAY]);
    let d = joined_length(row[COPIES], row[FIRST_FOLD], row[SECOND_FOLD]);
    a + b + c + d + 4
}

fn joined_length(copies: u64, first: u64, second: u64) -> usize
    ensures { (result ≡ length (joined (of_copies copies first second))) × (result ≤ 41) }
{
    if copies == 0 {
        return 1;
    }
    let a = number_length(first);
    if copies == 1 {
        return a;
    }
    let b = number_length(second);
    a + 1 + b
}

fn number_length(n: u64) -> usize
    ensures { (result ≡ length (digits n)) × (result ≤ 20) }
{
    text::decimal_length(n)
}

// 1 for a packet sent again, as it lies in a row.
fn mark(again: u64) -> u64
    ensures { result ≡ as_number (is_set again) }
{
    if again == 1 { 1 } else { 0 }
}
