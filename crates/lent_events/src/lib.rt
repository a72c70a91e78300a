// Rows of numbers that a caller lends as events: whether they are, and whether their delays are within bounds.
#![tactic(auto)]

ghost use Rattle.std.specs.Prelude.{◌≡◌, false};
ghost use Rattle.events.specs.Events.{of_copies};
ghost use Rattle.refusal.specs.Order.{verdict};
ghost use Rattle.lent_events.specs.Checks.{any_above, is_no_event, is_late, row_checks, event_checks};

use events::Event;
use refusal::Refusal;

// The largest number of 32 bits; copies at most; the largest sum of bytes in 16 bits.
const MAX_SEQ_NUM: u64 = 4_294_967_295;

const MAX_COPIES: u64 = 2;

const MAX_FOLD: u64 = 65_535;

// The columns of a row.
pub const SEQ: usize = 0;

pub const AGAIN: usize = 1;

pub const COPIES: usize = 2;

pub const FIRST_DELAY: usize = 3;

pub const SECOND_DELAY: usize = 4;

pub const FIRST_FOLD: usize = 5;

pub const SECOND_FOLD: usize = 6;

// Checks 9 and 10 of the first `count` rows.
pub fn check_events(rows: &[Event], count: usize) -> Result<(), Refusal>
    ensures { result ≡ verdict (event_checks count rows.now) }
{
    if rows.len() < count {
        return Err(Refusal::State);
    }
    check_rows(&rows[..count])
}

fn check_rows(rows: &[Event]) -> Result<(), Refusal>
    ensures { result ≡ verdict (row_checks false rows.now) }
{
    let mut late = false;
    for row in rows {
        if is_no_event(*row) {
            return Err(Refusal::State);
        }
        if is_late(*row) {
            late = true;
        }
    }
    if late {
        return Err(Refusal::Time);
    }
    Ok(())
}

#[tactic(auto, unfolding(crate::specs::Checks::is_no_event, refusal::specs::Clauses::any_of))]
fn is_no_event(row: Event) -> bool
    ensures { result ≡ is_no_event row }
{
    MAX_SEQ_NUM < row[SEQ]
        || 1 < row[AGAIN]
        || MAX_COPIES < row[COPIES]
        || any_above(MAX_FOLD, row[COPIES], row[FIRST_FOLD], row[SECOND_FOLD])
}

fn is_late(row: Event) -> bool
    ensures { result ≡ is_late row }
{
    any_above(
        bounds::MAX_DELIVERY_DELAY,
        row[COPIES],
        row[FIRST_DELAY],
        row[SECOND_DELAY],
    )
}

// Whether a number of a row's copies is above max; past the copies there are none.
fn any_above(max: u64, copies: u64, first: u64, second: u64) -> bool
    ensures { result ≡ any_above max (of_copies copies first second) }
{
    if copies == 0 {
        return false;
    }
    if max < first {
        return true;
    }
    if copies == 1 {
        return false;
    }
    max < second
}
