// The forward submissions in channel order: the reference's `ForwardEvent`, in lent rows.
#![tactic(auto)]

ghost use Rattle.std.specs.Prelude.{◌≡◌, ◌<◌, length, set};
ghost use Rattle.events.specs.Events.{forward_event, row_of};

use rows::Row;
use schedule::Deliveries;

// A row: the number, whether it is sent again (0 or 1), how many copies, their delays in ms, their folds; 0 where there
// is no copy.
pub type Event = Row;

// The row of a packet and what the channel made of it.
pub fn event_row(seq: u32, retransmission: bool, deliveries: Deliveries, fold: u16) -> Event
    ensures { result ≡ row_of (forward_event seq retransmission deliveries fold) }
{
    let number = seq as u64;
    let again = rows::flag(retransmission);
    let f = fold as u64;
    match deliveries {
        Deliveries::Lost => [number, again, 0, 0, 0, 0, 0],
        Deliveries::One(d) => [number, again, 1, d, 0, f, 0],
        Deliveries::Two(d, e) => [number, again, 2, d, e, f, f],
    }
}

pub fn put_unchecked(rows: &mut [Event], at: usize, row: Event)
    requires { at < length rows.old }
    ensures { rows.new ≡ set rows.old at row }
{
    rows[at] = row;
}
