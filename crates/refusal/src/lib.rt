// Why a call is turned away, for every layer. A new refusal has six places: its case in `Refusal`, its arms in
// `number`, `word` and, where it has values, `values`; its line of `entry_of` in specs/Refusal.antt; its place in
// `order` in specs/Order.antt; its line of `in_order_lem` in proofs/Laws.antt.
#![tactic(auto)]

ghost use Rattle.std.specs.Prelude.{◌≡◌, Some};
ghost use Rattle.refusal.specs.Refusal.{entry_of, values_of};
ghost use Rattle.refusal.specs.Order.{held_checks, verdict};

use std::error::Error;
use std::fmt;

// A case for each line of the table, with the values that its line names.
#[derive(Clone, Copy, Debug, PartialEq, Eq)]
pub enum Refusal {
    // The datagram's length.
    Short(usize),
    // Byte 4 of the datagram.
    Kind(u8),
    // The declared payload length, and how many bytes follow the header.
    Cut { declared: u16, present: usize },
    Setup,
    Full,
    Long,
    Numbers,
    Counts,
    State,
    Time,
    Roll,
}

// The values that a line names, in its order; 0 past their count.
#[derive(Clone, Copy)]
pub struct Values {
    pub count: usize,
    pub first: u64,
    pub second: u64,
}

impl Refusal {
    // The number of the line.
    pub fn number(self) -> u8
        ensures { result ≡ (entry_of self).number }
    {
        match self {
            Refusal::Short(_) => 1,
            Refusal::Kind(_) => 2,
            Refusal::Cut { .. } => 3,
            Refusal::Setup => 4,
            Refusal::Full => 5,
            Refusal::Long => 6,
            Refusal::Numbers => 7,
            Refusal::Counts => 8,
            Refusal::State => 9,
            Refusal::Time => 10,
            Refusal::Roll => 11,
        }
    }

    // The word, in letters of ASCII.
    pub fn word(self) -> &'static str
        ensures { result.now ≡ (entry_of self).word }
    {
        match self {
            Refusal::Short(_) => "short",
            Refusal::Kind(_) => "kind",
            Refusal::Cut { .. } => "cut",
            Refusal::Setup => "setup",
            Refusal::Full => "full",
            Refusal::Long => "long",
            Refusal::Numbers => "numbers",
            Refusal::Counts => "counts",
            Refusal::State => "state",
            Refusal::Time => "time",
            Refusal::Roll => "roll",
        }
    }

    pub fn values(self) -> Values
        ensures { result ≡ values_of (entry_of self).values }
    {
        match self {
            Refusal::Short(length) => Values {
                count: 1,
                first: length as u64,
                second: 0,
            },
            Refusal::Kind(byte) => Values {
                count: 1,
                first: byte as u64,
                second: 0,
            },
            Refusal::Cut { declared, present } => Values {
                count: 2,
                first: declared as u64,
                second: present as u64,
            },
            _ => Values {
                count: 0,
                first: 0,
                second: 0,
            },
        }
    }
}

impl fmt::Display for Refusal {
    ghost output = { λ r. Some (entry_of r).word };

    fn fmt<W: fmt::Write>(&self, f: &mut fmt::Formatter<W>) -> fmt::Result {
        f.write_str(self.word())
    }
}

impl Error for Refusal {}

// Checks 9 and 8 of what a call holds.
pub fn held_verdict(state_broken: bool, counts_broken: bool) -> Result<(), Refusal>
    ensures { result ≡ verdict (held_checks state_broken counts_broken) }
{
    if state_broken {
        return Err(Refusal::State);
    }
    if counts_broken {
        return Err(Refusal::Counts);
    }
    Ok(())
}
