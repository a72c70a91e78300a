// Rows of seven numbers in lent memory; notes and events lie in such rows.
#![tactic(auto)]

ghost use Rattle.std.specs.Prelude.{◌≡◌, length, replicate};
ghost use Rattle.rows.specs.Rows.{vacant, as_number};

pub type Row = [u64; 7];

// fill, under a name that an edit of must-fail holds.
pub fn clear_rows(rows: &mut [Row])
    ensures { rows.new ≡ replicate (length rows.old) vacant }
{
    rows.fill([0; 7]);
}

// A bool as it lies in a row: u64::from, with the definition that rows and counts are stated in.
pub fn flag(b: bool) -> u64
    ensures { result ≡ as_number b }
{
    u64::from(b)
}
