// Replays pages of events from standard input, and writes what compare/report.py has worked out for each (file
// `stdout`). The form of lines is replay_io's. `e` and seven numbers: a row more, 64 at most; the answer is how many
// there are. `c`: no rows. `p COUNT SIZE`: the page of the first COUNT of the rows in a buffer of SIZE bytes, 8,192 at
// most and all `#`; the answer is its length or the refusal, the CRC-32 of the buffer after the call, then the page.
#![tactic(auto)]

use events::Event;
use replay_io::{Answer, Fields, Replay};
use std::io;
use std::io::Write;

// The first `count` rows are in use.
#[derive(Drop)]
struct Rows {
    rows: [Event; 64],
    count: usize,
}

fn main(rt: HostRuntime) -> io::Result<()> {
    let mut rows = Rows {
        rows: [[0; 7]; 64],
        count: 0,
    };
    replay_io::answer_lines(
        &mut rows,
        &mut [0u8; 131072],
        &mut rt.stdin(),
        &mut rt.stdout(),
    )
}

impl Replay for Rows {
    fn answer(&mut self, writer: &mut impl Write, f: Fields, _bytes: &[u8]) -> io::Result<()> {
        let v = f.values;
        match (f.letter, f.count) {
            (b'c', 0) => {
                self.count = 0;
                Ok(())
            }
            (b'e', 7) => self.add(writer, [v[0], v[1], v[2], v[3], v[4], v[5], v[6]]),
            (b'p', 2) => {
                let rows = replay_io::prefix(&self.rows, self.count);
                print_page(writer, rows, v[0] as usize, v[1] as usize)
            }
            _ => replay_io::print_bad_line(writer),
        }
    }
}

impl Rows {
    fn add(&mut self, writer: &mut impl Write, row: Event) -> io::Result<()> {
        let n = self.count;
        if self.rows.len() <= n {
            return replay_io::print_bad_line(writer);
        }
        self.rows[n] = row;
        self.count = n + 1;
        self.count.print(writer)
    }
}

fn print_page(
    writer: &mut impl Write,
    rows: &[Event],
    count: usize,
    size: usize,
) -> io::Result<()> {
    let mut page = [b'#'; 8192];
    let out = replay_io::prefix_mut(&mut page, size);
    let answer = report::write_report(rows, count, out);
    answer.print(writer)?;
    replay_io::print_crc32(writer, out)?;
    if let Ok(end) = answer {
        replay_io::print(writer, b"\n")?;
        replay_io::print(writer, replay_io::prefix(out, end))?;
    }
    Ok(())
}
