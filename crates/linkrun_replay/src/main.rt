// Replays what `linkrun` prints for files from standard input, and writes an answer for each, as compare/linkrun.py has
// it (file `stdout`). The form of lines is replay_io's: the letter f and a file's bytes, 2,048 at most. The answer is
// the text's length and its CRC-32; of a file that is run also whether the run is completed, and its end. The letter p
// and a file: the length of the page of its run's events, its CRC-32 and the page.
#![tactic(auto)]

use events::Event;
use linkrun_text::MAX_FILE;
use replay_io::{Answer, Fields, Replay};
use std::io;
use std::io::Write;

#[derive(Drop)]
struct Files;

fn main(rt: HostRuntime) -> io::Result<()> {
    replay_io::answer_lines(
        &mut Files,
        &mut replay_io::buffer(),
        &mut rt.stdin(),
        &mut rt.stdout(),
    )
}

impl Replay for Files {
    fn answer(&mut self, writer: &mut impl Write, f: Fields, file: &[u8]) -> io::Result<()> {
        match (f.letter, f.count) {
            (b'f', 0) => {
                print_text(writer, file)?;
                print_run(writer, file)
            }
            (b'p', 0) => print_report(writer, file),
            _ => replay_io::print_bad_line(writer),
        }
    }
}

fn print_text(writer: &mut impl Write, file: &[u8]) -> io::Result<()> {
    let mut text = [0u8; 10240];
    match linkrun_text::write_linkrun(file, &mut text) {
        Ok(end) => print_sum(writer, replay_io::prefix(&text, end)),
        Err(r) => r.print(writer),
    }
}

fn print_sum(writer: &mut impl Write, text: &[u8]) -> io::Result<()> {
    text.len().print(writer)?;
    replay_io::print_crc32(writer, text)
}

fn print_run(writer: &mut impl Write, file: &[u8]) -> io::Result<()> {
    if file.is_empty() || MAX_FILE < file.len() {
        return Ok(());
    }
    let mut events = [[0u64; 7]; 256];
    match linkrun_text::run_file_unchecked(file, &mut events) {
        Ok(o) => {
            o.completed.print(writer)?;
            transfer_cases::print_end(writer, o.end)
        }
        Err(r) => r.print(writer),
    }
}

fn print_report(writer: &mut impl Write, file: &[u8]) -> io::Result<()> {
    let mut events = [[0u64; 7]; 256];
    match linkrun_text::run_file_unchecked(file, &mut events) {
        Ok(o) => print_page(writer, &events, o.driver.events),
        Err(r) => r.print(writer),
    }
}

fn print_page(writer: &mut impl Write, events: &[Event], count: usize) -> io::Result<()> {
    let mut page = [0u8; 20480];
    match report::write_report(events, count, &mut page) {
        Ok(end) => {
            let text = replay_io::prefix(&page, end);
            print_sum(writer, text)?;
            replay_io::print(writer, b"\n")?;
            replay_io::print(writer, text)
        }
        Err(r) => r.print(writer),
    }
}
