// Reads a file from standard input, and prints the forward events of its run over a line without faults.
#![tactic(auto)]

use std::io;
use std::io::Write;

fn main(rt: HostRuntime) -> io::Result<()> {
    // One byte more than a file may have.
    let mut file = [0u8; 257];
    let mut text = [0u8; 10240];
    let n = replay_io::read_full(&mut rt.stdin(), &mut file)?;
    match linkrun_text::write_linkrun(&file[..n], &mut text) {
        Ok(end) => Write::write_all(&mut rt.stdout(), &text[..end]),
        // Where the text is longer than the buffer nothing is printed; of at most 256 events it never is.
        Err(_) => Ok(()),
    }
}
