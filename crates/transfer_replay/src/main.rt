// Replays whole transfers from standard input, and writes the answer of each, as the reference and a model of
// document 01 gave it (file `stdout`). transfer_cases has the form of lines and answers.
#![tactic(auto)]

use replay_io::{Fields, Replay};
use std::io;
use std::io::Write;
use transfer_cases::Setup;

#[derive(Drop)]
struct Transfers {
    setup: Setup,
}

fn main(rt: HostRuntime) -> io::Result<()> {
    let mut transfers = Transfers {
        setup: Setup::new(),
    };
    replay_io::answer_lines(
        &mut transfers,
        &mut replay_io::buffer(),
        &mut rt.stdin(),
        &mut rt.stdout(),
    )
}

impl Replay for Transfers {
    fn answer(&mut self, writer: &mut impl Write, f: Fields, bytes: &[u8]) -> io::Result<()> {
        match (f.letter, f.count) {
            (b'r', 0) => run(writer, &self.setup),
            _ => self.setup.set(writer, f, bytes),
        }
    }
}

// A run on new memory: as much of each array as the setup lends. The places are made apart, since they are filled twice
// where they stand beside the other arrays.
fn run(writer: &mut impl Write, setup: &Setup) -> io::Result<()> {
    let mut forward_places = transfer_cases::marked_places();
    let mut reverse_places = transfer_cases::marked_places();
    run_on_places(writer, setup, &mut forward_places, &mut reverse_places)
}

fn run_on_places(
    writer: &mut impl Write,
    setup: &Setup,
    forward_places: &mut [u8],
    reverse_places: &mut [u8],
) -> io::Result<()> {
    let v = setup.sizes;
    let mut forward_rolls = transfer_cases::no_rolls();
    let mut reverse_rolls = transfer_cases::no_rolls();
    let mut sender_store = transfer_cases::marked_store();
    let mut receiver_store = transfer_cases::marked_store();
    let mut output = transfer_cases::marked_output();
    let mut notes = [[5u64; 7]; transfer_cases::NOTES];
    let mut events = [[5u64; 7]; transfer_cases::EVENTS];
    let mut forward_records = [[5u64; 4]; transfer_cases::RECORDS];
    let mut reverse_records = [[5u64; 4]; transfer_cases::RECORDS];
    let mut keys = [5u32; transfer_cases::TIMERS];
    let mut deadlines = [5u64; transfer_cases::TIMERS];
    let forward_rolls = replay_io::prefix_mut(&mut forward_rolls, setup.forward.count);
    let reverse_rolls = replay_io::prefix_mut(&mut reverse_rolls, setup.reverse.count);
    let sender_store = replay_io::prefix_mut(&mut sender_store, v[0] as usize);
    let receiver_store = replay_io::prefix_mut(&mut receiver_store, v[1] as usize);
    let output = replay_io::prefix_mut(&mut output, v[2] as usize);
    let notes = replay_io::prefix_mut(&mut notes, v[3] as usize);
    let events = replay_io::prefix_mut(&mut events, v[4] as usize);
    let forward_records = replay_io::prefix_mut(&mut forward_records, v[5] as usize);
    let forward_places = replay_io::prefix_mut(forward_places, v[6] as usize);
    let reverse_records = replay_io::prefix_mut(&mut reverse_records, v[7] as usize);
    let reverse_places = replay_io::prefix_mut(reverse_places, v[8] as usize);
    let keys = replay_io::prefix_mut(&mut keys, v[9] as usize);
    let deadlines = replay_io::prefix_mut(&mut deadlines, v[10] as usize);
    transfer_cases::fill_rolls(forward_rolls, setup.forward);
    transfer_cases::fill_rolls(reverse_rolls, setup.reverse);
    let answer = transfer::run_transfer(
        setup.config(),
        replay_io::prefix(&setup.file, setup.file_len),
        forward_rolls,
        reverse_rolls,
        sender_store,
        receiver_store,
        output,
        notes,
        events,
        forward_records,
        forward_places,
        reverse_records,
        reverse_places,
        keys,
        deadlines,
    );
    transfer_cases::print_answer(writer, answer)?;
    transfer_cases::print_lent(
        writer,
        sender_store,
        receiver_store,
        output,
        notes,
        events,
        forward_records,
        forward_places,
        reverse_records,
        reverse_places,
        keys,
        deadlines,
    )
}
