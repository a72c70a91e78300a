// What the program `linkrun` prints for a file: the forward events of one run with a built-in setup.
#![tactic(auto)]

ghost use Rattle.std.specs.Prelude.{◌≡◌, replicate};
ghost use Rattle.rows.specs.Rows.{vacant};
ghost use Rattle.text.specs.Place.{place_exit, place};
ghost use Rattle.linkrun_text.specs.Linkrun.{max_file, linkrun_setup, linkrun_text};
ghost use Rattle.linkrun_text.specs.Internal.{rows_written, HoldsRun};

use channel::ChannelConfig;
use events::Event;
use protocol::ProtocolType;
use refusal::Refusal;
use rto::RtoConfig;
use setup::{ClockChoice, TransferConfig};
use transfer::Outcome;

// The longest file that is run.
pub const MAX_FILE: usize = 256;

// Writes what `linkrun` prints for a file to the front of a lent buffer.
pub fn write_linkrun(file: &[u8], out: &mut [u8]) -> Result<usize, Refusal>
    ensures { place_exit out.new result ≡ place out.old 0 (linkrun_text file.now) }
{
    if MAX_FILE < file.len() {
        return text::write_word(b"long\n", out, 0);
    }
    let mut events = [[0u64; 7]; 256];
    if file.len() == 0 {
        return trace::write_events(&events, 0, out);
    }
    let answer = run_file_unchecked(file, &mut events);
    let count = events_written(answer);
    trace::write_events(&events, count, out)
}

// Runs a file with the built-in setup; the events go to lent rows of zeros.
pub fn run_file_unchecked(file: &[u8], events: &mut [Event; 256]) -> Result<Outcome, Refusal>
    requires { events.old ≡ replicate max_file vacant }
    ensures { HoldsRun file.now events.new result }
{
    let rolls = [0.0f64; 2048];
    let mut sender_store = [0u8; 5616];
    let mut receiver_store = [0u8; 5616];
    let mut output = [0u8; 256];
    let mut notes = [[0u64; 7]; 256];
    let mut forward_records = [[0u64; 4]; 4];
    let mut forward_places = [0u8; 5640];
    let mut reverse_records = [[0u64; 4]; 4];
    let mut reverse_places = [0u8; 5640];
    let mut keys = [0u32; 4];
    let mut deadlines = [0u64; 4];
    transfer::run_transfer(
        setup(),
        file,
        &rolls,
        &rolls,
        &mut sender_store,
        &mut receiver_store,
        &mut output,
        &mut notes,
        events,
        &mut forward_records,
        &mut forward_places,
        &mut reverse_records,
        &mut reverse_places,
        &mut keys,
        &mut deadlines,
    )
}

// How many of the rows hold events: none where the run is refused. A run writes no more rows than it is lent, but no
// law below this crate says so; it is looked at.
fn events_written(answer: Result<Outcome, Refusal>) -> usize
    ensures { result ≡ rows_written answer }
{
    match answer {
        Ok(o) => {
            let driver = o.driver;
            let count = driver.events;
            if MAX_FILE < count {
                return MAX_FILE;
            }
            count
        }
        Err(_) => 0,
    }
}

// Selective Repeat, window 4, chunk 1, base delay 5 ms, the source's timing with the edition clock's numbers.
pub fn setup() -> TransferConfig
    ensures { result ≡ linkrun_setup }
{
    TransferConfig {
        protocol: ProtocolType::SelectiveRepeat,
        clock: ClockChoice::Source,
        window_size: 4,
        chunk_size: 1,
        channel: ChannelConfig {
            loss: 0.0,
            duplicate: 0.0,
            reorder: 0.0,
            reorder_extra_ms: 0,
            corrupt: 0.0,
            base_delay_ms: 5,
            jitter_ms: 0,
        },
        rto: RtoConfig {
            initial_rto: 1_000_000_000,
            min_rto: 1_000_000_000,
            max_rto: 60_000_000_000,
            granularity: 1_000_000,
            alpha: 0.125,
            beta: 0.25,
            k: 4.0,
            rto_multiplier: 1.0,
        },
        max_virtual_time: 60_000_000_000,
        max_retransmissions: 10,
    }
}
