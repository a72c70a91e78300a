// What a run ends with, put into words.
ghost use Rattle.std.specs.Prelude.{◌≡◌, false, [], ◌∷◌, ◌+◌, ◌≤◌, length};
ghost use Rattle.std.proofs.lemmas.List.Edits.{sets};
ghost use Rattle.session.specs.Sending.{window_in};
ghost use Rattle.host_words.specs.Words.{receiver_fields};
ghost use Rattle.host_run.specs.Outcome.{outcome_words, end_word, course_words, driver_words, sender_words};
ghost use Rattle.host_run.specs.Outcome.{receiver_words, channel_words, with_outcome};
ghost use Rattle.host_run.specs.Run.{results, results_short, host_run_exit, ended};
ghost use Rattle.step.specs.State.{Lent};

use channel::ChannelStats;
use refusal::Refusal;
use session::{ReceiverState, SenderState};
use step::End;
use transfer::{DriverCounts, Outcome};

// The outcome to words, the estimator to its own; nothing of a refused run.
pub fn put_answer(
    answer: Result<Outcome, Refusal>,
    words: &mut [u64],
    estimator: &mut [u64],
    doubles: &mut [f64],
) -> u64
    requires { results_short (results words.old estimator.old doubles.old) ≡ false }
    ensures { (l : Lent) → host_run_exit result l
        (results words.new estimator.new doubles.new)
        ≡ ended answer l (results words.old estimator.old doubles.old) }
{
    match answer {
        Ok(o) => {
            put_outcome(words, o);
            host_estimator::put_estimator_unchecked(estimator, doubles, o.estimator);
            host_answer::pack_unchecked(host_answer::DONE, u64::from(o.completed))
        }
        Err(r) => host_answer::refusal_answer(r),
    }
}

fn put_outcome(words: &mut [u64], o: Outcome)
    requires { outcome_words ≤ length words.old }
    ensures { words.new ≡ with_outcome words.old o }
{
    put_course(words, o.completed, o.finished_at, o.end);
    put_driver(words, o.driver);
    put_sender(words, o.sender.state);
    put_receiver(words, o.receiver.state);
    put_channel(words, 19, o.forward);
    put_channel(words, 25, o.reverse);
}

fn put_course(words: &mut [u64], completed: bool, at: u64, end: End)
    requires { outcome_words ≤ length words.old }
    ensures { words.new ≡ sets words.old 0 (course_words completed at end) }
{
    words[0] = u64::from(completed);
    words[1] = at;
    words[2] = end_word(end);
}

fn put_driver(words: &mut [u64], d: DriverCounts)
    requires { outcome_words ≤ length words.old }
    ensures { words.new ≡ sets words.old 3 (driver_words d) }
{
    words[3] = d.retx_submitted;
    words[4] = d.premature;
    words[5] = d.data_received;
    words[6] = d.ack_sent;
    words[7] = d.ack_received;
    words[8] = d.duplicate_data;
    words[9] = d.duplicate_acks;
    words[10] = d.events as u64;
}

fn put_sender(words: &mut [u64], state: SenderState)
    requires { outcome_words ≤ length words.old }
    ensures { words.new ≡ sets words.old 11 (sender_words (window_in state)) }
{
    match state {
        SenderState::StopAndWait(s) => {
            put_three(words, s.current_seq as u64, s.total_sent, s.retransmissions);
        }
        SenderState::GoBackN(s) => {
            let w = s.window;
            put_three(words, w.send_base as u64, w.total_sent, w.retransmissions);
        }
        SenderState::SelectiveRepeat(s) => {
            let w = s.window;
            put_three(words, w.send_base as u64, w.total_sent, w.retransmissions);
        }
    }
}

fn put_three(words: &mut [u64], base: u64, sent: u64, again: u64)
    requires { outcome_words ≤ length words.old }
    ensures { words.new ≡ sets words.old 11 (base ∷ sent ∷ again ∷ []) }
{
    words[11] = base;
    words[12] = sent;
    words[13] = again;
}

fn put_receiver(words: &mut [u64], state: ReceiverState)
    requires { outcome_words ≤ length words.old }
    ensures { words.new ≡ sets words.old 14 (receiver_words (receiver_fields state)) }
{
    let f = host_words::receiver_fields(state);
    words[14] = f.base as u64;
    words[15] = f.filled as u64;
    words[16] = f.received;
    words[17] = f.second;
    words[18] = f.third;
}

fn put_channel(words: &mut [u64], at: usize, s: ChannelStats)
    requires { at + 6 ≤ length words.old }
    ensures { words.new ≡ sets words.old at (channel_words s) }
{
    words[at] = s.packets_seen;
    words[at + 1] = s.lost;
    words[at + 2] = s.corrupted;
    words[at + 3] = s.duplicated;
    words[at + 4] = s.reordered;
    words[at + 5] = s.copies_delivered;
}

fn end_word(end: End) -> u64
    ensures { result ≡ end_word end }
{
    match end {
        End::Ended => 0,
        End::RollsSpent => 1,
        End::EventsFull => 2,
        End::ScheduleFull => 3,
    }
}
