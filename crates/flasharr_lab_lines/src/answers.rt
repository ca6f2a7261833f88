//! What most events are answered, in words.
use fa_core_calls::Answer;
use fa_core_outcome::Job;
use fa_tag::Payload;
use flasharr_lab_words::{
    Output, show_claim, show_content, show_copied, show_flight, show_flush, show_flush_state,
    show_pages, show_round, show_seq, show_word,
};
use std::alloc::Allocator;

/// Tells an answer that is a few words, which those to an Admit and to a Replan are not.
pub fn show_short<A: Allocator + Copy>(answer: &Answer<A>, output: &mut Output) {
    match answer {
        Answer::Stranger(_) => output.word("stranger"),
        Answer::Claim(answer) => show_claim(answer, output),
        Answer::Release => output.word("released"),
        Answer::Reserve(answer) => show_seq(answer, output),
        Answer::Commit(answer) => show_seq(answer, output),
        Answer::Abandon(answer) => show_word("abandoned", answer, output),
        Answer::EndBatch(answers) => show_pages(answers.as_slice(), output),
        Answer::Take(job) => show_job(job, output),
        Answer::Done(_) => output.word("done"),
        Answer::Window(answer) => show_round(answer, output),
        Answer::Advance(answer) => show_round(answer, output),
        Answer::SpareIn(answer) => show_word("in", answer, output),
        Answer::ReserveCopy(answer) => show_word("reserved", answer, output),
        Answer::CommitCopy(answer) => show_copied(answer, output),
        Answer::FlushBegin(answer) => show_flush(answer, output),
        Answer::FlushState(state) => show_flush_state(*state, output),
        Answer::Fold => output.word("folded"),
        Answer::Admit(_) | Answer::Replan(_) => {}
    }
}

/// A Take's answer.
fn show_job<A: Allocator + Clone>(job: &Option<Job<A>>, output: &mut Output) {
    match job {
        Some(job) => {
            show_flight(job.flight, output);
            show_payload(&job.payload, output);
            if job.lasting {
                output.word("lasting");
            }
        }
        None => output.word("no job"),
    }
}

fn show_payload<A: Allocator + Clone>(payload: &Option<Payload<A>>, output: &mut Output) {
    if let Some(payload) = payload {
        show_content("of", payload.bytes(), output);
    }
}
