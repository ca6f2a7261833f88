//! What is seen of a die, in words.
use crate::output::Output;
use crate::pages::{MAX_DIES, bit_of};
use fa_machine::{Block, JobKind};
use fa_types::Die;

/// What is seen of a die.
#[derive(Clone, Copy)]
pub enum DieSeen {
    /// It is none of the array's.
    None,
    /// It is not live.
    Out,
    Live(LiveDie),
}

/// What is seen of a die that is live.
#[derive(Clone, Copy)]
pub struct LiveDie {
    pub room: u32,
    pub victim: Option<Block>,
    pub wants_window: bool,
    pub has_window: bool,
    /// Whether a Take finds work.
    pub has_job: bool,
    /// Its job.
    pub job: Option<JobKind>,
}

/// A die: that it is out, or what it is at. Nothing where it is none of the array's.
pub fn show_die(die: Die, seen: &DieSeen, output: &mut Output) {
    match seen {
        DieSeen::None => {}
        DieSeen::Out => {
            output.pair("die", u64::from(die.0));
            output.word("out");
        }
        DieSeen::Live(live) => {
            output.pair("die", u64::from(die.0));
            show_live_die(live, output);
        }
    }
}

fn show_live_die(live: &LiveDie, output: &mut Output) {
    output.pair("live room", u64::from(live.room));
    show_victim(live.victim, output);
    if live.wants_window {
        output.word("wants a window");
    }
    show_job_kind(live.job, output);
}

fn show_victim(victim: Option<Block>, output: &mut Output) {
    if let Some(block) = victim {
        output.pair("victim", u64::from(block.0));
    }
}

fn show_job_kind(job: Option<JobKind>, output: &mut Output) {
    if let Some(kind) = job {
        output.word(job_word(kind));
    }
}

fn job_word(kind: JobKind) -> &'static str {
    match kind {
        JobKind::Read => "reads",
        JobKind::Program => "programs",
        JobKind::Move => "moves",
        JobKind::Erase => "erases",
        JobKind::Header => "writes its header",
        JobKind::Sync => "syncs",
    }
}

/// The room of a die, and a letter for each thing that is true of it. Nothing where it is none of the array's.
pub fn show_die_word(seen: &DieSeen, output: &mut Output) {
    match seen {
        DieSeen::None => {}
        DieSeen::Out => output.word("out"),
        DieSeen::Live(live) => {
            output.number(u64::from(live.room));
            output.join_if(live.wants_window, "v");
            output.join_if(live.has_window, "w");
            output.join_if(live.has_job, "j");
            output.join_if(live.job.is_some(), "b");
        }
    }
}

/// The live dies of a mask.
pub fn show_live(mask: u64, output: &mut Output) {
    output.word("live");
    for die in 0..MAX_DIES {
        if mask & bit_of(die) != 0 {
            output.number(die as u64);
        }
    }
}
