//! Which item of the client a negotiation hears.
use crate::step::{CloseCause, Step};

/// Which item of the client comes next.
#[derive(Clone, Copy)]
pub enum Phase {
    /// The client's flags.
    Flags,
    /// An option, after the client's flags.
    Options { flags: u32 },
    /// None: the negotiation ended with this step, which is not `More`.
    Over(Step),
}

impl Phase {
    ghost use Rattle.std.specs.Prelude.{◌≡◌, []};
    ghost use Rattle.fa_nego.specs.NegoState.{step_of, cause_of};
    ghost use Rattle.fa_nego.specs.View.{stage_at};

    /// The step that a caller is told of.
    pub fn step(self) -> Step
        ensures { result ≡ step_of (stage_at self []) }
    {
        match self {
            Phase::Flags | Phase::Options { .. } => Step::More,
            Phase::Over(step) => step,
        }
    }

    /// Why the server closes the connection, if it does.
    pub fn close_cause(self) -> Option<CloseCause>
        ensures { result ≡ cause_of (step_of (stage_at self [])) }
    {
        match self {
            Phase::Over(Step::Closed(cause)) => Some(cause),
            _ => None,
        }
    }
}
