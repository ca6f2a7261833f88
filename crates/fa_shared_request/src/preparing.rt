//! What is prepared at each stage.
ghost use Rattle.std.specs.Prelude.{◌≡◌, ◌<◌, [], IfErr, IfOk};
ghost use Rattle.fa_shared_request.specs.Ops.{Prepares};
ghost use Rattle.fa_shared_steps.specs.Ranges.{IsRange};
ghost use Rattle.fa_shared_steps.specs.Tasks.{answered};

use crate::gathering::sort_lent;
use fa_shared_steps::{Purpose, Stage, Task, fill_page, list, sort_page};
use fa_types::Page;
use std::alloc::{AllocError, Allocator};

/// What a request that is so far prepares, if it is to prepare something. Buffers whose bytes are in the answer are kept, to be given back.
pub(crate) fn prepare_stage<A: Allocator + Copy, B: Allocator>(
    alloc: A,
    task: Task,
    bytes: &[u8],
    stage: Stage<A>,
    answer: &mut Vec<u8, B>,
    lent: &mut Vec<(Page, Vec<u8, A>), A>,
) -> Stage<A>
    requires { IsRange task.range }
    ensures { Prepares task bytes.now stage answer.old.items result answer.new.items }
{
    match stage {
        Stage::Listing(purpose) => list(alloc, task.range, purpose),
        Stage::Filling(held, fewer) => fill_page(alloc, task, bytes, held, fewer),
        Stage::Sorting(Purpose::Merge(held), answers) => sort_page(task, bytes, held, answers),
        Stage::Sorting(Purpose::Answer(page), answers) => {
            sort_lent(task.range, page, answers, answer, lent)
        }
        stage => stage,
    }
}

/// How many bytes a request answers.
pub(crate) fn answer_len(task: Task) -> usize
    requires { IsRange task.range }
    ensures { result ≡ answered task }
{
    if task.fill.is_some() {
        0
    } else {
        (task.range.to - task.range.from) as usize
    }
}

/// Memory for so many bytes of an answer. None is wanted for none.
pub(crate) fn memory_for<A: Allocator>(alloc: A, len: usize) -> Result<Vec<u8, A>, AllocError>
    ensures empty { IfOk result (λ answer. answer.items ≡ []) }
    ensures refused { IfErr result (λ error. 0 < len) }
{
    if len == 0 {
        return Ok(Vec::new(alloc));
    }
    Vec::with_capacity(alloc, len)
}
