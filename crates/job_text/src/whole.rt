// A whole job text.
ghost use Rattle.std.specs.Prelude.{◌≡◌, ◌≤◌, length, IfOk};
ghost use Rattle.job_text.specs.Jobs.{most, TextWorked, LinesWorked};

use crate::answer::Answer;
use crate::job::Job;
use job_line::text::lines;
use series::fault::{Cause, Fault, Layer};
use std::alloc::{AllocError, Global};

/// How many bytes a job text has at most.
pub const MOST: usize = 65_536;

// The answers to the lines of a text, on a run that is opened for it.
fn work_lines(heap: Global, text: &[u8]) -> Result<Vec<Result<Answer, Fault>>, AllocError>
    requires { length text.now ≤ most }
    ensures { IfOk result (λ v. LinesWorked text.now v.items) }
{
    let mut job = Job::open(heap)?;
    let mut answers = Vec::new(heap);
    for line in lines(text) {
        let (next, answer) = job.work(line);
        job = next;
        answers.push(answer)?;
    }
    Ok(answers)
}

/// The answers to a job text, line by line, on a run that is opened for it; a text of more than 65,536 bytes is refused whole.
/// It may fail for want of memory only.
pub fn work_text(heap: Global, text: &[u8]) -> Result<Vec<Result<Answer, Fault>>, AllocError>
    ensures { IfOk result (λ v. TextWorked text.now v.items) }
{
    if text.len() <= MOST {
        return work_lines(heap, text);
    }
    let refused = Layer::Bench.refusal(Cause::MalformedLine, MOST as u64);
    Ok(vec![in heap; Err(refused)]?)
}
