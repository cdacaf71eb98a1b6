// The answers of a job, as text.
ghost use Rattle.std.specs.Prelude.{◌≡◌, IfOk, string_bytes};
ghost use Rattle.job_text.specs.Shown.{printed};

use crate::answer::Answer;
use series::fault::Fault;
use std::alloc::{AllocError, Global};

/// A line for each answer or refusal. It may fail for want of memory only.
pub fn print_out(heap: Global, answers: &[Result<Answer, Fault>]) -> Result<String, AllocError>
    ensures { IfOk result (λ s. string_bytes s ≡ printed answers.now) }
{
    let mut out = String::new(heap);
    // a line is written apart, so that the text grows by whole lines
    let mut line = String::new(heap);
    for answer in answers {
        line.clear();
        match answer {
            Ok(answer) => writeln!(line, "{answer}")?,
            Err(fault) => writeln!(line, "{fault}")?,
        }
        out.push_str(line.as_str())?;
    }
    Ok(out)
}
