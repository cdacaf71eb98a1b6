// The job program: a text on standard input, its answers on standard output.
#![tactic(auto)]

ghost use Rattle.std.specs.Prelude.{◌≡◌, ◌+◌, ◌≤◌, IfSome, take, IfOk, vec_len};
ghost use Rattle.job_text.specs.Jobs.{most};

use job_text::report::print_out;
use job_text::whole::{MOST, work_text};
use std::alloc::Global;
use std::io;
use std::io::Read;

// One byte more than a job text has at most, so that a longer one is seen to be too long.
const ROOM: usize = MOST + 1;

// The bytes of the input, to its end or as many as there is room for. What a reader gave past its limit would be cut.
fn text_of<R: Read + Drop>(heap: Global, input: R) -> io::Result<Vec<u8>>
    ensures few { IfOk result (λ text. vec_len text ≤ most + 1) }
    ensures bytes { IfSome (R.remaining input) (λ bytes. IfOk result (λ text. text.items ≡ take (most + 1) bytes)) }
{
    // room for all of it and a byte that stays free: the library's reader grows a full vector before it sees the end
    let mut text = Vec::with_capacity(heap, ROOM + 1)?;
    input.take(ROOM as u64).read_to_end(&mut text)?;
    text.truncate(ROOM);
    Ok(text)
}

fn main(rt: HostRuntime) -> io::Result<()> {
    let text = text_of(rt.alloc(), rt.stdin())?;
    let mut answers = work_text(rt.alloc(), text.as_slice())?;
    // what is printed of them comes beside them, so no more than their room is kept
    answers.shrink_to_fit();
    let out = print_out(rt.alloc(), answers.as_slice())?;
    rt.print(out.as_str())
}
