// What a job line answers.
ghost use Rattle.std.specs.Prelude.{Some};
ghost use Rattle.job_text.specs.Shown.{shown_answer};

use std::fmt;

/// The answer to a line that is not refused.
#[derive(Clone, Copy, PartialEq, Debug)]
pub enum Answer {
    /// the count held after an add
    Added(usize),
    /// the count held after a strike
    Struck(usize),
    /// the count held at the release
    Released(usize),
    /// the total and the divisor of a part
    Part((u64, u64)),
    ReadOut(u64),
}

impl fmt::Display for Answer {
    ghost output = { λ a. Some (shown_answer a) };

    fn fmt<W: fmt::Write>(&self, f: &mut fmt::Formatter<W>) -> fmt::Result {
        match *self {
            Answer::Added(count) => write!(f, "A {count}"),
            Answer::Struck(count) => write!(f, "S {count}"),
            Answer::Released(count) => write!(f, "R {count}"),
            Answer::Part((total, divisor)) => write!(f, "P {total} {divisor}"),
            Answer::ReadOut(read_out) => write!(f, "V {read_out}"),
        }
    }
}
