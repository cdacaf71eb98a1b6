// What a job line says.
ghost use Rattle.std.specs.Prelude.{◌≡◌};
ghost use Rattle.job_line.specs.Grammar.{line_of};
ghost use Rattle.job_line.specs.Said.{told_line};

use crate::fields::Fields;
use crate::malformed::Malformed;

/// What a formed line says.
#[derive(Clone, Copy)]
pub enum Line<'a> {
    Add(i64),
    Strike,
    Part(&'a [u8], u64, u64),
    ReadOut(&'a [u8], u64),
    Release,
}

/// What a line says, or the place where it is refused: of the first byte that cannot continue a
/// formed line, of the line's end if it comes too early, or of a number too large.
pub fn parse<'a>(line: &'a [u8]) -> Result<Line<'a>, Malformed>
    ensures { told_line result ≡ line_of line.now }
{
    let mut fields = Fields::new(line);
    let said = match fields.letter()? {
        b'A' => Line::Add(fields.sample()?),
        b'S' => Line::Strike,
        b'P' => Line::Part(fields.word()?, fields.number()?, fields.number()?),
        b'V' => Line::ReadOut(fields.word()?, fields.number()?),
        b'R' => Line::Release,
        _ => return Err(Malformed { place: 0 }),
    };
    fields.end()?;
    Ok(said)
}
