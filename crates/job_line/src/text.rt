// The lines of a text.
ghost use Rattle.std.specs.Prelude.{◌≡◌, ◌≤◌, length};
ghost use Rattle.std.specs.Iterator.{YieldsFirstRef, item_count};
ghost use Rattle.std.specs.List.{prefix_len};
ghost use Rattle.job_line.specs.Split.{lines_of, in_line, line_end};

/// How many bytes the first line has.
// As the classes of bytes in a line's fields: a closure's clause gives a relation, where the definition takes a function.
fn line_length(text: &[u8]) -> usize
    ensures is { result ≡ prefix_len in_line text.now }
    ensures within { result ≤ length text.now }
{
    text.iter().take_while(|b| **b != b'\n').count()
}

/// The place of the first line feed at or after `from`, or the text's length;
/// a place past the end is its own answer.
pub fn line_end(text: &[u8], from: usize) -> usize
    ensures is { result ≡ line_end text.now from }
    ensures low { from ≤ result }
    ensures high { from ≤ length text.now → result ≤ length text.now }
{
    from + text.get(from..).map_or(0, line_length)
}

/// The lines of a text that are still to come. (The library's `split` has an empty last piece where a text ends in a line feed.)
#[derive(Clone, Copy)]
pub struct TextLines<'a> {
    pub rest: &'a [u8],
}

/// The lines of a text: a line feed ends a line, and the last may lack it.
pub fn lines<'a>(text: &'a [u8]) -> TextLines<'a>
    ensures { result.rest.now ≡ text.now }
{
    TextLines { rest: text }
}

impl<'a> Iterator for TextLines<'a> {
    type Item = &'a [u8];

    ghost next_gives = { YieldsFirstRef (λ s. lines_of s.rest.now) };

    ghost remaining = { item_count (λ s. lines_of s.rest.now) };

    fn next(&mut self) -> Option<&'a [u8]> {
        if self.rest.is_empty() {
            return None;
        }
        let end = line_length(self.rest);
        let line = &self.rest[..end];
        self.rest = self.rest.get(end + 1..).unwrap_or(&[]);
        Some(line)
    }
}
