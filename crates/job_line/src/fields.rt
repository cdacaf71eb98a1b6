// The fields of a job line.
use crate::malformed::Malformed;
use crate::tokens::{Field, Token, leading_digits, leading_name, value_of, with_sign};

/// A line, and the place from which it is still to be read.
#[derive(Clone, Copy)]
pub struct Fields<'a> {
    pub line: &'a [u8],
    pub place: usize,
}

impl<'a> Fields<'a> {
    ghost use Rattle.std.specs.Prelude.{◌≡◌, ◌≤◌, length, ◌+◌, cond, drop};
    ghost use Rattle.std.specs.Result.{result_map_both};
    ghost use Rattle.job_line.specs.Bytes.{stands_at};
    ghost use Rattle.job_line.specs.Grammar.{a_word, a_number, a_signed, field_at, next_at, end_at};
    ghost use Rattle.job_line.specs.Said.{token_says};
    ghost use Rattle.job_line.specs.Read.{Reads, Takes, byte_at, bytes_at};

    /// A line of which nothing is read yet.
    pub fn new(line: &'a [u8]) -> Fields<'a>
        ensures line { result.line.now ≡ line.now }
        ensures place { result.place ≡ 0 }
    {
        Fields { line, place: 0 }
    }

    /// What is still to be read.
    fn rest(&self) -> &'a [u8]
        ensures { result.now ≡ drop self.now.place self.now.line.now }
    {
        self.line.get(self.place..).unwrap_or(&[])
    }

    // The refusal of what stands at the place.
    fn malformed(&self) -> Malformed
        ensures { result.place ≡ self.now.place }
    {
        Malformed { place: self.place }
    }

    /// Whether the byte `b` stands next; it is passed if so.
    fn passes(&mut self, b: u8) -> bool
        ensures is { result ≡ stands_at b self.old.line.now self.old.place }
        ensures after { self.new.place ≡ cond result (self.old.place + 1) self.old.place }
        ensures line { self.new.line ≡ self.old.line }
    {
        let stands = self.rest().first() == Some(&b);
        if stands {
            self.place += 1;
        }
        stands
    }

    /// The next `count` bytes, of which there has to be one.
    fn run(&mut self, count: usize) -> Result<&'a [u8], Malformed>
        requires { count ≤ length (drop self.old.place self.old.line.now) }
        ensures { Reads (λ run. run.now) (bytes_at count self.old.line.now self.old.place) self.old result self.new }
    {
        if count == 0 {
            return Err(self.malformed());
        }
        let run = &self.rest()[..count];
        self.place += count;
        Ok(run)
    }

    /// A number.
    fn unsigned(&mut self) -> Result<Token<'a>, Malformed>
        ensures { Reads token_says (field_at Field.Number self.old.line.now self.old.place) self.old result self.new }
    {
        let first = self.place;
        let digits = self.run(leading_digits(self.rest()))?;
        let number = value_of(digits).ok_or(Malformed { place: first })?;
        Ok(Token::Number(number))
    }

    /// A number with or without a minus.
    fn signed(&mut self) -> Result<Token<'a>, Malformed>
        ensures { Reads token_says (field_at Field.Sample self.old.line.now self.old.place) self.old result self.new }
    {
        let first = self.place;
        let minus = self.passes(b'-');
        let digits = self.run(leading_digits(self.rest()))?;
        let sample = value_of(digits)
            .and_then(|size| with_sign(minus, size))
            .ok_or(Malformed { place: first })?;
        Ok(Token::Signed(sample))
    }

    /// A name.
    fn name(&mut self) -> Result<Token<'a>, Malformed>
        ensures { Reads token_says (field_at Field.Name self.old.line.now self.old.place) self.old result self.new }
    {
        let name = self.run(leading_name(self.rest()))?;
        Ok(Token::Word(name))
    }

    // What to read is the grammar's data (`Field` stands in its table of rows), so this is a `match` and takes no closure.
    /// A space and a field. A copy reads on, so that a refusal leaves the place as it was.
    fn token(&mut self, field: Field) -> Result<Token<'a>, Malformed>
        ensures { Takes token_says (next_at field self.old.line.now self.old.place) self.old result self.new }
    {
        let mut ahead = *self;
        if !ahead.passes(b' ') {
            return Err(self.malformed());
        }
        let token = match field {
            Field::Sample => ahead.signed()?,
            Field::Number => ahead.unsigned()?,
            Field::Name => ahead.name()?,
        };
        self.place = ahead.place;
        Ok(token)
    }

    /// The next byte.
    pub fn letter(&mut self) -> Result<u8, Malformed>
        ensures { Takes (λ b. b) (byte_at self.old.line.now self.old.place) self.old result self.new }
    {
        let Some(letter) = self.rest().first() else {
            return Err(self.malformed());
        };
        self.place += 1;
        Ok(*letter)
    }

    // One typed reader for each case of a token: a trait over the three kinds of value would be longer than the readers.
    /// A space and a number.
    pub fn number(&mut self) -> Result<u64, Malformed>
        ensures { Takes a_number (next_at Field.Number self.old.line.now self.old.place) self.old result self.new }
    {
        let Token::Number(n) = self.token(Field::Number)? else {
            unreachable!()
        };
        Ok(n)
    }

    /// A space and a sample.
    pub fn sample(&mut self) -> Result<i64, Malformed>
        ensures { Takes a_signed (next_at Field.Sample self.old.line.now self.old.place) self.old result self.new }
    {
        let Token::Signed(x) = self.token(Field::Sample)? else {
            unreachable!()
        };
        Ok(x)
    }

    /// A space and a name.
    pub fn word(&mut self) -> Result<&'a [u8], Malformed>
        ensures { Takes (λ w. a_word w.now) (next_at Field.Name self.old.line.now self.old.place) self.old result self.new }
    {
        let Token::Word(w) = self.token(Field::Name)? else {
            unreachable!()
        };
        Ok(w)
    }

    /// The end of the line: a refusal if more is still to be read.
    pub fn end(&self) -> Result<(), Malformed>
        ensures { result_map_both (λ done. done) (λ refusal. refusal.place) result
            ≡ end_at self.now.line.now self.now.place }
    {
        if self.place < self.line.len() {
            return Err(self.malformed());
        }
        Ok(())
    }
}
