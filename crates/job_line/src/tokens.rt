// The bytes of a job line, and the tokens that they write.
ghost use Rattle.std.specs.Prelude.{◌≡◌, ℕ, ◌+◌, ◌-◌, ◌*◌, ◌≤◌, length};
ghost use Rattle.std.specs.List.{prefix_len};
ghost use Rattle.job_line.specs.Bytes.{is_digit, is_name, fits64, fits64_signed, value_of_digits};

/// A word or a number of a line; a word borrows its bytes from the line.
#[derive(Clone, Copy)]
pub enum Token<'a> {
    Word(&'a [u8]),
    Number(u64),
    Signed(i64),
}

/// What stands in a field.
#[derive(Clone, Copy)]
pub enum Field {
    Sample,
    Number,
    Name,
}

/// Whether the byte is a decimal digit.
fn is_digit(b: u8) -> bool
    ensures { result ≡ is_digit b }
{
    b.is_ascii_digit()
}

/// Whether the byte may stand in a name.
fn is_name(b: u8) -> bool
    ensures { result ≡ is_name b }
{
    b.is_ascii_digit() || b.is_ascii_lowercase()
}

// One function for each class of bytes. Taking the test as a closure gives a relation, where the definition takes a function;
// a trait over the classes would be longer than the functions.
/// How many digits stand in front.
pub(crate) fn leading_digits(bytes: &[u8]) -> usize
    ensures is { result ≡ prefix_len is_digit bytes.now }
    ensures within { result ≤ length bytes.now }
{
    bytes.iter().take_while(|b| is_digit(**b)).count()
}

/// How many bytes of a name stand in front.
pub(crate) fn leading_name(bytes: &[u8]) -> usize
    ensures is { result ≡ prefix_len is_name bytes.now }
    ensures within { result ≤ length bytes.now }
{
    bytes.iter().take_while(|b| is_name(**b)).count()
}

/// The number with one more digit, if 64 bits hold it.
fn with_digit(value: u64, b: u8) -> Option<u64>
    ensures { result ≡ fits64 (value * 10 + (b - 48)) }
{
    let digit = u64::from(b.saturating_sub(b'0'));
    value.checked_mul(10)?.checked_add(digit)
}

/// The number that the digits write, if 64 bits hold it.
pub(crate) fn value_of(digits: &[u8]) -> Option<u64>
    ensures { result ≡ fits64 (value_of_digits digits.now) }
{
    digits.iter().try_fold(0, |value, b| with_digit(value, *b))
}

/// The number with or without a minus, if 64 bits hold it as a signed number.
// A flag beside the size: these two are what a line writes, and the grammar's definition takes them so.
pub(crate) fn with_sign(minus: bool, size: u64) -> Option<i64>
    ensures { result ≡ fits64_signed minus size }
{
    if minus {
        0i64.checked_sub_unsigned(size)
    } else {
        0i64.checked_add_unsigned(size)
    }
}
