// A series over packed bytes that it is lent.
ghost use Rattle.std.specs.Prelude.{◌≡◌, ℕ, ◌+◌, ◌*◌, ◌≤◌, length, pos, IfOk, slice_index_or, unsigned_abs};
ghost use Rattle.std.specs.Iterator.{YieldsFirst, item_count};
ghost use Rattle.std.specs.Result.{result_err};
ghost use Rattle.series.specs.Limits.{fullest, largest};
ghost use Rattle.series.specs.Seen.{Seen, all};
ghost use Rattle.series.specs.Listed.{listed, listed-Lawful};
ghost use Rattle.series.specs.Packed.{unpacked, first_beyond, packed_refusal, RefusalTells};

use crate::fault::{Cause, Fault, Layer};
use crate::form::Series;
use crate::store::{FULLEST, LARGEST, in_range};

/// Samples of four bytes each, least byte first, two's complement, all of them in range.
#[derive(Clone, Copy)]
pub struct Packed<'a> {
    bytes: &'a [u8],
    ghost few: { length (unpacked bytes.now) ≤ fullest },
    ghost small: { (k : ℕ) → unsigned_abs (slice_index_or (unpacked bytes.now) k (pos 0)) ≤ largest },
}

// The samples of some bytes, taken off the front.
#[derive(Clone, Copy)]
struct Samples<'a>(&'a [u8]);

impl<'a> Iterator for Samples<'a> {
    type Item = i64;

    ghost next_gives = { YieldsFirst (λ s. unpacked s.0.now) };

    ghost remaining = { item_count (λ s. unpacked s.0.now) };

    fn next(&mut self) -> Option<i64> {
        match self.0 {
            [b0, b1, b2, b3, rest @ ..] => {
                self.0 = rest;
                Some(i64::from(i32::from_le_bytes([*b0, *b1, *b2, *b3])))
            }
            _ => None,
        }
    }
}

// The place of the first sample out of range.
fn first_beyond(bytes: &[u8]) -> Option<usize>
    ensures { result ≡ first_beyond (unpacked bytes.now) }
{
    Samples(bytes).position(|sample| !in_range(sample))
}

// Whether bytes are accepted, or why not.
fn check(bytes: &[u8]) -> Result<(), Fault>
    ensures { result_err result ≡ packed_refusal bytes.now }
{
    if bytes.len() % 4 != 0 {
        return Err(Layer::Series.refusal(Cause::MalformedBytes, 0));
    }
    if bytes.len() > 4 * FULLEST {
        return Err(Layer::Series.refusal(Cause::Full, 0));
    }
    match first_beyond(bytes) {
        Some(place) => Err(Layer::Series.refusal(Cause::OutOfRange, place as u64)),
        None => Ok(()),
    }
}

// The sample at a place: the bytes before it are cut off.
fn sample_at(bytes: &[u8], place: usize) -> i64
    requires { 4 * place + 4 ≤ length bytes.now }
    ensures { result ≡ slice_index_or (unpacked bytes.now) place (pos 0) }
{
    Samples(&bytes[4 * place..]).next().unwrap()
}

impl<'a> Packed<'a> {
    /// The samples of some bytes, or why they are refused.
    // No `TryFrom`: its one member would fold the three clauses into one.
    pub fn new(bytes: &'a [u8]) -> Result<Packed<'a>, Fault>
        ensures why { result_err result ≡ packed_refusal bytes.now }
        ensures tells { RefusalTells bytes.now (result_err result) }
        ensures made { IfOk result (λ p. ⟦<Packed<'a> as Series>⟧.seen p ≡ listed (unpacked bytes.now)) }
    {
        check(bytes)?;
        Ok(Packed { bytes })
    }
}

impl<'a> Series for Packed<'a> {
    ghost seen = { λ p. listed (unpacked p.bytes.now) };

    ghost laws = { all (λ p. listed-Lawful (unpacked p.bytes.now) p.few p.small) };

    fn length(&self) -> usize {
        self.bytes.len() / 4
    }

    fn reach(&self) -> u64 {
        LARGEST as u64
    }

    fn sample(&self, place: usize) -> Result<i64, Fault> {
        if place >= self.length() {
            return Err(Fault::no_such_place(place));
        }
        Ok(sample_at(self.bytes, place))
    }
}
