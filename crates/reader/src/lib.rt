// A reader that goes field by field over the whole request: it holds the request and a position. Every field of a request is read through it;
// the work on bytes is done by `fields`. What is read comes with the position behind it.

#![tactic(auto)]

ghost use Rattle.std.specs.Prelude.{◌≡◌};
ghost use Rattle.fields.specs.Field.{any_at, number_at, below_at, between_at, word_at, first_at, line_end_at};
ghost use Rattle.fields.specs.Told.{told, told_end};

use fields::{Refused, first, line_end, number, word};
use refusals::Refusal;

// The largest number of 19 digits, which is all that a number has at most.
const ANY: usize = 9999999999999999999;

#[derive(Clone, Copy)]
pub struct Reader<'a> {
    pub request: &'a [u8],
    pub at: usize,
}

impl<'a> Reader<'a> {
    // The field that is due, as a number.
    pub fn number(self) -> Result<(usize, usize), Refused>
        ensures { told result ≡ any_at self.entry.request.now self.entry.at }
    {
        number(self.request, self.at)
    }

    // The field that is due, as a number up to max.
    pub fn number_up_to(self, max: usize) -> Result<(usize, usize), Refused>
        ensures { told result ≡ number_at self.entry.request.now self.entry.at max }
    {
        let (v, end) = self.number()?;
        if max < v {
            return Err(self.refused(Refusal::OutOfRange));
        }
        Ok((v, end))
    }

    // The field that is due, as the number of one of n things.
    pub fn number_below(self, n: usize) -> Result<(usize, usize), Refused>
        ensures { told result ≡ below_at self.entry.request.now self.entry.at n }
    {
        let (v, end) = self.number_up_to(ANY)?;
        if n <= v {
            return Err(self.refused(Refusal::Unknown));
        }
        Ok((v, end))
    }

    // The field that is due, as a number from low to high.
    pub fn number_between(self, low: usize, high: usize) -> Result<(usize, usize), Refused>
        ensures { told result ≡ between_at self.entry.request.now self.entry.at low high }
    {
        let (v, end) = self.number_up_to(high)?;
        if v < low {
            return Err(self.refused(Refusal::OutOfRange));
        }
        Ok((v, end))
    }

    // The field that is due, as a word.
    pub fn word(self) -> Result<(usize, usize), Refused>
        ensures { told result ≡ word_at self.entry.request.now self.entry.at }
    {
        word(self.request, self.at)
    }

    // A line's first field, as a word.
    pub fn first(self) -> Result<(usize, usize), Refused>
        ensures { told result ≡ first_at self.entry.request.now self.entry.at }
    {
        first(self.request, self.at)
    }

    // The position behind the LF that is due.
    pub fn line_end(self) -> Result<usize, Refused>
        ensures { told_end result ≡ line_end_at self.entry.request.now self.entry.at }
    {
        line_end(self.request, self.at)
    }

    // What refuses the field that is due.
    pub fn refused(self, refusal: Refusal) -> Refused
        ensures { result ≡ record { refusal = refusal; at = self.entry.at } }
    {
        Refused {
            refusal,
            at: self.at,
        }
    }
}
