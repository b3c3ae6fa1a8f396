// How the sheet's reader goes on: a field is read, the position moves, and the counts of entries stay.

#![tactic(auto)]

ghost use Rattle.fields.specs.Field.{number_at, word_at, first_at, line_end_at};
ghost use Rattle.std.specs.Prelude.{◌≡◌};
ghost use Rattle.tables.specs.Entries.{Spacious};
ghost use Rattle.steps.specs.Steps.{moved, told, told_state};

use fields::Refused;
use reader::Reader;
use refusals::Refusal;
use tables::St;

// A request, and the table that its sheet is read into: the table has room for the request's conditions.
// The state stands beside it: each reader asks something else of the state, and hands on a new one.
#[derive(Drop)]
pub struct Filling<'a> {
    pub request: &'a [u8],
    pub table: &'a mut [usize],
    pub ghost spacious: { Spacious request.now table.now },
}

// The next field as a number up to max, and the state after it.
pub fn num(s: &[u8], st: St, max: usize) -> Result<(usize, St), Refused>
    ensures { told result ≡ moved st (number_at s.now st.at max) }
{
    let (v, at) = Reader {
        request: s,
        at: st.at,
    }
    .number_up_to(max)?;
    Ok((v, St { at, ..st }))
}

// The next field as a word.
pub fn letters(s: &[u8], st: St) -> Result<(usize, St), Refused>
    ensures { told result ≡ moved st (word_at s.now st.at) }
{
    let (w, at) = Reader {
        request: s,
        at: st.at,
    }
    .word()?;
    Ok((w, St { at, ..st }))
}

// A line's first field as a word.
pub fn first_word(s: &[u8], st: St) -> Result<(usize, St), Refused>
    ensures { told result ≡ moved st (first_at s.now st.at) }
{
    let (w, at) = Reader {
        request: s,
        at: st.at,
    }
    .first()?;
    Ok((w, St { at, ..st }))
}

// The end of a line.
pub fn end_line(s: &[u8], st: St) -> Result<St, Refused>
    ensures { told_state result ≡ moved st (line_end_at s.now st.at) }
{
    let at = Reader {
        request: s,
        at: st.at,
    }
    .line_end()?;
    Ok(St { at, ..st })
}

// What refuses the field that is due.
pub fn refused(st: St, refusal: Refusal) -> Refused
    ensures { result ≡ record { refusal = refusal; at = st.at } }
{
    Refused { refusal, at: st.at }
}
