// A request's fields: a field's end, a number, a word, a line's end. A position is an index of the request.

#![tactic(auto)]

ghost use Rattle.std.specs.Prelude.{◌≡◌, true, ◌+◌, ◌≤◌, ◌<◌, length, drop};
ghost use Rattle.fields.specs.Run.{run_at, ends_at};
ghost use Rattle.fields.specs.Field.{Value, after_comma, field_len, packed, packed_of, any_at, word_from, word_at, first_at, line_end_at};
ghost use Rattle.fields.specs.Told.{told, told_end};

use refusals::Refusal;

const COMMA: u8 = b',';

const LF: u8 = b'\n';

// A number has so many digits at most, and a word so many letters.
const DIGITS: usize = 19;

const LETTERS: usize = 7;

// What digits spell, and the position behind them.
#[derive(Clone, Copy)]
pub struct Run {
    pub value: usize,
    pub end: usize,
}

// What refuses a request, and the position before the field at which it does.
#[derive(Clone, Copy, PartialEq, Eq)]
pub struct Refused {
    pub refusal: Refusal,
    pub at: usize,
}

// The position of the comma or LF that ends the field at `at`, or the request's end.
pub fn field_end(s: &[u8], at: usize) -> usize
    requires { at ≤ length s.now }
    ensures { result ≡ at + field_len (drop at s.now) }
{
    for i in at..s.len() {
        if s[i] == COMMA || s[i] == LF {
            return i;
        }
    }
    s.len()
}

// Where the digits of a number that starts at `from` end at the latest.
fn latest(from: usize, end: usize) -> usize
    requires { from ≤ end }
    ensures { (from ≤ result) × (result ≤ end) × (result ≤ from + 19) × (result < from + 19 → result ≡ end) }
{
    from + DIGITS.min(end - from)
}

// The digits that stand from `from` on, up to 19 of them.
fn digits(s: &[u8], from: usize) -> Run
    requires { from ≤ length s.now }
    ensures { result ≡ run_at s.now from }
{
    let stop = latest(from, s.len());
    let mut v: usize = 0;
    for i in from..stop {
        let b = s[i];
        match b {
            b'0'..=b'9' => v = v * 10 + usize::from(b - b'0'),
            _ => return Run { value: v, end: i },
        }
    }
    Run {
        value: v,
        end: stop,
    }
}

// Whether a field ends at `at`: a comma or an LF stands there, or nothing.
fn ends(s: &[u8], at: usize) -> bool
    ensures { result ≡ ends_at s.now at }
{
    s.len() <= at || s[at] == COMMA || s[at] == LF
}

// Where the field after a comma at `at` starts.
fn after_comma(s: &[u8], at: usize) -> Result<usize, Refused>
    ensures { told_end result ≡ after_comma s.now at (Value 0 (at + 1)) }
{
    if s.len() <= at || s[at] != COMMA {
        return Err(Refused {
            refusal: Refusal::Missing,
            at,
        });
    }
    Ok(at + 1)
}

// The field after a comma at `at`, as a number.
pub fn number(s: &[u8], at: usize) -> Result<(usize, usize), Refused>
    ensures { told result ≡ any_at s.now at }
{
    let from = after_comma(s, at)?;
    let g = digits(s, from);
    if g.end == from || !ends(s, g.end) || (from + 1 < g.end && s[from] == b'0') {
        return Err(Refused {
            refusal: Refusal::NotDue,
            at,
        });
    }
    Ok((g.value, g.end))
}

// A short text as a number in base 256.
fn pack(text: &[u8]) -> usize
    requires { length text.now ≤ 7 }
    ensures { result ≡ packed 0 text.now }
{
    let mut v: usize = 0;
    for &b in text {
        v = v * 256 + usize::from(b);
    }
    v
}

// A word's number, which no other text has. A text with more letters, or one that starts with a zero byte, is no word: 0, and no option, as words
// are matched by their numbers and none has this one.
fn packed_of(text: &[u8]) -> usize
    ensures { result ≡ packed_of text.now }
{
    if text.is_empty() || LETTERS < text.len() || text[0] == 0 {
        return 0;
    }
    pack(text)
}

// The word that starts at `from`.
fn bare_word(s: &[u8], from: usize) -> Result<(usize, usize), Refused>
    requires { from ≤ length s.now }
    ensures { told result ≡ word_from s.now from }
{
    // Most words are one letter with a comma behind it.
    if 1 < s.len() - from && s[from + 1] == COMMA && s[from] != COMMA && s[from] != LF {
        return Ok((usize::from(s[from]), from + 1));
    }
    let end = field_end(s, from);
    Ok((packed_of(&s[from..end]), end))
}

// The field after a comma at `at`, as a word.
pub fn word(s: &[u8], at: usize) -> Result<(usize, usize), Refused>
    ensures { told result ≡ word_at s.now at }
{
    bare_word(s, after_comma(s, at)?)
}

// The end of the field that starts at `from`. Most events' words are four letters with a comma behind them, and a byte above a comma is no LF.
fn word_end(s: &[u8], from: usize) -> usize
    requires { from ≤ length s.now }
    ensures { result ≡ from + field_len (drop from s.now) }
{
    if 4 < s.len() - from
        && s[from] > COMMA
        && s[from + 1] > COMMA
        && s[from + 2] > COMMA
        && s[from + 3] > COMMA
        && s[from + 4] == COMMA
    {
        return from + 4;
    }
    field_end(s, from)
}

// A line's first field, as a word. No line has one of one letter, so none is looked for.
pub fn first(s: &[u8], at: usize) -> Result<(usize, usize), Refused>
    ensures { told result ≡ first_at s.now at }
{
    if s.len() <= at {
        return Err(Refused {
            refusal: Refusal::Missing,
            at,
        });
    }
    let end = word_end(s, at);
    Ok((packed_of(&s[at..end]), end))
}

// The LF at `at`.
pub fn line_end(s: &[u8], at: usize) -> Result<usize, Refused>
    ensures { told_end result ≡ line_end_at s.now at }
{
    match s.get(at) {
        Some(&LF) => Ok(at + 1),
        Some(_) => Err(Refused {
            refusal: Refusal::TooMany,
            at,
        }),
        None => Err(Refused {
            refusal: Refusal::Missing,
            at,
        }),
    }
}
