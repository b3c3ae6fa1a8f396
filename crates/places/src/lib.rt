// Where a refusal stands: the line and field of a position; and where the sheet's limit on bytes is passed.

#![tactic(auto)]

ghost use Rattle.std.specs.Prelude.{count_by, ◌==◌, ◌≡◌, ◌+◌, ◌≤◌, ◌<◌, ◌^◌, length};
ghost use Rattle.places.specs.Places.{place_of, passing_of};
ghost use Rattle.places.specs.Counting.{start_of, field_in};

const COMMA: u8 = b',';

const LF: u8 = b'\n';

// A line and a field, both from 1.
#[derive(Clone, Copy)]
pub struct Place {
    pub line: usize,
    pub field: usize,
}

// How many of some bytes are b. A sum of 32 bits counts more at once: with `filter(..).count()` a place takes 7 times the instructions.
fn count(s: &[u8], b: u8) -> usize
    requires { length s.now ≤ 65536 }
    ensures value { result ≡ count_by (λ x. x == b) s.now }
    ensures upper_bound { result < 2 ^ 32 }
{
    let n: u32 = s.iter().map(|x| u32::from(*x == b)).sum();
    n as usize
}

// Where the last line of some bytes starts.
fn line_start(s: &[u8]) -> usize
    ensures { (result ≡ start_of s.now (length s.now)) × (result ≤ length s.now) }
{
    match s.iter().rposition(|x| *x == LF) {
        Some(i) => i + 1,
        None => 0,
    }
}

// The field that is due behind some bytes of a line.
fn field_in(line: &[u8]) -> usize
    requires { length line.now ≤ 65536 }
    ensures { result ≡ field_in line.now 0 (length line.now) }
{
    if line.is_empty() {
        return 1;
    }
    2 + count(line, COMMA)
}

// The place of a position: its line, and the number of the field that is due there. Past the end it is the end's. That a request is not too long
// stands in the contracts: a type for it would be taken apart wherever a field is read, which asks nothing of its length.
pub fn place_of(s: &[u8], at: usize) -> Place
    requires { length s.now ≤ 65536 }
    ensures { result ≡ place_of s.now at }
{
    let before = &s[..at.min(s.len())];
    let start = line_start(before);
    Place {
        line: 1 + count(before, LF),
        field: field_in(&before[start..]),
    }
}

// The position before the last field that starts within the first n bytes: the comma before it, or the byte behind an LF. It is near the
// end of these bytes, so it is looked for from there.
pub fn passing(s: &[u8], n: usize) -> usize
    requires { (n ≤ length s.now) × (n < 2 ^ 63) }
    ensures { result ≡ passing_of s.now n }
{
    let Some(i) = s[..n].iter().rposition(|x| matches!(*x, COMMA | LF)) else {
        return 0;
    };
    if s[i] == LF { i + 1 } else { i }
}
