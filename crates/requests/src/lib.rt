// The last part of a request: `make`, `makeall`, `why`, `check` with its rows, `play` with its values.

#![tactic(auto, unfolding(crate::specs::Part::value_at, crate::specs::Part::participant_at, crate::specs::Part::last_participant_at, crate::specs::Part::make_at, crate::specs::Part::make_all_at, crate::specs::Part::why_at, crate::specs::Part::check_at, crate::specs::Part::play_at, crate::specs::Part::last_part_at, crate::specs::Rows::row_numbers_at, fields::specs::Field::when_read))]

ghost use Rattle.std.specs.Prelude.{◌≡◌, ◌≤◌, ◌<◌, length};
ghost use Rattle.fields.specs.Told.{told, told_end};
ghost use Rattle.tables.specs.Entries.{cells_from, most_nodes};
ghost use Rattle.buffer.specs.Buffer.{numbers_of_one};
ghost use Rattle.requests.specs.Commitment.{told as told_value};
ghost use Rattle.requests.specs.LastPart.{told as told_part};
ghost use Rattle.requests.specs.Part.{last_part_at, make_all_at, play_at, participant_at, last_participant_at, value_at, past_value_at, past_values_at};
ghost use Rattle.requests.specs.RowLine.{told as told_line};
ghost use Rattle.requests.specs.Rows.{count_in, row_numbers_at, rows_at, RowsHeld};

use buffer::{Row, put_row};
use fields::Refused;
use reader::Reader;
use refusals::Refusal;
use tables::Sheet;

const MAKE: usize = ((b'm' as usize * 256 + b'a' as usize) * 256 + b'k' as usize) * 256
    + b'e' as usize;

pub const MAKEALL: usize = ((MAKE * 256 + b'a' as usize) * 256 + b'l' as usize) * 256
    + b'l' as usize;

const WHY: usize = (b'w' as usize * 256 + b'h' as usize) * 256 + b'y' as usize;

const CHECK: usize = (((b'c' as usize * 256 + b'h' as usize) * 256 + b'e' as usize) * 256
    + b'c' as usize)
    * 256
    + b'k' as usize;

const PLAY: usize = ((b'p' as usize * 256 + b'l' as usize) * 256 + b'a' as usize) * 256
    + b'y' as usize;

const ROW: usize = (b'r' as usize * 256 + b'o' as usize) * 256 + b'w' as usize;

const X: usize = b'x' as usize;

// The largest value of a secret, the largest rank, the most rows.
const VALUE: usize = 1000000000;

const RANK: usize = 65535;

const ROWS: usize = 512;

// The last part's first line.
#[derive(Clone, Copy)]
pub enum Part {
    // The participant.
    Make(usize),
    MakeAll,
    // The participant.
    Why(usize),
    // The participant, and where the rows start.
    Check(usize, usize),
    // Where the values start, and where the events do.
    Play(usize, usize),
}

// ---- values of secrets

// The field that is due, as a secret's value: none where it is `x`.
pub fn value_at(r: Reader) -> Result<(Option<usize>, usize), Refused>
    ensures { told_value result ≡ value_at r.entry.request.now r.entry.at }
{
    let (w, end) = r.word()?;
    if w == X {
        return Ok((None, end));
    }
    let (v, end) = r.number_up_to(VALUE)?;
    Ok((Some(v), end))
}

// The position after a secret's value.
#[tactic(auto, using(crate::proofs::Laws::past_committed), unfolding(crate::specs::Part::past_value_at, crate::specs::Part::past_of))]
pub fn past_value(r: Reader) -> Result<usize, Refused>
    ensures { told_end result ≡ past_value_at r.entry.request.now r.entry.at }
{
    let (_, end) = value_at(r)?;
    Ok(end)
}

// The position after n values.
#[tactic(auto, using(crate::proofs::Laws::values_on, crate::proofs::Laws::values_bad, crate::proofs::Laws::values_end))]
fn past_values(r: Reader, n: usize) -> Result<usize, Refused>
    ensures { told_end result ≡ past_values_at r.entry.request.now n r.entry.at }
{
    let mut at = r.at;
    for _ in 0..n {
        at = past_value(Reader { at, ..r })?;
    }
    Ok(at)
}

// ---- the last part's first line

// A participant, alone to the line's end.
fn participant(r: Reader, people: usize) -> Result<(usize, usize), Refused>
    ensures { told result ≡ participant_at r.entry.request.now people r.entry.at }
{
    let (p, at) = r.number_below(people)?;
    let end = Reader { at, ..r }.line_end()?;
    Ok((p, end))
}

// A participant, alone to the request's end.
fn last_participant(r: Reader, people: usize) -> Result<(usize, usize), Refused>
    ensures { told result ≡ last_participant_at r.entry.request.now people r.entry.at }
{
    let (p, end) = participant(r, people)?;
    if end < r.request.len() {
        return Err(Refused {
            refusal: Refusal::TooMany,
            at: end,
        });
    }
    Ok((p, end))
}

// `makeall`, after its word.
fn make_all_part(r: Reader) -> Result<Part, Refused>
    ensures { told_part result ≡ make_all_at r.entry.request.now r.entry.at }
{
    let end = r.line_end()?;
    if end < r.request.len() {
        return Err(Refused {
            refusal: Refusal::TooMany,
            at: end,
        });
    }
    Ok(Part::MakeAll)
}

// `play`, after its word.
fn play_part(r: Reader, secrets: usize) -> Result<Part, Refused>
    ensures { told_part result ≡ play_at r.entry.request.now secrets r.entry.at }
{
    let at = past_values(r, secrets)?;
    let end = Reader { at, ..r }.line_end()?;
    Ok(Part::Play(r.at, end))
}

// The last part's first line, which starts where the reader is. Definition 0 has so many secrets.
pub fn last_part(r: Reader, people: usize, secrets: usize) -> Result<Part, Refused>
    ensures { told_part result ≡ last_part_at r.entry.request.now people secrets r.entry.at }
{
    let (w, at) = r.first()?;
    let rest = Reader { at, ..r };
    match w {
        MAKE => {
            let (p, _) = last_participant(rest, people)?;
            Ok(Part::Make(p))
        }
        MAKEALL => make_all_part(rest),
        WHY => {
            let (p, _) = last_participant(rest, people)?;
            Ok(Part::Why(p))
        }
        CHECK => {
            let (p, end) = participant(rest, people)?;
            Ok(Part::Check(p, end))
        }
        PLAY => play_part(rest, secrets),
        _ => Err(r.refused(Refusal::NotDue)),
    }
}

// ---- rows

// How many branches a node has.
pub fn branch_count(t: &[usize], node: usize) -> usize
    requires cells_from_in_bounds { cells_from ≤ length t.now }
    requires node_lt_most_nodes { node < most_nodes }
    ensures { result ≡ count_in t.now node }
{
    t[Sheet::NODES_AT + 3 + Sheet::NODE_WIDE * node]
}

// A line `row`, after its word.
fn row_numbers(r: Reader, t: &[usize], nodes: usize) -> Result<(Row, usize), Refused>
    requires cells_from_in_bounds { cells_from ≤ length t.now }
    requires nodes_le_most_nodes { nodes ≤ most_nodes }
    ensures { told_line result ≡ row_numbers_at r.entry.request.now (count_in t.now) nodes r.entry.at }
{
    let (node, at) = r.number_below(nodes)?;
    let (branch, at) = Reader { at, ..r }.number_below(branch_count(t, node))?;
    let (rank, at) = Reader { at, ..r }.number_between(1, RANK)?;
    let end = Reader { at, ..r }.line_end()?;
    Ok((Row { node, branch, rank }, end))
}

// The rows of `check`, whose lines start where the reader is: how many, and the request's end. The buffer holds them, and past them what it
// held.
pub fn rows(
    r: Reader,
    t: &[usize],
    nodes: usize,
    buffer: &mut [usize],
) -> Result<(usize, usize), Refused>
    requires cells_from_in_bounds { cells_from ≤ length t.now }
    requires nodes_le_most_nodes { nodes ≤ most_nodes }
    requires numbers_of_one_in_bounds { numbers_of_one ≤ length buffer.old }
    ensures { RowsHeld (rows_at r.entry.request.now (count_in t.now) nodes r.entry.at) (told result) buffer.old buffer.new }
{
    // A line's end says where the next one starts.
    let mut at = r.at;
    let mut i = 0;
    while at < r.request.len() {
        let line = Reader { at, ..r };
        let (w, end) = line.first()?;
        if w != ROW {
            return Err(line.refused(Refusal::NotDue));
        }
        if i == ROWS {
            return Err(line.refused(Refusal::OverLimit));
        }
        let (row, next) = row_numbers(Reader { at: end, ..r }, t, nodes)?;
        put_row(buffer, i, row);
        i += 1;
        at = next;
    }
    Ok((i, at))
}
