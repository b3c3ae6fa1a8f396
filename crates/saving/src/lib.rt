// A sheet that stands in a table, written as text into a buffer that the caller lends.

#![tactic(auto)]

ghost use Rattle.std.specs.Prelude.{◌≡◌, ◌↔◌, IsTrue, ◌+◌, ◌*◌, ◌≤◌, length, get_or};
ghost use Rattle.tables.specs.Entries.{held, people, cells_from, table_long, Spacious, Within};
ghost use Rattle.lines.specs.Sheet.{read_sheet};
ghost use Rattle.refusals.specs.Numbers.{number};
ghost use Rattle.writing.specs.Writable.{read_as};
ghost use Rattle.saving.specs.Comparing.{same_cells, same_sheet};
ghost use Rattle.saving.specs.Saving.{saving, reply_of, bytes_of};

use lines::sheet;
use refusals::Refusal;
use replies::{Reply, answered, declined};
use tables::Sheet;
use texts::put_word;
use writer::{Pen, put_sheet};

// How many cells the header has: participants, and a count for each section.
const HEADER: usize = 6;

// What refuses a sheet that no text reads to.
const UNWRITABLE: Refusal = Refusal::NotDue;

// Whether what the header counts lies within its section.
fn counts_fit(t: &[usize]) -> bool
    requires { table_long ≤ length t.now }
    ensures { IsTrue result ↔ Within t.now }
{
    t[Sheet::DEFS_CELL] <= Sheet::DEFS
        && t[Sheet::NODES_CELL] <= Sheet::NODES
        && t[Sheet::BRANCHES_CELL] <= Sheet::BRANCHES
        && t[Sheet::LISTED_CELL] <= Sheet::LISTED
        && t[Sheet::CELLS_CELL] <= Sheet::CELLS
}

// Whether n cells from a place on are the same in both tables.
fn same_cells(u: &[usize], t: &[usize], from: usize, n: usize) -> bool
    requires { (from + n ≤ length u.now) × (from + n ≤ length t.now) }
    ensures { result ≡ same_cells from n u.now t.now }
{
    u[from..from + n] == t[from..from + n]
}

// Whether both tables hold the same sheet. The first may end with the last cell that it counts: unequal counts are found before that.
fn same_sheet(u: &[usize], t: &[usize]) -> bool
    requires u_in_bounds { cells_from + get_or u.now 5 0 ≤ length u.now }
    requires table_long_in_bounds { (table_long ≤ length t.now) × Within t.now }
    ensures { result ≡ same_sheet u.now t.now }
{
    same_cells(u, t, 0, HEADER)
        && same_cells(
            u,
            t,
            Sheet::NODES_AT,
            Sheet::NODE_WIDE * t[Sheet::NODES_CELL],
        )
        && same_cells(
            u,
            t,
            Sheet::BRANCHES_AT,
            Sheet::BRANCH_WIDE * t[Sheet::BRANCHES_CELL],
        )
        && same_cells(u, t, Sheet::DEFS_AT, Sheet::DEF_WIDE * t[Sheet::DEFS_CELL])
        && same_cells(u, t, Sheet::LISTED_AT, t[Sheet::LISTED_CELL])
        && same_cells(u, t, Sheet::CELLS_AT, t[Sheet::CELLS_CELL])
}

// Whether the text reads to the sheet that the table t holds, and nothing stands behind it; u is a table that serves for reading it.
fn reads_back_in(s: &[u8], u: &mut [usize], t: &[usize]) -> bool
    requires s_len_bound { (length s.now ≤ 65536) × Spacious s.now u.old }
    requires table_long_in_bounds { (table_long ≤ length t.now) × Within t.now }
    ensures { result ≡ read_as (length s.now) (people t.now) (held t.now) (read_sheet s.now) }
{
    match sheet(s, u) {
        Ok(at) => at == s.len() && same_sheet(u, t),
        Err(_) => false,
    }
}

// The same with a table of N cells of its own. Each array is in a function of its own: so they have the same place on the stack.
fn reads_back_within<const N: usize>(s: &[u8], t: &[usize]) -> bool
    requires s_len_bound { (length s.now ≤ 65536) × (2 * cells_from + length s.now ≤ 2 * N) }
    requires n_bound { N ≤ table_long }
    requires table_long_in_bounds { (table_long ≤ length t.now) × Within t.now }
    ensures { result ≡ read_as (length s.now) (people t.now) (held t.now) (read_sheet s.now) }
{
    let mut u = [0usize; N];
    reads_back_in(s, &mut u, t)
}

// The same with a table that is shorter for a shorter text.
fn reads_back(s: &[u8], t: &[usize]) -> bool
    requires s_len_bound { length s.now ≤ 65536 }
    requires table_long_in_bounds { (table_long ≤ length t.now) × Within t.now }
    ensures { result ≡ read_as (length s.now) (people t.now) (held t.now) (read_sheet s.now) }
{
    if s.len() <= Sheet::SHORT {
        reads_back_within::<{ Sheet::SHORT_TABLE }>(s, t)
    } else if s.len() <= Sheet::MIDDLE {
        reads_back_within::<{ Sheet::MIDDLE_TABLE }>(s, t)
    } else {
        reads_back_within::<{ Sheet::TABLE }>(s, t)
    }
}

// A refusal, which leaves the buffer as it was.
fn refused(refusal: Refusal) -> Reply
    ensures { result ≡ record { number = number refusal; line = 0; field = 0; length = 0 } }
{
    declined(refusal.number(), 0, 0)
}

// The sheet that the table holds, written as text at the start of the buffer; the bytes behind it stay.
pub fn write_sheet(t: &[usize], text: &mut [u8]) -> Reply
    ensures value { result ≡ reply_of (saving t.now (length text.old)) }
    ensures text_after { text.new ≡ bytes_of text.old (saving t.now (length text.old)) }
{
    if t.len() < Sheet::TABLE {
        return refused(UNWRITABLE);
    }
    if !counts_fit(t) {
        return refused(UNWRITABLE);
    }
    let mut s = [0u8; Pen::BUFFER];
    let Some(n) = put_sheet(t, &mut s) else {
        return refused(UNWRITABLE);
    };
    if !reads_back(&s[..n], t) {
        return refused(UNWRITABLE);
    }
    if text.len() < n {
        return refused(Refusal::ShortText);
    }
    let e = put_word(text, 0, &s[..n]);
    answered(e)
}
