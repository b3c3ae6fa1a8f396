// A text of line 1 and `def` lines, read into a table that the caller lends.

#![tactic(auto)]

ghost use Rattle.std.specs.Prelude.{◌≡◌, ◌≤◌, length, replicate};
ghost use Rattle.tables.specs.Entries.{held, people, table_long};
ghost use Rattle.reading.specs.Promises.{Sizes};
ghost use Rattle.refusals.specs.Numbers.{number};
ghost use Rattle.loading.specs.Table.{table_of};
ghost use Rattle.loading.specs.Loading.{refused_at, loading, reply_to, cells_of};

use buffer::clear;
use fields::Refused;
use lines::sheet;
use places::place_of;
use refusals::Refusal;
use replies::{BYTES, Reply, answered, declined};
use tables::Sheet;

// Every cell past what the table holds becomes zero, from the last section to the header's spare cells.
#[tactic(auto, using(crate::proofs::Table::sizes_within))]
fn clear_rest(t: &mut [usize])
    requires table_long_in_bounds { table_long ≤ length t.old }
    requires sizes { Sizes (people t.old) (held t.old) }
    ensures { t.new ≡ table_of (length t.old) (people t.old) (held t.old) }
{
    let defs = t[Sheet::DEFS_CELL];
    let nodes = t[Sheet::NODES_CELL];
    let branches = t[Sheet::BRANCHES_CELL];
    let listed = t[Sheet::LISTED_CELL];
    let cells = t[Sheet::CELLS_CELL];
    t[Sheet::CELLS_AT + cells..].fill(0);
    t[Sheet::LISTED_AT + listed..Sheet::CELLS_AT].fill(0);
    t[Sheet::DEFS_AT + Sheet::DEF_WIDE * defs..Sheet::LISTED_AT].fill(0);
    t[Sheet::BRANCHES_AT + Sheet::BRANCH_WIDE * branches..Sheet::DEFS_AT].fill(0);
    t[Sheet::NODES_AT + Sheet::NODE_WIDE * nodes..Sheet::BRANCHES_AT].fill(0);
    t[Sheet::CELLS_CELL + 1..Sheet::NODES_AT].fill(0);
}

// A refusal leaves nothing in the table.
fn refuse(t: &mut [usize], refusal: Refusal, line: usize, field: usize) -> Reply
    ensures value { result ≡ record { number = number refusal; line = line; field = field; length = 0 } }
    ensures t_after { t.new ≡ replicate (length t.old) 0 }
{
    clear(t);
    declined(refusal.number(), line, field)
}

// A refusal, before whose field a position stands.
fn refuse_at(s: &[u8], t: &mut [usize], e: Refused) -> Reply
    requires { length s.now ≤ 65536 }
    ensures value { result ≡ reply_to s.now (refused_at s.now (number e.refusal) e.at) }
    ensures t_after { t.new ≡ cells_of (length t.old) (refused_at s.now (number e.refusal) e.at) }
{
    let p = place_of(s, e.at);
    refuse(t, e.refusal, p.line, p.field)
}

// A text of line 1 and `def` lines and nothing behind, read into the table, whatever it held.
pub fn read_sheet(s: &[u8], t: &mut [usize]) -> Reply
    ensures value { result ≡ reply_to s.now (loading s.now (length t.old)) }
    ensures t_after { t.new ≡ cells_of (length t.old) (loading s.now (length t.old)) }
{
    if BYTES < s.len() {
        return refuse(t, Refusal::TooLong, 0, 0);
    }
    if t.len() < Sheet::TABLE {
        return refuse(t, Refusal::OverLimit, 0, 0);
    }
    match sheet(s, t) {
        Ok(at) => {
            if at != s.len() {
                let refusal = Refusal::TooMany;
                return refuse_at(s, t, Refused { refusal, at });
            }
            clear_rest(t);
            answered(s.len())
        }
        Err(e) => refuse_at(s, t, e),
    }
}
