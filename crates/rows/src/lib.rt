// Rows that anyone gives are accepted, or the first fault is found.

#![tactic(auto)]

ghost use Rattle.std.specs.Prelude.{◌≡◌, [], ℕ, suc, ◌≤◌, ◌<◌, length, get_or, OnOk};
ghost use Rattle.bitml.specs.Lists.{every};
ghost use Rattle.bitml.specs.Rows.{faulty};
ghost use Rattle.bitml.specs.Rows as bitml;
ghost use Rattle.tables.specs.Entries.{held, people};
ghost use Rattle.tables.specs.SheetOf.{branch_numbers, branch_count, part_numbers, sheet_in};
ghost use Rattle.buffer.specs.Buffer.{as_row, rows_of};
ghost use Rattle.requests.specs.Rows.{most_rank};
ghost use Rattle.refusals.specs.Numbers.{told};
ghost use Rattle.order.specs.Nodes.{Known, has_by, fault_told};
ghost use Rattle.rows.specs.Given.{RowsFit, next_by, rank_sum, fault_by, answer_of, buffer_of, as_checked};

use buffer::{Row, clear_past, row_at};
use order::Fault;
use owning::own;
use refusals::Refusal;
use sheets::Index;
use tables::{Kind, Sheet};

// Rows that are accepted: how many, and the rank of node 0.
#[derive(Clone, Copy, PartialEq, Eq)]
pub struct Accepted {
    pub count: usize,
    pub rank: usize,
}

// All parts of branch b have rows.
fn has_parts(index: Index, ranks: &[usize; Sheet::NODES], b: usize) -> bool
    requires b_in_bounds { b < length (held index.table.cells.now).branches }
    ensures { result ≡ every (has_by ranks.now) (part_numbers (held index.entry.table.cells.now) b) }
{
    index.parts_of(b).iter().all(|&m| ranks[m] != 0)
}

// All that a step by branch b leads to has rows.
fn has_next(index: Index, ranks: &[usize; Sheet::NODES], b: usize) -> bool
    requires b_in_bounds { b < length (held index.table.cells.now).branches }
    ensures { result ≡ next_by (people index.entry.table.cells.now) (held index.entry.table.cells.now) ranks.now b }
{
    let branch = index.table.branch(b);
    match branch.kind {
        Kind::Renew => ranks[index.table.definition(branch.arg).root] != 0,
        _ => has_parts(index, ranks, b),
    }
}

// All that a step from node n leads to has rows.
fn has_node(index: Index, ranks: &[usize; Sheet::NODES], n: usize) -> bool
    requires n_in_bounds { n < length (held index.table.cells.now).nodes }
    ensures { result ≡ every (next_by (people index.entry.table.cells.now) (held index.entry.table.cells.now) ranks.now) (branch_numbers (held index.entry.table.cells.now) n) }
{
    index
        .branches_of(n)
        .iter()
        .all(|&b| has_next(index, ranks, b))
}

// One more than the ranks of the parts of branch b.
fn least(index: Index, ranks: &[usize; Sheet::NODES], b: usize) -> usize
    requires b_in_bounds { b < length (held index.table.cells.now).branches }
    requires by_index { (m : ℕ) → get_or ranks.now m 0 ≤ most_rank }
    ensures { result ≡ suc (rank_sum ranks.now (part_numbers (held index.entry.table.cells.now) b)) }
{
    1 + index.parts_of(b).iter().map(|&m| ranks[m]).sum::<usize>()
}

// What is wrong with a row.
fn wrong(index: Index, p: usize, ranks: &[usize; Sheet::NODES], row: Row) -> Option<Refusal>
    requires p_bound { (p < people index.table.cells.now) × (row.node < length (held index.table.cells.now).nodes) × (row.branch < branch_count (held index.table.cells.now) row.node) }
    requires by_index { (m : ℕ) → get_or ranks.now m 0 ≤ most_rank }
    ensures { told result ≡ fault_by (people index.entry.table.cells.now) (held index.entry.table.cells.now) p ranks.now (as_row row) }
{
    if !has_node(index, ranks, row.node) {
        return Some(Refusal::MissingRow);
    }
    let b = index.branches_of(row.node)[row.branch];
    if !own(index.table, p, row.node, b) {
        return Some(Refusal::NotOwn);
    }
    if row.rank < least(index, ranks, b) {
        return Some(Refusal::RankTooLow);
    }
    None
}

// The first fault of the rows, one by one.
fn faults(
    index: Index,
    p: usize,
    ranks: &[usize; Sheet::NODES],
    rows: &[usize],
    n: usize,
) -> Result<(), Fault>
    requires p_bound { p < people index.table.cells.now }
    requires rows_fit { RowsFit index.table.cells.now rows.now n }
    requires known { Known (rows_of n rows.now) ranks.now }
    ensures { fault_told result ≡ faulty (sheet_in index.entry.table.cells.now) p (rows_of n rows.now) 1 (rows_of n rows.now) }
{
    for i in 0..n {
        if let Some(refusal) = wrong(index, p, ranks, row_at(rows, i)) {
            return Err(Fault {
                refusal,
                place: i + 1,
            });
        }
    }
    Ok(())
}

// The first fault of all. Where there is none, the array has the ranks by node.
fn first_fault(
    index: Index,
    p: usize,
    rows: &[usize],
    n: usize,
    ranks: &mut [usize; Sheet::NODES],
) -> Result<(), Fault>
    requires p_bound { p < people index.table.cells.now }
    requires rows_fit { RowsFit index.table.cells.now rows.now n }
    requires known { Known [] ranks.old }
    ensures value { fault_told result ≡ bitml.check (sheet_in index.entry.table.cells.now) p (rows_of n rows.now) }
    ensures ranks_known { OnOk result (Known (rows_of n rows.now) ranks.new) }
{
    order::index(rows, n, ranks)?;
    if ranks[index.table.definition(0).root] == 0 {
        return Err(Fault {
            refusal: Refusal::MissingRow,
            place: 0,
        });
    }
    faults(index, p, ranks, rows, n)
}

// Whether the n rows of the buffer are accepted for p: the `liquid` line, or the first refusal.
pub fn check(index: Index, p: usize, rows: &[usize], n: usize) -> Result<Accepted, Fault>
    requires p_bound { p < people index.table.cells.now }
    requires rows_fit { RowsFit index.table.cells.now rows.now n }
    ensures { as_checked result ≡ answer_of (rows_of n rows.now) (bitml.check (sheet_in index.entry.table.cells.now) p (rows_of n rows.now)) }
{
    let mut ranks = [0; Sheet::NODES];
    first_fault(index, p, rows, n, &mut ranks)?;
    Ok(Accepted {
        count: n,
        rank: ranks[0],
    })
}

// The same, and the buffer holds the rows as given, and zeros past them, or zeros alone.
pub fn check_rows(index: Index, p: usize, rows: &mut [usize], n: usize) -> Result<Accepted, Fault>
    requires p_bound { p < people index.table.cells.now }
    requires rows_fit { RowsFit index.table.cells.now rows.old n }
    ensures value { as_checked result ≡ answer_of (rows_of n rows.old) (bitml.check (sheet_in index.entry.table.cells.now) p (rows_of n rows.old)) }
    ensures rows_after { rows.new ≡ buffer_of (length rows.old) (rows_of n rows.old) (bitml.check (sheet_in index.entry.table.cells.now) p (rows_of n rows.old)) }
{
    let checked = check(index, p, rows, n);
    let kept = match checked {
        Ok(_) => n,
        Err(_) => 0,
    };
    clear_past(rows, kept);
    checked
}
