// Ranks and the published rows.

#![tactic(auto)]

ghost use Rattle.std.specs.Prelude.{◌≡◌, [], ℕ, ◌+◌, ◌*◌, ◌≤◌, ◌<◌, length, Some, IfSome};
ghost use Rattle.std.specs.List.{find};
ghost use Rattle.bitml.specs.Lists.{below};
ghost use Rattle.bitml.specs.Sheet.{parts};
ghost use Rattle.bitml.specs.Rule as rule;
ghost use Rattle.tables.specs.Entries.{held, people, most_nodes};
ghost use Rattle.tables.specs.SheetOf.{branch_count, branch_number, part_numbers, branch_of, sheet_in};
ghost use Rattle.buffer.specs.Buffer.{filled, numbers_of_one};
ghost use Rattle.reached.specs.Marks.{MarksReached};
ghost use Rattle.exits.specs.Costs.{ranks_at, served, branch_cost, Ranked, some_rank, rank_by, as_choice, chosen_from, Ranks};
ghost use Rattle.exits.specs.Made.{answer_of, buffer_of, stuck_by, rows_by};

use buffer::{Row, clear, put_row};
use owning::own;
use sheets::Index;
use tables::{Kind, Sheet};

// A branch, by its number in its node, and the rank by it.
#[derive(Clone, Copy)]
pub struct Choice {
    pub branch: usize,
    pub rank: usize,
}

// No `Result`: both are answers of document 01, and neither is an error.
#[derive(Clone, Copy)]
pub enum Verdict {
    // how many rows, and the rank of node 0
    Liquid(usize, usize),
    // the lowest reached node that has no exit
    Frozen(usize),
}

// The rank of node m. In the array 0 stands for none: options would take twice the stack.
fn rank_of(ranks: &[usize; Sheet::NODES], m: usize) -> Option<usize>
    requires { m < most_nodes }
    ensures { result ≡ rank_by ranks.now m }
{
    match ranks[m] {
        0 => None,
        rank => Some(rank),
    }
}

// One more than the ranks of the parts of branch b, if all have one.
fn served(index: Index, ranks: &[usize; Sheet::NODES], b: usize) -> Option<usize>
    requires b_in_bounds { b < length (held index.table.cells.now).branches }
    requires ranked { Ranked ranks.now (part_numbers (held index.table.cells.now) b) }
    ensures { result ≡ some_rank (served 1 (ranks_at ranks.now (part_numbers (held index.entry.table.cells.now) b))) }
{
    let mut sum = 1;
    for &m in index.parts_of(b) {
        sum += rank_of(ranks, m)?;
    }
    Some(sum)
}

// The rank of node n by branch b, if the branch is own and all contracts in it have exits.
fn cost(index: Index, p: usize, n: usize, b: usize, ranks: &[usize; Sheet::NODES]) -> Option<usize>
    requires p_bound { (p < people index.table.cells.now) × (n < length (held index.table.cells.now).nodes) × (b < length (held index.table.cells.now).branches) }
    requires ranked { Ranked ranks.now (parts (branch_of (held index.table.cells.now) b).action) }
    ensures { result ≡ some_rank (branch_cost (people index.entry.table.cells.now) (held index.entry.table.cells.now) p n b ranks.now) }
{
    if !own(index.table, p, n, b) {
        return None;
    }
    let branch = index.table.branch(b);
    match branch.kind {
        Kind::Withdraw => Some(1),
        Kind::Split => served(index, ranks, b),
        Kind::Reveal => Some(rank_of(ranks, branch.arg)? + 1),
        // no renewal is own
        Kind::Renew => None,
    }
}

// The better of branch b, whose rank is `rank`, and of a choice among the branches behind it.
fn better(rank: usize, b: usize, behind: Option<Choice>) -> Choice
    requires some { 0 < rank }
    requires behind_some { IfSome behind (λ c. 0 < c.rank) }
    ensures { as_choice (Some result) ≡ rule.better rank b (as_choice behind) }
{
    match behind {
        Some(choice) if choice.rank < rank => choice,
        _ => Choice { branch: b, rank },
    }
}

// The least rank of node n over its branches, and the first branch with it.
fn choose(index: Index, p: usize, n: usize, ranks: &[usize; Sheet::NODES]) -> Option<Choice>
    requires p_bound { (p < people index.table.cells.now) × (n < length (held index.table.cells.now).nodes) }
    requires by_index { (i : ℕ) → i < branch_count (held index.table.cells.now) n → Ranked ranks.now (parts (branch_of (held index.table.cells.now) (branch_number (held index.table.cells.now) n i)).action) }
    ensures { as_choice result ≡ chosen_from (people index.entry.table.cells.now) (held index.entry.table.cells.now) p n ranks.now 0 (branch_count (held index.entry.table.cells.now) n) }
{
    let branches = index.branches_of(n);
    let mut best = None;
    for i in (0..branches.len()).rev() {
        if let Some(rank) = cost(index, p, n, branches[i], ranks) {
            best = Some(better(rank, i, best));
        }
    }
    best
}

// The ranks and the chosen branches of all nodes, from the last to the first.
fn rank_all(
    index: Index,
    p: usize,
    ranks: &mut [usize; Sheet::NODES],
    branches: &mut [usize; Sheet::NODES],
)
    requires { p < people index.table.cells.now }
    ensures { Ranks (people index.entry.table.cells.now) (held index.entry.table.cells.now) p ranks.new branches.new 0 }
{
    for n in (0..index.table.node_total()).rev() {
        let choice = choose(index, p, n, ranks);
        ranks[n] = choice.map_or(0, |c| c.rank);
        branches[n] = choice.map_or(0, |c| c.branch);
    }
}

// The lowest of the first n nodes that has a mark and no rank.
fn first_stuck(
    marks: &[usize; Sheet::NODES],
    ranks: &[usize; Sheet::NODES],
    n: usize,
) -> Option<usize>
    requires { n ≤ most_nodes }
    ensures { result ≡ find (stuck_by marks.now ranks.now) (below n) }
{
    (0..n).find(|&i| marks[i] != 0 && ranks[i] == 0)
}

// The rows of the marked nodes among the first n; how many there are.
fn put_rows<'a>(
    marks: &'a [usize; Sheet::NODES],
    ranks: &'a [usize; Sheet::NODES],
    branches: &'a [usize; Sheet::NODES],
    n: usize,
    rows: &mut [usize],
) -> usize
    requires n_le_most_nodes { (n ≤ most_nodes) × (numbers_of_one ≤ length rows.old) }
    requires rows_value { rows.old ≡ filled (length rows.old) [] }
    ensures value { result ≡ length (rows_by marks.now ranks.now branches.now n) }
    ensures rows_after { rows.new ≡ filled (length rows.old) (rows_by marks.now ranks.now branches.now n) }
{
    let mut count = 0;
    for i in 0..n {
        if marks[i] != 0 {
            let row = Row {
                node: i,
                branch: branches[i],
                rank: ranks[i],
            };
            put_row(rows, count, row);
            count += 1;
        }
    }
    count
}

// Whether the sheet, whose reached nodes are marked, is liquid for p: the published rows, or the lowest reached node that has no exit.
// The rows stand in the first places of the buffer.
pub fn make(index: Index, p: usize, rows: &mut [usize], marks: &[usize; Sheet::NODES]) -> Verdict
    requires p_bound { (p < people index.table.cells.now) × (numbers_of_one ≤ length rows.old) }
    requires marks_reached { MarksReached (people index.table.cells.now) (held index.table.cells.now) marks.now }
    ensures value { result ≡ answer_of (rule.make (sheet_in index.entry.table.cells.now) p) }
    ensures rows_after { rows.new ≡ buffer_of (length rows.old) (rule.make (sheet_in index.entry.table.cells.now) p) }
{
    let mut ranks = [0; Sheet::NODES];
    let mut branches = [0; Sheet::NODES];
    rank_all(index, p, &mut ranks, &mut branches);
    clear(rows);
    let n = index.table.node_total();
    if let Some(node) = first_stuck(marks, &ranks, n) {
        return Verdict::Frozen(node);
    }
    let count = put_rows(marks, &ranks, &branches, n, rows);
    Verdict::Liquid(count, ranks[0])
}
