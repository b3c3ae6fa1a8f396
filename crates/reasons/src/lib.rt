// `why` of a sheet that stands in the table, with its text.

#![tactic(auto)]

ghost use Rattle.std.specs.Prelude.{◌≡◌, true, map, ◌+◌, ◌*◌, ◌≤◌, ◌<◌, length};
ghost use Rattle.bitml.specs.Runs.{Exit};
ghost use Rattle.bitml.specs.Rule as rule;
ghost use Rattle.bitml.specs.Why.{steps_to, causes};
ghost use Rattle.bitml.specs.Answers.{step_line, branch_lines, why_lines, explaining, answer};
ghost use Rattle.tables.specs.Entries.{held, people, most_nodes};
ghost use Rattle.tables.specs.SheetOf.{sheet_in};
ghost use Rattle.texts.specs.Text.{lines_text};
ghost use Rattle.texts.specs.Wrote.{Wrote};
ghost use Rattle.replies.specs.Answer.{Gives, least_text};
ghost use Rattle.buffer.specs.Buffer.{numbers_of_one};

use buffer::clear as clear_numbers;
use exits::{Verdict, make};
use owning::{Cause, bar};
use reached::reach;
use replies::{Reply, answered};
use sheets::{INDEX, Index, Table};
use tables::Sheet;
use texts::{clear, put_branch, put_frozen, put_liquid, put_step};
use ways::{distances, toward};

// The lines `branch` of node n, which has no exit for p: each branch with its cause. What lacks an exit in an own branch is a contract.
fn put_causes(index: Index, p: usize, n: usize, text: &mut [u8], at: usize) -> usize
    requires p_bound { (p < people index.table.cells.now) × (n < length (held index.table.cells.now).nodes) × (at + 80 * 16 ≤ length text.old) }
    requires fact { Exit (sheet_in index.table.cells.now) p n → ⊥ }
    ensures { Wrote text.old at (lines_text (branch_lines 0 (causes (sheet_in index.entry.table.cells.now) p n))) text.new result }
{
    let mut end = at;
    let branches = index.branches_of(n);
    // Over places, since a line tells one.
    for i in 0..branches.len() {
        let cause = bar(index.table, p, n, branches[i]).unwrap_or(Cause::Contract);
        end = put_branch(text, end, i, cause.number());
    }
    end
}

// The lines `step`: the way from the start to a node that is reached.
fn put_way(index: Index, target: usize, text: &mut [u8], at: usize) -> usize
    requires target_in_bounds { (target < length (held index.table.cells.now).nodes) × (at + 80 * most_nodes ≤ length text.old) }
    requires target_value { rule.reached (sheet_in index.table.cells.now) target ≡ true }
    ensures wrote { Wrote text.old at (lines_text (map step_line (steps_to (sheet_in index.entry.table.cells.now) target))) text.new result }
    ensures upper_bound { result ≤ at + 80 * most_nodes }
{
    let mut dist = [0; Sheet::NODES];
    distances(index.table, target, &mut dist);
    let mut end = at;
    let mut n = index.table.definition(0).root;
    // Each step says which node comes next.
    while 1 < dist[n] {
        let turn = toward(index, &dist, n);
        end = put_step(text, end, n, turn.branch);
        n = turn.node;
    }
    end
}

// A frozen sheet's lines: the verdict, the way to the node, and what is wrong with each of its branches.
fn put_reason(index: Index, p: usize, n: usize, text: &mut [u8]) -> usize
    requires p_bound { (p < people index.table.cells.now) × (least_text ≤ length text.old) }
    requires p_value { rule.make (sheet_in index.table.cells.now) p ≡ rule.frozen n }
    ensures { Wrote text.old 0 (lines_text (why_lines (sheet_in index.entry.table.cells.now) p (rule.frozen n))) text.new result }
{
    let end = put_frozen(text, 0, p, n);
    let end = put_way(index, n, text, end);
    put_causes(index, p, n, text, end)
}

// `why`,p: the last line that `make` prints, and of a frozen sheet the way to the node and what is wrong with each of its branches. No
// rows.
pub fn why_for(table: Table, p: usize, rows: &mut [usize], text: &mut [u8]) -> Reply
    requires p_bound { (p < people table.cells.now) × (numbers_of_one ≤ length rows.old) × (least_text ≤ length text.old) }
    ensures { Gives (answer (explaining (sheet_in table.entry.cells.now) p)) (length rows.old) (length text.old) result rows.new text.new }
{
    // both arrays stand here: a struct that holds them would be copied when it is made, and the stack has 1 MiB
    let mut room = [0; INDEX];
    let index = table.index(&mut room);
    let mut marks = [0; Sheet::NODES];
    reach(index, &mut marks);
    clear(text);
    match make(index, p, rows, &marks) {
        Verdict::Liquid(count, rank) => {
            clear_numbers(rows);
            answered(put_liquid(text, 0, p, count, rank))
        }
        Verdict::Frozen(n) => answered(put_reason(index, p, n, text)),
    }
}
