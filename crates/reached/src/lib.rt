// Which nodes some run reaches: those of the definitions that renewals lead to from definition 0.

#![tactic(auto)]

ghost use Rattle.std.specs.Prelude.{◌≡◌, true, ℕ, ◌<◌, length, get_or};
ghost use Rattle.bitml.specs.Rule as rule;
ghost use Rattle.tables.specs.Entries.{held, people, most_nodes};
ghost use Rattle.tables.specs.SheetOf.{branch_entry_at, branch_count, sheet_in};
ghost use Rattle.reached.specs.Marks.{DefReached, Searched, Grown, BranchLed, NodeLed, DefLed, Spread, MarksReached};

use search::Search;
use sheets::{Index, Table};
use tables::{Kind, Sheet};

// Visits the definitions that the branches of node n renew as. A definition's mark is its place in the queue, from 1.
fn visit_node(index: Index, search: &mut Search<{ Sheet::DEFS }>, n: usize)
    requires searched { Searched index.table.cells.now search.old }
    requires n_in_bounds { (n < length (held index.table.cells.now).nodes) × (rule.reached (sheet_in index.table.cells.now) n ≡ true) }
    ensures searched_2 { Searched index.entry.table.cells.now search.new }
    ensures grown { Grown search.old.marks.now search.new.marks.now }
    ensures node_led { NodeLed (held index.entry.table.cells.now) search.new.marks.now n (branch_count (held index.entry.table.cells.now) n) }
{
    for &b in index.branches_of(n) {
        let branch = index.table.branch(b);
        if branch.kind == Kind::Renew {
            search.visit(branch.arg, search.len + 1);
        }
    }
}

// Visits what the nodes of definition d renew as: they stand one behind the other, the root first.
fn visit_def(index: Index, search: &mut Search<{ Sheet::DEFS }>, d: usize)
    requires searched { Searched index.table.cells.now search.old }
    requires def_reached { DefReached (people index.table.cells.now) (held index.table.cells.now) d }
    ensures searched_2 { Searched index.entry.table.cells.now search.new }
    ensures grown { Grown search.old.marks.now search.new.marks.now }
    ensures def_led { DefLed (held index.entry.table.cells.now) search.new.marks.now d 0 (length (held index.entry.table.cells.now).nodes) }
{
    for n in index.table.definition(d).root..index.table.node_total() {
        if index.table.node(n).definition != d {
            return;
        }
        visit_node(index, search, n);
    }
}

// Each node gets the mark of its definition.
fn spread(table: Table, seen: &[usize; Sheet::DEFS], marks: &mut [usize; Sheet::NODES])
    requires spread { Spread (held table.cells.now) seen.now marks.old 0 }
    ensures { Spread (held table.entry.cells.now) seen.now marks.new (length (held table.entry.cells.now).nodes) }
{
    for n in 0..table.node_total() {
        marks[n] = seen[table.node(n).definition];
    }
}

// Marks the reached nodes.
pub fn reach(index: Index, marks: &mut [usize; Sheet::NODES])
    requires marks_len { (length marks.old ≡ most_nodes) × ((m : ℕ) → get_or marks.old m 0 ≡ 0) }
    ensures { MarksReached (people index.entry.table.cells.now) (held index.entry.table.cells.now) marks.new }
{
    let mut seen = [0usize; Sheet::DEFS];
    let mut search = Search::new(&mut seen);
    search.visit(0, 1);
    // The queue grows while it is gone through.
    let mut head = 0;
    while head < search.len {
        let d = search.queue[head];
        visit_def(index, &mut search, d);
        head += 1;
    }
    spread(index.table, search.marks, marks);
}
