// The way to a node: how many steps each node is from it, and which step is taken next.

#![tactic(auto)]

ghost use Rattle.std.specs.Prelude.{◌≡◌, true, ℕ, ◌≤◌, ◌<◌, length, get_or};
ghost use Rattle.bitml.specs.Runs.{next};
ghost use Rattle.bitml.specs.Why.{near};
ghost use Rattle.tables.specs.Entries.{held, most_nodes};
ghost use Rattle.tables.specs.SheetOf.{branch_entry_at, part_numbers, branch_of, sheet_in};
ghost use Rattle.sheets.specs.Ready as ready;
ghost use Rattle.ways.specs.Distances.{Distances, Found, Turned};
ghost use Rattle.ways.specs.Marks.{Searched, Further, Close, Led, RenewerLed, RenewersLed};

use search::Search;
use sheets::{Index, NAMERS, Namers, Table};
use tables::{Kind, Sheet};

// A branch, and the node in it where the next step is taken.
#[derive(Clone, Copy)]
pub struct Turn {
    pub branch: usize,
    pub node: usize,
}

// ---- distances, by a search from the target backwards: a node's mark is one more than the steps from it to the target

// Visits the nodes that renew as definition d, from which c steps lead to the target.
fn visit_renewers(namers: Namers, search: &mut Search<{ Sheet::NODES }>, d: usize, c: usize)
    ghost target: { ℕ }
    requires searched { Searched namers.table.cells.now target search.old × Close search.old.marks.now c }
    requires d_in_bounds { (d < length (held namers.table.cells.now).defs) × (c ≤ search.old.len) }
    requires by_index { (b : ℕ) → b < length (held namers.table.cells.now).branches → (branch_entry_at (held namers.table.cells.now) b).arg ≡ d → (branch_entry_at (held namers.table.cells.now) b).kind ≡ 3 → near (sheet_in namers.table.cells.now) target c (branch_entry_at (held namers.table.cells.now) b).node ≡ true }
    ensures same { search.new.marks.ghost_name ≡ search.old.marks.ghost_name }
    ensures searched_2 { Searched namers.entry.table.cells.now target search.new × Close search.new.marks.now c }
    ensures further { Further search.old search.new }
    ensures renewers_led { RenewersLed (held namers.entry.table.cells.now) search.new.marks.now (ready.namers (held namers.entry.table.cells.now) d) (length (ready.namers (held namers.entry.table.cells.now) d)) }
{
    for &b in namers.of(d) {
        let branch = namers.table.branch(b);
        if branch.kind == Kind::Renew {
            search.visit(branch.node, c + 1);
        }
    }
}

// Visits the nodes with a branch that leads to node m, which is marked: the one in whose branch it stands, or those that renew as the
// definition whose root it is.
fn visit_before(namers: Namers, search: &mut Search<{ Sheet::NODES }>, m: usize)
    ghost target: { ℕ }
    requires searched { Searched namers.table.cells.now target search.old × Close search.old.marks.now (get_or search.old.marks.now m 0) }
    requires nonzero { 0 < get_or search.old.marks.now m 0 }
    ensures same { search.new.marks.ghost_name ≡ search.old.marks.ghost_name }
    ensures searched_2 { Searched namers.entry.table.cells.now target search.new × Close search.new.marks.now (get_or search.old.marks.now m 0) }
    ensures further { Further search.old search.new }
    ensures led { Led (held namers.entry.table.cells.now) search.new.marks.now m }
{
    let c = search.marks[m];
    let node = namers.table.node(m);
    if node.parent == Sheet::BRANCHES {
        visit_renewers(namers, search, node.definition, c);
    } else {
        search.visit(namers.table.branch(node.parent).node, c + 1);
    }
}

// How far each node is from the target.
pub fn distances(table: Table, target: usize, dist: &mut [usize; Sheet::NODES])
    requires target_in_bounds { target < length (held table.cells.now).nodes }
    requires dist_len { (length dist.old ≡ most_nodes) × ((m : ℕ) → get_or dist.old m 0 ≡ 0) }
    ensures { Distances (sheet_in table.entry.cells.now) target dist.new }
{
    let mut room = [0usize; NAMERS];
    let namers = table.namers(&mut room);
    let mut search = Search::new(dist);
    search.visit(target, 1);
    // The queue grows while it is gone through.
    let mut head = 0;
    while head < search.len {
        let m = search.queue[head];
        visit_before(namers, &mut search, m);
        head += 1;
    }
}

// ---- the way, one step after the other

// The lowest node with mark k that branch b leads to: of its parts, or the root of the definition that it renews as.
fn node_toward(index: Index, dist: &[usize; Sheet::NODES], b: usize, k: usize) -> Option<usize>
    requires dist_len { (length dist.now ≡ most_nodes) × (b < length (held index.table.cells.now).branches) }
    ensures { Found dist.now (next (sheet_in index.entry.table.cells.now) (branch_of (held index.entry.table.cells.now) b).action) k result }
{
    let branch = index.table.branch(b);
    if branch.kind == Kind::Renew {
        let root = index.table.definition(branch.arg).root;
        return (dist[root] == k).then_some(root);
    }
    index.parts_of(b).iter().copied().find(|&m| dist[m] == k)
}

// The step that is taken at node n: its lowest branch that leads on, and the lowest node in it that does.
pub fn toward(index: Index, dist: &[usize; Sheet::NODES], n: usize) -> Turn
    requires dist_len { (length dist.now ≡ most_nodes) × (n < length (held index.table.cells.now).nodes) × (1 < get_or dist.now n 0) }
    ensures { (g : ℕ) → Distances (sheet_in index.entry.table.cells.now) g dist.now → Turned (sheet_in index.entry.table.cells.now) g dist.now n result }
{
    let k = dist[n] - 1;
    let branches = index.branches_of(n);
    // Over places, since a place is what is answered.
    for branch in 0..branches.len() {
        if let Some(node) = node_toward(index, dist, branches[branch], k) {
            return Turn { branch, node };
        }
    }
    Turn { branch: 0, node: n }
}
