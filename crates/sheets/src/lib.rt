// A sheet's table once it is read: its entries, and an index of them.

#![tactic(auto)]

ghost use Rattle.std.specs.Prelude.{◌≡◌, ◌≤◌, ◌<◌, length};
ghost use Rattle.tables.specs.Entries.{held, people, most_nodes};
ghost use Rattle.tables.specs.SheetOf.{listed_at, branch_entry_at, branch_numbers, part_numbers, deposit_of, owner_of, def_entry_at};
ghost use Rattle.sheets.specs.Once.{once};
ghost use Rattle.sheets.specs.Ready.{Ready, Indexed, namers, Named, index_long, namers_long};

use bucket::bucket;
use tables::{Kind, Sheet};

// An index: where each node's branches start; from here on the branches by node, where each branch's parts start, the nodes by parent.
const BRANCHES_BY: usize = Sheet::NODES + 1;

const PARTS_FROM: usize = BRANCHES_BY + Sheet::BRANCHES;

const PARTS_BY: usize = PARTS_FROM + Sheet::BRANCHES + 2;

// How many numbers an index has.
pub const INDEX: usize = PARTS_BY + Sheet::NODES;

// An index by argument: where the branches with each argument start, and from here on the branches by argument.
const NAMERS_BY: usize = Sheet::NODES + 1;

// How many numbers it has.
pub const NAMERS: usize = NAMERS_BY + Sheet::BRANCHES;

// A node: its definition, the branch in which it stands (of a root the number past the last that a branch can have), its weight there, and
// how many branches it has.
#[derive(Clone, Copy)]
pub struct Node {
    pub definition: usize,
    pub parent: usize,
    pub weight: usize,
    pub count: usize,
}

// A branch of a node: who signs, from when, and its action: the kind, its argument, and of an `r` where its secrets are listed, how many, and
// where the cells of its condition start.
#[derive(Clone, Copy)]
pub struct Branch {
    pub node: usize,
    pub signers: usize,
    pub opens: usize,
    pub kind: Kind,
    pub arg: usize,
    pub first: usize,
    pub count: usize,
    pub cond: usize,
}

// A definition: its root, where its deposits and its owners are listed, and how many secrets it has.
#[derive(Clone, Copy)]
pub struct Definition {
    pub root: usize,
    pub first: usize,
    pub secrets: usize,
}

// A table that keeps what the reader promises, with all the cells that it holds.
#[derive(Clone, Copy)]
pub struct Table<'a> {
    pub cells: &'a [usize],
    pub ghost ready: { Ready cells.now } by { once cells.now },
}

impl<'a> Table<'a> {
    ghost use Rattle.sheets.specs.Looked.{NodeIs, BranchIs, DefIs};

    // How many participants.
    pub fn people(self) -> usize
        ensures { result ≡ people self.entry.cells.now }
    {
        self.cells[Sheet::PARTICIPANTS_CELL]
    }

    // How many definitions, nodes, branches: a name for each, since each contract speaks of another list.
    pub fn def_total(self) -> usize
        ensures { result ≡ length (held self.entry.cells.now).defs }
    {
        self.cells[Sheet::DEFS_CELL]
    }

    pub fn node_total(self) -> usize
        ensures { result ≡ length (held self.entry.cells.now).nodes }
    {
        self.cells[Sheet::NODES_CELL]
    }

    pub fn branch_total(self) -> usize
        ensures { result ≡ length (held self.entry.cells.now).branches }
    {
        self.cells[Sheet::BRANCHES_CELL]
    }

    // The cells of all conditions.
    pub fn conditions(self) -> &'a [usize]
        ensures { result.now ≡ (held self.entry.cells.now).cells }
    {
        let total = self.cells[Sheet::CELLS_CELL];
        &self.cells[Sheet::CELLS_AT..Sheet::CELLS_AT + total]
    }

    pub fn node(self, n: usize) -> Node
        requires n_in_bounds { n < length (held self.cells.now).nodes }
        ensures { NodeIs (held self.entry.cells.now) n result }
    {
        let at = Sheet::NODES_AT + Sheet::NODE_WIDE * n;
        Node {
            definition: self.cells[at],
            parent: self.cells[at + 1],
            weight: self.cells[at + 2],
            count: self.cells[at + 3],
        }
    }

    pub fn branch(self, b: usize) -> Branch
        requires b_in_bounds { b < length (held self.cells.now).branches }
        ensures { BranchIs (held self.entry.cells.now) b result }
    {
        let at = Sheet::BRANCHES_AT + Sheet::BRANCH_WIDE * b;
        Branch {
            node: self.cells[at],
            signers: self.cells[at + 1],
            opens: self.cells[at + 2],
            kind: Kind::of(self.cells[at + 3]),
            arg: self.cells[at + 4],
            first: self.cells[at + 5],
            count: self.cells[at + 6],
            cond: self.cells[at + 7],
        }
    }

    // The signers alone: most branches that are looked at are told apart by them.
    pub fn signers(self, b: usize) -> usize
        requires b_in_bounds { b < length (held self.cells.now).branches }
        ensures { result ≡ (branch_entry_at (held self.entry.cells.now) b).signers }
    {
        self.cells[Sheet::BRANCHES_AT + Sheet::BRANCH_WIDE * b + 1]
    }

    pub fn definition(self, d: usize) -> Definition
        requires d_in_bounds { d < length (held self.cells.now).defs }
        ensures { DefIs (held self.entry.cells.now) d result }
    {
        let at = Sheet::DEFS_AT + Sheet::DEF_WIDE * d;
        Definition {
            root: self.cells[at],
            first: self.cells[at + 1],
            secrets: self.cells[at + 2],
        }
    }

    pub fn listed_at(self, i: usize) -> usize
        requires i_in_bounds { i < length (held self.cells.now).listed }
        ensures { result ≡ listed_at (held self.entry.cells.now) i }
    {
        self.cells[Sheet::LISTED_AT + i]
    }

    // The deposit of participant p in definition d.
    pub fn deposit(self, d: usize, p: usize) -> usize
        requires d_in_bounds { (d < length (held self.cells.now).defs) × (p < people self.cells.now) }
        ensures { result ≡ deposit_of (held self.entry.cells.now) d p }
    {
        self.listed_at(self.definition(d).first + p)
    }

    // The owner of secret j of definition d.
    pub fn owner(self, d: usize, j: usize) -> usize
        requires d_in_bounds { (d < length (held self.cells.now).defs) × (j < (def_entry_at (held self.cells.now) d).secrets) }
        ensures { result ≡ owner_of (people self.entry.cells.now) (held self.entry.cells.now) d j }
    {
        let deposits = self.people();
        self.listed_at(self.definition(d).first + deposits + j)
    }

    // The table with its index, for which the caller lends the room.
    pub fn index<'r>(self, room: &'r mut [usize]) -> Index<'a, 'r>
        requires index_long_in_bounds { index_long ≤ length room.old }
        ensures table { result.table.cells.now ≡ self.entry.cells.now }
        ensures places { length result.places.now ≡ length room.old }
    {
        bucket(
            self.cells,
            Sheet::BRANCHES_AT,
            Sheet::BRANCH_WIDE,
            self.branch_total(),
            Sheet::NODES,
            &mut room[..PARTS_FROM],
        );
        bucket(
            self.cells,
            Sheet::NODES_AT + 1,
            Sheet::NODE_WIDE,
            self.node_total(),
            Sheet::BRANCHES + 1,
            &mut room[PARTS_FROM..],
        );
        Index {
            table: self,
            places: room,
        }
    }

    // The table with an index of its branches by argument.
    pub fn namers<'r>(self, room: &'r mut [usize]) -> Namers<'a, 'r>
        requires namers_long_in_bounds { namers_long ≤ length room.old }
        ensures table { result.table.cells.now ≡ self.entry.cells.now }
        ensures places { length result.places.now ≡ length room.old }
    {
        bucket(
            self.cells,
            Sheet::BRANCHES_AT + 4,
            Sheet::BRANCH_WIDE,
            self.branch_total(),
            Sheet::NODES,
            room,
        );
        Namers {
            table: self,
            places: room,
        }
    }
}

// A table with the branches of each node and the parts of each branch.
#[derive(Clone, Copy)]
pub struct Index<'a, 'r> {
    pub table: Table<'a>,
    pub places: &'r [usize],
    pub ghost indexed: { Indexed (held table.cells.now) places.now },
}

impl<'a, 'r> Index<'a, 'r> {
    // The branches of node n, by number.
    pub fn branches_of(self, n: usize) -> &'r [usize]
        requires n_in_bounds { n < length (held self.table.cells.now).nodes }
        ensures { result.now ≡ branch_numbers (held self.entry.table.cells.now) n }
    {
        &self.places[BRANCHES_BY + self.places[n]..BRANCHES_BY + self.places[n + 1]]
    }

    // The nodes that are parts of branch b.
    pub fn parts_of(self, b: usize) -> &'r [usize]
        requires b_in_bounds { b < length (held self.table.cells.now).branches }
        ensures { result.now ≡ part_numbers (held self.entry.table.cells.now) b }
    {
        let at = PARTS_FROM + b;
        &self.places[PARTS_BY + self.places[at]..PARTS_BY + self.places[at + 1]]
    }
}

// A table with its branches by argument.
#[derive(Clone, Copy)]
pub struct Namers<'a, 'r> {
    pub table: Table<'a>,
    pub places: &'r [usize],
    pub ghost named: { Named (held table.cells.now) places.now },
}

impl<'a, 'r> Namers<'a, 'r> {
    // The branches that have the argument a.
    pub fn of(self, a: usize) -> &'r [usize]
        requires a_lt_most_nodes { a < most_nodes }
        ensures { result.now ≡ namers (held self.entry.table.cells.now) a }
    {
        &self.places[NAMERS_BY + self.places[a]..NAMERS_BY + self.places[a + 1]]
    }
}
