// The one table that holds a sheet: its layout, and how much of it is filled.

#![tactic(auto)]

ghost use Rattle.std.specs.Prelude.{◌≡◌, ◌+◌, ◌^◌, ◌≤◌, ◌<◌, length};
ghost use Rattle.tables.specs.State.{state_of, Fits, node_entry, branch_entry, def_entry, with_node, with_branch, with_def, with_listed, with_cell, more_nodes, more_branches, more_defs, more_listed, more_cells, listed_of, among, since, Headed};
ghost use Rattle.tables.specs.Kinds.{code};
ghost use Rattle.tables.specs.Entries.{cells_from, most_nodes, most_branches, most_listed, most_cells, most_defs};

// How much of a sheet's table is filled, once it is read whole.
#[derive(Clone, Copy)]
pub struct Sheet {
    pub people: usize,
    pub defs: usize,
    pub nodes: usize,
    pub branches: usize,
    pub listed: usize,
    pub cells: usize,
}

impl Sheet {
    // The sheet's own limits.
    pub const PEOPLE: usize = 16;

    pub const DEFS: usize = 32;

    pub const SECRETS: usize = 8;

    pub const BRANCHES_OF_NODE: usize = 16;

    pub const PARTS: usize = 8;

    pub const NODES: usize = 512;

    pub const BRANCHES: usize = 1024;

    pub const DEPTH: usize = 32;

    pub const FIELDS: usize = 64;

    pub const DEPOSITS: usize = 2100000000000000;

    pub const BYTES: usize = 32768;

    // The greatest number: 19 digits.
    pub const NUMBER: usize = 9999999999999999999;

    pub const OPENS: usize = 4294967295;

    pub const WEIGHT: usize = 1000;

    pub const CONSTANT: usize = 1000000000;

    // The cells of a condition's words, and of an expression's: numbers, as a caller lends the table (include/hurkoxel.h).
    pub const T: usize = 0;

    pub const AND: usize = 1;

    pub const NOT: usize = 2;

    pub const EQ: usize = 3;

    pub const LT: usize = 4;

    pub const K: usize = 0;

    pub const V: usize = 1;

    pub const ADD: usize = 2;

    pub const SUB: usize = 3;

    // The cells of the table's header.
    pub const PARTICIPANTS_CELL: usize = 0;

    pub const DEFS_CELL: usize = 1;

    pub const NODES_CELL: usize = 2;

    pub const BRANCHES_CELL: usize = 3;

    pub const LISTED_CELL: usize = 4;

    pub const CELLS_CELL: usize = 5;

    // How many numbers an entry has.
    pub const NODE_WIDE: usize = 4;

    pub const BRANCH_WIDE: usize = 8;

    pub const DEF_WIDE: usize = 3;

    // Where the table's sections start. A root's parent is BRANCHES, which is no branch.
    pub const NODES_AT: usize = 8;

    pub const BRANCHES_AT: usize = Sheet::NODES_AT + Sheet::NODE_WIDE * Sheet::NODES;

    pub const DEFS_AT: usize = Sheet::BRANCHES_AT + Sheet::BRANCH_WIDE * Sheet::BRANCHES;

    pub const LISTED_AT: usize = Sheet::DEFS_AT + Sheet::DEF_WIDE * Sheet::DEFS;

    pub const LISTED: usize = 8960;

    pub const CELLS_AT: usize = Sheet::LISTED_AT + Sheet::LISTED;

    pub const CELLS: usize = 32768;

    pub const TABLE: usize = Sheet::CELLS_AT + Sheet::CELLS;

    // The longest texts of a short and of a middle length, and how many numbers their tables have: each cell takes two bytes of the text,
    // and a shorter table is sooner cleared.
    pub const SHORT: usize = 2048;

    pub const SHORT_TABLE: usize = Sheet::CELLS_AT + Sheet::SHORT / 2;

    pub const MIDDLE: usize = 8192;

    pub const MIDDLE_TABLE: usize = Sheet::CELLS_AT + Sheet::MIDDLE / 2;
}

// The reading state: the position in the request, and how much of each section is filled.
#[derive(Clone, Copy)]
pub struct St {
    pub at: usize,
    pub nodes: usize,
    pub branches: usize,
    pub defs: usize,
    pub listed: usize,
    pub cells: usize,
}

// What stands before a branch's action.
#[derive(Clone, Copy)]
pub struct Head {
    pub node: usize,
    pub signers: usize,
    pub opens: usize,
}

// The numbers that stand for participants 0 to 15 in a signers field, which is the sum of those who must sign. Two bytes each: the table is
// laid out wherever it is looked up.
const MASKS: [u16; Sheet::PEOPLE] = [
    1, 2, 4, 8, 16, 32, 64, 128, 256, 512, 1024, 2048, 4096, 8192, 16384, 32768,
];

// The number that stands for participant p.
pub fn mask_of(p: usize) -> usize
    requires { p < 16 }
    ensures { result ≡ 2 ^ p }
{
    MASKS[p] as usize
}

// What an action does.
#[derive(Clone, Copy, PartialEq, Eq)]
pub enum Kind {
    Withdraw = 0,
    Split = 1,
    Reveal = 2,
    Renew = 3,
}

impl Kind {
    // The number that stands in a branch's entry.
    pub fn code(self) -> usize
        ensures { result ≡ code self }
    {
        self as usize
    }

    // The kind of a number that stands there.
    pub fn of(number: usize) -> Kind
        requires { number ≤ 3 }
        ensures { code result ≡ number }
    {
        match number {
            0 => Kind::Withdraw,
            1 => Kind::Split,
            2 => Kind::Reveal,
            _ => Kind::Renew,
        }
    }
}

// A branch's action: its kind, the number after its letter or the node of its contract, and of an `r` where its secrets are
// listed, how many, and where the cells of its condition start. The kind is the number that the table has (`Kind::code`): `put_branch` takes any.
#[derive(Clone, Copy)]
pub struct Action {
    pub kind: usize,
    pub arg: usize,
    pub first: usize,
    pub count: usize,
    pub cond: usize,
}

impl Action {
    pub const WITHDRAW: usize = Kind::Withdraw as usize;

    pub const SPLIT: usize = Kind::Split as usize;

    pub const REVEAL: usize = Kind::Reveal as usize;

    pub const RENEW: usize = Kind::Renew as usize;
}

// A node more.
pub fn put_node(
    t: &mut [usize],
    st: St,
    definition: usize,
    parent: usize,
    weight: usize,
    count: usize,
) -> St
    requires cells_from_in_bounds { cells_from ≤ length t.old }
    requires fits { Fits st }
    requires nodes_lt_most_nodes { st.nodes < most_nodes }
    ensures { (result ≡ more_nodes st) × (state_of result t.new ≡ with_node (node_entry definition parent weight count) (state_of st t.old)) }
{
    let i = Sheet::NODES_AT + Sheet::NODE_WIDE * st.nodes;
    t[i] = definition;
    t[i + 1] = parent;
    t[i + 2] = weight;
    t[i + 3] = count;
    St {
        nodes: st.nodes + 1,
        ..st
    }
}

// A branch more.
pub fn put_branch(t: &mut [usize], st: St, h: Head, a: Action) -> St
    requires cells_from_in_bounds { cells_from ≤ length t.old }
    requires fits { Fits st }
    requires branches_lt_most_branches { st.branches < most_branches }
    ensures { (result ≡ more_branches st) × (state_of result t.new ≡ with_branch (branch_entry h a) (state_of st t.old)) }
{
    let i = Sheet::BRANCHES_AT + Sheet::BRANCH_WIDE * st.branches;
    t[i] = h.node;
    t[i + 1] = h.signers;
    t[i + 2] = h.opens;
    t[i + 3] = a.kind;
    t[i + 4] = a.arg;
    t[i + 5] = a.first;
    t[i + 6] = a.count;
    t[i + 7] = a.cond;
    St {
        branches: st.branches + 1,
        ..st
    }
}

// A definition more.
pub fn put_def(t: &mut [usize], st: St, root: usize, first: usize, secrets: usize) -> St
    requires cells_from_in_bounds { cells_from ≤ length t.old }
    requires fits { Fits st }
    requires defs_lt_most_defs { st.defs < most_defs }
    ensures { (result ≡ more_defs st) × (state_of result t.new ≡ with_def (def_entry root first secrets) (state_of st t.old)) }
{
    let i = Sheet::DEFS_AT + Sheet::DEF_WIDE * st.defs;
    t[i] = root;
    t[i + 1] = first;
    t[i + 2] = secrets;
    St {
        defs: st.defs + 1,
        ..st
    }
}

// A listed number more.
pub fn put_listed(t: &mut [usize], st: St, v: usize) -> St
    requires cells_from_in_bounds { cells_from ≤ length t.old }
    requires fits { Fits st }
    requires listed_lt_most_listed { st.listed < most_listed }
    ensures { (result ≡ more_listed st) × (state_of result t.new ≡ with_listed v (state_of st t.old)) }
{
    t[Sheet::LISTED_AT + st.listed] = v;
    St {
        listed: st.listed + 1,
        ..st
    }
}

// A cell of a condition more.
pub fn put_cell(t: &mut [usize], st: St, v: usize) -> St
    requires cells_in_bounds { cells_from + st.cells < length t.old }
    requires fits { Fits st }
    requires cells_lt_most_cells { st.cells < most_cells }
    ensures { (result ≡ more_cells st) × (state_of result t.new ≡ with_cell v (state_of st t.old)) }
{
    t[Sheet::CELLS_AT + st.cells] = v;
    St {
        cells: st.cells + 1,
        ..st
    }
}

// The header, once the sheet is read whole: how many participants, and how much of each section is filled.
pub fn put_header(t: &mut [usize], participants: usize, st: St)
    requires { cells_from ≤ length t.old }
    ensures { Headed participants st t.old t.new }
{
    t[Sheet::PARTICIPANTS_CELL] = participants;
    t[Sheet::DEFS_CELL] = st.defs;
    t[Sheet::NODES_CELL] = st.nodes;
    t[Sheet::BRANCHES_CELL] = st.branches;
    t[Sheet::LISTED_CELL] = st.listed;
    t[Sheet::CELLS_CELL] = st.cells;
}

// Whether v is among the listed numbers from one place to another.
pub fn is_listed(t: &[usize], from: usize, to: usize, v: usize) -> bool
    requires cells_from_in_bounds { cells_from ≤ length t.now }
    requires to_le_most_listed { to ≤ most_listed }
    ensures { result ≡ among v (since from (listed_of to t.now)) }
{
    (from..to).any(|i| t[Sheet::LISTED_AT + i] == v)
}
