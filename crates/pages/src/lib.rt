// The ledger's cells: one slice of numbers in sections, lent to the ledger for a run. The contracts speak of the lists that the sections hold.
// A function for each section, since its contract says which list it reads or writes. Functions over a slice: a struct that held it with its length would be two, for `&[usize]` to read and `&mut [usize]` to write, and callers lend plain slices.

#![tactic(auto)]

ghost use Rattle.std.specs.Prelude.{◌≡◌, ◌+◌, ◌*◌, ◌≤◌, ◌<◌, eqb, length, get_or};
ghost use Rattle.pages.specs.Pages.{cells_long, pages_in, nodes, balances, set_numbers, lives, secret_counts, states, payments, signatures, put, with_contract, buried, with_set, with_secret};

use tables::Sheet;

// The limits of the program's ledger.
pub const CONTRACTS: usize = 256;

pub const SETS: usize = 32;

// A place for each secret of a set, and for the signatures of each branch of a contract.
pub const SECRETS: usize = SETS * Sheet::SECRETS;

const SIGNATURES: usize = CONTRACTS * Sheet::BRANCHES_OF_NODE;

// Where the sections start.
const NODE: usize = 0;

const BALANCE: usize = NODE + CONTRACTS;

const SET: usize = BALANCE + CONTRACTS;

const ALIVE: usize = SET + CONTRACTS;

const DEFINITION: usize = ALIVE + CONTRACTS;

const COUNT: usize = DEFINITION + SETS;

pub const STATE: usize = COUNT + SETS;

pub const VALUE: usize = STATE + SECRETS;

pub const PAID: usize = VALUE + SECRETS;

const SIGNED: usize = PAID + Sheet::PEOPLE;

pub const CELLS: usize = SIGNED + SIGNATURES;

// The node of contract c.
pub fn node_of(cells: &[usize], c: usize) -> usize
    requires { (cells_long ≤ length cells.now) × (c < 256) }
    ensures { result ≡ get_or (pages_in cells.now nodes) c 0 }
{
    cells[NODE + c]
}

pub fn balance_of(cells: &[usize], c: usize) -> usize
    requires { (cells_long ≤ length cells.now) × (c < 256) }
    ensures { result ≡ get_or (pages_in cells.now balances) c 0 }
{
    cells[BALANCE + c]
}

pub fn set_of(cells: &[usize], c: usize) -> usize
    requires { (cells_long ≤ length cells.now) × (c < 256) }
    ensures { result ≡ get_or (pages_in cells.now set_numbers) c 0 }
{
    cells[SET + c]
}

pub fn is_alive(cells: &[usize], c: usize) -> bool
    requires { (cells_long ≤ length cells.now) × (c < 256) }
    ensures { result ≡ eqb (get_or (pages_in cells.now lives) c 0) 1 }
{
    cells[ALIVE + c] == 1
}

// The signatures of branch b of contract c.
pub fn signed_for(cells: &[usize], c: usize, b: usize) -> usize
    requires { (cells_long ≤ length cells.now) × (c < 256) × (b < 16) }
    ensures { result ≡ get_or (pages_in cells.now signatures) (c * 16 + b) 0 }
{
    cells[SIGNED + (c * Sheet::BRANCHES_OF_NODE + b)]
}

// How many secrets set i has.
pub fn count_of(cells: &[usize], i: usize) -> usize
    requires { (cells_long ≤ length cells.now) × (i < 32) }
    ensures { result ≡ get_or (pages_in cells.now secret_counts) i 0 }
{
    cells[COUNT + i]
}

// The state of the secret at place k.
pub fn state_at(cells: &[usize], k: usize) -> usize
    requires { (cells_long ≤ length cells.now) × (k < 256) }
    ensures { result ≡ get_or (pages_in cells.now states) k 0 }
{
    cells[STATE + k]
}

// What participant p was paid.
pub fn paid_to(cells: &[usize], p: usize) -> usize
    requires { (cells_long ≤ length cells.now) × (p < 16) }
    ensures { result ≡ get_or (pages_in cells.now payments) p 0 }
{
    cells[PAID + p]
}

// Contract c is made.
pub fn put_contract(cells: &mut [usize], c: usize, node: usize, balance: usize, set: usize)
    requires { (cells_long ≤ length cells.old) × (c < 256) }
    ensures { pages_in cells.new ≡ with_contract c node balance set (pages_in cells.old) }
{
    cells[NODE + c] = node;
    cells[BALANCE + c] = balance;
    cells[SET + c] = set;
    cells[ALIVE + c] = 1;
}

// Contract c dies.
pub fn bury(cells: &mut [usize], c: usize)
    requires { (cells_long ≤ length cells.old) × (c < 256) }
    ensures { pages_in cells.new ≡ buried c (pages_in cells.old) }
{
    cells[ALIVE + c] = 0;
}

pub fn put_signed(cells: &mut [usize], c: usize, b: usize, mask: usize)
    requires { (cells_long ≤ length cells.old) × (c < 256) × (b < 16) }
    ensures { pages_in cells.new ≡ put signatures (c * 16 + b) mask (pages_in cells.old) }
{
    cells[SIGNED + (c * Sheet::BRANCHES_OF_NODE + b)] = mask;
}

// Set i is made.
pub fn put_set(cells: &mut [usize], i: usize, definition: usize, count: usize)
    requires { (cells_long ≤ length cells.old) × (i < 32) }
    ensures { pages_in cells.new ≡ with_set i definition count (pages_in cells.old) }
{
    cells[DEFINITION + i] = definition;
    cells[COUNT + i] = count;
}

pub fn put_state(cells: &mut [usize], k: usize, state: usize)
    requires { (cells_long ≤ length cells.old) × (k < 256) }
    ensures { pages_in cells.new ≡ put states k state (pages_in cells.old) }
{
    cells[STATE + k] = state;
}

pub fn put_secret(cells: &mut [usize], k: usize, state: usize, value: usize)
    requires { (cells_long ≤ length cells.old) × (k < 256) }
    ensures { pages_in cells.new ≡ with_secret k state value (pages_in cells.old) }
{
    cells[STATE + k] = state;
    cells[VALUE + k] = value;
}

pub fn put_paid(cells: &mut [usize], p: usize, amount: usize)
    requires { (cells_long ≤ length cells.old) × (p < 16) }
    ensures { pages_in cells.new ≡ put payments p amount (pages_in cells.old) }
{
    cells[PAID + p] = amount;
}
