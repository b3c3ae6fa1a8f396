// What a branch asks of signatures and secrets, and what it brings: sums and tests over numbers and a sheet's table.

#![tactic(auto)]

ghost use Rattle.std.specs.Prelude.{◌≡◌, map, ◌+◌, ◌/◌, ◌%◌, ◌^◌, ◌≤◌, ◌<◌, eqb, length};
ghost use Rattle.bitml.specs.Lists.{every, up_from};
ghost use Rattle.bitml.specs.Sheet.{holds};
ghost use Rattle.tables.specs.Entries.{held, people};
ghost use Rattle.tables.specs.SheetOf.{branch_entry_at, listed_at, cond_at};
ghost use Rattle.refusals.specs.Numbers.{told};
ghost use Rattle.truth.specs.Evaluation.{Values};
ghost use Rattle.duties.specs.Duties.{covers, not_yet, told_at, number_at, weight_of, deposits_of};

use refusals::Refusal;
use sheets::{Index, Table};
use tables::mask_of;
use truth::condition_holds;

// Participant p is one of those who sign by signers.
pub fn signs(signers: usize, p: usize) -> bool
    requires { p < 16 }
    ensures { result ≡ eqb (signers / 2 ^ p % 2) 1 }
{
    signers & mask_of(p) != 0
}

// Each of the people who signs by signers has signed by mask.
pub fn all_signed(people: usize, signers: usize, mask: usize) -> bool
    requires { people ≤ 16 }
    ensures { result ≡ covers people signers mask }
{
    let missing = signers & !mask;
    missing == 0 || (0..people).all(|p| !signs(missing, p))
}

// What holds entry q back: it does not open before its time, and its signers have to have signed by mask.
pub fn held_back(table: Table, q: usize, time: usize, mask: usize) -> Option<Refusal>
    requires q_in_bounds { q < length (held table.cells.now).branches }
    ensures { told result ≡ not_yet (people table.entry.cells.now) (held table.entry.cells.now) q time mask }
{
    let branch = table.branch(q);
    if time < branch.opens {
        return Some(Refusal::TooEarly);
    }
    if !all_signed(table.people(), branch.signers, mask) {
        return Some(Refusal::Signature);
    }
    None
}

// Secret j is told in the set whose known secrets start at base.
fn is_told(state: &[usize], base: usize, known: usize, j: usize) -> bool
    requires known_in_bounds { base + known ≤ length state.now }
    ensures { result ≡ told_at state.now base known j }
{
    j < known && 2 <= state[base + j]
}

// The secrets that are listed from first on are told there. States and the set's place in them stay apart, as the definition has them.
pub fn all_told(
    table: Table,
    state: &[usize],
    base: usize,
    known: usize,
    first: usize,
    count: usize,
) -> bool
    requires known_in_bounds { (base + known ≤ length state.now) × (first + count ≤ length (held table.cells.now).listed) }
    ensures { result ≡ every (told_at state.now base known) (map (listed_at (held table.entry.cells.now)) (up_from first count)) }
{
    (first..first + count).all(|i| is_told(state, base, known, table.listed_at(i)))
}

// Whether the condition whose cells start at c holds, by the numbers of the set whose known secrets start at base.
pub fn holds_for(table: Table, value: &[usize], base: usize, known: usize, c: usize) -> bool
    requires known_in_bounds { (base + known ≤ length value.now) × (length value.now ≡ 256) × (c < length (held table.cells.now).cells) }
    requires values { Values value.now }
    ensures { result ≡ holds (number_at value.now base known) (cond_at (held table.entry.cells.now) c) }
{
    condition_holds(table, c, &value[base..base + known])
}

// The weights of the parts of branch b together.
pub fn weigh(index: Index, b: usize) -> usize
    requires b_in_bounds { (b < length (held index.table.cells.now).branches) × ((branch_entry_at (held index.table.cells.now) b).kind ≡ 1) }
    ensures { result ≡ weight_of (held index.entry.table.cells.now) b }
{
    index
        .parts_of(b)
        .iter()
        .map(|&n| index.table.node(n).weight)
        .sum()
}

// The deposits of definition d together.
pub fn deposits(table: Table, d: usize) -> usize
    requires d_in_bounds { d < length (held table.cells.now).defs }
    ensures { result ≡ deposits_of (people table.entry.cells.now) (held table.entry.cells.now) d }
{
    (0..table.people()).map(|p| table.deposit(d, p)).sum()
}
