// Which branches are own, and what keeps the others from it.

#![tactic(auto)]

ghost use Rattle.std.specs.Prelude.{◌≡◌, map, ◌+◌, ◌≤◌, ◌<◌, length};
ghost use Rattle.bitml.specs.Lists.{every, up_from};
ghost use Rattle.bitml.specs.Sheet.{owns};
ghost use Rattle.bitml.specs.Runs.{own};
ghost use Rattle.bitml.specs.Why.{bar};
ghost use Rattle.tables.specs.Entries.{held, people};
ghost use Rattle.tables.specs.SheetOf.{listed_at, branch_of, sheet_in};
ghost use Rattle.owning.specs.Causes.{number, told};

use sheets::Table;
use tables::{Kind, mask_of};
use truth::counts_always;

// Why a branch has no exit. All but the last keep it from being own.
#[derive(Clone, Copy, PartialEq, Eq)]
pub enum Cause {
    // Another must sign.
    Signer = 1,
    // A secret is another's.
    Secret = 2,
    // The condition does not count as `t`.
    Condition = 3,
    // It is a renewal.
    Renewal = 4,
    // A contract in it lacks an exit.
    Contract = 5,
}

impl Cause {
    // The number that is printed.
    pub fn number(self) -> usize
        ensures { result ≡ number self }
    {
        self as usize
    }
}

// Definition d has a secret j, and p owns it.
fn owns(table: Table, p: usize, d: usize, j: usize) -> bool
    requires d_in_bounds { d < length (held table.cells.now).defs }
    ensures { result ≡ owns (sheet_in table.entry.cells.now) p d j }
{
    j < table.definition(d).secrets && table.owner(d, j) == p
}

// p owns all the secrets of definition d that are listed from first on.
fn owns_all(table: Table, p: usize, d: usize, first: usize, count: usize) -> bool
    requires d_in_bounds { (d < length (held table.cells.now).defs) × (first + count ≤ length (held table.cells.now).listed) }
    ensures { result ≡ every (owns (sheet_in table.entry.cells.now) p d) (map (listed_at (held table.entry.cells.now)) (up_from first count)) }
{
    (first..first + count).all(|i| owns(table, p, d, table.listed_at(i)))
}

// What keeps branch b, one of node n, from being own to p. The condition is asked last: an `r` lists a secret, and a secret has one owner, so
// that of all participants one at the most comes to it.
pub fn bar(table: Table, p: usize, n: usize, b: usize) -> Option<Cause>
    requires p_bound { (p < people table.cells.now) × (n < length (held table.cells.now).nodes) × (b < length (held table.cells.now).branches) }
    ensures { told result ≡ bar (sheet_in table.entry.cells.now) p n (branch_of (held table.entry.cells.now) b) }
{
    let signers = table.signers(b);
    if signers != 0 && signers != mask_of(p) {
        return Some(Cause::Signer);
    }
    let branch = table.branch(b);
    match branch.kind {
        Kind::Withdraw | Kind::Split => None,
        Kind::Reveal => {
            let d = table.node(n).definition;
            if !owns_all(table, p, d, branch.first, branch.count) {
                return Some(Cause::Secret);
            }
            if !counts_always(table, branch.cond) {
                return Some(Cause::Condition);
            }
            None
        }
        Kind::Renew => Some(Cause::Renewal),
    }
}

// Branch b, one of node n, is own to p.
pub fn own(table: Table, p: usize, n: usize, b: usize) -> bool
    requires p_bound { (p < people table.cells.now) × (n < length (held table.cells.now).nodes) × (b < length (held table.cells.now).branches) }
    ensures { result ≡ own (sheet_in table.entry.cells.now) p n (branch_of (held table.entry.cells.now) b) }
{
    bar(table, p, n, b).is_none()
}
