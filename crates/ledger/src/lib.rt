// The program's ledger: its counts and the cells that are lent to it for a run. Each event takes a ledger by value and hands back the ledger after it.

#![tactic(auto)]

ghost use Rattle.std.specs.Prelude.{◌≡◌, ◌≤◌, ◌<◌, map, length, replicate};
ghost use denote.Ref.{at_last};
ghost use Rattle.bitml.specs.Ledger.{wait, sign, tell, fire, renew};
ghost use Rattle.tables.specs.Entries.{held, people};
ghost use Rattle.tables.specs.SheetOf.{def_entry_at};
ghost use Rattle.duties.specs.Duties.{meant};
ghost use Rattle.pages.specs.Pages.{cells_long};
ghost use Rattle.ledger.specs.Values.{values_of, Read};
ghost use Rattle.ledger.specs.Hands.{Holds, Hands, Begun};

use counts::Counts;
use reader::Reader;
use requests::value_at;
use sheets::{Index, Table};
use tables::Sheet;

// A value, none where it is `x`, and the position after its field. A refusal cannot come: the whole request was read before.
#[tactic(auto, unfolding(crate::specs::Values::value_of, crate::specs::Values::behind))]
fn one_value(s: &[u8], at: usize) -> (Option<usize>, usize)
    ensures { Read s.now at result }
{
    // Case by case, as the definition goes: so each is proved by itself.
    match value_at(Reader { request: s, at }) {
        Ok((Some(v), next)) => (Some(v), next),
        Ok((None, next)) => (None, next),
        Err(e) => (None, e.at),
    }
}

// The values from a position on, as many as out has places.
fn values(s: &[u8], from: usize, out: &mut [Option<usize>])
    ensures { map meant out.new ≡ values_of s.now from (length out.old) }
{
    let mut at = from;
    for value in out.iter_mut() {
        let (v, next) = one_value(s, at);
        *value = v;
        at = next;
    }
}

// The whole ledger: its contracts, sets and payments, in cells that are lent to it and are all its own, and its counts.
#[derive(Drop)]
pub struct Ledger<'a> {
    pub cells: &'a mut [usize],
    pub counts: Counts,
}

impl<'a> Ledger<'a> {
    // At stipulation: the values of its secrets stand in the request from `at` on, and the cells are still zero.
    pub fn new(cells: &'a mut [usize], table: Table, s: &[u8], at: usize) -> Ledger<'a>
        requires { cells.old ≡ replicate cells_long 0 }
        ensures { Begun table.entry.cells.now (values_of s.now at (def_entry_at (held table.entry.cells.now) 0).secrets) result.counts result.cells.now × (length result.cells.now ≡ cells_long) × (result.cells ≡ at_last cells.entry result.cells.now) }
    {
        let n = table.definition(0).secrets;
        let mut vs = [None; Sheet::SECRETS];
        values(s, at, &mut vs[..n]);
        let counts = Counts::new(table, &vs[..n], &mut *cells);
        Ledger { cells, counts }
    }

    pub fn wait(self, table: Table, d: usize) -> Ledger<'a>
        requires { Holds table.cells.now self × (1 ≤ d) × (d ≤ 4294967295) }
        ensures { Hands table.entry.cells.now self.entry (wait d) result }
    {
        let counts = self.counts.wait(&mut *self.cells, table, d);
        Ledger { counts, ..self }
    }

    // Participant p signs branch b of contract c.
    pub fn sign(self, index: Index, p: usize, c: usize, b: usize) -> Ledger<'a>
        requires { Holds index.table.cells.now self × (p < people index.table.cells.now) }
        ensures { Hands index.entry.table.cells.now self.entry (sign p c b) result }
    {
        let counts = self.counts.sign(&mut *self.cells, index, p, c, b);
        Ledger { counts, ..self }
    }

    // Secret j of set i is told.
    pub fn tell(self, table: Table, i: usize, j: usize) -> Ledger<'a>
        requires { Holds table.cells.now self }
        ensures { Hands table.entry.cells.now self.entry (tell i j) result }
    {
        let counts = self.counts.tell(&mut *self.cells, table, i, j);
        Ledger { counts, ..self }
    }

    // Branch b of contract c is fired.
    pub fn fire(self, index: Index, c: usize, b: usize) -> Ledger<'a>
        requires { Holds index.table.cells.now self }
        ensures { Hands index.entry.table.cells.now self.entry (fire c b) result }
    {
        let counts = self.counts.fire(&mut *self.cells, index, c, b);
        Ledger { counts, ..self }
    }

    // Branch b of contract c renews, with the n values that stand in the request from `at` on.
    pub fn renew(
        self,
        index: Index,
        s: &[u8],
        c: usize,
        b: usize,
        at: usize,
        n: usize,
    ) -> Ledger<'a>
        requires { Holds index.table.cells.now self × (n ≤ 8) }
        ensures { Hands index.entry.table.cells.now self.entry (renew c b (values_of s.now at n)) result }
    {
        let mut vs = [None; Sheet::SECRETS];
        values(s, at, &mut vs[..n]);
        let counts = self.counts.renew(&mut *self.cells, index, c, b, &vs[..n]);
        Ledger { counts, ..self }
    }
}
