// What each event does to the ledger's counts, which are taken by value and handed back, and to its contracts, sets and payments, which stand in cells that are lent.

#![tactic(auto)]

ghost use Rattle.std.specs.Prelude.{◌≡◌, ℕ, ◌+◌, ◌≤◌, ◌<◌, map, length, get_or, replicate};
ghost use Rattle.bitml.specs.Ledger.{wait, sign, tell, fire};
ghost use Rattle.tables.specs.Entries.{held, people};
ghost use Rattle.tables.specs.SheetOf.{branch_entry_at, def_entry_at, part_count};
ghost use Rattle.duties.specs.Duties.{handed};
ghost use Rattle.pages.specs.Pages.{cells_long, pages_in, nodes, lives};
ghost use Rattle.counts.specs.Book.{book, refused_by};
ghost use Rattle.counts.specs.View.{live_of};
ghost use Rattle.counts.specs.Fit.{Fit};
ghost use Rattle.counts.specs.Does.{Does, Begins, renewal};
ghost use Rattle.counts.specs.Steps.{Finds, Enabled, Contracts, shares, Makes, room, Stores};

use duties::{all_told, deposits, held_back, holds_for, signs, weigh};
use pages::{
    CONTRACTS, PAID, SETS, STATE, VALUE, balance_of, bury, count_of, is_alive, node_of, paid_to,
    put_contract, put_paid, put_secret, put_set, put_signed, put_state, set_of, signed_for,
    state_at,
};
use refusals::Refusal;
use sheets::{Index, Table};
use tables::{Kind, Sheet, mask_of};

// The cells are lent to each event and not held: the ledger holds them, and hands them on with these counts.
// The answer to the last event is 0 where that was taken, else the number that refused it; an event is handed any, and looks at none. Made counts
// the contracts, dead ones too, and taken the deposits.
#[derive(Clone, Copy)]
pub struct Counts {
    pub answer: usize,
    pub time: usize,
    pub made: usize,
    pub sets: usize,
    pub taken: usize,
}

impl Counts {
    // The limits of the program's ledger, beside those of its cells.
    pub const TIME: usize = 4294967295;

    pub const TAKEN: usize = Sheet::DEPOSITS;

    // At stipulation: contract 0 at the root of definition 0, and set 0, in cells that are still zero.
    pub fn new(table: Table, vs: &[Option<usize>], cells: &mut [usize]) -> Counts
        requires vs_len { length vs.now ≡ (def_entry_at (held table.cells.now) 0).secrets }
        requires by_index { (j : ℕ) → get_or (map handed vs.now) j 0 ≤ 1000000001 }
        requires cells_value { cells.old ≡ replicate cells_long 0 }
        ensures { Begins table.entry.cells.now (map handed vs.now) (book result (pages_in cells.new)) }
    {
        let total = deposits(table, 0);
        put_contract(cells, 0, table.definition(0).root, total, 0);
        put_set(cells, 0, 0, vs.len());
        store(0, vs, cells);
        Counts {
            answer: 0,
            time: 0,
            made: 1,
            sets: 1,
            taken: total,
        }
    }

    // It is lent the cells as the others are, and writes none.
    pub fn wait(self, cells: &mut [usize], table: Table, d: usize) -> Counts
        requires fit { Fit table.cells.now (book self (pages_in cells.old)) }
        requires le_d { (1 ≤ d) × (d ≤ 4294967295) }
        requires cells_len { length cells.old ≡ cells_long }
        ensures { Does table.entry.cells.now (book self (pages_in cells.old)) (wait d) (book result (pages_in cells.new)) }
    {
        if Counts::TIME - self.time < d {
            return self.refused(Refusal::LedgerLimit);
        }
        Counts {
            answer: 0,
            time: self.time + d,
            ..self
        }
    }

    // Participant p signs branch b of contract c.
    pub fn sign(self, cells: &mut [usize], index: Index, p: usize, c: usize, b: usize) -> Counts
        requires fit { Fit index.table.cells.now (book self (pages_in cells.old)) }
        requires p_bound { p < people index.table.cells.now }
        requires cells_len { length cells.old ≡ cells_long }
        ensures { Does index.entry.table.cells.now (book self (pages_in cells.old)) (sign p c b) (book result (pages_in cells.new)) }
    {
        let Some(q) = self.live_branch(index, c, b, cells) else {
            return self.refused(Refusal::NoBranch);
        };
        let signed = signed_for(cells, c, b);
        if !signs(index.table.branch(q).signers, p) || signs(signed, p) {
            return self.refused(Refusal::Signature);
        }
        put_signed(cells, c, b, signed + mask_of(p));
        Counts { answer: 0, ..self }
    }

    // Secret j of set i is told.
    pub fn tell(self, cells: &mut [usize], table: Table, i: usize, j: usize) -> Counts
        requires fit { Fit table.cells.now (book self (pages_in cells.old)) }
        requires cells_len { length cells.old ≡ cells_long }
        ensures { Does table.entry.cells.now (book self (pages_in cells.old)) (tell i j) (book result (pages_in cells.new)) }
    {
        if self.sets <= i || count_of(cells, i) <= j {
            return self.refused(Refusal::Secret);
        }
        let at = i * Sheet::SECRETS + j;
        if state_at(cells, at) != 1 {
            return self.refused(Refusal::Secret);
        }
        put_state(cells, at, 2);
        Counts { answer: 0, ..self }
    }

    // Branch b of contract c is fired.
    pub fn fire(self, cells: &mut [usize], index: Index, c: usize, b: usize) -> Counts
        requires fit { Fit index.table.cells.now (book self (pages_in cells.old)) }
        requires cells_len { length cells.old ≡ cells_long }
        ensures { Does index.entry.table.cells.now (book self (pages_in cells.old)) (fire c b) (book result (pages_in cells.new)) }
    {
        let Some(q) = self.live_branch(index, c, b, cells) else {
            return self.refused(Refusal::NoBranch);
        };
        let kind = index.table.branch(q).kind;
        if kind == Kind::Renew {
            return self.refused(Refusal::NoBranch);
        }
        let mask = signed_for(cells, c, b);
        if let Some(refusal) = held_back(index.table, q, self.time, mask) {
            return self.refused(refusal);
        }
        match kind {
            Kind::Withdraw => self.withdraw(index.table, c, b, q, cells),
            Kind::Split => self.split(index, c, b, q, cells),
            Kind::Reveal => self.reveal(index.table, c, b, q, cells),
            Kind::Renew => unreachable!(),
        }
    }

    // Branch b of contract c renews, with values for the new set.
    pub fn renew(
        self,
        cells: &mut [usize],
        index: Index,
        c: usize,
        b: usize,
        vs: &[Option<usize>],
    ) -> Counts
        requires fit { Fit index.table.cells.now (book self (pages_in cells.old)) }
        requires by_index { (j : ℕ) → get_or (map handed vs.now) j 0 ≤ 1000000001 }
        requires cells_len { length cells.old ≡ cells_long }
        ensures { Does index.entry.table.cells.now (book self (pages_in cells.old)) (renewal c b (map handed vs.now)) (book result (pages_in cells.new)) }
    {
        let Some(q) = self.live_branch(index, c, b, cells) else {
            return self.refused(Refusal::NoBranch);
        };
        if index.table.branch(q).kind != Kind::Renew {
            return self.refused(Refusal::NoBranch);
        }
        let mask = signed_for(cells, c, b);
        if let Some(refusal) = held_back(index.table, q, self.time, mask) {
            return self.refused(refusal);
        }
        self.renew_as(index.table, c, b, q, vs, cells)
    }

    // The same ledger, with the refusal of an event.
    fn refused(self, refusal: Refusal) -> Counts
        ensures { result ≡ refused_by self refusal }
    {
        Counts {
            answer: refusal.number(),
            ..self
        }
    }

    // The entry of branch b of contract c, where that is alive and has the branch.
    fn live_branch(self, index: Index, c: usize, b: usize, cells: &[usize]) -> Option<usize>
        requires cells_long_in_bounds { (cells_long ≤ length cells.now) × (self.made ≤ 256) }
        requires by_index { (k : ℕ) → k < self.made → get_or (pages_in cells.now nodes) k 0 < length (held index.table.cells.now).nodes }
        ensures { Finds index.entry.table.cells.now self.made (pages_in cells.now nodes) (pages_in cells.now lives) c b result }
    {
        if self.made <= c || !is_alive(cells, c) {
            return None;
        }
        index.branches_of(node_of(cells, c)).get(b).copied()
    }

    // Branch b of contract c, entry q, pays the balance.
    fn withdraw(self, table: Table, c: usize, b: usize, q: usize, cells: &mut [usize]) -> Counts
        requires fit { Fit table.cells.now (book self (pages_in cells.old)) }
        requires enabled { Enabled table.cells.now (book self (pages_in cells.old)) c b q }
        requires q_value { (branch_entry_at (held table.cells.now) q).kind ≡ 0 }
        requires cells_long_in_bounds { cells_long ≤ length cells.old }
        ensures { Does table.entry.cells.now (book self (pages_in cells.old)) (fire c b) (book result (pages_in cells.new)) }
    {
        let p = table.branch(q).arg;
        let paid = paid_to(cells, p) + balance_of(cells, c);
        bury(cells, c);
        put_paid(cells, p, paid);
        Counts { answer: 0, ..self }
    }

    // Branch b of contract c, entry q, splits the balance.
    fn split(self, index: Index, c: usize, b: usize, q: usize, cells: &mut [usize]) -> Counts
        requires fit { Fit index.table.cells.now (book self (pages_in cells.old)) }
        requires enabled { Enabled index.table.cells.now (book self (pages_in cells.old)) c b q }
        requires q_value { (branch_entry_at (held index.table.cells.now) q).kind ≡ 1 }
        requires cells_long_in_bounds { cells_long ≤ length cells.old }
        ensures { Does index.entry.table.cells.now (book self (pages_in cells.old)) (fire c b) (book result (pages_in cells.new)) }
    {
        if CONTRACTS < self.made + index.parts_of(q).len() {
            return self.refused(Refusal::LedgerLimit);
        }
        let v = balance_of(cells, c);
        let set = set_of(cells, c);
        bury(cells, c);
        let taken = Counts { answer: 0, ..self };
        taken.make_parts(index, q, v, set, cells)
    }

    // Makes the contracts of a split of v by entry q, the last with what is left.
    fn make_parts(
        mut self,
        index: Index,
        q: usize,
        v: usize,
        set: usize,
        cells: &mut [usize],
    ) -> Counts
        requires contracts { Contracts index.table.cells.now (book self (pages_in cells.old)) }
        requires q_in_bounds { (q < length (held index.table.cells.now).branches) × ((branch_entry_at (held index.table.cells.now) q).kind ≡ 1) × (v ≤ 2100000000000000) × (set < self.sets) × (self.made + part_count (held index.table.cells.now) q ≤ 256) }
        requires cells_long_in_bounds { cells_long ≤ length cells.old }
        ensures { Makes index.entry.table.cells.now (book self (pages_in cells.old)) (shares (held index.entry.table.cells.now) q v set) (book result (pages_in cells.new)) }
    {
        let parts = index.parts_of(q);
        let last = parts.len() - 1;
        let total = weigh(index, q);
        let mut left = v;
        for &n in &parts[..last] {
            let share = v * index.table.node(n).weight / total;
            put_contract(cells, self.made, n, share, set);
            self.made += 1;
            left -= share;
        }
        put_contract(cells, self.made, parts[last], left, set);
        self.made += 1;
        self
    }

    // Branch b of contract c, entry q, asks for secrets and a condition.
    fn reveal(self, table: Table, c: usize, b: usize, q: usize, cells: &mut [usize]) -> Counts
        requires fit { Fit table.cells.now (book self (pages_in cells.old)) }
        requires enabled { Enabled table.cells.now (book self (pages_in cells.old)) c b q }
        requires q_value { (branch_entry_at (held table.cells.now) q).kind ≡ 2 }
        requires cells_long_in_bounds { cells_long ≤ length cells.old }
        ensures { Does table.entry.cells.now (book self (pages_in cells.old)) (fire c b) (book result (pages_in cells.new)) }
    {
        let set = set_of(cells, c);
        let known = count_of(cells, set);
        let base = set * Sheet::SECRETS;
        let branch = table.branch(q);
        let told = all_told(
            table,
            &cells[STATE..VALUE],
            base,
            known,
            branch.first,
            branch.count,
        );
        if !told || !holds_for(table, &cells[VALUE..PAID], base, known, branch.cond) {
            return self.refused(Refusal::Secret);
        }
        if CONTRACTS <= self.made {
            return self.refused(Refusal::LedgerLimit);
        }
        let v = balance_of(cells, c);
        bury(cells, c);
        put_contract(cells, self.made, branch.arg, v, set);
        Counts {
            answer: 0,
            made: self.made + 1,
            ..self
        }
    }

    // Branch b of contract c, entry q, renews with values for the new set.
    fn renew_as(
        self,
        table: Table,
        c: usize,
        b: usize,
        q: usize,
        vs: &[Option<usize>],
        cells: &mut [usize],
    ) -> Counts
        requires fit { Fit table.cells.now (book self (pages_in cells.old)) }
        requires enabled { Enabled table.cells.now (book self (pages_in cells.old)) c b q }
        requires q_value { (branch_entry_at (held table.cells.now) q).kind ≡ 3 }
        requires by_index { (j : ℕ) → get_or (map handed vs.now) j 0 ≤ 1000000001 }
        requires cells_long_in_bounds { cells_long ≤ length cells.old }
        ensures { Does table.entry.cells.now (book self (pages_in cells.old)) (renewal c b (map handed vs.now)) (book result (pages_in cells.new)) }
    {
        let d = table.branch(q).arg;
        let definition = table.definition(d);
        if vs.len() != definition.secrets {
            return self.refused(Refusal::ValueCount);
        }
        let more = deposits(table, d);
        if !self.has_room(more) {
            return self.refused(Refusal::LedgerLimit);
        }
        let v = balance_of(cells, c);
        bury(cells, c);
        put_set(cells, self.sets, d, definition.secrets);
        put_contract(cells, self.made, definition.root, v + more, self.sets);
        store(self.sets, vs, cells);
        Counts {
            answer: 0,
            time: self.time,
            made: self.made + 1,
            sets: self.sets + 1,
            taken: self.taken + more,
        }
    }

    // One more contract, one more set and more deposits are within the limits.
    fn has_room(self, more: usize) -> bool
        requires { self.taken ≤ 2100000000000000 }
        ensures { result ≡ room self.made self.sets self.taken more }
    {
        self.made < CONTRACTS && self.sets < SETS && more <= Counts::TAKEN - self.taken
    }
}

// The secrets of set i are these values.
fn store(i: usize, vs: &[Option<usize>], cells: &mut [usize])
    requires i_bound { (i < 32) × (length vs.now ≤ 8) × (cells_long ≤ length cells.old) }
    requires by_index { (j : ℕ) → get_or (map handed vs.now) j 0 ≤ 1000000001 }
    ensures { Stores (pages_in cells.old) i (map handed vs.now) (length vs.now) (pages_in cells.new) }
{
    for (j, &v) in vs.iter().enumerate() {
        let at = i * Sheet::SECRETS + j;
        put_secret(cells, at, usize::from(v.is_some()), v.unwrap_or(0));
    }
}

// How many of the contracts that were made are alive.
pub fn live(cells: &[usize], made: usize) -> usize
    requires { (cells_long ≤ length cells.now) × (made ≤ 256) }
    ensures { result ≡ live_of (pages_in cells.now lives) made }
{
    (0..made).filter(|&c| is_alive(cells, c)).count()
}
