// The text of a sheet, written from the table that holds it, whatever that holds.

#![tactic(auto)]

ghost use Rattle.std.specs.Prelude.{◌≡◌, ◌+◌, ◌*◌, ◌≤◌, ◌<◌, length, get_or, take, nat_lt, if◌then◌else◌, option_map};
ghost use Rattle.tables.specs.Entries.{held, people};
ghost use Rattle.tables.specs.SheetOf.{node_entry_at, branch_entry_at, def_entry_at, listed_at, cell_at};
ghost use Rattle.texts.specs.Text.{field};
ghost use Rattle.writing.specs.Written.{say, ◌then◌, repeat, condition_word, expression_word, number_text, listed_text, expression_text, condition_text, leaf_text, split_text, reveal_text, branch_text, contract_text, def_text, sheet_text};
ghost use Rattle.writer.specs.Putting.{Whole, due, Room, Puts, stood, short};

use tables::{Action, Sheet};
use texts::{put_byte, put_line, put_number, put_word};

// Where writing stands: the position in the text, and the entries that are due next. That its numbers are small stands in `Room`, and is no ghost
// field: a struct with one has no update `..p`.
#[derive(Clone, Copy)]
pub struct Pen {
    pub at: usize,
    pub node: usize,
    pub branch: usize,
    pub def: usize,
    pub listed: usize,
    pub cell: usize,
}

impl Pen {
    // How long a buffer must be: one field more than a sheet has bytes.
    pub const BUFFER: usize = Sheet::BYTES + 32;
}

// A branch as far as it is written.
#[derive(Clone, Copy)]
pub struct Drawn {
    pub signers: usize,
    pub opens: usize,
    pub kind: usize,
    pub arg: usize,
    pub count: usize,
}

// A section of the table: the cell of the header that counts its entries, where they start, and how many cells each has.
#[derive(Clone, Copy)]
struct Section {
    count: usize,
    at: usize,
    wide: usize,
}

const NODES: Section = Section {
    count: Sheet::NODES_CELL,
    at: Sheet::NODES_AT,
    wide: Sheet::NODE_WIDE,
};

const BRANCHES: Section = Section {
    count: Sheet::BRANCHES_CELL,
    at: Sheet::BRANCHES_AT,
    wide: Sheet::BRANCH_WIDE,
};

const DEFS: Section = Section {
    count: Sheet::DEFS_CELL,
    at: Sheet::DEFS_AT,
    wide: Sheet::DEF_WIDE,
};

const LISTED: Section = Section {
    count: Sheet::LISTED_CELL,
    at: Sheet::LISTED_AT,
    wide: 1,
};

const CELLS: Section = Section {
    count: Sheet::CELLS_CELL,
    at: Sheet::CELLS_AT,
    wide: 1,
};

// The entries of a table of any contents whose counts lie within its sections.
#[derive(Clone, Copy)]
struct Entries<'a> {
    cells: &'a [usize],
    ghost whole: { Whole cells.now },
}

impl<'a> Entries<'a> {
    // Number k of entry i, or 0 where there is no such entry.
    fn number(self, s: Section, i: usize, k: usize) -> usize
        requires counted { s.count < length self.cells.now }
        requires inside { i < get_or self.cells.now s.count 0 → s.at + k + s.wide * i < length self.cells.now }
        ensures { result ≡ (if nat_lt i (get_or self.entry.cells.now s.count 0) then get_or self.entry.cells.now (s.at + k + s.wide * i) 0 else 0) }
    {
        if i < self.cells[s.count] {
            self.cells[s.at + k + s.wide * i]
        } else {
            0
        }
    }

    fn weight_of(self, i: usize) -> usize
        ensures { result ≡ (node_entry_at (held self.entry.cells.now) i).weight }
    {
        self.number(NODES, i, 2)
    }

    fn count_of(self, i: usize) -> usize
        ensures { result ≡ (node_entry_at (held self.entry.cells.now) i).count }
    {
        self.number(NODES, i, 3)
    }

    fn branch_of(self, i: usize) -> Drawn
        ensures { (result.signers ≡ (branch_entry_at (held self.entry.cells.now) i).signers) × (result.opens ≡ (branch_entry_at (held self.entry.cells.now) i).opens) × (result.kind ≡ (branch_entry_at (held self.entry.cells.now) i).kind) × (result.arg ≡ (branch_entry_at (held self.entry.cells.now) i).arg) × (result.count ≡ (branch_entry_at (held self.entry.cells.now) i).count) }
    {
        Drawn {
            signers: self.number(BRANCHES, i, 1),
            opens: self.number(BRANCHES, i, 2),
            kind: self.number(BRANCHES, i, 3),
            arg: self.number(BRANCHES, i, 4),
            count: self.number(BRANCHES, i, 6),
        }
    }

    fn secrets_of(self, i: usize) -> usize
        ensures { result ≡ (def_entry_at (held self.entry.cells.now) i).secrets }
    {
        self.number(DEFS, i, 2)
    }

    fn listed_of(self, i: usize) -> usize
        ensures { result ≡ listed_at (held self.entry.cells.now) i }
    {
        self.number(LISTED, i, 0)
    }

    fn cell_of(self, i: usize) -> usize
        ensures { result ≡ cell_at (held self.entry.cells.now) i }
    {
        self.number(CELLS, i, 0)
    }
}

// Where writing stands after a piece of text that ends at `end`; nowhere where the text has become too long for a sheet.
fn stand(p: Pen, end: usize) -> Option<Pen>
    ensures { result ≡ stood p end }
{
    if Sheet::BYTES < end {
        return None;
    }
    Some(Pen { at: end, ..p })
}

fn put_letters(out: &mut [u8], p: Pen, word: &[u8]) -> Option<Pen>
    requires room { Room out.old p }
    requires word_len_bound { length word.now ≤ 8 }
    ensures { Puts out.old p.at (say word.now (due p)) result out.new }
{
    let e = put_word(out, p.at, word);
    stand(p, e)
}

// A number behind its comma.
fn put_field(out: &mut [u8], p: Pen, n: usize) -> Option<Pen>
    requires { Room out.old p }
    ensures { Puts out.old p.at (say (field n) (due p)) result out.new }
{
    let e = put_byte(out, p.at, b',');
    let f = put_number(out, e, n);
    stand(p, f)
}

// The listed number that is due.
fn put_listed(entries: Entries, p: Pen, out: &mut [u8]) -> Option<Pen>
    requires room { Room out.old p }
    ensures { Puts out.old p.at (listed_text (held entries.entry.cells.now) (due p)) result out.new }
{
    let q = put_field(out, p, entries.listed_of(p.listed))?;
    Some(Pen {
        listed: q.listed + 1,
        ..q
    })
}

// The n listed numbers that are due.
fn put_all_listed(entries: Entries, p: Pen, n: usize, out: &mut [u8]) -> Option<Pen>
    requires room { Room out.old p }
    ensures { Puts out.old p.at (repeat n (listed_text (held entries.entry.cells.now)) (due p)) result out.new }
{
    let mut cur = p;
    for _ in 0..n {
        cur = put_listed(entries, cur, out)?;
    }
    Some(cur)
}

// The number of a `k` or a `v`.
fn put_cell(entries: Entries, p: Pen, out: &mut [u8]) -> Option<Pen>
    requires room { Room out.old p }
    ensures { Puts out.old p.at (number_text (held entries.entry.cells.now) (due p)) result out.new }
{
    let q = put_field(out, p, entries.cell_of(p.cell))?;
    Some(Pen {
        cell: q.cell + 1,
        ..q
    })
}

#[tactic(auto, unfolding(writing::specs::Written::expression_word))]
fn expression_word(out: &mut [u8], p: Pen, c: usize) -> Option<Pen>
    requires { Room out.old p }
    ensures { Puts out.old p.at (say (expression_word c) (due p)) result out.new }
{
    match c {
        Sheet::K => put_letters(out, p, b",k"),
        Sheet::V => put_letters(out, p, b",v"),
        Sheet::ADD => put_letters(out, p, b",add"),
        _ => put_letters(out, p, b",sub"),
    }
}

#[tactic(auto, unfolding(writing::specs::Written::condition_word))]
fn condition_word(out: &mut [u8], p: Pen, c: usize) -> Option<Pen>
    requires { Room out.old p }
    ensures { Puts out.old p.at (say (condition_word c) (due p)) result out.new }
{
    match c {
        Sheet::T => put_letters(out, p, b",t"),
        Sheet::AND => put_letters(out, p, b",and"),
        Sheet::NOT => put_letters(out, p, b",not"),
        Sheet::EQ => put_letters(out, p, b",eq"),
        _ => put_letters(out, p, b",lt"),
    }
}

// The expression whose cell is due, with so many words left to nest.
fn put_expression(entries: Entries, p: Pen, depth: usize, out: &mut [u8]) -> Option<Pen>
    requires room { Room out.old p }
    ensures { Puts out.old p.at (expression_text (held entries.entry.cells.now) depth (due p)) result out.new }
{
    if depth == 0 {
        return Some(p);
    }
    let c = entries.cell_of(p.cell);
    let q = expression_word(out, p, c)?;
    let next = Pen {
        cell: q.cell + 1,
        ..q
    };
    match c {
        Sheet::K | Sheet::V => put_cell(entries, next, out),
        _ => {
            let l = put_expression(entries, next, depth - 1, out)?;
            put_expression(entries, l, depth - 1, out)
        }
    }
}

fn both_expressions(entries: Entries, p: Pen, depth: usize, out: &mut [u8]) -> Option<Pen>
    requires room { Room out.old p }
    ensures { Puts out.old p.at ((expression_text (held entries.entry.cells.now) depth then expression_text (held entries.entry.cells.now) depth) (due p)) result out.new }
{
    let q = put_expression(entries, p, depth, out)?;
    put_expression(entries, q, depth, out)
}

// The condition whose cell is due, with so many words left to nest.
fn put_condition(entries: Entries, p: Pen, depth: usize, out: &mut [u8]) -> Option<Pen>
    requires room { Room out.old p }
    ensures { Puts out.old p.at (condition_text (held entries.entry.cells.now) depth (due p)) result out.new }
{
    if depth == 0 {
        return Some(p);
    }
    let c = entries.cell_of(p.cell);
    let q = condition_word(out, p, c)?;
    let next = Pen {
        cell: q.cell + 1,
        ..q
    };
    match c {
        Sheet::T => Some(next),
        Sheet::AND => {
            let l = put_condition(entries, next, depth - 1, out)?;
            put_condition(entries, l, depth - 1, out)
        }
        Sheet::NOT => put_condition(entries, next, depth - 1, out),
        _ => both_expressions(entries, next, depth - 1, out),
    }
}

// `w`,p and `g`,d.
fn put_leaf(out: &mut [u8], p: Pen, word: &[u8], n: usize) -> Option<Pen>
    requires room { Room out.old p }
    requires word_len_bound { length word.now ≤ 8 }
    ensures { Puts out.old p.at (leaf_text word.now n (due p)) result out.new }
{
    let q = put_letters(out, p, word)?;
    let l = put_field(out, q, n)?;
    Some(Pen {
        branch: l.branch + 1,
        ..l
    })
}

// The contract whose node is due, with so many levels left.
#[cycle(put_branch_put_contract_put_reveal_put_split)]
fn put_contract(entries: Entries, p: Pen, depth: usize, out: &mut [u8]) -> Option<Pen>
    requires room { Room out.old p }
    ensures { Puts out.old p.at (contract_text (held entries.entry.cells.now) depth (due p)) result out.new }
{
    if depth == 0 {
        return Some(p);
    }
    let n = entries.count_of(p.node);
    let q = put_letters(out, p, b",c")?;
    let l = put_field(out, q, n)?;
    let mut cur = Pen {
        node: l.node + 1,
        ..l
    };
    for _ in 0..n {
        cur = put_branch(entries, cur, depth - 1, out)?;
    }
    Some(cur)
}

// The branch that is due: signers, opening time, an action.
#[cycle(put_branch_put_contract_put_reveal_put_split)]
fn put_branch(entries: Entries, p: Pen, depth: usize, out: &mut [u8]) -> Option<Pen>
    requires room { Room out.old p }
    ensures { Puts out.old p.at (branch_text (held entries.entry.cells.now) (contract_text (held entries.entry.cells.now) depth) (due p)) result out.new }
{
    let b = entries.branch_of(p.branch);
    let q = put_field(out, p, b.signers)?;
    let l = put_field(out, q, b.opens)?;
    match b.kind {
        Action::WITHDRAW => put_leaf(out, l, b",w", b.arg),
        Action::SPLIT => put_split(entries, l, b.arg, depth, out),
        Action::REVEAL => put_reveal(entries, l, b.count, depth, out),
        _ => put_leaf(out, l, b",g", b.arg),
    }
}

// `s`: its count of parts, and a weight and a contract for each.
#[cycle(put_branch_put_contract_put_reveal_put_split)]
fn put_split(entries: Entries, p: Pen, n: usize, depth: usize, out: &mut [u8]) -> Option<Pen>
    requires room { Room out.old p }
    ensures { Puts out.old p.at (split_text (held entries.entry.cells.now) (contract_text (held entries.entry.cells.now) depth) n (due p)) result out.new }
{
    let mut cur = put_leaf(out, p, b",s", n)?;
    for _ in 0..n {
        let l = put_field(out, cur, entries.weight_of(cur.node))?;
        cur = put_contract(entries, l, depth, out)?;
    }
    Some(cur)
}

// `r`: how many secrets, the secrets, a condition and a contract.
#[cycle(put_branch_put_contract_put_reveal_put_split)]
fn put_reveal(entries: Entries, p: Pen, n: usize, depth: usize, out: &mut [u8]) -> Option<Pen>
    requires room { Room out.old p }
    ensures { Puts out.old p.at (reveal_text (held entries.entry.cells.now) (contract_text (held entries.entry.cells.now) depth) n (due p)) result out.new }
{
    let q = put_letters(out, p, b",r")?;
    let l = put_field(out, q, n)?;
    let e = put_all_listed(entries, l, n, out)?;
    let f = put_condition(entries, e, Sheet::FIELDS, out)?;
    put_contract(
        entries,
        Pen {
            branch: f.branch + 1,
            ..f
        },
        depth,
        out,
    )
}

// The `def` line that is due: deposits and owners are listed.
fn put_def(entries: Entries, p: Pen, people: usize, out: &mut [u8]) -> Option<Pen>
    requires room { Room out.old p }
    ensures { Puts out.old p.at (def_text (held entries.entry.cells.now) people (due p)) result out.new }
{
    let secrets = entries.secrets_of(p.def);
    let q = put_letters(out, p, b"def")?;
    let l = put_all_listed(entries, q, people, out)?;
    let e = put_field(out, l, secrets)?;
    let f = put_all_listed(entries, e, secrets, out)?;
    let z = put_contract(
        entries,
        Pen {
            def: f.def + 1,
            ..f
        },
        Sheet::DEPTH,
        out,
    )?;
    put_letters(out, z, b"\n")
}

// The n `def` lines that are due.
fn put_defs(entries: Entries, p: Pen, n: usize, people: usize, out: &mut [u8]) -> Option<Pen>
    requires room { Room out.old p }
    ensures { Puts out.old p.at (repeat n (def_text (held entries.entry.cells.now) people) (due p)) result out.new }
{
    let mut cur = p;
    for _ in 0..n {
        cur = put_def(entries, cur, people, out)?;
    }
    Some(cur)
}

// The text of the sheet that the table holds, at the start of the buffer, and how many bytes it has; none where it has over 32,768.
pub fn put_sheet(t: &[usize], out: &mut [u8]) -> Option<usize>
    requires whole { Whole t.now }
    requires in_bounds { 32800 ≤ length out.old }
    ensures value { result ≡ option_map (λ xs. length xs) (short (sheet_text (people t.now) (held t.now))) }
    ensures out_after { option_map (λ n. take n out.new) result ≡ short (sheet_text (people t.now) (held t.now)) }
{
    let k = t[Sheet::PARTICIPANTS_CELL];
    let n = t[Sheet::DEFS_CELL];
    let at = put_line(out, 0, b"bitml", &[k, n]);
    let p = Pen {
        at,
        node: 0,
        branch: 0,
        def: 0,
        listed: 0,
        cell: 0,
    };
    let q = put_defs(Entries { cells: t }, p, n, k, out)?;
    Some(q.at)
}
