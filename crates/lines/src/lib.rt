// Line 1 and the `def` lines: the whole sheet, read into the table that the caller lends.

#![tactic(auto)]

ghost use Rattle.std.specs.Prelude.{◌≡◌, ◌+◌, ◌≤◌, ◌<◌, length};
ghost use Rattle.refusals.specs.Numbers.{number};
ghost use Rattle.fields.specs.Told.{told_end};
ghost use Rattle.tables.specs.State.{state_of};
ghost use Rattle.tables.specs.Entries.{Spacious, most_listed, most_defs};
ghost use Rattle.steps.specs.Filling.{Same};
ghost use Rattle.steps.specs.Steps.{Met, bad, times, told_state};
ghost use Rattle.conditions.specs.Condition.{HasRoom};
ghost use Rattle.lines.specs.LineOne.{Counts, counts_at, line_one_at, told_line};
ghost use Rattle.contracts.specs.Counts.{Added};
ghost use Rattle.lines.specs.Counts.{Between, Defined};
ghost use Rattle.lines.specs.Definition.{deposits_at, owner_at, root_at, owned_at, define_at, blank};
ghost use Rattle.lines.specs.Sheet.{limited, sheet_from, read_sheet, answered, WhenAccepted};

use contracts::{Limits, contract};
use fields::Refused;
use places::passing;
use reader::Reader;
use refusals::Refusal;
use steps::{Filling, end_line, first_word, num, refused};
use tables::{Sheet, St, mask_of, put_def, put_header, put_listed};

// The words, as numbers in base 256.
const BITML: usize = (((b'b' as usize * 256 + b'i' as usize) * 256 + b't' as usize) * 256
    + b'm' as usize)
    * 256
    + b'l' as usize;

const DEF: usize = (b'd' as usize * 256 + b'e' as usize) * 256 + b'f' as usize;

// K and F, which stand after the word of line 1, and the position after the line.
fn counts(s: &[u8], at: usize) -> Result<(usize, usize, usize), Refused>
    ensures { told_line result ≡ counts_at s.now at }
{
    let (k, p) = Reader { request: s, at }.number_between(1, Sheet::PEOPLE)?;
    let (n, q) = Reader { request: s, at: p }.number_between(1, Sheet::DEFS)?;
    let e = Reader { request: s, at: q }.line_end()?;
    Ok((k, n, e))
}

// Line 1: K, F and the position after it.
pub fn line_one(s: &[u8]) -> Result<(usize, usize, usize), Refused>
    ensures { told_line result ≡ line_one_at s.now }
{
    let r = Reader { request: s, at: 0 };
    let (w, p) = r.first()?;
    if w != BITML {
        return Err(r.refused(Refusal::NotDue));
    }
    counts(s, p)
}

// n deposits.
fn deposits(filling: &mut Filling, st: St, n: usize) -> Result<St, Refused>
    requires has_room { HasRoom filling.old.request.now st }
    requires n_bound { st.listed + n ≤ most_listed }
    ensures same { Same filling.old filling.new }
    ensures met { Met (Added filling.old.request.now 0 n st) (deposits_at filling.old.request.now 0 n (state_of st filling.old.table.now)) (told_state result) filling.new.table.now }
{
    let mut cur = st;
    let mut sum = 0;
    for _ in 0..n {
        let (v, e) = num(filling.request, cur, Sheet::DEPOSITS)?;
        sum += v;
        if Sheet::DEPOSITS < sum {
            return Err(refused(cur, Refusal::OverLimit));
        }
        cur = put_listed(filling.table, e, v);
    }
    Ok(cur)
}

// The owner of a secret.
fn owner(filling: &mut Filling, st: St, people: usize) -> Result<St, Refused>
    requires has_room { HasRoom filling.old.request.now st }
    requires listed_lt_most_listed { st.listed < most_listed }
    ensures same { Same filling.old filling.new }
    ensures met { Met (Added filling.old.request.now 0 1 st) (owner_at filling.old.request.now people (state_of st filling.old.table.now)) (told_state result) filling.new.table.now }
{
    let (v, e) = num(filling.request, st, Sheet::NUMBER)?;
    if people <= v {
        return Err(refused(st, Refusal::Unknown));
    }
    Ok(put_listed(filling.table, e, v))
}

// The owners of n secrets.
fn owners(filling: &mut Filling, st: St, n: usize, people: usize) -> Result<St, Refused>
    requires has_room { HasRoom filling.old.request.now st }
    requires n_bound { st.listed + n ≤ most_listed }
    ensures same { Same filling.old filling.new }
    ensures met { Met (Added filling.old.request.now 0 n st) (times n (owner_at filling.old.request.now people) (state_of st filling.old.table.now)) (told_state result) filling.new.table.now }
{
    let mut cur = st;
    for _ in 0..n {
        cur = owner(filling, cur, people)?;
    }
    Ok(cur)
}

// A definition's contract, whose node is the next, and the end of the line.
fn root(filling: &mut Filling, st: St, first: usize, n: usize, z: Limits) -> Result<St, Refused>
    requires between { Between filling.old.request.now 24 st }
    requires defs_lt_most_defs { st.defs < most_defs }
    ensures same { Same filling.old filling.new }
    ensures met { Met (Defined filling.old.request.now (st.defs + 1)) (root_at filling.old.request.now z first n (state_of st filling.old.table.now)) (told_state result) filling.new.table.now }
{
    let next = put_def(filling.table, st, st.nodes, first, n);
    let lim = Limits {
        def: st.defs,
        secrets: n,
        ..z
    };
    let e = contract(filling, next, Sheet::DEPTH, Sheet::BRANCHES, 0, lim)?;
    end_line(filling.request, e)
}

// The count of secrets, their owners and the contract.
fn owned(filling: &mut Filling, st: St, first: usize, z: Limits) -> Result<St, Refused>
    requires between { Between filling.old.request.now 16 st }
    requires defs_lt_most_defs { st.defs < most_defs }
    ensures same { Same filling.old filling.new }
    ensures met { Met (Defined filling.old.request.now (st.defs + 1)) (owned_at filling.old.request.now z first (state_of st filling.old.table.now)) (told_state result) filling.new.table.now }
{
    let (n, e) = num(filling.request, st, Sheet::SECRETS)?;
    let f = owners(filling, e, n, z.people)?;
    root(filling, f, first, n, z)
}

// A `def` line.
fn define(filling: &mut Filling, st: St, z: Limits) -> Result<St, Refused>
    requires between { Between filling.old.request.now 0 st }
    requires defs_lt_most_defs { (st.defs < most_defs) × (z.people ≤ 16) }
    ensures same { Same filling.old filling.new }
    ensures met { Met (Defined filling.old.request.now (st.defs + 1)) (define_at filling.old.request.now z (state_of st filling.old.table.now)) (told_state result) filling.new.table.now }
{
    let (w, e) = first_word(filling.request, st)?;
    if w != DEF {
        return Err(refused(st, Refusal::NotDue));
    }
    let f = deposits(filling, e, z.people)?;
    owned(filling, f, e.listed, z)
}

// The n `def` lines after line 1.
fn definitions(filling: &mut Filling, at: usize, n: usize, z: Limits) -> Result<St, Refused>
    requires at_in_bounds { (at ≤ length filling.old.request.now) × (length filling.old.request.now ≤ 65536) }
    requires n_le_most_defs { (n ≤ most_defs) × (z.people ≤ 16) }
    ensures same { Same filling.old filling.new }
    ensures met { Met (Defined filling.old.request.now n) (times n (define_at filling.old.request.now z) (blank at)) (told_state result) filling.new.table.now }
{
    let mut cur = St {
        at,
        nodes: 0,
        branches: 0,
        defs: 0,
        listed: 0,
        cells: 0,
    };
    for _ in 0..n {
        cur = define(filling, cur, z)?;
    }
    Ok(cur)
}

// What refuses the sheet with the limit on its bytes, where e does without it.
fn limited(s: &[u8], e: Refused) -> Refused
    ensures { limited s.now (bad (number e.refusal) e.at) ≡ bad (number result.refusal) result.at }
{
    if s.len() <= Sheet::BYTES {
        return e;
    }
    let at = passing(s, Sheet::BYTES);
    if e.at < at || e.at == at && e.refusal.number() < Refusal::OverLimit.number() {
        return e;
    }
    Refused {
        refusal: Refusal::OverLimit,
        at,
    }
}

// The `def` lines after line 1, for K participants, with the limit on bytes; then the table has its header. The position after them.
fn after_line_one(filling: &mut Filling, k: usize, n: usize, at: usize) -> Result<usize, Refused>
    requires at_in_bounds { (at ≤ length filling.old.request.now) × (length filling.old.request.now ≤ 65536) }
    requires le_k { (1 ≤ k) × (k ≤ 16) × (1 ≤ n) × (n ≤ most_defs) }
    ensures same { Same filling.old filling.new }
    ensures met { (answered (told_end result) filling.new.table.now ≡ sheet_from filling.old.request.now (Counts k n at)) × WhenAccepted filling.old.request.now (told_end result) filling.new.table.now }
{
    let z = Limits {
        // one more than the numbers of all K together
        all: 2 * mask_of(k - 1),
        people: k,
        defs: n,
        def: 0,
        secrets: 0,
    };
    let e = match definitions(filling, at, n, z) {
        Ok(e) => e,
        Err(e) => return Err(limited(filling.request, e)),
    };
    if Sheet::BYTES < e.at {
        return Err(Refused {
            refusal: Refusal::OverLimit,
            at: passing(filling.request, Sheet::BYTES),
        });
    }
    put_header(filling.table, k, e);
    Ok(e.at)
}

// The sheet: line 1 and its `def` lines, read into the table, whatever it held. The position after it.
pub fn sheet(s: &[u8], t: &mut [usize]) -> Result<usize, Refused>
    requires spacious { Spacious s.now t.old }
    requires s_len_bound { length s.now ≤ 65536 }
    ensures { (answered (told_end result) t.new ≡ read_sheet s.now) × WhenAccepted s.now (told_end result) t.new }
{
    match line_one(s) {
        Ok((k, n, at)) => {
            let mut filling = Filling {
                request: s,
                table: t,
            };
            after_line_one(&mut filling, k, n, at)
        }
        Err(e) => Err(limited(s, e)),
    }
}
