// Conditions and expressions, read into cells of the table that the caller lends. "A condition may nest": a reader calls itself for each part,
// over the fields that may still come, and their count falls. What it answers says how many are left behind what it read.

#![tactic(auto)]

ghost use Rattle.std.specs.Prelude.{◌≡◌, ◌+◌, ◌<◌, length};
ghost use Rattle.tables.specs.State.{state_of, more_cells, Fits};
ghost use Rattle.tables.specs.Entries.{cells_from, most_cells};
ghost use Rattle.steps.specs.Filling.{Same};
ghost use Rattle.steps.specs.Steps.{Met, told, twice};
ghost use Rattle.conditions.specs.Words.{cell_of, condition_cell, expression_cell};
ghost use Rattle.conditions.specs.Condition.{store_at, constant_at, secret_at, expression_at, condition_at, HasRoom, Kept, Leaves, Within};

use fields::Refused;
use refusals::Refusal;
use steps::{Filling, letters, num, refused};
use tables::{Sheet, St, is_listed, put_cell};

// The words, as numbers in base 256.
const T: usize = b't' as usize;

const AND: usize = (b'a' as usize * 256 + b'n' as usize) * 256 + b'd' as usize;

const NOT: usize = (b'n' as usize * 256 + b'o' as usize) * 256 + b't' as usize;

const EQ: usize = b'e' as usize * 256 + b'q' as usize;

const LT: usize = b'l' as usize * 256 + b't' as usize;

const K: usize = b'k' as usize;

const V: usize = b'v' as usize;

const ADD: usize = (b'a' as usize * 256 + b'd' as usize) * 256 + b'd' as usize;

const SUB: usize = (b's' as usize * 256 + b'u' as usize) * 256 + b'b' as usize;

#[tactic(auto, unfolding(crate::specs::Words::condition_cell, crate::specs::Words::pick))]
fn condition_cell(w: usize) -> Option<usize>
    ensures { result ≡ cell_of (condition_cell w) }
{
    match w {
        T => Some(Sheet::T),
        AND => Some(Sheet::AND),
        NOT => Some(Sheet::NOT),
        EQ => Some(Sheet::EQ),
        LT => Some(Sheet::LT),
        _ => None,
    }
}

#[tactic(auto, unfolding(crate::specs::Words::expression_cell, crate::specs::Words::pick))]
fn expression_cell(w: usize) -> Option<usize>
    ensures { result ≡ cell_of (expression_cell w) }
{
    match w {
        K => Some(Sheet::K),
        V => Some(Sheet::V),
        ADD => Some(Sheet::ADD),
        SUB => Some(Sheet::SUB),
        _ => None,
    }
}

// A cell more for the field at p, unless no field may come any more.
fn store(st: St, p: usize, left: usize, v: usize, t: &mut [usize]) -> Result<(usize, St), Refused>
    requires cells_in_bounds { cells_from + st.cells < length t.old }
    requires fits { Fits st }
    requires cells_lt_most_cells { st.cells < most_cells }
    ensures met { Met (λ e. e ≡ more_cells st) (store_at (st.cells + left) p v (state_of st t.old)) (told result) t.new }
    ensures leaves { Leaves (st.cells + left) (told result) }
{
    if left == 0 {
        return Err(Refused {
            refusal: Refusal::OverLimit,
            at: p,
        });
    }
    let next = put_cell(t, st, v);
    Ok((left - 1, next))
}

// The number of a `k`.
fn constant(filling: &mut Filling, st: St, left: usize) -> Result<(usize, St), Refused>
    requires has_room { HasRoom filling.old.request.now st }
    ensures same { Same filling.old filling.new }
    ensures met { Met (Kept filling.old.request.now st) (constant_at filling.old.request.now (st.cells + left) (state_of st filling.old.table.now)) (told result) filling.new.table.now }
    ensures leaves { Leaves (st.cells + left) (told result) }
{
    let (v, e) = num(filling.request, st, Sheet::CONSTANT)?;
    store(e, st.at, left, v, filling.table)
}

// The secret of a `v`, one of those listed from `from` on.
fn secret(filling: &mut Filling, st: St, left: usize, from: usize) -> Result<(usize, St), Refused>
    requires has_room { HasRoom filling.old.request.now st }
    ensures same { Same filling.old filling.new }
    ensures met { Met (Kept filling.old.request.now st) (secret_at filling.old.request.now (st.cells + left) from (state_of st filling.old.table.now)) (told result) filling.new.table.now }
    ensures leaves { Leaves (st.cells + left) (told result) }
{
    let (v, e) = num(filling.request, st, Sheet::NUMBER)?;
    // One reference for both calls: of a table that the field itself lends to be read, no cell is known afterwards.
    let t = &mut *filling.table;
    if !is_listed(t, from, e.listed, v) {
        return Err(refused(st, Refusal::Unknown));
    }
    store(e, st.at, left, v, t)
}

// An expression: of two, the first, and then the second over the fields that the first left.
fn expression(
    filling: &mut Filling,
    st: St,
    left: usize,
    from: usize,
) -> Result<(usize, St), Refused>
    requires has_room { HasRoom filling.old.request.now st }
    ensures same { Same filling.old filling.new }
    ensures within { Within filling.old.request.now left st (λ limit d. expression_at filling.old.request.now limit from d (state_of st filling.old.table.now)) (told result) filling.new.table.now }
{
    let (w, e) = letters(filling.request, st)?;
    let Some(c) = expression_cell(w) else {
        return Err(refused(st, Refusal::NotDue));
    };
    let (on, f) = store(e, st.at, left, c, filling.table)?;
    match c {
        Sheet::K => constant(filling, f, on),
        Sheet::V => secret(filling, f, on, from),
        _ => {
            let (next, q) = expression(filling, f, on, from)?;
            expression(filling, q, next, from)
        }
    }
}

// The two sides of an `eq` or an `lt`.
fn both_expressions(
    filling: &mut Filling,
    st: St,
    left: usize,
    from: usize,
) -> Result<(usize, St), Refused>
    requires has_room { HasRoom filling.old.request.now st }
    ensures same { Same filling.old filling.new }
    ensures within { Within filling.old.request.now left st (λ limit d. twice (expression_at filling.old.request.now limit from d) (state_of st filling.old.table.now)) (told result) filling.new.table.now }
{
    let (next, e) = expression(filling, st, left, from)?;
    expression(filling, e, next, from)
}

// A condition: of the two of an `and`, the first, and then the second over the fields that the first left.
pub fn condition(
    filling: &mut Filling,
    st: St,
    left: usize,
    from: usize,
) -> Result<(usize, St), Refused>
    requires has_room { HasRoom filling.old.request.now st }
    ensures same { Same filling.old filling.new }
    ensures within { Within filling.old.request.now left st (λ limit d. condition_at filling.old.request.now limit from d (state_of st filling.old.table.now)) (told result) filling.new.table.now }
{
    let (w, e) = letters(filling.request, st)?;
    let Some(c) = condition_cell(w) else {
        return Err(refused(st, Refusal::NotDue));
    };
    let (on, f) = store(e, st.at, left, c, filling.table)?;
    match c {
        Sheet::T => Ok((on, f)),
        Sheet::NOT => condition(filling, f, on, from),
        Sheet::AND => {
            let (next, q) = condition(filling, f, on, from)?;
            condition(filling, q, next, from)
        }
        _ => both_expressions(filling, f, on, from),
    }
}
