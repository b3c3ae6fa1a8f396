// Whether a condition holds, and whether it names a secret: one evaluation tells both. "A condition may nest; its value follows its parts":
// it calls itself for each part, over the fields that are left, and their count falls. What it finds it writes on a slate that the caller
// lends, so that the call for an operator's second part is the last that it makes.

#![tactic(auto)]

ghost use Rattle.std.specs.Prelude.{◌≡◌, ◌+◌, ◌-◌, ◌≤◌, ◌<◌, length, get_or};
ghost use Rattle.bitml.specs.Sheet.{holds};
ghost use Rattle.bitml.specs.Runs.{counts_always};
ghost use Rattle.tables.specs.Entries.{held};
ghost use Rattle.tables.specs.SheetOf.{cond_at};
ghost use Rattle.truth.specs.Evaluation.{Cells, Values, rest, side, added, Room, ValueAt, OperandsAt, HoldsAt, TruthOf, numbers};

use sheets::Table;
use tables::Sheet;

// What is found so far. An integer is plus less minus, for a difference may be negative.
#[derive(Clone, Copy)]
struct Slate {
    plus: usize,
    minus: usize,
    named: bool,
    holds: bool,
}

impl Slate {
    // Adds a number, or takes it away.
    fn add(&mut self, taken: bool, number: usize)
        requires number_fits { side taken self.old + number < 18446744073709551616 }
        ensures { self.new ≡ added taken number self.old }
    {
        if taken {
            self.minus += number;
        } else {
            self.plus += number;
        }
    }
}

// What stands at a place, and 0 past the end.
fn peek(t: &[usize], at: usize) -> usize
    ensures { result ≡ get_or t.now at 0 }
{
    t.get(at).copied().unwrap_or(0)
}

// The first of the fields that are left, and 0 where none is.
fn field(cells: &[usize], left: usize) -> usize
    requires { left ≤ length cells.now }
    ensures { result ≡ get_or (rest cells.now left) 0 0 }
{
    peek(cells, cells.len() - left)
}

// How many are left behind it.
fn behind(left: usize) -> usize
    ensures { result ≡ left - 1 }
{
    left.saturating_sub(1)
}

// Adds an expression to what the slate has, or takes it away, and tells how many fields are left behind it: of an operator, its first operand
// and then its second.
fn expression(
    cells: &[usize],
    values: &[usize],
    left: usize,
    taken: bool,
    slate: &mut Slate,
) -> usize
    requires cells { Cells cells.now }
    requires values { Values values.now }
    requires room { Room cells.now left slate.old }
    ensures { ValueAt cells.now values.now left taken slate.old result slate.new }
{
    let word = field(cells, left);
    let on = behind(left);
    match word {
        Sheet::K => {
            slate.add(taken, field(cells, on));
            behind(on)
        }
        Sheet::V => {
            slate.add(taken, peek(values, field(cells, on)));
            slate.named = true;
            behind(on)
        }
        _ => {
            let next = expression(cells, values, on, taken, slate);
            let second = if word == Sheet::ADD { taken } else { !taken };
            expression(cells, values, next, second, slate)
        }
    }
}

// Puts two expressions on the slate so that its integer is the first less the second.
fn operands(cells: &[usize], values: &[usize], left: usize, slate: &mut Slate) -> usize
    requires cells { Cells cells.now }
    requires values { Values values.now }
    requires left_in_bounds { left ≤ length cells.now }
    ensures { OperandsAt cells.now values.now left slate.old result slate.new }
{
    slate.plus = 0;
    slate.minus = 0;
    let next = expression(cells, values, left, false, slate);
    expression(cells, values, next, true, slate)
}

// Puts on the slate whether a condition holds, and tells how many fields are left behind it.
fn condition(cells: &[usize], values: &[usize], left: usize, slate: &mut Slate) -> usize
    requires cells { Cells cells.now }
    requires values { Values values.now }
    requires left_in_bounds { left ≤ length cells.now }
    ensures { HoldsAt cells.now values.now left slate.old result slate.new }
{
    let word = field(cells, left);
    let on = behind(left);
    match word {
        Sheet::T => {
            slate.holds = true;
            on
        }
        Sheet::AND => {
            let next = condition(cells, values, on, slate);
            let first = slate.holds;
            let end = condition(cells, values, next, slate);
            slate.holds &= first;
            end
        }
        Sheet::NOT => {
            let end = condition(cells, values, on, slate);
            slate.holds = !slate.holds;
            end
        }
        Sheet::EQ => {
            let end = operands(cells, values, on, slate);
            slate.holds = slate.plus == slate.minus;
            end
        }
        _ => {
            let end = operands(cells, values, on, slate);
            slate.holds = slate.plus < slate.minus;
            end
        }
    }
}

// What there is to tell of the condition whose cells start at c. A `t` needs no call.
fn evaluate(table: Table, c: usize, values: &[usize]) -> Slate
    requires c_in_bounds { c < length (held table.cells.now).cells }
    requires values { Values values.now }
    ensures { TruthOf (cond_at (held table.entry.cells.now) c) values.now result }
{
    let mut slate = Slate {
        plus: 0,
        minus: 0,
        named: false,
        holds: true,
    };
    let cells = table.conditions();
    if cells[c] != Sheet::T {
        condition(cells, values, cells.len() - c, &mut slate);
    }
    slate
}

// Whether the condition whose cells start at c holds, by the number of each secret of a set.
pub fn condition_holds(table: Table, c: usize, values: &[usize]) -> bool
    requires c_in_bounds { c < length (held table.cells.now).cells }
    requires values { Values values.now }
    ensures { result ≡ holds (numbers values.now) (cond_at (held table.entry.cells.now) c) }
{
    evaluate(table, c, values).holds
}

// Whether the condition whose cells start at c counts as `t`: it names no secret, and is true.
pub fn counts_always(table: Table, c: usize) -> bool
    requires c_in_bounds { c < length (held table.cells.now).cells }
    ensures { result ≡ counts_always (cond_at (held table.entry.cells.now) c) }
{
    let slate = evaluate(table, c, &[]);
    !slate.named && slate.holds
}
