// The rows that a caller lends, as structs: they are filled from a row buffer of numbers.

#![tactic(auto)]

ghost use Rattle.std.specs.Prelude.{◌≡◌, ◌*◌, ◌≤◌, length};
ghost use Rattle.buffer.specs.Buffer.{row_wide};
ghost use Rattle.lent.specs.Structs.{struct_at, structs};

use buffer::{ROW_WIDE, row_at};

#[repr(C)]
#[derive(Clone, Copy, Default)]
pub struct Row {
    pub node: usize,
    pub branch: usize,
    pub rank: usize,
}

// The row that numbers begin with, and 0 where they end.
#[tactic(auto, using(std::proofs::lemmas::List::get_or_past), unfolding(crate::specs::Structs::struct_at, crate::specs::Structs::struct_of))]
fn row_of(numbers: &[usize]) -> Row
    ensures { result ≡ struct_at numbers.now 0 }
{
    match *numbers {
        [node, branch, rank, ..] => Row { node, branch, rank },
        [node, branch] => Row {
            node,
            branch,
            ..Row::default()
        },
        [node] => Row {
            node,
            ..Row::default()
        },
        [] => Row::default(),
    }
}

// The row in place i of the numbers. A whole one is told apart by its place, so that it costs one test.
fn row_in(numbers: &[usize], i: usize) -> Row
    requires { row_wide * i ≤ length numbers.now }
    ensures { result ≡ struct_at numbers.now i }
{
    if i < numbers.len() / ROW_WIDE {
        let buffer::Row { node, branch, rank } = row_at(numbers, i);
        return Row { node, branch, rank };
    }
    row_of(&numbers[ROW_WIDE * i..])
}

// Each place of the lent rows is written: those that the numbers reach into, and zeros past them.
pub fn emit_rows(numbers: &[usize], rows: &mut [Row])
    ensures { rows.new ≡ structs (length rows.old) numbers.now }
{
    let held = numbers.len().div_ceil(ROW_WIDE).min(rows.len());
    for i in 0..held {
        rows[i] = row_in(numbers, i);
    }
    rows[held..].fill(Row::default());
}
