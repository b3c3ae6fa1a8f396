// The nodes of rows that anyone gives, in one pass: two rows of one node, and rows that fall.

#![tactic(auto)]

ghost use Rattle.std.specs.Prelude.{◌≡◌, [], ◌+◌, ◌<◌, drop, OnOk};
ghost use Rattle.bitml.specs.Rows.{repeated, or_else};
ghost use Rattle.buffer.specs.Buffer.{rows_of};
ghost use Rattle.order.specs.Nodes.{RowsSmall, Known, as_fault, fault_told, fall_at, order_fault};

use buffer::row_at;
use refusals::Refusal;
use tables::Sheet;

// A refusal and its row's place, from 1, or 0 for the line of `check`.
#[derive(Clone, Copy, PartialEq, Eq)]
pub struct Fault {
    pub refusal: Refusal,
    pub place: usize,
}

// Row `from` is the first that is not above the one before it: the first row from there on whose node an earlier row has; where there
// is none, that row is out of order.
fn unordered(rows: &[usize], n: usize, from: usize, ranks: &mut [usize; Sheet::NODES]) -> Fault
    requires rows_small { RowsSmall rows.now n }
    requires from_lt_n { from < n }
    requires known { Known (rows_of from rows.now) ranks.old }
    ensures { as_fault result ≡ or_else (repeated (from + 1) (rows_of from rows.now) (drop from (rows_of n rows.now))) (fall_at (from + 1)) }
{
    for j in from..n {
        let row = row_at(rows, j);
        if ranks[row.node] != 0 {
            return Fault {
                refusal: Refusal::SecondRow,
                place: j + 1,
            };
        }
        ranks[row.node] = row.rank;
    }
    Fault {
        refusal: Refusal::OutOfOrder,
        place: from + 1,
    }
}

// The first fault of the rows' nodes: two of one, else their order. Where there is none, the array has the ranks by node. A node above
// all before it has no row yet, so that rows in order are not looked up. The buffer is the caller's, with more places than rows: n of them count.
pub fn index(rows: &[usize], n: usize, ranks: &mut [usize; Sheet::NODES]) -> Result<(), Fault>
    requires rows_small { RowsSmall rows.now n }
    requires known { Known [] ranks.old }
    ensures value { fault_told result ≡ order_fault (rows_of n rows.now) }
    ensures ranks_known { OnOk result (Known (rows_of n rows.now) ranks.new) }
{
    let mut above = 0;
    for i in 0..n {
        let row = row_at(rows, i);
        if row.node < above {
            return Err(unordered(rows, n, i, ranks));
        }
        ranks[row.node] = row.rank;
        above = row.node + 1;
    }
    Ok(())
}
