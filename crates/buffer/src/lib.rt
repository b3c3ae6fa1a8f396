// The row buffer as numbers: node, branch and rank of each place.

#![tactic(auto)]

ghost use Rattle.std.specs.Prelude.{◌≡◌, [], ◌+◌, ◌*◌, ◌≤◌, length};
ghost use Rattle.buffer.specs.Buffer.{row_wide, as_row, row_in, stored, rows_of, filled};

// How many numbers a place has.
pub const ROW_WIDE: usize = 3;

// The places of one participant, and of all 16; how many numbers they have.
pub const PLACES: usize = 512;

pub const ALL_PLACES: usize = 16 * PLACES;

pub const NUMBERS: usize = ROW_WIDE * PLACES;

pub const ALL_NUMBERS: usize = ROW_WIDE * ALL_PLACES;

// The numbers of a place.
#[derive(Clone, Copy)]
pub struct Row {
    pub node: usize,
    pub branch: usize,
    pub rank: usize,
}

// The row in place i.
pub fn row_at(u: &[usize], i: usize) -> Row
    requires { row_wide * i + row_wide ≤ length u.now }
    ensures node { result.node ≡ (row_in u.now i).node }
    ensures branch { result.branch ≡ (row_in u.now i).branch }
    ensures rank { result.rank ≡ (row_in u.now i).rank }
{
    let at = ROW_WIDE * i;
    Row {
        node: u[at],
        branch: u[at + 1],
        rank: u[at + 2],
    }
}

// A row into place i.
pub fn put_row(u: &mut [usize], i: usize, row: Row)
    requires { row_wide * i + row_wide ≤ length u.old }
    ensures { u.new ≡ stored u.old i (as_row row) }
{
    let j = ROW_WIDE * i;
    u[j] = row.node;
    u[j + 1] = row.branch;
    u[j + 2] = row.rank;
}

// All numbers become zero.
pub fn clear(u: &mut [usize])
    ensures { u.new ≡ filled (length u.old) [] }
{
    u.fill(0);
}

// The first n places stay, and all numbers past them become zero.
pub fn clear_past(u: &mut [usize], n: usize)
    requires { row_wide * n ≤ length u.old }
    ensures { u.new ≡ filled (length u.old) (rows_of n u.old) }
{
    clear(&mut u[ROW_WIDE * n..]);
}
