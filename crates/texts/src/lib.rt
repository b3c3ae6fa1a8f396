// What is printed: each line, and each part of one, written into a buffer of bytes from a position on; the position behind it comes back.
// Buffer and position are no struct: the position that comes back is the reply's length, and the next call's argument.

#![tactic(auto, using(crate::proofs::Writing::wrote_byte), unfolding(crate::specs::Text::line_text))]

ghost use Rattle.std.specs.Prelude.{◌≡◌, [], ◌∷◌, map, ◌+◌, ◌*◌, ◌≤◌, ◌<◌, length, replicate};
ghost use Rattle.bitml.specs.Answers.{row_line, liquid_line, frozen_line, step_line, branch_line, refused_line, taken_line, end_line};
ghost use Rattle.buffer.specs.Buffer.{row_wide, as_row, rows_of};
ghost use Rattle.texts.specs.Text.{decimal, fields, line, line_text, lines_text};
ghost use Rattle.texts.specs.Wrote.{Wrote};

use buffer::{Row, row_at};

pub fn put_byte(out: &mut [u8], at: usize, b: u8) -> usize
    requires { at < length out.old }
    ensures { Wrote out.old at (b ∷ []) out.new result }
{
    out[at] = b;
    at + 1
}

pub fn put_word(out: &mut [u8], at: usize, word: &[u8]) -> usize
    requires { at + length word.now ≤ length out.old }
    ensures { Wrote out.old at word.now out.new result }
{
    let end = at + word.len();
    out[at..end].copy_from_slice(word);
    end
}

// Most numbers are short: up to two, three, four digits are written without recursion, which for a row takes 0.6 of the instructions.
fn put_two(out: &mut [u8], at: usize, n: usize) -> usize
    requires n_bound { n < 100 }
    requires n_in_bounds { at + length (decimal n) ≤ length out.old }
    ensures { Wrote out.old at (decimal n) out.new result }
{
    if n < 10 {
        return put_byte(out, at, b'0' + n as u8);
    }
    let e = put_byte(out, at, b'0' + (n / 10) as u8);
    put_byte(out, e, b'0' + (n % 10) as u8)
}

fn put_three(out: &mut [u8], at: usize, n: usize) -> usize
    requires n_bound { n < 1000 }
    requires n_in_bounds { at + length (decimal n) ≤ length out.old }
    ensures { Wrote out.old at (decimal n) out.new result }
{
    if n < 100 {
        return put_two(out, at, n);
    }
    let e = put_two(out, at, n / 10);
    put_byte(out, e, b'0' + (n % 10) as u8)
}

fn put_four(out: &mut [u8], at: usize, n: usize) -> usize
    requires n_bound { n < 10000 }
    requires n_in_bounds { at + length (decimal n) ≤ length out.old }
    ensures { Wrote out.old at (decimal n) out.new result }
{
    if n < 1000 {
        return put_three(out, at, n);
    }
    let e = put_three(out, at, n / 10);
    put_byte(out, e, b'0' + (n % 10) as u8)
}

// A number of any length: its last digit behind the others.
fn put_long(out: &mut [u8], at: usize, n: usize) -> usize
    requires { at + length (decimal n) ≤ length out.old }
    ensures { Wrote out.old at (decimal n) out.new result }
{
    if n < 10000 {
        return put_four(out, at, n);
    }
    let e = put_long(out, at, n / 10);
    put_byte(out, e, b'0' + (n % 10) as u8)
}

// Apart from `put_long`, since what calls itself is not compiled into its callers: as one function, a row takes 1.5 times the instructions.
pub fn put_number(out: &mut [u8], at: usize, n: usize) -> usize
    requires { at + length (decimal n) ≤ length out.old }
    ensures { Wrote out.old at (decimal n) out.new result }
{
    if n < 10000 {
        return put_four(out, at, n);
    }
    put_long(out, at, n)
}

// A comma before each number.
fn put_fields(out: &mut [u8], at: usize, numbers: &[usize]) -> usize
    requires { at + 21 * length numbers.now ≤ length out.old }
    ensures wrote { Wrote out.old at (fields numbers.now) out.new result }
    ensures upper_bound { result ≤ at + 21 * length numbers.now }
{
    let mut e = at;
    for n in numbers {
        e = put_byte(out, e, b',');
        e = put_number(out, e, *n);
    }
    e
}

pub fn put_line(out: &mut [u8], at: usize, word: &[u8], numbers: &[usize]) -> usize
    requires { at + length word.now + 21 * length numbers.now < length out.old }
    ensures { Wrote out.old at (line word.now numbers.now) out.new result }
{
    let e = put_word(out, at, word);
    let f = put_fields(out, e, numbers);
    put_byte(out, f, b'\n')
}

pub fn put_row(out: &mut [u8], at: usize, row: Row) -> usize
    requires { at + 80 ≤ length out.old }
    ensures { Wrote out.old at (line_text (row_line (as_row row))) out.new result }
{
    put_line(out, at, b"row", &[row.node, row.branch, row.rank])
}

pub fn put_liquid(out: &mut [u8], at: usize, p: usize, rows: usize, rank: usize) -> usize
    requires { at + 80 ≤ length out.old }
    ensures { Wrote out.old at (line_text (liquid_line p rows rank)) out.new result }
{
    put_line(out, at, b"liquid", &[p, rows, rank])
}

pub fn put_frozen(out: &mut [u8], at: usize, p: usize, node: usize) -> usize
    requires { at + 80 ≤ length out.old }
    ensures { Wrote out.old at (line_text (frozen_line p node)) out.new result }
{
    put_line(out, at, b"frozen", &[p, node])
}

pub fn put_step(out: &mut [u8], at: usize, node: usize, branch: usize) -> usize
    requires { at + 80 ≤ length out.old }
    ensures { Wrote out.old at (line_text (step_line (record { node = node; branch = branch }))) out.new result }
{
    put_line(out, at, b"step", &[node, branch])
}

pub fn put_branch(out: &mut [u8], at: usize, branch: usize, cause: usize) -> usize
    requires { at + 80 ≤ length out.old }
    ensures { Wrote out.old at (line_text (branch_line branch cause)) out.new result }
{
    put_line(out, at, b"branch", &[branch, cause])
}

pub fn put_refused(out: &mut [u8], at: usize, number: usize, line: usize, field: usize) -> usize
    requires { at + 80 ≤ length out.old }
    ensures { Wrote out.old at (line_text (refused_line number line field)) out.new result }
{
    put_line(out, at, b"refused", &[number, line, field])
}

pub fn put_taken(out: &mut [u8], at: usize) -> usize
    requires { at + 80 ≤ length out.old }
    ensures { Wrote out.old at (line_text taken_line) out.new result }
{
    put_line(out, at, b"taken", &[])
}

// Time, how many contracts live, and what each participant was paid.
pub fn put_end(out: &mut [u8], at: usize, time: usize, live: usize, paid: &[usize]) -> usize
    requires { (at + 400 ≤ length out.old) × (length paid.now ≤ 16) }
    ensures { Wrote out.old at (line_text (end_line time live paid.now)) out.new result }
{
    let e = put_word(out, at, b"end");
    let f = put_fields(out, e, &[time, live]);
    let g = put_fields(out, f, paid);
    put_byte(out, g, b'\n')
}

// The rows in the first n places of a row buffer.
pub fn put_rows(out: &mut [u8], at: usize, rows: &[usize], n: usize) -> usize
    requires { (at + length (lines_text (map row_line (rows_of n rows.now))) + 80 ≤ length out.old) × (row_wide * n ≤ length rows.now) }
    ensures { Wrote out.old at (lines_text (map row_line (rows_of n rows.now))) out.new result }
{
    let mut e = at;
    for i in 0..n {
        e = put_row(out, e, row_at(rows, i));
    }
    e
}

// The whole buffer becomes zero.
pub fn clear(out: &mut [u8])
    ensures { out.new ≡ replicate (length out.old) 0 }
{
    out.fill(0);
}
