// `make`, `makeall` and `check` of a sheet that stands in the table, with their text.

#![tactic(auto)]

ghost use Rattle.std.specs.Prelude.{◌≡◌, ◌+◌, ◌≤◌, ◌<◌, length};
ghost use Rattle.bitml.specs.Rule as rule;
ghost use Rattle.bitml.specs.Answers.{making, making_all, checking, made_lines, answer};
ghost use Rattle.tables.specs.Entries.{held, people};
ghost use Rattle.tables.specs.SheetOf.{sheet_in};
ghost use Rattle.buffer.specs.Buffer.{rows_of, numbers_of_one, numbers_of_all};
ghost use Rattle.reached.specs.Marks.{MarksReached};
ghost use Rattle.exits.specs.Made.{buffer_of};
ghost use Rattle.rows.specs.Given.{RowsFit};
ghost use Rattle.texts.specs.Text.{lines_text};
ghost use Rattle.texts.specs.Wrote.{Wrote};
ghost use Rattle.replies.specs.Answer.{Gives, least_text};
ghost use Rattle.verdicts.specs.Parties.{most_of_one, lines_up_to, numbers_up_to};

use buffer::{NUMBERS, PLACES, clear_past};
use exits::{Verdict, make};
use reached::reach;
use replies::{Reply, answered, declined};
use rows::check_rows;
use sheets::{INDEX, Index, Table};
use tables::Sheet;
use texts::{clear, put_frozen, put_liquid, put_rows};

// What `make`,p answers, where the reached nodes are marked: the rows into the lent places and, with the last line, into the text from
// `at` on.
fn verdict_for(
    index: Index,
    p: usize,
    rows: &mut [usize],
    text: &mut [u8],
    at: usize,
    marks: &[usize; Sheet::NODES],
) -> usize
    requires p_bound { (p < people index.table.cells.now) × (numbers_of_one ≤ length rows.old) × (at + most_of_one ≤ length text.old) }
    requires marks_reached { MarksReached (people index.table.cells.now) (held index.table.cells.now) marks.now }
    ensures rows_after { rows.new ≡ buffer_of (length rows.old) (rule.make (sheet_in index.entry.table.cells.now) p) }
    ensures wrote { Wrote text.old at (lines_text (made_lines (sheet_in index.entry.table.cells.now) p (rule.make (sheet_in index.entry.table.cells.now) p))) text.new result }
    ensures upper_bound { result ≤ at + most_of_one }
{
    match make(index, p, rows, marks) {
        Verdict::Liquid(count, rank) => {
            let end = put_rows(text, at, rows, count);
            put_liquid(text, end, p, count, rank)
        }
        Verdict::Frozen(node) => put_frozen(text, at, p, node),
    }
}

// The same for all participants, one behind the other.
fn verdicts_for(
    index: Index,
    rows: &mut [usize],
    text: &mut [u8],
    marks: &[usize; Sheet::NODES],
) -> usize
    requires numbers_of_all_in_bounds { (numbers_of_all ≤ length rows.old) × (least_text ≤ length text.old) }
    requires marks_reached { MarksReached (people index.table.cells.now) (held index.table.cells.now) marks.now }
    ensures rows_after { rows.new ≡ numbers_up_to (sheet_in index.entry.table.cells.now) (people index.entry.table.cells.now) rows.old }
    ensures wrote { Wrote text.old 0 (lines_up_to (sheet_in index.entry.table.cells.now) (people index.entry.table.cells.now)) text.new result }
{
    let mut end = 0;
    for p in 0..index.table.people() {
        let from = NUMBERS * p;
        end = verdict_for(index, p, &mut rows[from..from + NUMBERS], text, end, marks);
    }
    end
}

// `make`,p: the rows into the row buffer and, with the last line, into the text.
pub fn make_for(table: Table, p: usize, rows: &mut [usize], text: &mut [u8]) -> Reply
    requires p_bound { (p < people table.cells.now) × (numbers_of_one ≤ length rows.old) × (least_text ≤ length text.old) }
    ensures { Gives (answer (making (sheet_in table.entry.cells.now) p)) (length rows.old) (length text.old) result rows.new text.new }
{
    // both arrays stand here: a struct that holds them would be copied when it is made, and the stack has 1 MiB
    let mut room = [0; INDEX];
    let index = table.index(&mut room);
    let mut marks = [0; Sheet::NODES];
    reach(index, &mut marks);
    clear(text);
    answered(verdict_for(index, p, rows, text, 0, &marks))
}

// `makeall`: for each participant what `make` answers, its rows into the next 512 places and its lines behind those before.
pub fn make_all_for(table: Table, rows: &mut [usize], text: &mut [u8]) -> Reply
    requires numbers_of_all_in_bounds { (numbers_of_all ≤ length rows.old) × (least_text ≤ length text.old) }
    ensures { Gives (answer (making_all (sheet_in table.entry.cells.now))) (length rows.old) (length text.old) result rows.new text.new }
{
    let mut room = [0; INDEX];
    let index = table.index(&mut room);
    let mut marks = [0; Sheet::NODES];
    reach(index, &mut marks);
    clear(text);
    let people = table.people();
    // what `make` fills is cleared there
    clear_past(rows, PLACES * people);
    answered(verdicts_for(index, rows, text, &marks))
}

// `check`,p of the n rows that stand in the row buffer.
pub fn check_for(table: Table, p: usize, n: usize, rows: &mut [usize], text: &mut [u8]) -> Reply
    requires p_bound { (p < people table.cells.now) × (least_text ≤ length text.old) }
    requires rows_fit { RowsFit table.cells.now rows.old n }
    ensures { Gives (answer (checking (sheet_in table.entry.cells.now) p (rows_of n rows.old))) (length rows.old) (length text.old) result rows.new text.new }
{
    let mut room = [0; INDEX];
    let index = table.index(&mut room);
    clear(text);
    match check_rows(index, p, rows, n) {
        Ok(accepted) => answered(put_liquid(text, 0, p, accepted.count, accepted.rank)),
        Err(fault) => declined(
            fault.refusal.number(),
            table.def_total() + 2 + fault.place,
            0,
        ),
    }
}
