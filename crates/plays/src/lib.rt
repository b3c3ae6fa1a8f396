// `play`: the events on the program's ledger, each with its answer.

#![tactic(auto)]

ghost use Rattle.std.specs.Prelude.{◌≡◌, ◌+◌, ◌≤◌, length, replicate};
ghost use Rattle.bitml.specs.Ledger.{stipulated};
ghost use Rattle.bitml.specs.Answers.{event_line, playing, end_of, play_lines, answer};
ghost use Rattle.tables.specs.Entries.{held, people};
ghost use Rattle.tables.specs.SheetOf.{sheet_in, def_entry_at};
ghost use Rattle.events.specs.Events.{events_at};
ghost use Rattle.events.specs.Lines.{Good};
ghost use Rattle.promises.specs.Parts.{PlayPromise};
ghost use Rattle.pages.specs.Pages.{cells_long, pages_in};
ghost use Rattle.counts.specs.Book.{book};
ghost use Rattle.counts.specs.View.{view};
ghost use Rattle.counts.specs.Fit.{Fit};
ghost use Rattle.ledger.specs.Values.{values_of};
ghost use Rattle.ledger.specs.Hands.{Holds, Hands};
ghost use Rattle.texts.specs.Text.{line_text, lines_text};
ghost use Rattle.texts.specs.Wrote.{Wrote};
ghost use Rattle.replies.specs.Answer.{Gives, least_text};
ghost use Rattle.plays.specs.Events.{events_of};
ghost use Rattle.plays.specs.Turns.{event_in, InRange, Due, Noted};

use buffer::clear as clear_numbers;
use counts::{Counts, live};
use events::{Event, event_at};
use ledger::Ledger;
use pages::{CELLS, PAID};
use reader::Reader;
use replies::{Reply, answered};
use sheets::{INDEX, Index, Table};
use texts::{clear, put_end, put_refused, put_taken};

// The event that is due, if one is left, and where the line behind it starts; and for its answer the number of its line in the request and
// where the text ends.
#[derive(Clone, Copy)]
pub struct Turn {
    pub event: Option<Event>,
    pub next: usize,
    pub line: usize,
    pub end: usize,
}

// The event whose line starts at `at`: it can be read, and so at the end alone there is none.
fn due_at(s: &[u8], at: usize, table: Table, line: usize, end: usize) -> Turn
    requires { (at ≤ length s.now) × (events_at s.now (people table.cells.now) at ≡ Good) }
    ensures { Due s.now table.entry.cells.now at line end result }
{
    match event_at(Reader { request: s, at }, table.people()) {
        Ok((event, next)) => Turn {
            event: Some(event),
            next,
            line,
            end,
        },
        Err(_) => Turn {
            event: None,
            next: at,
            line,
            end,
        },
    }
}

// The answer to the event that was due is written, and the next one is due.
fn note(d: Turn, l: Counts, s: &[u8], table: Table, text: &mut [u8]) -> Turn
    requires { (d.next ≤ length s.now) × (events_at s.now (people table.cells.now) d.next ≡ Good) × (d.line ≤ 99999) × (d.end + 80 ≤ length text.old) }
    ensures { Noted s.now table.entry.cells.now d text.old l.answer text.new result }
{
    let answer = l.answer;
    let end = match answer {
        0 => put_taken(text, d.end),
        number => put_refused(text, d.end, number, d.line, 0),
    };
    due_at(s, d.next, table, d.line + 1, end)
}

// The ledger after an event.
fn act<'a>(l: Ledger<'a>, index: Index, s: &[u8], event: Event) -> Ledger<'a>
    requires { Holds index.table.cells.now l × InRange (people index.table.cells.now) event }
    ensures { Hands index.entry.table.cells.now l.entry (event_in s.now event) result }
{
    match event {
        Event::Wait(d) => l.wait(index.table, d),
        Event::Sign(p, c, b) => l.sign(index, p, c, b),
        Event::Tell(i, j) => l.tell(index.table, i, j),
        Event::Fire(c, b) => l.fire(index, c, b),
        Event::Renew(c, b, from, n) => l.renew(index, s, c, b, from, n),
    }
}

// The last line: time, live contracts, paid by participant.
fn end(l: Counts, at: usize, table: Table, cells: &[usize], text: &mut [u8]) -> usize
    requires fit { Fit table.cells.now (book l (pages_in cells.now)) }
    requires at_in_bounds { (at + 400 ≤ length text.old) × (cells_long ≤ length cells.now) }
    ensures { Wrote text.old at (line_text (end_of (view (people table.entry.cells.now) (book l (pages_in cells.now))))) text.new result }
{
    let paid = &cells[PAID..PAID + table.people()];
    put_end(text, at, l.time, live(cells, l.made), paid)
}

// A ledger goes from event to event: it begins with the values that stand in the request from `from` on, the events start at `to`, the first of them in line `first`; then comes the last line.
fn play(
    cells: &mut [usize],
    text: &mut [u8],
    s: &[u8],
    index: Index,
    from: usize,
    to: usize,
    first: usize,
) -> usize
    requires { (cells.old ≡ replicate cells_long 0) × (length s.now ≤ 65536) × (to ≤ length s.now) × (first ≤ 100) × (least_text ≤ length text.old) × (events_at s.now (people index.table.cells.now) to ≡ Good) }
    ensures { Wrote text.old 0 (lines_text (play_lines (sheet_in index.entry.table.cells.now) (stipulated (sheet_in index.entry.table.cells.now) (values_of s.now from (def_entry_at (held index.entry.table.cells.now) 0).secrets)) first (events_of s.now (people index.entry.table.cells.now) to))) text.new result }
{
    let mut now = Ledger::new(cells, index.table, s, from);
    let mut due = due_at(s, to, index.table, first, 0);
    while let Some(event) = due.event {
        now = act(now, index, s, event);
        due = note(due, now.counts, s, index.table, text);
    }
    end(now.counts, due.end, index.table, now.cells, text)
}

// `play` of a sheet that stands in the table: its values start at `from`, its events at `to`.
pub fn play_for(
    s: &[u8],
    from: usize,
    to: usize,
    table: Table,
    rows: &mut [usize],
    text: &mut [u8],
) -> Reply
    requires s_len_bound { (length s.now ≤ 65536) × (least_text ≤ length text.old) }
    requires play_promise { PlayPromise s.now (people table.cells.now) (held table.cells.now) from to }
    ensures { Gives (answer (playing (sheet_in table.entry.cells.now) (values_of s.now from (def_entry_at (held table.entry.cells.now) 0).secrets) (events_of s.now (people table.entry.cells.now) to))) (length rows.old) (length text.old) result rows.new text.new }
{
    let mut room = [0; INDEX];
    let index = table.index(&mut room);
    clear_numbers(rows);
    clear(text);
    let mut cells = [0; CELLS];
    let first = table.def_total() + 3;
    let e = play(&mut cells, text, s, index, from, to, first);
    answered(e)
}
