// The checker's entry: any request and any lent buffers get one reply, and so do any text and any table.

#![tactic(auto)]

ghost use Rattle.std.specs.Prelude.{◌≡◌, true, false, ◌/◌, ◌*◌, ◌-◌, ◌≤◌, length, take, drop, replicate};
ghost use Rattle.bitml.specs.Answers.{places_of_one};
ghost use Rattle.reading.specs.Request.{read_request};
ghost use Rattle.tables.specs.Entries.{Spacious};
ghost use Rattle.tables.specs.SheetOf.{sheet_in};
ghost use Rattle.buffer.specs.Buffer.{places_of_all, numbers_of_one, numbers_of_all, row_wide};
ghost use Rattle.texts.specs.Wrote.{Wrote};
ghost use Rattle.replies.specs.Answer.{Gives, reply_of, numbers_of, bytes_of, least_text};
ghost use Rattle.loading.specs.Loading.{loading, reply_to, cells_of};
ghost use Rattle.saving.specs.Saving as saved;
ghost use Rattle.saving.specs.Saving.{saving};
ghost use Rattle.checker.specs.Entry.{answer_for_all, judged, answer_to, places_of, refused_in, text_in};
ghost use Rattle.checker.specs.Lending.{Wide, ends_in_all, wants_all};

use buffer::{ALL_NUMBERS, ALL_PLACES, NUMBERS, ROW_WIDE};
use lent::{Row, emit_rows};
use loading::read_sheet;
use plays::play_for;
use reader::Reader;
use reading::{Request, read};
use reasons::why_for;
use refusals::Refusal;
use replies::{Reply, early, refuse};
use requests::MAKEALL;
use saving::write_sheet;
use sheets::Table;
use tables::Sheet;
use texts::put_refused;
use verdicts::{check_for, make_all_for, make_for};

// The bytes of the line `makeall`, its LF with them.
const ALL_LINE: usize = 8;

// The fewest bytes for a line of three numbers.
const LINE: usize = 80;

// `makeall` of a sheet that stands in the table, where the caller has places for so many rows.
fn all_for(table: Table, room: usize, rows: &mut [usize], text: &mut [u8]) -> Reply
    requires numbers_of_all_in_bounds { places_of_all ≤ room → numbers_of_all ≤ length rows.old }
    requires least_text_in_bounds { least_text ≤ length text.old }
    ensures { Gives (answer_for_all room (sheet_in table.entry.cells.now)) (length rows.old) (length text.old) result rows.new text.new }
{
    if room < ALL_PLACES {
        return refuse(Refusal::OverLimit.number(), 0, 0, rows, text);
    }
    make_all_for(table, rows, text)
}

// A request that is not too long, with buffers that are not too short, and a table that serves for it.
fn judged_in(s: &[u8], room: usize, t: &mut [usize], rows: &mut [usize], text: &mut [u8]) -> Reply
    requires s_len_bound { (length s.now ≤ 65536) × (numbers_of_one ≤ length rows.old) × (least_text ≤ length text.old) }
    requires wide { Wide s.now room (length rows.old) }
    requires spacious { Spacious s.now t.old }
    ensures { Gives (judged s.now room (read_request s.now)) (length rows.old) (length text.old) result rows.new text.new }
{
    let request = match read(s, t, rows) {
        Ok(request) => request,
        Err(d) => return refuse(d.refusal.number(), d.place.line, d.place.field, rows, text),
    };
    let table = Table { cells: t };
    match request {
        Request::Make(p) => make_for(table, p, rows, text),
        Request::MakeAll => all_for(table, room, rows, text),
        Request::Why(p) => why_for(table, p, rows, text),
        Request::Check(p, n) => check_for(table, p, n, rows, text),
        Request::Play(v, e) => play_for(s, v, e, table, rows, text),
    }
}

// The same with a table of its own. Clearing it is most of what a small request costs, so a shorter one has a shorter table.
fn judged(s: &[u8], room: usize, rows: &mut [usize], text: &mut [u8]) -> Reply
    requires s_len_bound { (length s.now ≤ 65536) × (numbers_of_one ≤ length rows.old) × (least_text ≤ length text.old) }
    requires wide { Wide s.now room (length rows.old) }
    ensures { Gives (judged s.now room (read_request s.now)) (length rows.old) (length text.old) result rows.new text.new }
{
    if s.len() <= Sheet::SHORT {
        let mut t = [0usize; Sheet::SHORT_TABLE];
        return judged_in(s, room, &mut t, rows, text);
    }
    if s.len() <= Sheet::MIDDLE {
        let mut t = [0usize; Sheet::MIDDLE_TABLE];
        return judged_in(s, room, &mut t, rows, text);
    }
    let mut t = [0usize; Sheet::TABLE];
    judged_in(s, room, &mut t, rows, text)
}

// The same of any request and any text buffer. The caller has places for so many rows, and lends them as numbers.
fn judge_in(s: &[u8], room: usize, numbers: &mut [usize], text: &mut [u8]) -> Reply
    requires numbers_of_one_in_bounds { places_of_one ≤ room → numbers_of_one ≤ length numbers.old }
    requires wide { Wide s.now room (length numbers.old) }
    ensures value { result ≡ reply_of (answer_to s.now room (length text.old)) }
    ensures numbers_after { numbers.new ≡ numbers_of (length numbers.old) (answer_to s.now room (length text.old)) }
    ensures text_after { text.new ≡ bytes_of (length text.old) (answer_to s.now room (length text.old)) }
{
    if let Some(refusal) = early(s.len(), room, text.len()) {
        return refuse(refusal.number(), 0, 0, numbers, text);
    }
    judged(s, room, numbers, text)
}

// The entry for callers whose rows are numbers: node, branch and rank of each.
pub fn judge_numbers(s: &[u8], numbers: &mut [usize], text: &mut [u8]) -> Reply
    ensures value { result ≡ reply_of (answer_to s.now (length numbers.old / row_wide) (length text.old)) }
    ensures numbers_after { numbers.new ≡ numbers_of (length numbers.old) (answer_to s.now (length numbers.old / row_wide) (length text.old)) }
    ensures text_after { text.new ≡ bytes_of (length text.old) (answer_to s.now (length numbers.old / row_wide) (length text.old)) }
{
    let room = numbers.len() / ROW_WIDE;
    judge_in(s, room, numbers, text)
}

// Whether the request's last line is `makeall`.
#[tactic(auto, unfolding(crate::specs::Lending::ends_in_all, crate::specs::Lending::names_all))]
fn ends_in_all(s: &[u8]) -> bool
    ensures { result ≡ ends_in_all s.now }
{
    let n = s.len();
    if n < ALL_LINE {
        return false;
    }
    let last = Reader {
        request: s,
        at: n - ALL_LINE,
    };
    match last.first() {
        Ok((w, _)) => w == MAKEALL,
        Err(_) => false,
    }
}

// Whether rows for all participants may be asked for: then numbers for as many have to be lent, and no others pay for that.
fn wants_all(s: &[u8], room: usize) -> bool
    ensures value { result ≡ wants_all s.now room }
    ensures places_of_all_le_room { result ≡ true → places_of_all ≤ room }
    ensures wide { result ≡ false → Wide s.now room numbers_of_one }
{
    if room < ALL_PLACES {
        return false;
    }
    ends_in_all(s)
}

// What `judge_in` gives, for a caller whose rows are structs: they are filled from numbers, of which enough are lent.
fn judge_rows(s: &[u8], numbers: &mut [usize], rows: &mut [Row], text: &mut [u8]) -> Reply
    requires numbers_of_one_in_bounds { places_of_one ≤ length rows.old → (numbers_of_one ≤ length numbers.old) × (length numbers.old ≤ row_wide * length rows.old) }
    requires wide { Wide s.now (length rows.old) (length numbers.old) }
    ensures value { result ≡ reply_of (answer_to s.now (length rows.old) (length text.old)) }
    ensures numbers_after { numbers.new ≡ numbers_of (length numbers.old) (answer_to s.now (length rows.old) (length text.old)) }
    ensures rows_after { rows.new ≡ places_of (length rows.old) (answer_to s.now (length rows.old) (length text.old)) }
    ensures text_after { text.new ≡ bytes_of (length text.old) (answer_to s.now (length rows.old) (length text.old)) }
{
    let r = judge_in(s, rows.len(), numbers, text);
    emit_rows(numbers, rows);
    r
}

// The entry for callers whose rows are structs.
pub fn hurkoxel_judge(s: &[u8], rows: &mut [Row], text: &mut [u8]) -> Reply
    ensures value { result ≡ reply_of (answer_to s.now (length rows.old) (length text.old)) }
    ensures rows_after { rows.new ≡ places_of (length rows.old) (answer_to s.now (length rows.old) (length text.old)) }
    ensures text_after { text.new ≡ bytes_of (length text.old) (answer_to s.now (length rows.old) (length text.old)) }
{
    if wants_all(s, rows.len()) {
        let mut numbers = [0usize; ALL_NUMBERS];
        return judge_rows(s, &mut numbers, rows, text);
    }
    let mut numbers = [0usize; NUMBERS];
    judge_rows(s, &mut numbers, rows, text)
}

// The line of a refused request, at the start of the buffer; a buffer under 80 bytes stays as it is. How many bytes were written comes back:
// a number, as C takes it, and 0 for none.
pub fn refused_line(number: usize, line: usize, field: usize, text: &mut [u8]) -> usize
    ensures { Wrote text.old 0 (refused_in (length text.old) number line field) text.new result }
{
    if text.len() < LINE {
        return 0;
    }
    put_refused(text, 0, number, line, field)
}

// The text that is printed, at the start of the buffer with zeros behind it: how many bytes it has comes back. An answer has text, so none means refused.
pub fn judge_text(s: &[u8], numbers: &mut [usize], text: &mut [u8]) -> usize
    ensures upper_bound { (result ≤ length text.new) × (result ≡ length (take result text.new)) }
    ensures text_after { take result text.new ≡ text_in (length text.old) (answer_to s.now (length numbers.old / row_wide) (length text.old)) }
    ensures text_after_2 { drop result text.new ≡ replicate (length text.old - result) 0 }
    ensures numbers_after { numbers.new ≡ numbers_of (length numbers.old) (answer_to s.now (length numbers.old / row_wide) (length text.old)) }
{
    let r = judge_numbers(s, numbers, text);
    if 0 < r.length {
        return r.length;
    }
    refused_line(r.number, r.line, r.field, text)
}

// The same under the name that is exported.
pub fn hurkoxel_refused_line(number: usize, line: usize, field: usize, text: &mut [u8]) -> usize
    ensures { Wrote text.old 0 (refused_in (length text.old) number line field) text.new result }
{
    refused_line(number, line, field, text)
}

// A text of line 1 and `def` lines, read into a table.
pub fn hurkoxel_read_sheet(text: &[u8], cells: &mut [usize]) -> Reply
    ensures value { result ≡ reply_to text.now (loading text.now (length cells.old)) }
    ensures cells_after { cells.new ≡ cells_of (length cells.old) (loading text.now (length cells.old)) }
{
    read_sheet(text, cells)
}

// The text of a table's sheet.
pub fn hurkoxel_write_sheet(cells: &[usize], text: &mut [u8]) -> Reply
    ensures value { result ≡ saved.reply_of (saving cells.now (length text.old)) }
    ensures text_after { text.new ≡ saved.bytes_of text.old (saving cells.now (length text.old)) }
{
    write_sheet(cells, text)
}
