// The checker's entry for hosts in C and in other languages: the exported names of include/hurkoxel.h. Each calls the function of its name in
// `checker`, and promises what that one promises.

#![tactic(auto)]

ghost use Rattle.std.specs.Prelude.{◌≡◌, length};
ghost use Rattle.texts.specs.Wrote.{Wrote};
ghost use Rattle.replies.specs.Answer.{reply_of, bytes_of};
ghost use Rattle.loading.specs.Loading.{loading, reply_to, cells_of};
ghost use Rattle.saving.specs.Saving as saved;
ghost use Rattle.saving.specs.Saving.{saving};
ghost use Rattle.checker.specs.Entry.{answer_to, places_of, refused_in};

use lent::Row;
use replies::Reply;

// The entry for callers whose rows are structs.
#[unsafe(no_mangle)]
pub extern "C" fn hurkoxel_judge(s: &[u8], rows: &mut [Row], text: &mut [u8]) -> Reply
    ensures value { result ≡ reply_of (answer_to s.now (length rows.old) (length text.old)) }
    ensures rows_after { rows.new ≡ places_of (length rows.old) (answer_to s.now (length rows.old) (length text.old)) }
    ensures text_after { text.new ≡ bytes_of (length text.old) (answer_to s.now (length rows.old) (length text.old)) }
{
    checker::hurkoxel_judge(s, rows, text)
}

// The line of a refused request.
#[unsafe(no_mangle)]
pub extern "C" fn hurkoxel_refused_line(
    number: usize,
    line: usize,
    field: usize,
    text: &mut [u8],
) -> usize
    ensures { Wrote text.old 0 (refused_in (length text.old) number line field) text.new result }
{
    checker::hurkoxel_refused_line(number, line, field, text)
}

// A text of line 1 and `def` lines, read into a table.
#[unsafe(no_mangle)]
pub extern "C" fn hurkoxel_read_sheet(text: &[u8], cells: &mut [usize]) -> Reply
    ensures value { result ≡ reply_to text.now (loading text.now (length cells.old)) }
    ensures cells_after { cells.new ≡ cells_of (length cells.old) (loading text.now (length cells.old)) }
{
    checker::hurkoxel_read_sheet(text, cells)
}

// The text of a table's sheet.
#[unsafe(no_mangle)]
pub extern "C" fn hurkoxel_write_sheet(cells: &[usize], text: &mut [u8]) -> Reply
    ensures value { result ≡ saved.reply_of (saving cells.now (length text.old)) }
    ensures text_after { text.new ≡ saved.bytes_of text.old (saving cells.now (length text.old)) }
{
    checker::hurkoxel_write_sheet(cells, text)
}
