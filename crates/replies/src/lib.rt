// The value that answers a request, what refuses one before it is read, and the buffers after a refusal.

#![tactic(auto)]

ghost use Rattle.std.specs.Prelude.{◌≡◌, ◌≤◌, length};
ghost use Rattle.refusals.specs.Numbers.{told};
ghost use Rattle.bitml.specs.Answers.{refused, places_of_one};
ghost use Rattle.replies.specs.Answer.{Gives, least_text};
ghost use Rattle.replies.specs.Before.{early};

use buffer::{PLACES, clear as clear_numbers};
use refusals::Refusal;
use texts::clear;

// The longest request.
pub const BYTES: usize = 65536;

// The layout of include/hurkoxel.h. Refused with number, line and field; or, where the number is 0, answered with so many bytes of text.
#[repr(C)]
#[derive(Clone, Copy)]
pub struct Reply {
    pub number: usize,
    pub line: usize,
    pub field: usize,
    pub length: usize,
}

impl Reply {
    // How long a text buffer must be: every reply fits.
    pub const TEXT: usize = 180224;
}

// Answered, with so many bytes of text.
pub fn answered(length: usize) -> Reply
    ensures { result ≡ record { number = 0; line = 0; field = 0; length = length } }
{
    Reply {
        number: 0,
        line: 0,
        field: 0,
        length,
    }
}

// Refused.
pub fn declined(number: usize, line: usize, field: usize) -> Reply
    ensures { result ≡ record { number = number; line = line; field = field; length = 0 } }
{
    Reply {
        number,
        line,
        field,
        length: 0,
    }
}

// A refusal leaves nothing in the buffers.
pub fn refuse(
    number: usize,
    line: usize,
    field: usize,
    rows: &mut [usize],
    text: &mut [u8],
) -> Reply
    ensures { Gives (refused number line field) (length rows.old) (length text.old) result rows.new text.new }
{
    clear_numbers(rows);
    clear(text);
    declined(number, line, field)
}

// What refuses a request before it is read.
pub fn early(bytes: usize, rows: usize, text: usize) -> Option<Refusal>
    ensures value { told result ≡ early bytes rows text }
    ensures bytes_bound { told result ≡ 0 → (bytes ≤ 65536) × (places_of_one ≤ rows) × (least_text ≤ text) }
{
    if BYTES < bytes {
        return Some(Refusal::TooLong);
    }
    if rows < PLACES || text < Reply::TEXT {
        return Some(Refusal::OverLimit);
    }
    None
}
