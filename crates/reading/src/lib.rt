// The whole request, read before anything is judged; and what is promised of a sheet that was read.

#![tactic(auto)]

ghost use Rattle.std.specs.Prelude.{◌≡◌, ◌≤◌, length};
ghost use Rattle.tables.specs.Entries.{held, people, cells_from, Spacious};
ghost use Rattle.buffer.specs.Buffer.{numbers_of_one};
ghost use Rattle.lines.specs.Sheet.{Sized, accepted};
ghost use Rattle.reading.specs.Request.{from_sheet, read_request, told, answered};

use events::events;
use fields::Refused;
use lines::sheet;
use places::{Place, place_of};
use reader::Reader;
use refusals::Refusal;
use requests::{Part, last_part, rows};
use tables::Sheet;

// The last part of a request whose sheet stands in the table.
#[derive(Clone, Copy)]
pub enum Request {
    // The participant.
    Make(usize),
    MakeAll,
    // The participant.
    Why(usize),
    // The participant, and how many rows stand in the buffer.
    Check(usize, usize),
    // Where the values start, and where the events do.
    Play(usize, usize),
}

// What refuses a request, and the place of the field at which it does.
#[derive(Clone, Copy)]
pub struct Declined {
    pub refusal: Refusal,
    pub place: Place,
}

// The last part of a request whose sheet stands in the table, and ends where the reader is.
#[tactic(auto, using(crate::proofs::Reading::from_sheet_lem, crate::proofs::Reading::check_is, crate::proofs::Reading::check_refused), unfolding(crate::specs::Request::asked, crate::specs::Request::from_part, crate::specs::Request::from_lines))]
fn after_sheet(r: Reader, t: &[usize], buffer: &mut [usize]) -> Result<Request, Refused>
    requires cells_from_in_bounds { (cells_from ≤ length t.now) × Sized r.request.now r.at t.now }
    requires numbers_of_one_in_bounds { numbers_of_one ≤ length buffer.old }
    ensures { told r.entry.request.now result t.now buffer.new ≡ from_sheet r.entry.request.now (accepted (people t.now) r.entry.at (held t.now)) }
{
    let k = t[Sheet::PARTICIPANTS_CELL];
    let part = last_part(r, k, t[Sheet::DEFS_AT + 2])?;
    match part {
        Part::Make(p) => Ok(Request::Make(p)),
        Part::MakeAll => Ok(Request::MakeAll),
        Part::Why(p) => Ok(Request::Why(p)),
        Part::Check(p, at) => {
            let (n, _) = rows(Reader { at, ..r }, t, t[Sheet::NODES_CELL], buffer)?;
            Ok(Request::Check(p, n))
        }
        Part::Play(values, at) => {
            events(Reader { at, ..r }, k)?;
            Ok(Request::Play(values, at))
        }
    }
}

// The sheet into the table, and the rows of a `check` into the buffer, whatever they held.
#[tactic(auto, unfolding(crate::specs::Request::read_request, crate::specs::Request::from_sheet, lines::specs::Sheet::answered, lines::specs::Sheet::WhenAccepted))]
fn read_whole(s: &[u8], t: &mut [usize], buffer: &mut [usize]) -> Result<Request, Refused>
    requires s_len_bound { length s.now ≤ 65536 }
    requires spacious { Spacious s.now t.old }
    requires numbers_of_one_in_bounds { numbers_of_one ≤ length buffer.old }
    ensures { told s.now result t.new buffer.new ≡ read_request s.now }
{
    let at = sheet(s, t)?;
    after_sheet(Reader { request: s, at }, t, buffer)
}

// The request's bytes, read: its sheet into the table, the rows of a `check` into the buffer, whatever they held.
pub fn read(s: &[u8], t: &mut [usize], buffer: &mut [usize]) -> Result<Request, Declined>
    requires s_len_bound { length s.now ≤ 65536 }
    requires spacious { Spacious s.now t.old }
    requires numbers_of_one_in_bounds { numbers_of_one ≤ length buffer.old }
    ensures { answered result t.new buffer.new ≡ read_request s.now }
{
    read_whole(s, t, buffer).map_err(|e| Declined {
        refusal: e.refusal,
        place: place_of(s, e.at),
    })
}
