// The event lines of `play`. One reader serves the reading of the whole request and the play after it.

#![tactic(auto, unfolding(crate::specs::Events::after_pair, crate::specs::Events::pair_at, crate::specs::Events::last_pair_at, crate::specs::Events::wait_at, crate::specs::Events::sign_at, crate::specs::Events::tell_at, crate::specs::Events::fire_at, crate::specs::Events::renew_at, crate::specs::Events::event_at, fields::specs::Field::when_read))]

ghost use Rattle.std.specs.Prelude.{◌≡◌};
ghost use Rattle.fields.specs.Told.{told};
ghost use Rattle.events.specs.Event.{told as told_event};
ghost use Rattle.events.specs.Events.{pair_at, last_pair_at, wait_at, sign_at, values_at, renew_at, event_at, events_at};
ghost use Rattle.events.specs.Lines.{told as told_lines};
ghost use Rattle.events.specs.Pair.{told as told_pair};

use fields::Refused;
use reader::Reader;
use refusals::Refusal;
use requests::past_value;

const WAIT: usize = ((b'w' as usize * 256 + b'a' as usize) * 256 + b'i' as usize) * 256
    + b't' as usize;

const SIGN: usize = ((b's' as usize * 256 + b'i' as usize) * 256 + b'g' as usize) * 256
    + b'n' as usize;

const TELL: usize = ((b't' as usize * 256 + b'e' as usize) * 256 + b'l' as usize) * 256
    + b'l' as usize;

const FIRE: usize = ((b'f' as usize * 256 + b'i' as usize) * 256 + b'r' as usize) * 256
    + b'e' as usize;

const RENEW: usize = (((b'r' as usize * 256 + b'e' as usize) * 256 + b'n' as usize) * 256
    + b'e' as usize)
    * 256
    + b'w' as usize;

// The longest wait, the largest number of a contract, branch, set or secret, and the most values of a renewal.
const LONGEST: usize = 4294967295;

const LARGEST: usize = 65535;

const VALUES: usize = 8;

// An event.
#[derive(Clone, Copy)]
pub enum Event {
    // How long.
    Wait(usize),
    // The participant, the contract, the branch.
    Sign(usize, usize, usize),
    // The set, the secret.
    Tell(usize, usize),
    // The contract, the branch.
    Fire(usize, usize),
    // The contract, the branch, the position of the values and how many there are.
    Renew(usize, usize, usize, usize),
}

// The two fields that are due, as numbers of a contract and a branch, or of a set and a secret; and the position after them.
fn pair_at(r: Reader) -> Result<(usize, usize, usize), Refused>
    ensures { told_pair result ≡ pair_at r.entry.request.now r.entry.at }
{
    let (a, at) = r.number_up_to(LARGEST)?;
    let (b, end) = Reader { at, ..r }.number_up_to(LARGEST)?;
    Ok((a, b, end))
}

// The same, with the line's end after them.
fn last_pair(r: Reader) -> Result<(usize, usize, usize), Refused>
    ensures { told_pair result ≡ last_pair_at r.entry.request.now r.entry.at }
{
    let (a, b, at) = pair_at(r)?;
    let end = Reader { at, ..r }.line_end()?;
    Ok((a, b, end))
}

// Lines of an event, after the word: the event, and the position after the line.
fn wait_line(r: Reader) -> Result<(Event, usize), Refused>
    ensures { told_event result ≡ wait_at r.entry.request.now r.entry.at }
{
    let (d, at) = r.number_between(1, LONGEST)?;
    let end = Reader { at, ..r }.line_end()?;
    Ok((Event::Wait(d), end))
}

fn sign_line(r: Reader, people: usize) -> Result<(Event, usize), Refused>
    ensures { told_event result ≡ sign_at r.entry.request.now people r.entry.at }
{
    let (p, at) = r.number_below(people)?;
    let (c, b, end) = last_pair(Reader { at, ..r })?;
    Ok((Event::Sign(p, c, b), end))
}

// How many values follow, up to 8, and the position after them.
#[tactic(auto, using(crate::proofs::Laws::values_on, crate::proofs::Laws::values_bad, crate::proofs::Laws::values_end, crate::proofs::Laws::values_full), unfolding(crate::specs::Events::values_at))]
fn values(r: Reader) -> Result<(usize, usize), Refused>
    ensures { told result ≡ values_at r.entry.request.now r.entry.at }
{
    let mut at = r.at;
    for n in 0..VALUES {
        match past_value(Reader { at, ..r }) {
            Ok(end) => at = end,
            Err(e) if e.refusal == Refusal::Missing => return Ok((n, at)),
            Err(e) => return Err(e),
        }
    }
    Ok((VALUES, at))
}

fn renew_line(r: Reader) -> Result<(Event, usize), Refused>
    ensures { told_event result ≡ renew_at r.entry.request.now r.entry.at }
{
    let (c, b, from) = pair_at(r)?;
    let (n, at) = values(Reader { at: from, ..r })?;
    let end = Reader { at, ..r }.line_end()?;
    Ok((Event::Renew(c, b, from, n), end))
}

// The event line that starts where the reader is, and the position after it.
pub fn event_at(r: Reader, people: usize) -> Result<(Event, usize), Refused>
    ensures { told_event result ≡ event_at r.entry.request.now people r.entry.at }
{
    let (w, at) = r.first()?;
    let rest = Reader { at, ..r };
    match w {
        WAIT => wait_line(rest),
        SIGN => sign_line(rest, people),
        TELL => {
            let (i, j, end) = last_pair(rest)?;
            Ok((Event::Tell(i, j), end))
        }
        FIRE => {
            let (c, b, end) = last_pair(rest)?;
            Ok((Event::Fire(c, b), end))
        }
        RENEW => renew_line(rest),
        _ => Err(r.refused(Refusal::NotDue)),
    }
}

// All event lines, from where the reader is to the request's end.
pub fn events(r: Reader, people: usize) -> Result<(), Refused>
    ensures { told_lines result ≡ events_at r.entry.request.now people r.entry.at }
{
    // A line's end says where the next one starts, so nothing is counted.
    let mut at = r.at;
    while at < r.request.len() {
        let (_, next) = event_at(Reader { at, ..r }, people)?;
        at = next;
    }
    Ok(())
}
