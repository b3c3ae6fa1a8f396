// Why a request or an event is declined: the table of document 01, "When a request is declined", with 20 and 21 of change requests.

#![tactic(auto)]

ghost use Rattle.std.specs.Prelude.{◌≡◌};
ghost use Rattle.refusals.specs.Numbers.{number};

#[derive(Clone, Copy, PartialEq, Eq, PartialOrd, Ord)]
pub enum Refusal {
    // The request has over 65,536 bytes.
    TooLong = 1,
    // A field, a line or the final LF is missing.
    Missing = 2,
    // Not the word or number that is due.
    NotDue = 3,
    // A count, amount, rank or event field beyond its range.
    OutOfRange = 4,
    // A secret stands twice in one `r`.
    Repeated = 5,
    // No such participant, definition, secret, node or branch.
    Unknown = 6,
    // A limit of the sheet or of rows is passed, or a lent buffer is too short.
    OverLimit = 7,
    // Weights add to 0.
    NoWeight = 8,
    // A field too many, or a line.
    TooMany = 9,
    // The node has a row already.
    SecondRow = 10,
    // A needed row is missing.
    MissingRow = 11,
    // The branch is not own.
    NotOwn = 12,
    // The rank is too low.
    RankTooLow = 13,
    // The contract is unknown or dead, has no such branch, or one of the wrong kind.
    NoBranch = 14,
    // Before the opening time.
    TooEarly = 15,
    // Unsigned, not a signer, or signed twice.
    Signature = 16,
    // A set or secret is unknown, `x`, told or untold, or the condition is false.
    Secret = 17,
    // The wrong count of values.
    ValueCount = 18,
    // A limit of the program's ledger.
    LedgerLimit = 19,
    // The buffer for a sheet's text is too short.
    ShortText = 20,
    // The node is below that of the row before.
    OutOfOrder = 21,
}

impl Refusal {
    // The number that is printed.
    pub fn number(self) -> usize
        ensures { result ≡ number self }
    {
        self as usize
    }
}
