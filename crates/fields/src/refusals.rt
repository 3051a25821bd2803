// What an entry that gives no result says: document 01's refusals, and those that document 02 adds. A call checks 1 to 4 in this order, a
// completion 1, 5 and 4, the reader 5 alone, a writer of commands 6 and 1, a withdrawal 1, 2, 4 and 7.
ghost use Rattle.std.specs.Prelude.{◌≡◌};
ghost use Rattle.fields.specs.Refusals.{number};

// Each with the number by which C is told of it.
#[derive(Clone, Copy, Debug, PartialEq, Eq)]
pub enum Refusal {
    // An output shorter than what may be written into it.
    ShortOutput = 1,
    // The table, or its stored form, breaks a rule.
    BrokenTable = 2,
    // Fewer than 4 bytes, or none of the five commands.
    NoCommand = 3,
    // A lent result with a wrong length or number.
    WrongLent = 4,
    // A draft or a response that nothing writes.
    NotWritten = 5,
    // A field or the number of key handles breaks a rule, or the command would be too long.
    BadField = 6,
    // No record has both values of a withdrawal, its counter is not 0, or it is not its holder's newest.
    NotWithdrawable = 7,
}

impl From<Refusal> for u32 {
    ghost from_gives = { λ refusal n. n ≡ number refusal };

    fn from(refusal: Refusal) -> u32 {
        refusal as u32
    }
}
