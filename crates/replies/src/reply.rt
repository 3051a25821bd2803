ghost use Rattle.std.specs.Prelude.{◌≡◌};
ghost use Rattle.replies.specs.Replies.{is_draft};

// A reply. The records whose names are given stand beside it, by their numbers, where its caller lent room for them: an array in it would be copied
// wherever it goes.
#[derive(Clone, Copy, Debug, PartialEq, Eq)]
pub enum Shape {
    Status(usize), // a status alone
    Info, // GetInfo's information
    Names, // the names of some records, for the user's choice
    Registration, // key registration data
    Signed {
        record: usize,
        count: u32,
        content: bool,
    }, // signed data for this record, with its new count, and whether there is content
}

impl Shape {
    // Whether it is a draft, which is still to be signed and completed, or a response.
    pub fn is_draft(self) -> bool
        ensures { result ≡ is_draft self }
    {
        matches!(self, Shape::Registration | Shape::Signed { .. })
    }
}
