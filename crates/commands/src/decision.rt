ghost use Rattle.std.specs.Prelude.{◌≡◌};
ghost use Rattle.replies.specs.declared.reply.Shape.TheVariants.{Status};
ghost use Rattle.commands.specs.Decisions.{decision};
ghost use Rattle.stored_table.specs.declared.left.Change.TheVariants.{Keep};

use replies::reply::Shape;
use stored_table::left::Change;

// What a command decided on a table: a reply, how many records it names, and a change. The numbers of the records named stand first in what the
// command was lent for them.
#[derive(Clone, Copy)]
pub struct Decision {
    pub shape: Shape,
    pub named: usize,
    pub change: Change,
}

// A reply that names no record, and a change.
pub fn plain(shape: Shape, change: Change) -> Decision
    ensures { result ≡ decision shape 0 change }
{
    Decision {
        shape,
        named: 0,
        change,
    }
}

// A status alone, and nothing changed.
pub fn only(status: usize) -> Decision
    ensures { result ≡ decision (Status status) 0 Keep }
{
    plain(Shape::Status(status), Change::Keep)
}
