// Links: their numbers, and the table of six kinds.
ghost use Rattle.std.specs.Prelude.{◌≡◌, ◌<◌};
ghost use Rattle.mesh.specs.Link.{number_of, link_of, step_of, end_of, Inner};

use crate::nodes::Place;

// The six kinds of link, in the order of the table.
#[derive(Clone, Copy, PartialEq, Eq)]
pub enum Kind {
    // L-n: local into router n.
    LocalIn,
    // n-L: router n to local.
    LocalOut,
    // To the next column.
    NextColumn,
    // To the column before.
    ColumnBefore,
    // To the next row.
    NextRow,
    // To the row before.
    RowBefore,
}

// The step of a kind: how many columns and how many rows it goes on.
#[derive(Clone, Copy)]
pub struct Step {
    pub column: isize,
    pub row: isize,
}

// The table of six kinds, indexed by kind.
const STEP: [Step; 6] = [
    Step { column: 0, row: 0 },
    Step { column: 0, row: 0 },
    Step { column: 1, row: 0 },
    Step { column: -1, row: 0 },
    Step { column: 0, row: 1 },
    Step { column: 0, row: -1 },
];

// Every link's number is below this: 6 for each of 16 × 16 nodes.
pub const ALL_LINKS: usize = 1536;

// A link's number.
#[tactic(auto, unfolding(crate::specs::Link::link_of))]
pub fn link_of(node: usize, kind: Kind) -> u16
    requires { node < 256 }
    ensures { result ≡ link_of node (number_of kind) }
{
    (6 * node + kind as usize) as u16
}

// The step of a kind.
#[tactic(auto, unfolding(crate::specs::Link::step_of, crate::specs::Link::steps))]
fn step_of(kind: Kind) -> Step
    ensures { result ≡ step_of (number_of kind) }
{
    STEP[kind as usize]
}

// The place at which a link of a kind ends that begins at a place.
#[tactic(auto, unfolding(crate::specs::Link::end_of))]
pub fn end_of(kind: Kind, at: Place) -> Place
    requires { Inner (number_of kind) at }
    ensures { result ≡ end_of (number_of kind) at }
{
    let step = step_of(kind);
    Place {
        column: at.column.strict_add_signed(step.column),
        row: at.row.strict_add_signed(step.row),
    }
}
