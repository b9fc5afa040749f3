// Nodes: numbers, and places in columns and rows.
ghost use Rattle.std.specs.Prelude.{◌≡◌, ◌<◌, ◌≤◌, ◌*◌};
ghost use Rattle.mesh.specs.Node.{place_of, node_at, apart, distance_of, Ends};

// A place in the mesh.
#[derive(Clone, Copy, PartialEq, Eq)]
pub struct Place {
    pub column: usize,
    pub row: usize,
}

// The place of a node.
// Kept: columns is a number, a field of the model's mesh: as a type with its bounds it would be built anew at each of the two outer calls.
#[tactic(auto, unfolding(crate::specs::Node::place_of))]
pub fn place_of(columns: usize, node: usize) -> Place
    requires { 0 < columns }
    ensures { result ≡ place_of columns node }
{
    Place {
        column: node % columns,
        row: node / columns,
    }
}

// The node at a place.
#[tactic(auto, unfolding(crate::specs::Node::node_at))]
pub fn node_at(columns: usize, at: Place) -> usize
    requires { (columns ≤ 16) × (at.column < 16) × (at.row < 16) }
    ensures { result ≡ node_at columns at }
{
    at.row * columns + at.column
}

// How far two columns, or two rows, are apart.
#[tactic(auto, unfolding(crate::specs::Node::apart))]
pub fn far(a: usize, b: usize) -> usize
    ensures { result ≡ apart a b }
{
    a.abs_diff(b)
}

// The distance of two nodes: columns apart plus rows apart.
#[tactic(auto, unfolding(crate::specs::Node::distance_of, crate::specs::Node::place_of, crate::specs::Node::apart))]
pub fn distance(columns: usize, a: usize, b: usize) -> usize
    requires { Ends columns a b }
    ensures { result ≡ distance_of columns a b }
{
    let p = place_of(columns, a);
    let q = place_of(columns, b);
    far(p.column, q.column) + far(p.row, q.row)
}
