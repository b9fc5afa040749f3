// Paths: XY from source to target, as an array of 32 link numbers by value beside its length.
ghost use Rattle.std.specs.Prelude.{◌≡◌, ◌+◌, ◌<◌, ◌≤◌};
ghost use Rattle.routes.specs.Route.{towards, links_of, path_of, route_of};
ghost use Rattle.mesh.specs.Node.{Ends};
ghost use Rattle.mesh.specs.Link.{number_of};
ghost use Rattle.routes.specs.Growing.{pushed, walked, Walkable};

use mesh::{Kind, Place, end_of, far, link_of, node_at, place_of};

// The links of a path: the first len of the array; what follows them is 0.
// Kept: the array beside its length, as document 01 names it; no ghost field, as `path_of`, `pushed` and `no_path` build it of two fields.
#[derive(Clone, Copy, PartialEq, Eq, Default)]
pub struct Path {
    pub links: [u16; 32],
    pub len: usize,
}

impl Path {
    // The links that the path lists.
    #[tactic(auto, unfolding(crate::specs::Route::links_of))]
    pub fn listed(&self) -> &[u16]
        requires { self.now.len ≤ 32 }
        ensures { result.now ≡ links_of self.now }
    {
        &self.links[..self.len]
    }

    // Puts one more link on the path.
    #[tactic(auto, unfolding(crate::specs::Growing::pushed))]
    fn push(&mut self, link: u16)
        requires { self.old.len < 32 }
        ensures { self.new ≡ pushed self.old link }
    {
        self.links[self.len] = link;
        self.len += 1;
    }

    // Puts n more links of one kind on the path, from a place on.
    fn walk(&mut self, columns: usize, kind: Kind, n: usize, from: Place)
        requires { Walkable self.old columns (number_of kind) n from }
        ensures { self.new ≡ walked self.old columns (number_of kind) n from }
    {
        let mut at = from;
        for _ in 0..n {
            self.push(link_of(node_at(columns, at), kind));
            at = end_of(kind, at);
        }
    }
}

// The kind that leads from a towards b: up by the first, down by the second, the kind after it.
#[tactic(auto, unfolding(crate::specs::Route::towards))]
fn kind_towards(up: Kind, down: Kind, a: usize, b: usize) -> Kind
    requires { number_of down ≡ number_of up + 1 }
    ensures { number_of result ≡ towards (number_of up) a b }
{
    if a <= b { up } else { down }
}

// The XY path from source to target.
pub fn route(columns: usize, source: usize, target: usize) -> Path
    requires { Ends columns source target }
    ensures { result ≡ path_of (route_of columns source target) }
{
    let a = place_of(columns, source);
    let b = place_of(columns, target);
    let turn = Place {
        column: b.column,
        row: a.row,
    };
    let along = kind_towards(Kind::NextColumn, Kind::ColumnBefore, a.column, b.column);
    let across = kind_towards(Kind::NextRow, Kind::RowBefore, a.row, b.row);
    let mut path = Path::default();
    path.push(link_of(source, Kind::LocalIn));
    path.walk(columns, along, far(a.column, b.column), a);
    path.walk(columns, across, far(a.row, b.row), turn);
    path.push(link_of(target, Kind::LocalOut));
    path
}
