// A mark for each link: the flow whose path was marked last among those that have the link.
ghost use Rattle.std.specs.Prelude.{◌≡◌, ℕ, ◌<◌, length, get_or, Some};
ghost use Rattle.mesh.specs.Link.{all_links};
ghost use Rattle.marks.specs.Marks.{stamped, has_mark};

use mesh::ALL_LINKS;
use std::marker::Model;

// The mark of a link: a flow's, or none. To contracts it is an Option of a flow's number. An `Option<u8>` has a tag beside its number,
// and the innermost loop of the search compares both: so it is one byte here, 0 for none.
#[derive(Clone, Copy, PartialEq, Eq)]
pub struct Mark(u8);

impl Model for Mark {
    ghost use Rattle.std.specs.Prelude.{Option, ℕ};

    ghost Value = { Option ℕ };

    ghost use Rattle.marks.specs.Byte.{flow_of_byte, byte_of_flow, byte_back};

    ghost view = { λ m. flow_of_byte m.0 };

    ghost inverse = { λ f. record { 0 = byte_of_flow f } };

    ghost inverse_ok = { λ m _. byte_back m };
}

impl Mark {
    // No flow's.
    pub const NONE: Mark = Mark(0);

    // The mark of a flow.
    pub fn of(own: usize) -> Mark
        requires { own < 255 }
        ensures { result ≡ Some own }
    {
        Mark(own as u8 + 1)
    }
}

// Marks the links of a flow's path.
pub fn stamp(marks: &mut [Mark; ALL_LINKS], path: &[u16], own: usize)
    requires { ((a : ℕ) → a < length path.now → get_or path.now a 0 < all_links) × (own < 64) }
    ensures { marks.new ≡ stamped path.now own (length path.now) marks.old }
{
    let mark = Mark::of(own);
    for &link in path {
        marks[usize::from(link)] = mark;
    }
}

// Whether a link has the mark of a flow.
#[tactic(auto, unfolding(crate::specs::Marks::has_mark))]
pub fn has_mark(marks: &[Mark; ALL_LINKS], own: usize, link: u16) -> bool
    requires { (own < 64) × (link < all_links) }
    ensures { result ≡ has_mark marks.now own link }
{
    marks[usize::from(link)] == Mark::of(own)
}
