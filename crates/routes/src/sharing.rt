// Whether two paths share a link, by comparing their links.
ghost use Rattle.std.specs.Prelude.{◌≡◌, ◌≤◌, ◌==◌};
ghost use Rattle.std.specs.List.{list_any};
ghost use Rattle.routes.specs.Route.{links_of};
ghost use Rattle.routes.specs.Share.{shares};

use crate::paths::Path;

// Whether some link of one list is in the other.
fn meet(a: &[u16], b: &[u16]) -> bool
    ensures { result ≡ list_any (λ x. list_any (λ y. y == x) b.now) a.now }
{
    a.iter().any(|link| b.contains(link))
}

// Whether some link is on both paths.
pub fn share(a: Path, b: Path) -> bool
    requires { (a.len ≤ 32) × (b.len ≤ 32) }
    ensures { result ≡ shares (links_of a) (links_of b) }
{
    meet(a.listed(), b.listed())
}
