// Windows over start and length.
ghost use Rattle.std.specs.Prelude.{◌≡◌, ◌+◌, ◌<◌, ◌^◌};
ghost use Rattle.time.specs.Window.{overlaps};

use crate::units::Cycles;

// The cycles from start on, span of them.
#[derive(Clone, Copy, PartialEq, Eq)]
pub struct Window {
    pub start: Cycles,
    pub span: Cycles,
}

impl Window {
    // The first cycle behind the window.
    fn end(self) -> Cycles
        requires { self.start.0 + self.span.0 < 2 ^ 32 }
        ensures { result.0 ≡ self.start.0 + self.span.0 }
    {
        Cycles(self.start.0 + self.span.0)
    }
}

// Whether two windows have a cycle in common; touching windows have none.
#[tactic(auto, unfolding(crate::specs::Window::overlaps))]
pub fn overlap(a: Window, b: Window) -> bool
    requires { (a.start.0 + a.span.0 < 2 ^ 32) × (b.start.0 + b.span.0 < 2 ^ 32) }
    ensures { result ≡ overlaps a.start.0 a.span.0 b.start.0 b.span.0 }
{
    a.start < b.end() && b.start < a.end()
}
