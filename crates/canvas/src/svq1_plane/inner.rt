// A function that only the crates of this repository call.
ghost use Rattle.std.specs.Prelude.{◌≡◌, ◌≤◌};
ghost use Rattle.canvas.specs.Canvas.{largest_side, blocks_along};

use super::super::svq1_plane::MB_DIM;

// Macroblocks along a side.
pub fn blocks_along(n: usize) -> usize
    requires { n ≤ largest_side }
    ensures { result ≡ blocks_along n }
{
    (n + (MB_DIM - 1)) / MB_DIM
}
