// The samples that a macroblock is to show: the source's, its last column and row repeated.
ghost use Rattle.std.specs.Prelude.{◌≡◌, ◌+◌, ◌<◌, ◌≤◌, min, length, get_or};
ghost use Rattle.mv_cache.specs.Grid.{row_set};
ghost use Rattle.canvas.specs.Canvas.{largest_side};
ghost use Rattle.macroblock.specs.Choice.{target_of};
ghost use Rattle.macroblock_search.specs.TargetForms.{Sources};

use canvas::svq1_plane::Svq1PlaneCanvas;
use canvas::svq1_plane::inner::blocks_along;
use mv_cache::svq1_mv_cache::inner::copy_row;

// Sixteen samples from place o on: those from column x of the row at p on, its last column repeated.
#[tactic(auto, using(mv_cache::specs::PutLaws::row_none, mv_cache::specs::PutLaws::row_more))]
fn repeat_row(out: &mut [u8], source: &[u8], o: usize, p: usize, x: usize, last: usize)
    requires { (o + 16 ≤ length out.old) × (p + last < length source.now) × (x ≤ largest_side) }
    ensures { out.new ≡ row_set o (λ j. get_or source.now (p + min (x + j) last) 0) 16 out.old }
{
    for i in 0..16 {
        out[o + i] = source[p + (x + i).min(last)];
    }
}

// The same; where the row goes that far, nothing is repeated.
fn target_row(out: &mut [u8], source: &[u8], o: usize, p: usize, x: usize, last: usize)
    requires { (o + 16 ≤ length out.old) × (p + last < length source.now) × (x ≤ largest_side) }
    ensures { out.new ≡ row_set o (λ j. get_or source.now (p + min (x + j) last) 0) 16 out.old }
{
    if x + 15 <= last {
        copy_row(out, source, o, p + x, 16);
    } else {
        repeat_row(out, source, o, p, x, last);
    }
}

// Macroblock k of the source, its last column and row repeated to whole macroblocks.
pub fn block(canvas: Svq1PlaneCanvas, source: &[u8], k: usize, out: &mut [u8])
    requires { Sources canvas.width canvas.height source.now k × (length out.old ≡ 256) }
    ensures { out.new ≡ target_of canvas.width canvas.height source.now k }
{
    let cols = blocks_along(canvas.width);
    let x = k % cols * 16;
    let y = k / cols * 16;
    for i in 0..16 {
        let row = (y + i).min(canvas.height - 1);
        target_row(out, source, 16 * i, row * canvas.width, x, canvas.width - 1);
    }
}
