// A macroblock's 256 samples.
ghost use Rattle.std.specs.Prelude.{◌≡◌, List, ℕ, ◌*◌, ◌<◌, length};
ghost use Rattle.bits.specs.Basics.{All};
ghost use Rattle.mv_cache.specs.CacheNeeds.{VectorSlices, BlocksRoom};
ghost use Rattle.mv_cache.specs.Grid.{part};
ghost use Rattle.compensation.specs.MovedForms.{Placed};
ghost use Rattle.canvas.specs.Canvas.{blocks_along};
ghost use Rattle.vectors.specs.VectorsLaws.{Inside};
ghost use Rattle.vectors.specs.declared.svq1_motion_predictor.Svq1Mv.{Svq1Mv};
ghost use Rattle.tree.specs.NodeForms.{tree_of};
ghost use Rattle.macroblock.specs.Slices.{slices_by};
ghost use Rattle.macroblock.specs.Macroblock.{coded, half_of, baseline};
ghost use Rattle.macroblock.specs.MotionForms.{motion_of};
ghost use Rattle.macroblock.specs.MacroblockNeeds.{given_by};
ghost use Rattle.macroblock.specs.SampleNeeds.{Stands, Laid, Showing, Shows, quarters};

use super::super::super::svq1_enc_inter::MbMotion;
use book::svq1_blocktree::Svq1Level;
use book::svq1_vlc::Svq1Half;
use canvas::svq1_plane::Svq1PlaneCanvas;
use compensation::svq1_mc::inner::{mc_macroblock, mc_quarter};
use mv_cache::svq1_mv_cache::inner::{put_part, store_vectors};
use tree::svq1_enc_tree::Block;
use tree_samples::svq1_enc_tree::inner::rebuild::rebuild;
use vectors::svq1_motion_predictor::Svq1Mv;

// Macroblock k of a plane, whose canvas has this stride and so many rows: the block that a zero vector reads.
pub fn take_block(
    plane: &[u8],
    stride: usize,
    rows: usize,
    cols: usize,
    k: usize,
    out: &mut [u8; 256],
)
    requires { Stands (record { samples = plane.now; stride = stride; rows = rows }) cols k × (length out.old ≡ 256) }
    ensures { out.new ≡ part 16 cols k plane.now }
{
    let x = 16 * (k % cols);
    let y = 16 * (k / cols);
    mc_macroblock(out, plane, stride, rows, x, y, Svq1Mv::ZERO);
}

// The macroblock at (x, y), each quarter moved by its vector.
fn move_quarters(
    out: &mut [u8; 256],
    reference: &[u8],
    stride: usize,
    rows: usize,
    x: usize,
    y: usize,
    vectors: [Svq1Mv; 4],
)
    requires { Placed (record { samples = reference.now; stride = stride; rows = rows }) x y × (length out.old ≡ 256) }
    ensures { out.new ≡ quarters (record { samples = reference.now; stride = stride; rows = rows }) x y vectors }
{
    let a = vectors[0];
    let b = vectors[1];
    let c = vectors[2];
    let d = vectors[3];
    mc_quarter(out, reference, stride, rows, x, y, a, 0);
    mc_quarter(out, reference, stride, rows, x, y, b, 1);
    mc_quarter(out, reference, stride, rows, x, y, c, 2);
    mc_quarter(out, reference, stride, rows, x, y, d, 3);
}

// What the tree of macroblock k is laid over: 0 where there is no motion, else the reference moved by one vector or by four.
pub fn baseline_of(
    canvas: Svq1PlaneCanvas,
    reference: &[u8],
    k: usize,
    motion: MbMotion,
    vectors: [Svq1Mv; 4],
    out: &mut [u8; 256],
)
    requires { Stands (record { samples = reference.now; stride = canvas.stride; rows = canvas.rows }) (blocks_along canvas.width) k × (length out.old ≡ 256) }
    ensures { (book codebook : List ℕ) → out.new ≡ baseline (given_by canvas reference.now book codebook) k (motion_of motion vectors) }
{
    let stride = canvas.stride;
    let rows = canvas.rows;
    let cols = stride / 16;
    let x = 16 * (k % cols);
    let y = 16 * (k / cols);
    match motion {
        MbMotion::None => out.fill(0),
        MbMotion::One { mv, diff: _ } => mc_macroblock(out, reference, stride, rows, x, y, mv),
        MbMotion::Four => move_quarters(out, reference, stride, rows, x, y, vectors),
    }
}

// The half that a motion's tree is of.
pub fn half_of(motion: MbMotion) -> Svq1Half
    ensures { (vectors : List Svq1Mv) → result ≡ half_of (motion_of motion vectors) }
{
    match motion {
        MbMotion::None => Svq1Half::Intra,
        MbMotion::One { mv: _, diff: _ } => Svq1Half::Inter,
        MbMotion::Four => Svq1Half::Inter,
    }
}

// The samples of macroblock k that a tree shows over its motion's baseline, which `base` holds at the end. `raised` is the raised codebook.
pub fn show_coded(
    canvas: Svq1PlaneCanvas,
    reference: &[u8],
    raised: &[u8],
    k: usize,
    motion: MbMotion,
    vectors: [Svq1Mv; 4],
    blocks: [Block; 63],
    base: &mut [u8; 256],
    out: &mut [u8; 256],
)
    requires { Showing (record { samples = reference.now; stride = canvas.stride; rows = canvas.rows }) (blocks_along canvas.width) k (length raised.now) (half_of (motion_of motion vectors)) (tree_of blocks) × (length base.old ≡ 256) × (length out.old ≡ 256) }
    ensures { Shows canvas reference.now raised.now k (coded (motion_of motion vectors) (tree_of blocks)) out.new }
{
    let half = half_of(motion);
    baseline_of(canvas, reference, k, motion, vectors, base);
    out.fill(0);
    rebuild(blocks, half, base, raised, 16, Svq1Level::L5, 0, out);
}

// Macroblock k's samples and its four vectors into the result slices.
pub fn lay_block(
    cols: usize,
    rows: usize,
    k: usize,
    samples: &[u8; 256],
    vectors: [Svq1Mv; 4],
    recon: &mut [u8],
    vx: &mut [u8],
    vy: &mut [u8],
)
    requires { BlocksRoom 16 cols k recon.old × VectorSlices cols rows vx.old vy.old × (k < rows * cols) × All Inside vectors }
    ensures { Laid cols k samples.now vectors (slices_by recon.old vx.old vy.old) (slices_by recon.new vx.new vy.new) }
{
    let a = vectors[0];
    let b = vectors[1];
    let c = vectors[2];
    let d = vectors[3];
    put_part(recon, 16, cols, k, samples);
    store_vectors(vx, vy, cols, rows, k, a, b, c, d);
}
