// A macroblock as it was read, shown and laid into the result slices.
ghost use Rattle.std.specs.Prelude.{◌≡◌, length};
ghost use Rattle.canvas.specs.Canvas.{blocks_along};
ghost use Rattle.tree.specs.NodeForms.{tree_of};
ghost use Rattle.macroblock.specs.Slices.{slices_by};
ghost use Rattle.macroblock.specs.Macroblock.{half_of};
ghost use Rattle.macroblock.specs.MotionForms.{motion_of};
ghost use Rattle.macroblock.specs.SampleNeeds.{Shows};
ghost use Rattle.macroblock.specs.LayingNeeds.{ShowingIf, Laying, LaysChoice, choice_by};

use super::super::super::svq1_enc_inter::MbMotion;
use super::super::super::svq1_enc_inter::inner::samples::{lay_block, show_coded, take_block};
use canvas::svq1_plane::Svq1PlaneCanvas;
use tree::svq1_enc_tree::Block;
use vectors::svq1_motion_predictor::Svq1Mv;

// The samples of macroblock k as it was read. `base` is scratch.
fn show_choice(
    canvas: Svq1PlaneCanvas,
    reference: &[u8],
    raised: &[u8],
    k: usize,
    skip: bool,
    motion: MbMotion,
    vectors: [Svq1Mv; 4],
    blocks: [Block; 63],
    base: &mut [u8; 256],
    out: &mut [u8; 256],
)
    requires { ShowingIf skip (record { samples = reference.now; stride = canvas.stride; rows = canvas.rows }) (blocks_along canvas.width) k (length raised.now) (half_of (motion_of motion vectors)) (tree_of blocks) × (length base.old ≡ 256) × (length out.old ≡ 256) }
    ensures { Shows canvas reference.now raised.now k (choice_by skip (motion_of motion vectors) (tree_of blocks)) out.new }
{
    if skip {
        let stride = canvas.stride;
        let cols = stride / 16;
        take_block(reference, stride, canvas.rows, cols, k, out);
        return;
    }
    show_coded(
        canvas, reference, raised, k, motion, vectors, blocks, base, out,
    );
}

// Macroblock k as it was read, laid into the result slices. `base` and `out` are scratch.
fn lay_shown(
    canvas: Svq1PlaneCanvas,
    reference: &[u8],
    raised: &[u8],
    k: usize,
    skip: bool,
    motion: MbMotion,
    vectors: [Svq1Mv; 4],
    blocks: [Block; 63],
    recon: &mut [u8],
    vx: &mut [u8],
    vy: &mut [u8],
    base: &mut [u8; 256],
    out: &mut [u8; 256],
)
    requires showing_if { ShowingIf skip (record { samples = reference.now; stride = canvas.stride; rows = canvas.rows }) (blocks_along canvas.width) k (length raised.now) (half_of (motion_of motion vectors)) (tree_of blocks) × (length base.old ≡ 256) × (length out.old ≡ 256) }
    requires laying { Laying canvas k vectors (slices_by recon.old vx.old vy.old) }
    ensures { LaysChoice canvas reference.now raised.now k (choice_by skip (motion_of motion vectors) (tree_of blocks)) vectors (slices_by recon.old vx.old vy.old) (slices_by recon.new vx.new vy.new) }
{
    show_choice(
        canvas, reference, raised, k, skip, motion, vectors, blocks, base, out,
    );
    lay_block(
        canvas.stride / 16,
        canvas.rows / 16,
        k,
        out,
        vectors,
        recon,
        vx,
        vy,
    );
}

// The same with scratch of its own.
pub fn lay_choice(
    canvas: Svq1PlaneCanvas,
    reference: &[u8],
    raised: &[u8],
    k: usize,
    skip: bool,
    motion: MbMotion,
    vectors: [Svq1Mv; 4],
    blocks: [Block; 63],
    recon: &mut [u8],
    vx: &mut [u8],
    vy: &mut [u8],
)
    requires showing_if { ShowingIf skip (record { samples = reference.now; stride = canvas.stride; rows = canvas.rows }) (blocks_along canvas.width) k (length raised.now) (half_of (motion_of motion vectors)) (tree_of blocks) }
    requires laying { Laying canvas k vectors (slices_by recon.old vx.old vy.old) }
    ensures { LaysChoice canvas reference.now raised.now k (choice_by skip (motion_of motion vectors) (tree_of blocks)) vectors (slices_by recon.old vx.old vy.old) (slices_by recon.new vx.new vy.new) }
{
    let mut base = [0u8; 256];
    let mut out = [0u8; 256];
    lay_shown(
        canvas, reference, raised, k, skip, motion, vectors, blocks, recon, vx, vy, &mut base,
        &mut out,
    );
}
