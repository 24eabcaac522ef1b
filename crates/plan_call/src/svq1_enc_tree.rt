// The plan as a call.
ghost use Rattle.book.specs.Level.{level_number};
ghost use Rattle.leaf.specs.LeafCall.{block_by};
ghost use Rattle.plan_call.specs.PlanCall.{Plannable, PlanShown, PlanAnswered};

use bits::refusal::Refusal;
use book::inner::{CODEBOOK_BYTES, level_at};
use book::svq1_blocktree::Svq1Level;
use codebook::svq1_codebook::inner::raise_codebook;
use leaf::svq1_enc_leaf::LeafTerms;
use leaf_call::svq1_enc_leaf::check_block;
use leaf_call::svq1_enc_leaf::inner::terms_of;
use plan::svq1_enc_tree::MbPlan;
use plan::svq1_enc_tree::inner::{plan, plan_reconstruction};
use tree::svq1_enc_tree::Block;

// What a plan call answers: the plan's bits, its error, its tree and the samples that it shows.
#[derive(Clone, Copy)]
pub struct PlanAnswer {
    pub bits: u32,
    pub error: u32,
    pub blocks: [Block; 63],
    pub samples: [u8; 256],
}

// A plan that no refusal meets; `raised` is room for the raised codebook, and what the plan shows comes to the front of `samples`.
fn planned(
    book: &[u8],
    codebook: &[u8],
    raised: &mut [u8],
    level: Svq1Level,
    terms: LeafTerms,
    target: &[u8],
    predictor: &[u8],
    lambda: u64,
    samples: &mut [u8],
) -> MbPlan
    requires { Plannable book.now codebook.now raised.old (level_number level) terms target.now predictor.now samples.old }
    ensures { PlanShown book.now codebook.now (level_number level) terms target.now predictor.now lambda result samples.new }
{
    raise_codebook(codebook, raised);
    let p = plan(
        terms, book, codebook, raised, lambda, level, target, predictor,
    );
    let blocks = p.blocks;
    let half = terms.half;
    plan_reconstruction(blocks, half, predictor, raised, level, samples);
    p
}

// The plan of a block of any level on its own.
pub fn plan_macroblock(
    book: &[u8],
    codebook: &[u8],
    level: u8,
    half: u8,
    target: &[u8],
    predictor: &[u8],
    cap: u8,
    skip: bool,
    lambda: u64,
    margin: u32,
) -> Result<PlanAnswer, Refusal>
    ensures { PlanAnswered (block_by book.now codebook.now level half target.now predictor.now cap skip margin) lambda result }
{
    check_block(book, codebook, level, half, target, predictor, cap, skip)?;
    let mut raised = [0u8; CODEBOOK_BYTES];
    let mut samples = [0u8; 256];
    let p = planned(
        book,
        codebook,
        &mut raised,
        level_at(level as usize),
        terms_of(half, cap, skip, margin),
        target,
        predictor,
        lambda,
        &mut samples,
    );
    let blocks = p.blocks;
    Ok(PlanAnswer {
        bits: p.bits,
        error: p.error,
        blocks,
        samples,
    })
}
