// The leaf search as a call.
pub mod inner;

ghost use Rattle.std.specs.Prelude.{◌≡◌, ℕ, length};
ghost use Rattle.bits.specs.Refusals.{refused_by};
ghost use Rattle.book.specs.Level.{level_number};
ghost use Rattle.leaf.specs.LeafCall.{block_by, block_refusal};
ghost use Rattle.leaf_call.specs.LeafAnswer.{block_fits, found_answer, LeafAnswered, Searchable, SearchFound};

use super::svq1_enc_leaf::inner::terms_of;
use bits::refusal::Refusal;
use book::inner::{CODEBOOK_BYTES, level_at};
use book::svq1_blocktree::Svq1Level;
use book_check::check_data;
use codebook::svq1_codebook::inner::raise_codebook;
use leaf::svq1_enc_leaf::inner::book_leaf_bits;
use leaf::svq1_enc_leaf::{LeafCode, LeafTerms};
use leaf_search::svq1_enc_leaf::inner::level_leaf;

// What the search finds: the leaf, its bits, its error and the samples that it shows.
#[derive(Clone, Copy)]
pub struct LeafAnswer {
    pub code: LeafCode,
    pub stages: [u8; 6],
    pub bits: u32,
    pub error: u32,
    pub samples: [u8; 256],
}

// Whether 8 passes: a known level and half, blocks of its length, a cap of at most 6, no skip with intra.
#[tactic(auto, using(std::proofs::lemmas::Bool::Decides::nat_tests), unfolding(crate::specs::LeafAnswer::block_fits))]
fn block_fits(level: u8, half: u8, target: usize, predictor: usize, cap: u8, skip: bool) -> bool
    ensures { result ≡ block_fits level half target predictor cap skip }
{
    if 5 < level {
        return false;
    }
    if 1 < half {
        return false;
    }
    let n = level_at(level as usize).vector_length();
    if target != n {
        return false;
    }
    if predictor != n {
        return false;
    }
    if 6 < cap {
        return false;
    }
    if skip {
        return half != 0;
    }
    true
}

// Refusals 5, 6, 7 and 8 of a leaf or a plan, whatever its margin is.
pub fn check_block(
    book: &[u8],
    codebook: &[u8],
    level: u8,
    half: u8,
    target: &[u8],
    predictor: &[u8],
    cap: u8,
    skip: bool,
) -> Result<(), Refusal>
    ensures { (margin : ℕ) → refused_by result ≡ block_refusal (block_by book.now codebook.now level half target.now predictor.now cap skip margin) }
{
    check_data(book, codebook)?;
    if block_fits(level, half, target.len(), predictor.len(), cap, skip) {
        return Ok(());
    }
    Err(Refusal::Block)
}

// The answer of an accepted call. That there are six stage indices is known here, where they come as an array.
fn found_answer(
    code: LeafCode,
    stages: [u8; 6],
    bits: u32,
    error: u32,
    samples: [u8; 256],
) -> LeafAnswer
    ensures { (result ≡ found_answer code stages bits error samples) × (length stages ≡ 6) }
{
    LeafAnswer {
        code,
        stages,
        bits,
        error,
        samples,
    }
}

// A leaf that no refusal meets; `raised` is room for the raised codebook.
fn searched(
    book: &[u8],
    codebook: &[u8],
    raised: &mut [u8],
    level: Svq1Level,
    terms: LeafTerms,
    target: &[u8],
    predictor: &[u8],
) -> LeafAnswer
    requires { Searchable book.now codebook.now raised.old (level_number level) terms target.now predictor.now }
    ensures { SearchFound book.now codebook.now (level_number level) terms target.now predictor.now result }
{
    raise_codebook(codebook, raised);
    let mut sums = [0u16; 256];
    let mut samples = [0u8; 256];
    let c = level_leaf(
        level,
        terms,
        target,
        predictor,
        &mut sums,
        &mut samples,
        raised,
    );
    let half = terms.half;
    let code = c.code;
    let stages = c.stages;
    let bits = book_leaf_bits(book, level, half, code);
    found_answer(code, stages, bits, c.error, samples)
}

// The leaf search on its own: one leaf by the leaf rules, its bits, its error and its samples.
pub fn search_leaf(
    book: &[u8],
    codebook: &[u8],
    level: u8,
    half: u8,
    target: &[u8],
    predictor: &[u8],
    cap: u8,
    skip: bool,
    margin: u32,
) -> Result<LeafAnswer, Refusal>
    ensures { LeafAnswered (block_by book.now codebook.now level half target.now predictor.now cap skip margin) result }
{
    check_block(book, codebook, level, half, target, predictor, cap, skip)?;
    let mut raised = [0u8; CODEBOOK_BYTES];
    Ok(searched(
        book,
        codebook,
        &mut raised,
        level_at(level as usize),
        terms_of(half, cap, skip, margin),
        target,
        predictor,
    ))
}
