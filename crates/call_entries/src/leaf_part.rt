// The leaf search as an exported function.
ghost use Rattle.std.specs.Prelude.{◌≡◌, not, eqb, length};
ghost use Rattle.leaf.specs.LeafCall.{block_by, leaf_answer};
ghost use Rattle.leaf.specs.LeafForms.{leaf_of};
ghost use Rattle.call_entries.specs.Leaf.{leaf_part_of, nothing, leaf_part};

use super::inner::leaf_node;
use leaf::svq1_enc_leaf::LeafCode;
use leaf_call::svq1_enc_leaf::search_leaf;

// What the leaf search answers: a refusal's number with zeros, or 0, the leaf (kind 2 skip, 3 coded) with zeros behind its stage
// indices, its bits, its error and the samples that it shows with zeros behind them.
#[repr(C)]
#[derive(Drop)]
pub struct LeafPart {
    pub bits: u32,
    pub error: u32,
    pub mean: i16,
    pub refused: u8,
    pub kind: u8,
    pub count: u8,
    pub stages: [u8; 6],
    pub samples: [u8; 256],
}

fn refused_part(refused: u8) -> LeafPart
    ensures { result ≡ nothing refused }
{
    LeafPart {
        bits: 0,
        error: 0,
        mean: 0,
        refused,
        kind: 0,
        count: 0,
        stages: [0u8; 6],
        samples: [0u8; 256],
    }
}

// A leaf that was found, field by field. That there are 256 samples is known here, where they come as an array.
fn found_part(
    code: LeafCode,
    stages: [u8; 6],
    bits: u32,
    error: u32,
    samples: [u8; 256],
) -> LeafPart
    ensures { (result ≡ leaf_part_of (leaf_of code stages) bits error samples) × (length samples ≡ 256) }
{
    let leaf = leaf_node(code, stages);
    let front = leaf.stages;
    LeafPart {
        bits,
        error,
        mean: leaf.mean,
        refused: 0,
        kind: leaf.kind,
        count: leaf.count,
        stages: front,
        samples,
    }
}

// `leaf`'s search by plain numbers: skip is allowed unless `skip` is 0.
#[unsafe(no_mangle)]
pub extern "C" fn parts_search_leaf(
    book: &[u8],
    codebook: &[u8],
    level: u8,
    half: u8,
    target: &[u8],
    predictor: &[u8],
    cap: u8,
    skip: u8,
    margin: u32,
) -> LeafPart
    ensures { result ≡ leaf_part (leaf_answer (block_by book.now codebook.now level half target.now predictor.now cap (not (eqb skip 0)) margin)) }
{
    let found = search_leaf(
        book,
        codebook,
        level,
        half,
        target,
        predictor,
        cap,
        skip != 0,
        margin,
    );
    match found {
        Ok(f) => found_part(f.code, f.stages, f.bits, f.error, f.samples),
        Err(refusal) => refused_part(refusal.number()),
    }
}
