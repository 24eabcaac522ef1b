// Which way a macroblock is coded: SKIP, and each motion with its plan.
ghost use Rattle.std.specs.Prelude.{◌≡◌, [], ◌∷◌, IfSome, length};
ghost use Rattle.bits.specs.Basics.{All};
ghost use Rattle.mv_cache.specs.CacheNeeds.{near_from};
ghost use Rattle.mv_cache.specs.NeighboursLaws.{Around};
ghost use Rattle.macroblock.specs.MacroblockLaws.{Codables};
ghost use Rattle.macroblock.specs.Limit.{Limit};
ghost use Rattle.macroblock.specs.MotionForms.{motion_of};
ghost use Rattle.macroblock.specs.MacroblockNeeds.{given_by};
ghost use Rattle.macroblock_search.specs.SearchNeeds.{motions_of};
ghost use Rattle.macroblock_choice.specs.CandidateNeeds.{Stated, Tried};
ghost use Rattle.macroblock_choice.specs.ChosenNeeds.{Placing, Sourced, Carries, ChosenFor, ChosenBy, task_in};

use super::super::super::svq1_enc_inter::inner::candidates::{MbCandidate, better, skip_candidate};
use super::super::super::svq1_enc_inter::inner::plans::coded_candidate;
use canvas::svq1_plane::Svq1PlaneCanvas;
use macroblock::svq1_enc_inter::Settings;
use macroblock_search::svq1_enc::inner::block;
use macroblock_search::svq1_enc_inter::inner::motions::{
    TriedMotion, four_motion, single_motion, still_motion,
};
use mv_cache::svq1_mv_cache::NearBlocks;

// The best so far, or a motion with its plan, if it has room and is better.
fn try_motion(
    canvas: Svq1PlaneCanvas,
    reference: &[u8],
    book: &[u8],
    codebook: &[u8],
    raised: &[u8],
    settings: Settings,
    k: usize,
    target: &[u8],
    near: NearBlocks,
    tried: TriedMotion,
    best: MbCandidate,
    room: u64,
) -> MbCandidate
    requires { Placing (given_by canvas reference.now book.now codebook.now) raised.now k target.now × Codables (near_from near) (motion_of tried.motion tried.vectors) × Carries (near_from near) tried.motion tried.vectors × Stated (given_by canvas reference.now book.now codebook.now) target.now k (near_from near) best }
    ensures { Tried (given_by canvas reference.now book.now codebook.now) target.now settings room k (near_from near) (motion_of tried.motion tried.vectors ∷ []) best result }
{
    let c = coded_candidate(
        canvas,
        reference,
        book,
        codebook,
        raised,
        settings,
        k,
        target,
        near,
        tried.motion,
        tried.vectors,
    );
    if room < c.bits as u64 {
        return best;
    }
    better(settings.lambda, best, c)
}

// The same of a motion that was searched for, where one was found.
fn try_found(
    canvas: Svq1PlaneCanvas,
    reference: &[u8],
    book: &[u8],
    codebook: &[u8],
    raised: &[u8],
    settings: Settings,
    k: usize,
    target: &[u8],
    near: NearBlocks,
    found: Option<TriedMotion>,
    best: MbCandidate,
    room: u64,
) -> MbCandidate
    requires { Placing (given_by canvas reference.now book.now codebook.now) raised.now k target.now × All (Codables (near_from near)) (motions_of found) × IfSome found (λ m. Carries (near_from near) m.motion m.vectors) × Stated (given_by canvas reference.now book.now codebook.now) target.now k (near_from near) best }
    ensures { Tried (given_by canvas reference.now book.now codebook.now) target.now settings room k (near_from near) (motions_of found) best result }
{
    match found {
        Some(tried) => try_motion(
            canvas, reference, book, codebook, raised, settings, k, target, near, tried, best, room,
        ),
        None => best,
    }
}

// The best of all that are tried for a macroblock that is to show the target, SKIP and those of at most `room` bits.
fn choose_for(
    canvas: Svq1PlaneCanvas,
    reference: &[u8],
    book: &[u8],
    codebook: &[u8],
    raised: &[u8],
    settings: Settings,
    k: usize,
    near: NearBlocks,
    target: &[u8],
    room: u64,
) -> MbCandidate
    requires { Placing (given_by canvas reference.now book.now codebook.now) raised.now k target.now × Around (near_from near) }
    ensures { ChosenFor (given_by canvas reference.now book.now codebook.now) target.now settings room k (near_from near) result }
{
    let skip = skip_candidate(canvas, reference, book, k, target);
    let one = single_motion(canvas, reference, target, near, k, settings.radius);
    let a = try_found(
        canvas, reference, book, codebook, raised, settings, k, target, near, one, skip, room,
    );
    let still = still_motion();
    let b = try_motion(
        canvas, reference, book, codebook, raised, settings, k, target, near, still, a, room,
    );
    let more = four_motion(
        canvas,
        reference,
        target,
        near,
        k,
        settings.radius,
        settings.four,
    );
    try_found(
        canvas, reference, book, codebook, raised, settings, k, target, near, more, b, room,
    )
}

// The same for macroblock k of a source, whose samples go into `target`.
fn choose_over(
    canvas: Svq1PlaneCanvas,
    source: &[u8],
    reference: &[u8],
    book: &[u8],
    codebook: &[u8],
    raised: &[u8],
    settings: Settings,
    k: usize,
    near: NearBlocks,
    target: &mut [u8],
    room: u64,
) -> MbCandidate
    requires { Sourced (given_by canvas reference.now book.now codebook.now) raised.now source.now k × Around (near_from near) × (length target.old ≡ 256) }
    ensures { (l : Limit) → ChosenBy (given_by canvas reference.now book.now codebook.now) (task_in source.now settings l) room k (near_from near) result }
{
    block(canvas, source, k, target);
    choose_for(
        canvas, reference, book, codebook, raised, settings, k, near, target, room,
    )
}

pub fn choose_macroblock(
    canvas: Svq1PlaneCanvas,
    source: &[u8],
    reference: &[u8],
    book: &[u8],
    codebook: &[u8],
    raised: &[u8],
    settings: Settings,
    k: usize,
    near: NearBlocks,
    room: u64,
) -> MbCandidate
    requires { Sourced (given_by canvas reference.now book.now codebook.now) raised.now source.now k × Around (near_from near) }
    ensures { (l : Limit) → ChosenBy (given_by canvas reference.now book.now codebook.now) (task_in source.now settings l) room k (near_from near) result }
{
    let mut target = [0u8; 256];
    choose_over(
        canvas,
        source,
        reference,
        book,
        codebook,
        raised,
        settings,
        k,
        near,
        &mut target,
        room,
    )
}
