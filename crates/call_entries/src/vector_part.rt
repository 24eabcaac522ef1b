// The motion search as an exported function.
ghost use Rattle.std.specs.Prelude.{◌≡◌};
ghost use Rattle.motion.specs.Search.{search_answer};
ghost use Rattle.bits.specs.Refusals.{answer_of};
ghost use Rattle.call_entries.specs.Vector.{vector_part};

use bits::refusal::Refusal;
use motion::svq1_enc_inter::search_motion_vector;
use vectors::svq1_motion_predictor::Svq1Mv;

// What the motion search answers: a refusal's number with zeros, or 0 and the vector.
#[repr(C)]
#[derive(Drop)]
pub struct VectorPart {
    pub refused: u8,
    pub x: i32,
    pub y: i32,
}

fn part_of(found: Result<Svq1Mv, Refusal>) -> VectorPart
    ensures { result ≡ vector_part (answer_of found) }
{
    match found {
        Ok(v) => VectorPart {
            refused: 0,
            x: v.x,
            y: v.y,
        },
        Err(refusal) => VectorPart {
            refused: refusal.number(),
            x: 0,
            y: 0,
        },
    }
}

// `motion`'s search by plain numbers; the predictor is (`px`, `py`).
#[unsafe(no_mangle)]
pub extern "C" fn parts_search_motion_vector(
    reference: &[u8],
    width: usize,
    height: usize,
    stride: usize,
    rows: usize,
    target: &[u8],
    side: usize,
    x: usize,
    y: usize,
    px: i32,
    py: i32,
    radius: u8,
) -> VectorPart
    ensures { result ≡ vector_part (search_answer (record { reference = record { samples = reference.now; stride = stride; rows = rows }; width = width; height = height; target = target.now; side = side; x = x; y = y; predictor = record { x = px; y = py }; radius = radius })) }
{
    let predictor = Svq1Mv { x: px, y: py };
    part_of(search_motion_vector(
        reference, width, height, stride, rows, target, side, x, y, predictor, radius,
    ))
}
