// The sum of one vector as an exported function.
ghost use Rattle.std.specs.Prelude.{◌≡◌};
ghost use Rattle.compensation.specs.RowForms.{best_or_none};
ghost use Rattle.motion.specs.Sum.{sum_answer};
ghost use Rattle.bits.specs.Refusals.{answer_of};
ghost use Rattle.call_entries.specs.Sum.{sum_part};

use bits::refusal::Refusal;
use compensation::svq1_enc_inter::inner::VectorSum;
use motion::svq1_enc_inter::sum_motion_vector;
use vectors::svq1_motion_predictor::Svq1Mv;

// What summing one vector answers: a refusal's number with zeros, or 0, the sum and the rows taken.
#[repr(C)]
#[derive(Drop)]
pub struct SumPart {
    pub sum: u64,
    pub rows: usize,
    pub refused: u8,
}

fn part_of_sum(summed: Result<VectorSum, Refusal>) -> SumPart
    ensures { result ≡ sum_part (answer_of summed) }
{
    match summed {
        Ok(s) => SumPart {
            sum: s.sum,
            rows: s.rows,
            refused: 0,
        },
        Err(refusal) => SumPart {
            sum: 0,
            rows: 0,
            refused: refusal.number(),
        },
    }
}

// `motion`'s sum by plain numbers; the predictor is (`px`, `py`), the vector (`vx`, `vy`), and a best of 65536 or more stands for none found.
#[unsafe(no_mangle)]
pub extern "C" fn parts_sum_motion_vector(
    reference: &[u8],
    width: usize,
    height: usize,
    stride: usize,
    rows: usize,
    target: &[u8],
    side: usize,
    x: usize,
    y: usize,
    px: i32,
    py: i32,
    vx: i32,
    vy: i32,
    best: u64,
) -> SumPart
    ensures { result ≡ sum_part (sum_answer (record { reference = record { samples = reference.now; stride = stride; rows = rows }; width = width; height = height; target = target.now; side = side; x = x; y = y; predictor = record { x = px; y = py }; radius = 0 }) (record { x = vx; y = vy }) (best_or_none best)) }
{
    let predictor = Svq1Mv { x: px, y: py };
    let v = Svq1Mv { x: vx, y: vy };
    part_of_sum(sum_motion_vector(
        reference, width, height, stride, rows, target, side, x, y, predictor, v, best,
    ))
}
