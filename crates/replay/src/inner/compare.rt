// What the writer and the reader leave of a job, held against the original's answer.
ghost use Rattle.std.specs.Prelude.{◌≡◌, ◌+◌, ◌*◌, ◌/◌, ◌≤◌, ◌<◌, length};
ghost use Rattle.bits.specs.Basics.{pick};
ghost use Rattle.macroblock.specs.Mode.{mode_position};
ghost use Rattle.replay.specs.Layout.{most_job_blocks, most_size};
ghost use Rattle.replay.specs.Compare.{same_part, same_step, same_steps, modes_in, slices_differ, coded_differ, written_differ, read_differ};

use super::super::inner::file::{Job, bytes_for, number_at, part};
use macroblock::svq1_enc_inter::Svq1MbMode;
use plane_dec::svq1_plane::ReadEnd;
use plane_enc::svq1_enc_inter::WriteEnd;
use text::same;

// What differs.
#[derive(Clone, Copy)]
pub enum Difference {
    Refusal,
    Done,
    Next,
    Count,
    Bits,
    Steps,
    Samples,
    X,
    Y,
}

// What differs where a test fails, and else the rest.
fn judged(passes: bool, what: Difference, rest: Option<Difference>) -> Option<Difference>
    ensures { result ≡ pick passes rest (Some what) }
{
    if passes { rest } else { Some(what) }
}

// Whether the first n bytes are those at a place of the file.
fn same_part(own: &[u8], file: &[u8], at: usize, n: usize) -> bool
    ensures { result ≡ same_part own.now file.now at n }
{
    same(part(own, 0, n), part(file, at, n))
}

// Whether macroblock k states the same: the original's steps have seven bytes a macroblock, ours three numbers.
fn same_step(steps: &[u8], stated: &[u32], k: usize) -> bool
    requires { (3 * k + 3 ≤ length stated.now) × (k < most_job_blocks) }
    ensures { result ≡ same_step steps.now stated.now k }
{
    let from = 7 * k;
    let at = 3 * k;
    if number_at(steps, from, 1) != u64::from(stated[at]) {
        return false;
    }
    if number_at(steps, from + 1, 2) != u64::from(stated[at + 1]) {
        return false;
    }
    number_at(steps, from + 3, 4) == u64::from(stated[at + 2])
}

// Whether the first n macroblocks do.
fn same_steps(steps: &[u8], stated: &[u32], n: usize) -> bool
    requires { (3 * n ≤ length stated.now) × (n ≤ most_job_blocks) }
    ensures { result ≡ same_steps steps.now stated.now n }
{
    (0..n).all(|k| same_step(steps, stated, k))
}

// How many of the first n macroblocks have a mode.
pub fn count_mode(stated: &[u32], mode: Svq1MbMode, n: usize) -> u64
    requires { 3 * n ≤ length stated.now }
    ensures { result ≡ modes_in stated.now (mode_position mode) n }
{
    (0..n).filter(|&k| stated[3 * k] == mode as u32).count() as u64
}

// The samples and the vectors of a plane of `size` samples.
pub fn slices_difference(
    file: &[u8],
    size: usize,
    j: Job,
    recon: &[u8],
    vx: &[u8],
    vy: &[u8],
) -> Option<Difference>
    ensures { result ≡ slices_differ file.now size j recon.now vx.now vy.now }
{
    let vectors = size / 256 * 4;
    let y = judged(same_part(vy, file, j.vy, vectors), Difference::Y, None);
    let x = judged(same_part(vx, file, j.vx, vectors), Difference::X, y);
    judged(
        same_part(recon, file, j.recon, size),
        Difference::Samples,
        x,
    )
}

// The bits and what each macroblock states, before the rest.
pub fn coded_difference(
    file: &[u8],
    size: usize,
    j: Job,
    out: &[u8],
    stated: &[u32],
    rest: Option<Difference>,
) -> Option<Difference>
    requires { (size ≤ most_size) × (3 * most_job_blocks ≤ length stated.now) }
    ensures { result ≡ coded_differ file.now size j out.now stated.now rest }
{
    let blocks = size / 256;
    let steps = part(file, j.steps, 7 * blocks);
    let told = judged(same_steps(steps, stated, blocks), Difference::Steps, rest);
    let bytes = bytes_for(j.count) as usize;
    judged(same_part(out, file, j.bits, bytes), Difference::Bits, told)
}

// What the writer answered, before the rest.
pub fn written_difference(
    size: usize,
    count: u64,
    w: WriteEnd,
    rest: Option<Difference>,
) -> Option<Difference>
    ensures { result ≡ written_differ size count w rest }
{
    let bits = judged(w.bits == count, Difference::Count, rest);
    let next = judged(w.next as u64 == count, Difference::Next, bits);
    let done = judged(w.done == size / 256, Difference::Done, next);
    judged(w.refused.is_none(), Difference::Refusal, done)
}

// What the reader answered, before the rest.
pub fn read_difference(
    size: usize,
    count: u64,
    r: ReadEnd,
    rest: Option<Difference>,
) -> Option<Difference>
    ensures { result ≡ read_differ size count r rest }
{
    let next = judged(r.next as u64 == count, Difference::Next, rest);
    let done = judged(r.done == size / 256, Difference::Done, next);
    judged(r.refused.is_none(), Difference::Refusal, done)
}
