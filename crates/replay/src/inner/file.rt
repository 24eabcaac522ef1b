// The fixed list of jobs and answers: its numbers and parts, and where the parts of a scene and of a job stand in it.
ghost use Rattle.std.specs.Prelude.{◌≡◌, ◌+◌, ◌/◌, ◌≤◌, IfOk, length, get_or};
ghost use Rattle.canvas.specs.Canvas.{padded16};
ghost use Rattle.replay.specs.Layout.{part_in, number_in, bytes_for, most_side, most_size, Begun, sized_in, scene_in, measured_in, job_of_list};

use book::inner::{BOOK_BYTES, CODEBOOK_BYTES};
use canvas::svq1_plane::Svq1PlaneCanvas;
use std::io;
use std::io::Read;

// A scene: the canvas of its planes; the samples of its source and of its canvas; the places of its source and its reference; how many jobs
// it has, and the place of the first.
#[derive(Clone, Copy)]
pub struct Scene {
    pub canvas: Svq1PlaneCanvas,
    pub samples: usize,
    pub size: usize,
    pub source: usize,
    pub reference: usize,
    pub jobs: usize,
    pub first: usize,
}

// Why a scene is not replayed: its sides are too large, or the file ends inside it.
#[derive(Clone, Copy)]
pub enum SceneError {
    TooLarge,
    Ends,
}

// A job: the places of its tables, its numbers, the answer's bit count, the places of the answer's parts, and the place behind it.
#[derive(Clone, Copy)]
pub struct Job {
    pub book: usize,
    pub codebook: usize,
    pub lambda: u64,
    pub radius: u8,
    pub four: bool,
    pub count: u64,
    pub bits: usize,
    pub steps: usize,
    pub recon: usize,
    pub vx: usize,
    pub vy: usize,
    pub next: usize,
}

// Reads until there is no more room or the file ends; the answer is how many bytes were read. Reads differ in length, so that a `for` is no plainer.
pub fn read_full(file: &mut impl Read, bytes: &mut [u8]) -> io::Result<usize>
    ensures { IfOk result (λ n. n ≤ length bytes.new) }
{
    let mut done = 0;
    while done < bytes.len() {
        let n = file.read(&mut bytes[done..])?;
        if n == 0 {
            return Ok(done);
        }
        done += n;
    }
    Ok(done)
}

// The n bytes at a place; none where they are not all there.
pub fn part(t: &[u8], at: usize, n: usize) -> &[u8]
    ensures { result.now ≡ part_in t.now at n }
{
    if t.len() < at {
        return &t[0..0];
    }
    if t.len() - at < n {
        return &t[0..0];
    }
    let to = at + n;
    &t[at..to]
}

// The byte at a place; 0 behind the end.
pub fn byte(t: &[u8], at: usize) -> u8
    ensures { result ≡ get_or t.now at 0 }
{
    t.get(at).copied().unwrap_or(0)
}

// The number of at most eight bytes, lowest first; 0 for more of them.
fn number(t: &[u8]) -> u64
    ensures { result ≡ number_in t.now }
{
    if 8 < t.len() {
        return 0;
    }
    let mut n = 0;
    for i in (0..t.len()).rev() {
        n = 256 * n + u64::from(t[i]);
    }
    n
}

// The number of n bytes at a place.
pub fn number_at(t: &[u8], at: usize, n: usize) -> u64
    ensures { result ≡ number_in (part_in t.now at n) }
{
    number(part(t, at, n))
}

// How many bytes n bits take.
pub fn bytes_for(n: u64) -> u64
    ensures { (result ≡ bytes_for n) × (result ≤ n / 8 + 1) }
{
    if n % 8 == 0 {
        return n / 8;
    }
    n / 8 + 1
}

fn padded(n: usize) -> usize
    requires { n ≤ most_side }
    ensures { (result ≡ padded16 n) × (result ≤ most_side) }
{
    (n + 15) / 16 * 16
}

// A scene whose size is read.
fn sized_scene(file: &[u8], at: usize, width: usize, height: usize) -> Result<Scene, SceneError>
    requires { Begun (length file.now) at 4 × (width ≤ most_side) × (height ≤ most_side) }
    ensures { result ≡ sized_in file.now at width height }
{
    let stride = padded(width);
    let rows = padded(height);
    let samples = width * height;
    let size = stride * rows;
    if file.len() - at <= 4 + samples + size {
        return Err(SceneError::Ends);
    }
    let source = at + 4;
    let reference = source + samples;
    let jobs = reference + size;
    Ok(Scene {
        canvas: Svq1PlaneCanvas {
            width,
            height,
            stride,
            rows,
        },
        samples,
        size,
        source,
        reference,
        jobs: byte(file, jobs) as usize,
        first: jobs + 1,
    })
}

// The scene at a place.
pub fn read_scene(file: &[u8], at: usize) -> Result<Scene, SceneError>
    ensures { result ≡ scene_in file.now at }
{
    if file.len() < at {
        return Err(SceneError::Ends);
    }
    if file.len() - at < 4 {
        return Err(SceneError::Ends);
    }
    let width = number_at(file, at, 2);
    let height = number_at(file, at + 2, 2);
    if 64 < width {
        return Err(SceneError::TooLarge);
    }
    if 64 < height {
        return Err(SceneError::TooLarge);
    }
    sized_scene(file, at, width as usize, height as usize)
}

// A job whose bit count is read.
fn measured_job(file: &[u8], books: u8, size: usize, at: usize, count: u64) -> Option<Job>
    requires { Begun (length file.now) at 16 × (size ≤ most_size) }
    ensures { result ≡ measured_in file.now books size at count }
{
    let bytes = bytes_for(count) as usize;
    let blocks = size / 256;
    if file.len() - at < 16 + bytes + 7 * blocks + size + 4 * blocks + 4 * blocks {
        return None;
    }
    let bits = at + 16;
    let steps = bits + bytes;
    let recon = steps + 7 * blocks;
    let vx = recon + size;
    let vy = vx + 4 * blocks;
    Some(Job {
        book: 4 + BOOK_BYTES * (byte(file, at) as usize),
        codebook: 4
            + BOOK_BYTES * (books as usize)
            + CODEBOOK_BYTES * (byte(file, at + 1) as usize),
        lambda: number_at(file, at + 2, 8),
        radius: byte(file, at + 10),
        four: byte(file, at + 11) != 0,
        count,
        bits,
        steps,
        recon,
        vx,
        vy,
        next: vy + 4 * blocks,
    })
}

// The job at a place, if the file does not end inside it, of a scene whose canvas has `size` samples in a list of so many books.
pub fn read_job(file: &[u8], books: u8, size: usize, at: usize) -> Option<Job>
    requires { size ≤ most_size }
    ensures { result ≡ job_of_list file.now books size at }
{
    if file.len() < at {
        return None;
    }
    if file.len() - at < 16 {
        return None;
    }
    let count = number_at(file, at + 12, 4);
    measured_job(file, books, size, at, count)
}
