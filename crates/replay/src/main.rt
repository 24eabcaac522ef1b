// Replays the fixed list: every job is written and read back, and all that is left is compared with what the original answered.
#![tactic(auto)]

ghost use Rattle.std.specs.Prelude.{◌≡◌, ◌≤◌, length};
ghost use Rattle.replay.specs.Layout.{most_size};

mod inner;

use book::inner::{BOOK_BYTES, CODEBOOK_BYTES};
use inner::file::{Scene, SceneError, byte, number_at, read_full, read_job, read_scene};
use inner::run::replay_job;
use inner::tally::{Tally, add, no_tally, put_count, put_tally, write_line};
use std::{fs, io};
use text::put_text;

// What was replayed: the place behind it, and what was counted.
#[derive(Drop)]
struct Replayed {
    next: usize,
    tally: Tally,
}

// The job at a place; none where the file ends inside it.
fn replay_next(file: &[u8], books: u8, s: Scene, at: usize) -> Option<Replayed>
    requires { s.size ≤ most_size }
{
    let j = read_job(file, books, s.size, at)?;
    Some(Replayed {
        next: j.next,
        tally: replay_job(file, s, j),
    })
}

// The jobs of a scene; none where the file ends inside one.
fn replay_jobs(file: &[u8], books: u8, s: Scene) -> Option<Replayed>
    requires { s.size ≤ most_size }
{
    let mut tally = no_tally();
    let mut next = s.first;
    for _job in 0..s.jobs {
        let r = replay_next(file, books, s, next)?;
        tally = add(tally, r.tally);
        next = r.next;
    }
    Some(Replayed { next, tally })
}

// A text, to standard output.
fn say(rt: &impl Print, t: &[u8]) -> io::Result<()> {
    write_line(rt, t, t.len())
}

fn show_scene(rt: &impl Print, k: u64, s: Scene, t: Tally) -> io::Result<()> {
    let canvas = s.canvas;
    let mut line = [0u8; 512];
    let a = put_count(&mut line, 0, b"scene ", k);
    let b = put_count(&mut line, a, b", ", canvas.width as u64);
    let c = put_count(&mut line, b, b"x", canvas.height as u64);
    let d = put_tally(&mut line, c, t);
    write_line(rt, &line, d)
}

fn show_total(rt: &impl Print, scenes: u64, t: Tally) -> io::Result<()> {
    let mut line = [0u8; 512];
    let a = put_count(&mut line, 0, b"total: scenes ", scenes);
    let b = put_tally(&mut line, a, t);
    write_line(rt, &line, b)
}

// Scene k cannot be replayed, and why.
fn show_stop(rt: &impl Print, k: u64, why: &[u8]) -> io::Result<Option<Replayed>> {
    let mut line = [0u8; 512];
    let a = put_count(&mut line, 0, b"scene ", k);
    let b = put_text(&mut line, a, why);
    write_line(rt, &line, b)?;
    Ok(None)
}

fn too_short(rt: &impl Print, k: u64) -> io::Result<Option<Replayed>> {
    show_stop(rt, k, b": the file ends too early\n")
}

// A scene small enough, and its line.
fn replay_whole(
    rt: &impl Print,
    file: &[u8],
    books: u8,
    k: u64,
    s: Scene,
) -> io::Result<Option<Replayed>>
    requires { s.size ≤ most_size }
{
    let Some(r) = replay_jobs(file, books, s) else {
        return too_short(rt, k);
    };
    let tally = r.tally;
    show_scene(rt, k, s, tally)?;
    Ok(Some(r))
}

// Scene k, at a place; none where it cannot be replayed.
fn replay_scene(
    rt: &impl Print,
    file: &[u8],
    books: u8,
    k: u64,
    at: usize,
) -> io::Result<Option<Replayed>> {
    match read_scene(file, at) {
        Ok(s) => replay_whole(rt, file, books, k, s),
        Err(SceneError::TooLarge) => show_stop(rt, k, b": larger than 64x64\n"),
        Err(SceneError::Ends) => too_short(rt, k),
    }
}

// The scenes from a place on; none behind the first that cannot be replayed.
fn replay_scenes(
    rt: &impl Print,
    file: &[u8],
    books: u8,
    scenes: u64,
    first: usize,
) -> io::Result<Option<Replayed>> {
    let mut tally = no_tally();
    let mut next = first;
    for k in 0..scenes {
        let Some(r) = replay_scene(rt, file, books, k, next)? else {
            return Ok(None);
        };
        tally = add(tally, r.tally);
        next = r.next;
    }
    Ok(Some(Replayed { next, tally }))
}

// The whole list.
fn replay(rt: &impl Print, file: &[u8]) -> io::Result<()> {
    if file.len() < 4 {
        return say(rt, b"the file ends in its first four bytes\n");
    }
    let books = byte(file, 0);
    let codebooks = byte(file, 1);
    let scenes = number_at(file, 2, 2);
    let first = 4 + BOOK_BYTES * (books as usize) + CODEBOOK_BYTES * (codebooks as usize);
    let Some(all) = replay_scenes(rt, file, books, scenes, first)? else {
        return Ok(());
    };
    if all.next != file.len() {
        return say(rt, b"the file does not end behind its last scene\n");
    }
    show_total(rt, scenes, all.tally)
}

// Room for the file, which has 248,205 bytes.
fn room() -> [u8; 262144]
    ensures { 262144 ≡ length result }
{
    [0; 262144]
}

fn main(rt: HostRuntime) -> io::Result<()> {
    let mut space = room();
    let Ok(mut file) = fs::open(&rt, "fixed.bin") else {
        return say(&rt, b"fixed.bin cannot be opened\n");
    };
    let n = read_full(&mut file, &mut space)?;
    replay(&rt, &space[..n])
}
