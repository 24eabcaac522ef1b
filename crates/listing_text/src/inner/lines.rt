// The lines of a listing, put into a lent text. Each function asks for as much room as its longest line takes.
ghost use Rattle.std.specs.Prelude.{[], ◌∷◌, ◌++◌, ◌+◌, ◌*◌, ◌≤◌, length};
ghost use Rattle.bits.specs.Refusals.{number_of};
ghost use Rattle.text.specs.Text.{comma, decimal};
ghost use Rattle.listing_text.specs.LineForms.{ListedPut, name_at, line_text, lines_from};
ghost use Rattle.listing_text.specs.Listing.{total_line, refused_text};
ghost use Rattle.visible_error.specs.VisibleNeeds.{shown_by, shown_blocks, Showable};

use bits::refusal::Refusal;
use canvas::svq1_plane::Svq1PlaneCanvas;
use canvas::svq1_plane::inner::blocks_along;
use text::{put_field, put_text};
use visible_error::inner::visible_block;

// A number and the byte behind it.
fn put_number(text: &mut [u8], at: usize, n: u64, behind: u8) -> usize
    requires { at + 21 ≤ length text.old }
    ensures { ListedPut 21 text.old at (decimal n ++ (behind ∷ [])) result text.new }
{
    put_field(text, at, n, behind)
}

// A mode's name, by its position in the mode table, and the comma behind it.
fn put_mode(text: &mut [u8], at: usize, mode: u32) -> usize
    requires { at + 10 ≤ length text.old }
    ensures { ListedPut 10 text.old at (name_at mode ++ (comma ∷ [])) result text.new }
{
    if mode == 0 {
        return put_text(text, at, b"INTER,");
    }
    if mode == 1 {
        return put_text(text, at, b"INTER_4MV,");
    }
    if mode == 2 {
        return put_text(text, at, b"INTRA,");
    }
    put_text(text, at, b"SKIP,")
}

// A macroblock's line: row, column, mode, bits, error.
fn put_macroblock_line(
    text: &mut [u8],
    at: usize,
    row: u64,
    column: u64,
    mode: u32,
    bits: u64,
    error: u64,
) -> usize
    requires { at + 94 ≤ length text.old }
    ensures { ListedPut 94 text.old at (line_text row column mode bits error) result text.new }
{
    let a = put_number(text, at, row, b',');
    let b = put_number(text, a, column, b',');
    let c = put_mode(text, b, mode);
    let d = put_number(text, c, bits, b',');
    put_number(text, d, error, b'\n')
}

// The lines of the first `count` macroblocks of the plane shown: mode and bits from `stated`, three numbers each, the error from the samples.
pub fn put_lines(
    text: &mut [u8],
    canvas: Svq1PlaneCanvas,
    source: &[u8],
    recon: &[u8],
    stated: &[u32],
    count: usize,
) -> usize
    requires { Showable (shown_by canvas source.now recon.now) × (count ≤ shown_blocks (shown_by canvas source.now recon.now)) × (3 * count ≤ length stated.now) × (94 * count ≤ length text.old) }
    ensures { ListedPut (94 * count) text.old 0 (lines_from (shown_by canvas source.now recon.now) stated.now count) result text.new }
{
    let cols = blocks_along(canvas.width);
    let mut at = 0;
    for k in 0..count {
        let i = 3 * k;
        at = put_macroblock_line(
            text,
            at,
            (k / cols) as u64,
            (k % cols) as u64,
            stated[i],
            stated[i + 1] as u64,
            visible_block(canvas, source, recon, k) as u64,
        );
    }
    at
}

// The last line: both totals.
pub fn put_total_line(text: &mut [u8], at: usize, bits: u64, error: u64) -> usize
    requires { at + 48 ≤ length text.old }
    ensures { ListedPut 48 text.old at (total_line bits error) result text.new }
{
    let a = put_text(text, at, b"total,");
    let b = put_number(text, a, bits, b',');
    put_number(text, b, error, b'\n')
}

// A refusal in place of the lines.
pub fn put_refused(text: &mut [u8], refusal: Refusal) -> usize
    requires { 29 ≤ length text.old }
    ensures { ListedPut 29 text.old 0 (refused_text (number_of refusal)) result text.new }
{
    let a = put_text(text, 0, b"refused,");
    put_number(text, a, u64::from(refusal.number()), b'\n')
}
