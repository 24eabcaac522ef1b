// Functions that only the crates of this repository call. Most have a `requires`: the caller, proved too, meets it.
ghost use Rattle.std.specs.Prelude.{List, ◌≡◌, ℕ};
ghost use Rattle.bits.specs.Basics.{first_of};
ghost use Rattle.bits.specs.Refusals.{refused_by};
ghost use Rattle.macroblock.specs.MacroblockNeeds.{given_by};
ghost use Rattle.plane.specs.Refusals.{lengths_refusal, lent_links};
ghost use Rattle.plane.specs.PlaneNeeds.{Padded};

use bits::inner::check_start;
use bits::refusal::Refusal;
use book_check::check_data;
use canvas::svq1_plane::Svq1PlaneCanvas;

// The lengths of a plane call's result slices.
#[derive(Clone, Copy)]
pub struct SliceLengths {
    pub recon: usize,
    pub vx: usize,
    pub vy: usize,
}

// Refuses result slices of a plane by their lengths.
fn check_slices(canvas: Svq1PlaneCanvas, slices: SliceLengths) -> Result<(), Refusal>
    requires { Padded canvas }
    ensures { (reference book codebook : List ℕ) → refused_by result ≡ lengths_refusal (given_by canvas reference book codebook) slices }
{
    let blocks = 4 * (canvas.rows / 16 * (canvas.stride / 16));
    if slices.vx < blocks {
        return Err(Refusal::ResultLength);
    }
    if slices.vy < blocks {
        return Err(Refusal::ResultLength);
    }
    if slices.recon != canvas.stride * canvas.rows {
        return Err(Refusal::ResultLength);
    }
    Ok(())
}

// What the writer and the reader of a plane test last: the tables, the result slices and the bit string, both given by their lengths.
pub fn check_lent(
    canvas: Svq1PlaneCanvas,
    book: &[u8],
    codebook: &[u8],
    bytes: usize,
    start: usize,
    slices: SliceLengths,
) -> Result<(), Refusal>
    requires { Padded canvas }
    ensures { (reference : List ℕ) → refused_by result ≡ first_of (lent_links (given_by canvas reference book.now codebook.now) bytes start slices) }
{
    check_data(book, codebook)?;
    check_slices(canvas, slices)?;
    check_start(bytes, start)
}
