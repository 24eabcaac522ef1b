// The text that the listing program prints, from the bytes of its five files.
ghost use Rattle.std.specs.Prelude.{[], Some, ◌≡◌, ◌≤◌, length};
ghost use Rattle.bits.specs.Refusals.{refused_by};
ghost use Rattle.book.specs.Book.{book_bytes};
ghost use Rattle.macroblock_choice.specs.ChosenNeeds.{task_by};
ghost use Rattle.macroblock.specs.MacroblockNeeds.{given_by};
ghost use Rattle.listing_job.specs.Job.{most_width, most_height};
ghost use Rattle.listing_job.specs.JobForms.{job_by};
ghost use Rattle.listing_text.specs.LineForms.{ListedPut};
ghost use Rattle.listing_text.specs.Listing.{files_refusal_by, plane_text, job_text};
ghost use Rattle.listing_text.specs.Listed.{listing_room, Listed, files_by, canvas_of, FilesChecked, Listable, Fresh, EmptyFor, ListedReady, end_text};
ghost use Rattle.macroblock.specs.Slices.{slices_by, lent_by};
ghost use Rattle.visible_error.specs.VisibleNeeds.{shown_by};

use super::inner::lines::{put_lines, put_refused, put_total_line};
use bits::refusal::Refusal;
use book::inner::{BOOK_BYTES, CODEBOOK_BYTES};
use book_file::read_book_file;
use canvas::svq1_plane::{Svq1PlaneCanvas, check_source};
use listing_job::{ListingJob, read_job};
use macroblock::svq1_enc_inter::Settings;
use plane_enc::svq1_enc_inter::{WriteEnd, encode_inter_plane_stated};
use visible_error::inner::visible_total;

// The canvas of a plane of the program's sizes.
fn canvas_of(width: usize, height: usize) -> Svq1PlaneCanvas
    requires { (width ≤ most_width) × (height ≤ most_height) }
    ensures { result ≡ canvas_of width height }
{
    Svq1PlaneCanvas {
        width,
        height,
        stride: 16 * ((width + 15) / 16),
        rows: 16 * ((height + 15) / 16),
    }
}

// Refuses the files, by the lowest number but 30 before 6; where nothing does, the file's book is in `book`. Source and codebook are given by their lengths.
fn check_files(
    canvas: Svq1PlaneCanvas,
    source: usize,
    reference: &[u8],
    codebook: usize,
    file: &[u8],
    book: &mut [u8],
) -> Result<(), Refusal>
    requires { length book.old ≡ book_bytes }
    ensures { FilesChecked (files_refusal_by canvas.width canvas.height (record { samples = reference.now; stride = canvas.stride; rows = canvas.rows }) source codebook file.now) file.now (refused_by result) book.new }
{
    check_source(canvas, source, reference)?;
    if codebook != CODEBOOK_BYTES {
        return Err(Refusal::TableLength);
    }
    read_book_file(file, book)
}

// What is printed of a plane that was written: its macroblocks and the total, or where it ended early its refusal.
fn put_plane(
    text: &mut [u8],
    canvas: Svq1PlaneCanvas,
    source: &[u8],
    recon: &[u8],
    stated: &[u32],
    end: WriteEnd,
) -> usize
    requires { ListedReady (shown_by canvas source.now recon.now) stated.now end × (listing_room ≤ length text.old) }
    ensures { ListedPut listing_room text.old 0 (end_text (shown_by canvas source.now recon.now) stated.now end) result text.new }
{
    if let Some(refusal) = end.refused {
        return put_refused(text, refusal);
    }
    let at = put_lines(text, canvas, source, recon, stated, end.done);
    let error = visible_total(canvas, source, recon);
    put_total_line(text, at, end.bits, error)
}

// A plane that nothing refuses, written into empty slices of its size, and put.
fn list_written(
    canvas: Svq1PlaneCanvas,
    source: &[u8],
    reference: &[u8],
    book: &[u8],
    codebook: &[u8],
    settings: Settings,
    out: &mut [u8],
    recon: &mut [u8],
    vx: &mut [u8],
    vy: &mut [u8],
    stated: &mut [u32],
    text: &mut [u8],
) -> usize
    requires { Listable (given_by canvas reference.now book.now codebook.now) (task_by source.now settings) × EmptyFor (given_by canvas reference.now book.now codebook.now) (lent_by out.old (slices_by recon.old vx.old vy.old)) stated.old × (listing_room ≤ length text.old) }
    ensures { ListedPut listing_room text.old 0 (plane_text (given_by canvas reference.now book.now codebook.now) (task_by source.now settings)) result text.new }
{
    let end = encode_inter_plane_stated(
        canvas, source, reference, book, codebook, settings, out, 0, recon, vx, vy, stated,
    );
    put_plane(text, canvas, source, recon, stated, end)
}

// The same in slices of the program's own, of which it takes as much as it needs.
fn list_into(
    canvas: Svq1PlaneCanvas,
    source: &[u8],
    reference: &[u8],
    book: &[u8],
    codebook: &[u8],
    settings: Settings,
    out: &mut [u8],
    recon: &mut [u8],
    vx: &mut [u8],
    vy: &mut [u8],
    stated: &mut [u32],
    text: &mut [u8],
) -> usize
    requires { Listable (given_by canvas reference.now book.now codebook.now) (task_by source.now settings) × Fresh out.old recon.old vx.old vy.old stated.old × (listing_room ≤ length text.old) }
    ensures { ListedPut listing_room text.old 0 (plane_text (given_by canvas reference.now book.now codebook.now) (task_by source.now settings)) result text.new }
{
    let samples = canvas.stride * canvas.rows;
    let vectors = 4 * (canvas.rows / 16 * (canvas.stride / 16));
    list_written(
        canvas,
        source,
        reference,
        book,
        codebook,
        settings,
        out,
        &mut recon[..samples],
        &mut vx[..vectors],
        &mut vy[..vectors],
        stated,
        text,
    )
}

// The same with these slices on the stack: the output, the results of the largest plane, and three numbers for each of its 99 macroblocks.
fn list_plane(
    canvas: Svq1PlaneCanvas,
    source: &[u8],
    reference: &[u8],
    book: &[u8],
    codebook: &[u8],
    settings: Settings,
    text: &mut [u8],
) -> usize
    requires { Listable (given_by canvas reference.now book.now codebook.now) (task_by source.now settings) × (listing_room ≤ length text.old) }
    ensures { ListedPut listing_room text.old 0 (plane_text (given_by canvas reference.now book.now codebook.now) (task_by source.now settings)) result text.new }
{
    let mut out = [0u8; 65536];
    let mut recon = [0u8; 25344];
    let mut vx = [0u8; 396];
    let mut vy = [0u8; 396];
    let mut stated = [0u32; 297];
    list_into(
        canvas,
        source,
        reference,
        book,
        codebook,
        settings,
        &mut out,
        &mut recon,
        &mut vx,
        &mut vy,
        &mut stated,
        text,
    )
}

// What is printed for a job of the program's sizes: the refusal of its files, or its plane.
fn list_job(
    job: ListingJob,
    book: &[u8],
    codebook: &[u8],
    source: &[u8],
    reference: &[u8],
    text: &mut [u8],
) -> usize
    requires { (job.width ≤ most_width) × (job.height ≤ most_height) × (listing_room ≤ length text.old) }
    ensures { ListedPut listing_room text.old 0 (job_text (files_by book.now codebook.now source.now reference.now []) (Some (job_by job))) result text.new }
{
    let mut held = [0u8; BOOK_BYTES];
    let canvas = canvas_of(job.width, job.height);
    let checked = check_files(
        canvas,
        source.len(),
        reference,
        codebook.len(),
        book,
        &mut held,
    );
    if let Err(refusal) = checked {
        return put_refused(text, refusal);
    }
    let settings = Settings {
        lambda: job.lambda,
        radius: job.radius,
        four: job.four,
        margin: job.margin,
    };
    list_plane(canvas, source, reference, &held, codebook, settings, text)
}

// The listing of a plane, from the bytes of the program's files, put into a text. The answer is its length. A text of fewer than 16,384 bytes, in which not
// every listing would fit, is left as it is, and the answer is 0. A line that asks for no job is refused with 1, as a plane's size is.
pub fn listing(
    book: &[u8],
    codebook: &[u8],
    source: &[u8],
    reference: &[u8],
    job: &[u8],
    text: &mut [u8],
) -> usize
    ensures { Listed (files_by book.now codebook.now source.now reference.now job.now) text.old result text.new }
{
    if text.len() < 16384 {
        return 0;
    }
    let Some(j) = read_job(job) else {
        return put_refused(text, Refusal::PlaneSize);
    };
    list_job(j, book, codebook, source, reference, text)
}
