// The job line of the listing program: `width,height,lambda,radius,four,margin`.
#![tactic(auto)]

ghost use Rattle.std.specs.Prelude.{◌≡◌};
ghost use Rattle.text.specs.Text.{fields_of};
ghost use Rattle.listing_job.specs.Job.{job_in, job_read, job_answer};
ghost use Rattle.listing_job.specs.JobForms.{FieldFound, job_given, job_told};

// What a job line asks for.
#[derive(Drop)]
pub struct ListingJob {
    pub width: usize,
    pub height: usize,
    pub lambda: u64,
    pub radius: u8,
    pub four: bool,
    pub margin: u32,
}

// A field that others follow: its number, and the place behind its comma.
#[derive(Clone, Copy)]
struct Field {
    value: u64,
    next: usize,
}

// The first field of a text, where a comma stands behind it.
fn read_field(t: &[u8], most: u64) -> Option<Field>
    ensures { FieldFound most t.now result }
{
    let n = text::find(t, b',')?;
    let value = text::read_number(&t[..n], most)?;
    Some(Field { value, next: n + 1 })
}

// The six fields of a line, without its line feed.
fn read_fields(t: &[u8]) -> Option<ListingJob>
    ensures { job_given result ≡ job_read (fields_of t.now) }
{
    let width = read_field(t, 176)?;
    let behind_width = &t[width.next..];
    let height = read_field(behind_width, 144)?;
    let behind_height = &behind_width[height.next..];
    let lambda = read_field(behind_height, 18446744073709551615)?;
    let behind_lambda = &behind_height[lambda.next..];
    let radius = read_field(behind_lambda, 255)?;
    let behind_radius = &behind_lambda[radius.next..];
    let four = read_field(behind_radius, 1)?;
    let margin = text::read_number(&behind_radius[four.next..], 4294967295)?;
    Some(ListingJob {
        width: width.value as usize,
        height: height.value as usize,
        lambda: lambda.value,
        radius: radius.value as u8,
        four: four.value == 1,
        margin: margin as u32,
    })
}

// A job file: one line, ended by a line feed.
pub fn read_job(line: &[u8]) -> Option<ListingJob>
    ensures { job_told result ≡ job_answer (job_in line.now) }
{
    let n = text::find(line, b'\n')?;
    if n + 1 < line.len() {
        return None;
    }
    read_fields(&line[..n])
}
