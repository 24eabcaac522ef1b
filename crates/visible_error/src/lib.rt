// The error of a plane over the samples that the panel shows.
#![tactic(auto)]

pub mod inner;

ghost use Rattle.std.specs.Prelude.{◌≡◌};
ghost use Rattle.bits.specs.Refusals.{answer_of};
ghost use Rattle.visible_error.specs.Visible.{visible_answer};
ghost use Rattle.visible_error.specs.VisibleNeeds.{shown_by};

use bits::refusal::Refusal;
use canvas::svq1_plane::{Svq1PlaneCanvas, check_source};
use inner::visible_total;

// The squared error of a reconstruction in its canvas against the plane's source, over the samples inside width and height alone.
pub fn visible_error(canvas: Svq1PlaneCanvas, source: &[u8], recon: &[u8]) -> Result<u64, Refusal>
    ensures { answer_of result ≡ visible_answer (shown_by canvas source.now recon.now) }
{
    check_source(canvas, source.len(), recon)?;
    Ok(visible_total(canvas, source, recon))
}
