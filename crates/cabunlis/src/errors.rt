// The error over the samples that the panel shows.
ghost use Rattle.std.specs.Prelude.{◌≡◌};
ghost use Rattle.visible_error.specs.Visible.{visible_answer};
ghost use Rattle.visible_error.specs.VisibleNeeds.{shown_by};
ghost use Rattle.cabunlis.specs.Host.{host_visible};

use canvas::svq1_plane::Svq1PlaneCanvas;
use visible_error::visible_error;

// What the call answers: a refusal's number and no error, or 0 and the error.
#[repr(C)]
#[derive(Drop)]
pub struct HostVisible {
    pub refusal: u32,
    pub error: u64,
}

// The squared error of a reconstruction in its canvas against a source, over the samples inside width and height alone.
#[unsafe(no_mangle)]
pub extern "C" fn cabunlis2_visible_error(
    width: usize,
    height: usize,
    stride: usize,
    rows: usize,
    source: &[u8],
    recon: &[u8],
) -> HostVisible
    ensures { result ≡ host_visible (visible_answer (shown_by (record { width = width; height = height; stride = stride; rows = rows }) source.now recon.now)) }
{
    let canvas = Svq1PlaneCanvas {
        width,
        height,
        stride,
        rows,
    };
    match visible_error(canvas, source, recon) {
        Ok(error) => HostVisible { refusal: 0, error },
        Err(refusal) => HostVisible {
            refusal: refusal.number() as u32,
            error: 0,
        },
    }
}
