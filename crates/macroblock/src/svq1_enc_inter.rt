// How a macroblock can be coded, and how a plane is to be written.
pub mod inner;

ghost use Rattle.std.specs.Prelude.{◌≡◌, ◌<◌};
ghost use Rattle.macroblock.specs.Mode.{mode_position};

use vectors::svq1_motion_predictor::Svq1Mv;

// How a macroblock is coded.
#[derive(Clone, Copy, Debug, PartialEq, Eq)]
pub enum Svq1MbMode {
    Inter = 0,
    Inter4Mv = 1,
    Intra = 2,
    Skip = 3,
}

impl Svq1MbMode {
    // The position of the mode's code in the mode table.
    pub fn position(self) -> usize
        ensures { (result ≡ mode_position self) × (result < 4) }
    {
        self as usize
    }
}

// How a plane is written: what a bit costs against the squared error, how far a motion search goes, whether four vectors are tried, and the margin of
// its leaves' stages.
#[derive(Clone, Copy)]
pub struct Settings {
    pub lambda: u64,
    pub radius: u8,
    pub four: bool,
    pub margin: u32,
}

// A macroblock's motion: none, one vector with its difference, as it is written or was read, or four, which lie in an array beside it.
#[derive(Clone, Copy)]
pub enum MbMotion {
    None,
    One { mv: Svq1Mv, diff: Svq1Mv },
    Four,
}
