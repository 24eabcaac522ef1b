// The levels of the block tree.
ghost use Rattle.std.specs.Prelude.{◌≡◌, ◌≤◌};
ghost use Rattle.book.specs.Calls.{parts_of, parts_level};
ghost use Rattle.book.specs.Level.{level_number, width, height, area};

// The six block sizes of a macroblock's tree, from 4×2 samples to 16×16.
#[derive(Clone, Copy, Debug, PartialEq, Eq)]
pub enum Svq1Level {
    L0,
    L1,
    L2,
    L3,
    L4,
    L5,
}

// Width and height in samples.
#[derive(Clone, Copy)]
pub struct BlockDims {
    pub width: usize,
    pub height: usize,
}

impl Svq1Level {
    pub fn number(self) -> usize
        ensures { (result ≡ level_number self) × (result ≤ 5) }
    {
        self as usize
    }

    pub fn block_dims(self) -> BlockDims
        ensures { (result.width ≡ width (level_number self)) × (result.height ≡ height (level_number self)) }
    {
        match self {
            Svq1Level::L0 => BlockDims {
                width: 4,
                height: 2,
            },
            Svq1Level::L1 => BlockDims {
                width: 4,
                height: 4,
            },
            Svq1Level::L2 => BlockDims {
                width: 8,
                height: 4,
            },
            Svq1Level::L3 => BlockDims {
                width: 8,
                height: 8,
            },
            Svq1Level::L4 => BlockDims {
                width: 16,
                height: 8,
            },
            Svq1Level::L5 => BlockDims {
                width: 16,
                height: 16,
            },
        }
    }

    // Samples of a block, and of a vector for it.
    pub fn vector_length(self) -> usize
        ensures { result ≡ area (level_number self) }
    {
        match self {
            Svq1Level::L0 => 8,
            Svq1Level::L1 => 16,
            Svq1Level::L2 => 32,
            Svq1Level::L3 => 64,
            Svq1Level::L4 => 128,
            Svq1Level::L5 => 256,
        }
    }

    // The level of a block's two parts; an L0 block is not split.
    pub fn subdivide(self) -> Option<Svq1Level>
        ensures { parts_of result ≡ parts_level (level_number self) }
    {
        match self {
            Svq1Level::L0 => None,
            Svq1Level::L1 => Some(Svq1Level::L0),
            Svq1Level::L2 => Some(Svq1Level::L1),
            Svq1Level::L3 => Some(Svq1Level::L2),
            Svq1Level::L4 => Some(Svq1Level::L3),
            Svq1Level::L5 => Some(Svq1Level::L4),
        }
    }
}
