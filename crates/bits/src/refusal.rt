// Why a call refuses what it is lent, or ends before its work is done.
ghost use Rattle.std.specs.Prelude.{◌≡◌};
ghost use Rattle.bits.specs.Refusals.{number_of, number_told};

// Each refusal stands for one number, under which a C host and the listing program meet it.
#[derive(Clone, Copy, Debug, PartialEq, Eq)]
pub enum Refusal {
    // A width or height is 0, or above the largest.
    PlaneSize = 1,
    // The source is not width x height samples.
    SourceLength = 2,
    // The reference's stride or rows are not the size rounded up to whole macroblocks.
    CanvasSize = 3,
    // The reference is not stride x rows samples.
    ReferenceLength = 4,
    // A table, a book or a codebook has another length; a book file has a line that is malformed, missing or doubled.
    TableLength = 5,
    // A code's length is not 1 to 32, or its value does not fit it.
    CodeWidth = 6,
    // A code begins another of its table, or equals it.
    NotPrefixFree = 7,
    // A leaf's or a plan's level, half, block, cap or skip.
    Block = 8,
    // A motion search's block, place or predictor.
    SearchBlock = 9,
    // The bits left neither begin with a code nor are the start of one.
    NoCode = 10,
    // An intra leaf that is skipped, or stages where none are open.
    LeafClosed = 11,
    // A slice for results has another length, or too little room.
    ResultLength = 20,
    // A bit string is too long, or the start bit lies beyond it.
    StartBit = 21,
    // What is written does not fit into the bits left.
    NoRoom = 22,
    // No vector is codable and in the window.
    NoVector = 23,
    // The bits end before what is read does.
    BitsEnd = 24,
    // A book file's entries are not in a book's order.
    FileOrder = 30,
    // An allowance is less than SKIP's bits for every macroblock.
    Allowance = 31,
}

impl Refusal {
    pub fn number(self) -> u8
        ensures { result ≡ number_of self }
    {
        self as u8
    }
}

// The number under which a refusal is told, 0 where there is none.
pub fn number_told(refused: Option<Refusal>) -> u8
    ensures { result ≡ number_told refused }
{
    match refused {
        Some(refusal) => refusal.number(),
        None => 0,
    }
}
