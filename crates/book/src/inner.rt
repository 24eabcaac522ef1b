// The sizes of a lent book and codebook in bytes, and a lent book's tables by name.
// Functions that only the crates of this repository call. Most have a `requires`: the caller, proved too, meets it.
ghost use Rattle.std.specs.Prelude.{◌≡◌, ◌≤◌, length};
ghost use Rattle.book.specs.Book.{book_bytes, mode_table, vector_table, mean_table, stage_family, stage_table};
ghost use Rattle.book.specs.Level.{level_number};

use super::svq1_blocktree::Svq1Level;
use super::svq1_vlc::Svq1Half;

// The six tables stand one behind the other, three bytes to an entry: the byte behind each of the first five.
const MODE_END: usize = 3 * 4;

const VECTOR_END: usize = MODE_END + 3 * 64;

const INTRA_MEAN_END: usize = VECTOR_END + 3 * 256;

const INTER_MEAN_END: usize = INTRA_MEAN_END + 3 * 512;

const INTRA_STAGE_END: usize = INTER_MEAN_END + 3 * 48;

// Entries and bytes of a book.
pub const BOOK_ENTRIES: usize = 932;

pub const BOOK_BYTES: usize = 3 * BOOK_ENTRIES;

// Bytes of a codebook.
pub const CODEBOOK_BYTES: usize = 23040;

// The level of this number.
pub fn level_at(d: usize) -> Svq1Level
    requires { d ≤ 5 }
    ensures { level_number result ≡ d }
{
    match d {
        0 => Svq1Level::L0,
        1 => Svq1Level::L1,
        2 => Svq1Level::L2,
        3 => Svq1Level::L3,
        4 => Svq1Level::L4,
        _ => Svq1Level::L5,
    }
}

// The codes of the modes.
pub fn mode_table(book: &[u8]) -> &[u8]
    requires { length book.now ≡ book_bytes }
    ensures { result.now ≡ mode_table book.now }
{
    &book[0..MODE_END]
}

// Those of a vector difference's components.
pub fn vector_table(book: &[u8]) -> &[u8]
    requires { length book.now ≡ book_bytes }
    ensures { result.now ≡ vector_table book.now }
{
    &book[MODE_END..VECTOR_END]
}

// Those of a half's means.
pub fn mean_table(book: &[u8], half: Svq1Half) -> &[u8]
    requires { length book.now ≡ book_bytes }
    ensures { result.now ≡ mean_table half book.now }
{
    match half {
        Svq1Half::Intra => &book[VECTOR_END..INTRA_MEAN_END],
        Svq1Half::Inter => &book[INTRA_MEAN_END..INTER_MEAN_END],
    }
}

// Those of a half's stage counts at all levels.
pub fn stage_family(book: &[u8], half: Svq1Half) -> &[u8]
    requires { length book.now ≡ book_bytes }
    ensures { result.now ≡ stage_family half book.now }
{
    match half {
        Svq1Half::Intra => &book[INTER_MEAN_END..INTRA_STAGE_END],
        Svq1Half::Inter => &book[INTRA_STAGE_END..BOOK_BYTES],
    }
}

// Those of a half's stage counts at a level.
pub fn stage_table(book: &[u8], half: Svq1Half, level: Svq1Level) -> &[u8]
    requires { length book.now ≡ book_bytes }
    ensures { result.now ≡ stage_table (level_number level) (stage_family half book.now) }
{
    let intra = stage_family(book, Svq1Half::Intra);
    let inter = stage_family(book, Svq1Half::Inter);
    level.stage_table(intra, inter, half)
}
