// The mode of a macroblock, read off the bits.
ghost use Rattle.std.specs.Prelude.{◌≡◌};
ghost use Rattle.cards.specs.Numbers.{mode_numbered, mode_read};

use super::super::inner::line::put_option;
use code_tables::svq1_vlc::read_code;
use macroblock::svq1_enc_inter::Svq1MbMode;
use text::put_text;

// The mode of a position in the book's first table; none behind the modes'.
#[tactic(auto, unfolding(crate::specs::Numbers::mode_numbered))]
fn mode_numbered(position: usize) -> Option<Svq1MbMode>
    ensures { result ≡ mode_numbered position }
{
    match position {
        0 => Some(Svq1MbMode::Inter),
        1 => Some(Svq1MbMode::Inter4Mv),
        2 => Some(Svq1MbMode::Intra),
        3 => Some(Svq1MbMode::Skip),
        _ => None,
    }
}

// The mode whose code stands at a bit.
#[tactic(auto, unfolding(crate::specs::Numbers::mode_numbered, crate::specs::Numbers::mode_read))]
fn mode_at(book: &[u8], out: &[u8], at: usize) -> Option<Svq1MbMode>
    ensures { result ≡ mode_numbered (mode_read book.now out.now at) }
{
    if book.len() < 12 {
        return None;
    }
    let Ok(code) = read_code(out, at, &book[..12]) else {
        return None;
    };
    mode_numbered(code.position)
}

fn name(mode: Svq1MbMode) -> &'static [u8] {
    match mode {
        Svq1MbMode::Inter => b"INTER",
        Svq1MbMode::Inter4Mv => b"INTER_4MV",
        Svq1MbMode::Intra => b"INTRA",
        Svq1MbMode::Skip => b"SKIP",
    }
}

// The mode of the macroblock that was written at bit `start`.
pub fn put_mode(line: &mut [u8], at: usize, book: &[u8], out: &[u8], start: usize) -> usize {
    let end = put_text(line, at, b", mode ");
    let mode = mode_at(book, out, start);
    put_option(line, end, mode, b"none", |line, at, m| {
        put_text(line, at, name(m))
    })
}
