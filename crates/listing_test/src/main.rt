// Prints what the listing program prints for jobs and files of all kinds: for each case its name and the text. Where a case says nothing else, the files are those of
// the first bench card.
#![tactic(auto)]

ghost use Rattle.std.specs.Prelude.{◌≤◌, ◌<◌, length, IfSome};

use listing_text::listing::listing;
use std::io;

// The files of a case but for its job.
#[derive(Clone, Copy)]
struct Files<'a> {
    book: &'a [u8],
    codebook: &'a [u8],
    source: &'a [u8],
    reference: &'a [u8],
}

// ---- cases
fn show(rt: &impl Print, name: &[u8], files: Files<'_>, job: &[u8]) -> io::Result<()> {
    let mut text = [0u8; 16384];
    let n = listing(
        files.book,
        files.codebook,
        files.source,
        files.reference,
        job,
        &mut text,
    );
    rt.write_all(name)?;
    rt.write_all(b": ")?;
    rt.write_all(&text[..n])
}

// The job of the first card.
fn card(rt: &impl Print, name: &[u8], files: Files<'_>) -> io::Result<()> {
    show(rt, name, files, b"16,16,32,8,1,0\n")
}

// The bytes before the first bar, and those behind it; none where there is no bar.
fn field(s: &[u8]) -> Option<(&[u8], &[u8])>
    ensures { IfSome result (λ parts. length parts.1.now < length s.now) }
{
    let bar = text::find(s, b'|')?;
    Some((&s[..bar], &s[bar + 1..]))
}

// Job files: each case is a name and the bytes, with a bar behind each. Cases differ in length, so that a `for` is no plainer.
fn jobs(rt: &impl Print, cases: &[u8], files: Files<'_>) -> io::Result<()> {
    let mut rest = cases;
    while let Some((name, behind)) = field(rest) {
        let Some((job, next)) = field(behind) else {
            return Ok(());
        };
        show(rt, name, files, job)?;
        rest = next;
    }
    Ok(())
}

// Where line k of a file begins; the end where there is none.
fn line(file: &[u8], k: usize) -> usize
    ensures { result ≤ length file.now }
{
    let mut at = 0;
    for _ in 0..k {
        let Some(feed) = text::find(&file[at..], b'\n') else {
            return file.len();
        };
        at += feed + 1;
    }
    at
}

// Lines that are taken out of the house book's file: a up to b, and c up to d, b and d themselves staying.
#[derive(Clone, Copy)]
struct Gaps {
    a: usize,
    b: usize,
    c: usize,
    d: usize,
}

// The house book's file with x in the first gap and y in the second.
fn fill(made: &mut [u8], house: &[u8], gaps: Gaps, x: &[u8], y: &[u8]) -> usize {
    let before = text::put_text(made, 0, &house[..line(house, gaps.a)]);
    let first = text::put_text(made, before, x);
    let between = house
        .get(line(house, gaps.b)..line(house, gaps.c))
        .unwrap_or(&[]);
    let second = text::put_text(made, first, between);
    let behind = text::put_text(made, second, y);
    text::put_text(made, behind, &house[line(house, gaps.d)..])
}

// The first card under that file.
fn filled(
    rt: &impl Print,
    name: &[u8],
    files: Files<'_>,
    gaps: Gaps,
    x: &[u8],
    y: &[u8],
) -> io::Result<()> {
    let mut made = [0u8; 24576];
    let n = fill(&mut made, files.book, gaps, x, y);
    let book = made.get(..n).unwrap_or(&[]);
    card(rt, name, Files { book, ..files })
}

// Book files: each case is a name and the bytes that stand in the two gaps of the house book's file, with a bar behind each. Cases differ in length here too.
fn books(rt: &impl Print, cases: &[u8], files: Files<'_>, gaps: Gaps) -> io::Result<()> {
    let mut rest = cases;
    while let Some((name, behind)) = field(rest) {
        let Some((x, second)) = field(behind) else {
            return Ok(());
        };
        let Some((y, next)) = field(second) else {
            return Ok(());
        };
        filled(rt, name, files, gaps, x, y)?;
        rest = next;
    }
    Ok(())
}

// Files of another length. Codebook, source and reference are a byte too long.
fn lengths(
    rt: &impl Print,
    book: &[u8],
    codebook: &[u8; 23041],
    source: &[u8; 257],
    reference: &[u8; 257],
) -> io::Result<()> {
    let right = Files {
        book,
        codebook: &codebook[..23040],
        source: &source[..256],
        reference: &reference[..256],
    };
    let short = Files {
        source: &source[..255],
        ..right
    };
    card(rt, b"source too short", short)?;
    card(rt, b"source too long", Files { source, ..right })?;
    let short = Files {
        reference: &reference[..255],
        ..right
    };
    card(rt, b"reference too short", short)?;
    card(rt, b"reference too long", Files { reference, ..right })?;
    let short = Files {
        codebook: &codebook[..23039],
        ..right
    };
    card(rt, b"codebook too short", short)?;
    card(rt, b"codebook too long", Files { codebook, ..right })?;
    let no_source = Files {
        source: b"",
        ..right
    };
    show(rt, b"1 and 2", no_source, b"16,16,32,8,2,0\n")?;
    card(
        rt,
        b"2 and 4",
        Files {
            reference: b"",
            ..no_source
        },
    )?;
    let no_codebook = Files {
        codebook: b"",
        reference: b"",
        ..right
    };
    card(rt, b"4 and 5", no_codebook)?;
    let none = Files {
        book: b"",
        source: b"",
        ..no_codebook
    };
    card(rt, b"no file but the job", none)
}

fn job_cases(rt: &impl Print, files: Files<'_>) -> io::Result<()> {
    jobs(
        rt,
        b"first card|16,16,32,8,1,0\n|\
        no job||\
        no line feed|16,16,32,8,1,0|\
        two lines|16,16,32,8,1,0\n16,16,32,8,1,0\n|\
        an empty line behind|16,16,32,8,1,0\n\n|\
        carriage return|16,16,32,8,1,0\r\n|\
        the old job of five fields|16,16,32,8,1\n|\
        a job of seven fields|16,16,32,8,1,0,0\n|\
        a comma behind|16,16,32,8,1,0,\n|\
        an empty field|16,16,,8,1,0\n|\
        a leading zero|016,16,32,8,1,0\n|\
        two zeros|16,16,32,00,1,0\n|\
        a plus|+16,16,32,8,1,0\n|\
        a minus|16,16,-32,8,1,0\n|\
        a blank before|16, 16,32,8,1,0\n|\
        a blank behind|16,16,32,8,1,0 \n|\
        a letter|16,16,3a,8,1,0\n|\
        width 177|177,16,32,8,1,0\n|\
        height 145|16,145,32,8,1,0\n|\
        width 0|0,16,32,8,1,0\n|\
        height 0|16,0,32,8,1,0\n|\
        the largest size, source too short|176,144,32,8,1,0\n|\
        lambda 2^64-1|16,16,18446744073709551615,8,1,0\n|\
        lambda 2^64|16,16,18446744073709551616,8,1,0\n|\
        radius 255|16,16,32,255,1,0\n|\
        radius 256|16,16,32,256,1,0\n|\
        four 0|16,16,32,8,0,0\n|\
        four 2|16,16,32,8,2,0\n|\
        margin 1|16,16,32,8,1,1\n|\
        margin 2^32-1|16,16,32,8,1,4294967295\n|\
        margin 2^32|16,16,32,8,1,4294967296\n|\
        margin 2^64|16,16,32,8,1,18446744073709551616\n|\
        margin -1|16,16,32,8,1,-1\n|\
        margin empty|16,16,32,8,1,\n|\
        margin of two zeros|16,16,32,8,1,00\n|\
        margin with a leading zero|16,16,32,8,1,01\n|\
        margin a blank|16,16,32,8,1, \n|\
        the longest line, source too short|176,144,18446744073709551615,255,1,4294967295\n|",
        files,
    )
}

// The first line, `mode,0,3,2`, in its place or behind the last one.
fn first_line(rt: &impl Print, files: Files<'_>) -> io::Result<()> {
    let gaps = Gaps {
        a: 0,
        b: 1,
        c: 932,
        d: 932,
    };
    books(
        rt,
        b"line in its place|mode,0,3,2\n||\
        line moved||mode,0,3,2\n|\
        line missing|||\
        line doubled|mode,0,3,2\nmode,0,3,2\n||\
        line doubled at the end|mode,0,3,2\n|mode,0,3,2\n|\
        line not ended|mode,0,3,2||\
        empty line|\nmode,0,3,2\n||\
        empty line behind|mode,0,3,2\n|\n|\
        three fields|mode,0,3\n||\
        five fields|mode,0,3,2,0\n||\
        a blank in a line|mode, 0,3,2\n||\
        position with a leading zero|mode,00,3,2\n||\
        line with a carriage return|mode,0,3,2\r\n||\
        unknown table|modes,0,3,2\n||\
        position past its table|mode,4,3,2\n||\
        code 65536|mode,0,3,65536\n||\
        length 65536|mode,0,65536,2\n||\
        length 65535|mode,0,65535,2\n||\
        length 0|mode,0,0,0\n||\
        length 33|mode,0,33,2\n||\
        value 2^length|mode,0,1,2\n||\
        equal codes|mode,0,3,3\n||\
        code that begins another|mode,0,2,1\n||\
        5 and 6|mode,0,33,2\nmode,0,3,2\n||\
        6 and 7|mode,0,1,3\n||\
        moved and not ended||mode,0,3,2|\
        moved and an empty line||mode,0,3,2\n\n|\
        moved and malformed||mode,0,3\n|\
        moved and code 65536||mode,0,3,65536\n|\
        moved and doubled||mode,0,3,2\nmode,0,3,2\n|\
        moved and length 33||mode,0,33,2\n|\
        moved and value 2^length||mode,0,1,2\n|\
        moved and equal codes||mode,0,3,3\n|\
        moved and code that begins another||mode,0,2,1\n|",
        files,
        gaps,
    )?;
    books(
        rt,
        b"5 of the codebook and 6|mode,0,33,2\n||\
        5 of the codebook and 30||mode,0,3,2\n|",
        Files {
            codebook: b"",
            ..files
        },
        gaps,
    )?;
    books(
        rt,
        b"4 and 30||mode,0,3,2\n|",
        Files {
            reference: b"",
            ..files
        },
        gaps,
    )
}

// The first two lines.
fn first_lines(rt: &impl Print, files: Files<'_>) -> io::Result<()> {
    let gaps = Gaps {
        a: 0,
        b: 2,
        c: 932,
        d: 932,
    };
    books(
        rt,
        b"first two lines change places|mode,1,3,3\nmode,0,3,2\n||\
        moved and a line missing||mode,1,3,3\n|\
        one line doubled, one missing|mode,1,3,3\nmode,1,3,3\n||\
        malformed before the line moved|mode,0,3\n|mode,1,3,3\n|\
        length 33 before the line moved|mode,0,33,2\n|mode,1,3,3\n|",
        files,
        gaps,
    )
}

// Two lines of the middle, `intermean,176,15,161` and `intermean,177,15,159`.
fn middle_lines(rt: &impl Print, files: Files<'_>) -> io::Result<()> {
    let gaps = Gaps {
        a: 500,
        b: 502,
        c: 932,
        d: 932,
    };
    books(
        rt,
        b"middle lines change places|intermean,177,15,159\nintermean,176,15,161\n||\
        middle line moved to the end|intermean,177,15,159\n|intermean,176,15,161\n|\
        middle line missing, another moved||intermean,176,15,161\n|\
        middle line of length 33|intermean,176,33,161\nintermean,177,15,159\n||\
        middle codes equal|intermean,176,15,159\nintermean,177,15,159\n||",
        files,
        gaps,
    )?;
    let ahead = Gaps {
        a: 0,
        b: 0,
        c: 500,
        d: 501,
    };
    books(
        rt,
        b"middle line moved to the front|intermean,176,15,161\n||",
        files,
        ahead,
    )
}

// The last line, `interstage,47,7,8`, in its place or before the first one; the last two.
fn last_lines(rt: &impl Print, files: Files<'_>) -> io::Result<()> {
    let gaps = Gaps {
        a: 0,
        b: 0,
        c: 931,
        d: 932,
    };
    books(
        rt,
        b"last line moved to the front|interstage,47,7,8\n||\
        last line missing|||\
        last line not ended||interstage,47,7,8|\
        last line of length 33||interstage,47,33,8\n|\
        last codes equal||interstage,47,5,7\n|\
        last line at the front, malformed|interstage,48,7,8\n||\
        last line at the front, of length 33|interstage,47,33,8\n||\
        last line at the front, its code equal|interstage,47,5,7\n||",
        files,
        gaps,
    )?;
    let both = Gaps {
        a: 0,
        b: 0,
        c: 930,
        d: 932,
    };
    books(
        rt,
        b"last two lines change places||interstage,47,7,8\ninterstage,46,5,7\n|",
        files,
        both,
    )
}

// Planes of which a part of the last macroblocks lies beyond the picture, all samples 100 over a reference of 0. At the largest lambda every macroblock is skipped,
// so its error is 10,000 for each sample that it shows.
fn cut_planes(rt: &impl Print, book: &[u8], codebook: &[u8; 23041]) -> io::Result<()> {
    let source = [100u8; 25200];
    let reference = [0u8; 25344];
    let files = Files {
        book,
        codebook: &codebook[..23040],
        source: &source,
        reference: &reference,
    };
    show(
        rt,
        b"1 by 1",
        Files {
            source: &source[..1],
            reference: &reference[..256],
            ..files
        },
        b"1,1,18446744073709551615,8,1,0\n",
    )?;
    show(
        rt,
        b"17 by 16",
        Files {
            source: &source[..272],
            reference: &reference[..512],
            ..files
        },
        b"17,16,18446744073709551615,8,1,0\n",
    )?;
    show(
        rt,
        b"16 by 17",
        Files {
            source: &source[..272],
            reference: &reference[..512],
            ..files
        },
        b"16,17,18446744073709551615,8,1,0\n",
    )?;
    show(
        rt,
        b"15 by 1",
        Files {
            source: &source[..15],
            reference: &reference[..256],
            ..files
        },
        b"15,1,18446744073709551615,8,1,0\n",
    )?;
    show(
        rt,
        b"176 by 143",
        Files {
            source: &source[..25168],
            ..files
        },
        b"176,143,18446744073709551615,8,1,0\n",
    )?;
    show(
        rt,
        b"175 by 144",
        files,
        b"175,144,18446744073709551615,8,1,0\n",
    )
}

// Columns of 103 and 97 over a reference of 0, at lambda 0, where cost is error alone. The codebook is 0 but for two vectors of one half's 8 by 8 blocks, in such columns too:
// the first of stage 0, at `ones_at`, has 1 and -1, the first of stage 1, at `twos_at`, has 2 and -2.
// - The mean of every block is 100, which leaves 3 at each sample: an error of 2,304, however the macroblock is split. In a block of 64 that is 576; stage 0 leaves 2, 256 in all,
//   and stage 1 then nothing. So stage 0 stays where the margin is below 576 - 256 = 320, and stage 1 behind it where it is below 256.
// - Bits under the house book: INTRA 5, INTER 3 with 2 for its vector; each block's flag 1; a leaf's stage count 3 (none or one) or 5 (two), its mean 13 (INTRA) or 15 (INTER),
//   and 4 a stage. Without stages a split gains nothing: INTRA 5 + 1 + 3 + 13 = 22, INTER 5 + 1 + 3 + 15 = 24. With them the macroblock is split twice: INTRA
//   5 + 3 + 4 * (1 + 3 + 13 + 4) = 92 with one, 5 + 3 + 4 * (1 + 5 + 13 + 8) = 116 with two; INTER 5 + 3 + 4 * (1 + 3 + 15 + 4) = 100 and 5 + 3 + 4 * (1 + 5 + 15 + 8) = 124.
// - INTER_4MV has INTER's errors with more bits; SKIP has 128 * (103^2 + 97^2). So the half that has the vectors is written while a stage stays, else INTRA.
// At 2^32-1 a sum of 32 bits would wrap, 256 + 2^32-1 to 255, and stage 0 would stay.
fn stripes(
    rt: &impl Print,
    cases: &[u8],
    files: Files<'_>,
    ones_at: usize,
    twos_at: usize,
) -> io::Result<()> {
    let source = b"gagagagagagagagagagagagagagagagagagagagagagagagagagagagagagagaga\
        gagagagagagagagagagagagagagagagagagagagagagagagagagagagagagagaga\
        gagagagagagagagagagagagagagagagagagagagagagagagagagagagagagagaga\
        gagagagagagagagagagagagagagagagagagagagagagagagagagagagagagagaga";
    let ones = b"\x01\xff\x01\xff\x01\xff\x01\xff\x01\xff\x01\xff\x01\xff\x01\xff\
        \x01\xff\x01\xff\x01\xff\x01\xff\x01\xff\x01\xff\x01\xff\x01\xff\
        \x01\xff\x01\xff\x01\xff\x01\xff\x01\xff\x01\xff\x01\xff\x01\xff\
        \x01\xff\x01\xff\x01\xff\x01\xff\x01\xff\x01\xff\x01\xff\x01\xff";
    let twos = b"\x02\xfe\x02\xfe\x02\xfe\x02\xfe\x02\xfe\x02\xfe\x02\xfe\x02\xfe\
        \x02\xfe\x02\xfe\x02\xfe\x02\xfe\x02\xfe\x02\xfe\x02\xfe\x02\xfe\
        \x02\xfe\x02\xfe\x02\xfe\x02\xfe\x02\xfe\x02\xfe\x02\xfe\x02\xfe\
        \x02\xfe\x02\xfe\x02\xfe\x02\xfe\x02\xfe\x02\xfe\x02\xfe\x02\xfe";
    let mut codebook = [0u8; 23040];
    text::put_text(&mut codebook, ones_at, ones);
    text::put_text(&mut codebook, twos_at, twos);
    jobs(
        rt,
        cases,
        Files {
            codebook: &codebook,
            source,
            ..files
        },
    )
}

// The vectors in the intra page, and in the inter page behind it.
fn margins(rt: &impl Print, files: Files<'_>) -> io::Result<()> {
    stripes(
        rt,
        b"intra stripes, margin 0|16,16,0,8,1,0\n|\
        intra stripes, margin 255|16,16,0,8,1,255\n|\
        intra stripes, margin 256|16,16,0,8,1,256\n|\
        intra stripes, margin 319|16,16,0,8,1,319\n|\
        intra stripes, margin 320|16,16,0,8,1,320\n|\
        intra stripes, margin 2^32-1|16,16,0,8,1,4294967295\n|",
        files,
        0,
        1024,
    )?;
    stripes(
        rt,
        b"inter stripes, margin 0|16,16,0,8,1,0\n|\
        inter stripes, margin 255|16,16,0,8,1,255\n|\
        inter stripes, margin 256|16,16,0,8,1,256\n|\
        inter stripes, margin 319|16,16,0,8,1,319\n|\
        inter stripes, margin 320|16,16,0,8,1,320\n|\
        inter stripes, margin 2^32-1|16,16,0,8,1,4294967295\n|",
        files,
        6144,
        7168,
    )
}

fn put_codebook(codebook: &mut [u8]) {
    let mut house = [0u8; 23040];
    if house::fill_house_codebook(&mut house).is_ok() {
        text::put_text(codebook, 0, &house);
    }
}

fn run(
    rt: &impl Print,
    house: &[u8],
    codebook: &[u8; 23041],
    source: &[u8; 257],
    reference: &[u8; 257],
) -> io::Result<()> {
    let files = Files {
        book: house,
        codebook: &codebook[..23040],
        source: &source[..256],
        reference: &reference[..256],
    };
    job_cases(rt, files)?;
    lengths(rt, house, codebook, source, reference)?;
    first_line(rt, files)?;
    first_lines(rt, files)?;
    middle_lines(rt, files)?;
    last_lines(rt, files)?;
    margins(rt, files)
}

fn main(rt: HostRuntime) -> io::Result<()> {
    let mut file = [0u8; 24576];
    let mut codebook = [0u8; 23041];
    let source = [100u8; 257];
    let reference = [0u8; 257];
    let book = house::house_book();
    let written = book_file_writer::write_book_file(&book, &mut file).unwrap_or(0);
    let house = file.get(..written).unwrap_or(&[]);
    put_codebook(&mut codebook);
    run(&rt, house, &codebook, &source, &reference)?;
    cut_planes(&rt, house, &codebook)
}
