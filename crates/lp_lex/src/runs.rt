//! The runs of a text, found one by one.
ghost use Rattle.std.specs.Prelude.{◌≡◌, ◌+◌, ◌^◌, ◌<◌, ◌≤◌, ◌⊎◌, [], IfNone, IfSome, IsTrue, drop, length, take_while};
ghost use Rattle.std.specs.List.{list_all, prefix_len};
ghost use Rattle.lp_defs.specs.Tokens.{behind_byte, is_run_byte, is_white};
ghost use Rattle.lp_lex.specs.Runs.{IsMarked, IsPassed, is_simple_byte, run_of};
ghost use Rattle.lp_lex.specs.Ahead.{IsGap, IsNext, IsWithin, along, end_ahead, runs_ahead};

use lp_defs::Place;

/// So many bytes of a run are looked at one by one.
const NEAR_LEN: usize = 16;

/// The bytes behind them are looked at so many at once.
const BLOCK_LEN: usize = 32;

/// A longest run of bytes that are neither white space nor a comment's.
#[derive(Clone, Copy)]
pub(crate) struct Run<'a> {
    pub(crate) place: Place,
    pub(crate) bytes: &'a [u8],
    /// Each byte may stand in a token, and none is a colon, as in nearly all runs.
    pub(crate) is_simple: bool,
}

/// The place behind a run of so many bytes, which has no line feed.
pub(crate) fn along(place: Place, len: usize) -> Place
    requires column_fits { place.column + len < 2 ^ 32 }
    requires offset_fits { place.offset + len < 2 ^ 32 }
    ensures { result ≡ along place len }
{
    Place {
        column: place.column + len as u32,
        offset: place.offset + len as u32,
        ..place
    }
}

/// The next run at or behind a place that is in no run and in no comment.
pub(crate) fn next_run(text: &[u8], place: Place) -> Option<Run<'_>>
    requires { IsWithin text.now place }
    ensures none { IfNone result (runs_ahead text.now place ≡ []) }
    ensures some { IfSome result (λ run. IsNext text.now place (run_of run)) }
    ensures marked { IfSome result IsMarked }
{
    let place = gap_end(text, place);
    let (bytes, is_simple) = front_run(&text[place.offset as usize..]);
    if bytes.is_empty() {
        return None;
    }
    Some(Run {
        place,
        bytes,
        is_simple,
    })
}

/// The place of the text's end, by the bytes ahead.
pub(crate) fn text_end(text: &[u8], place: Place) -> Place
    requires { IsWithin text.now place }
    ensures { result ≡ end_ahead text.now place }
{
    let mut place = place;
    while (place.offset as usize) < text.len() {
        place = behind_byte(place, text[place.offset as usize]);
    }
    place
}

/// The place behind white space and comments.
fn gap_end(text: &[u8], place: Place) -> Place
    requires { IsWithin text.now place }
    ensures gap { IsGap text.now place result }
    ensures stop { (drop result.offset text.now ≡ []) ⊎ (0 < prefix_len is_run_byte (drop result.offset text.now)) }
{
    let mut place = place;
    let mut in_comment = false;
    while (place.offset as usize) < text.len() {
        let byte = text[place.offset as usize];
        if in_comment {
            in_comment = byte != b'\n';
        } else if byte == b'\\' {
            in_comment = true;
        } else if !is_white(byte) {
            break;
        }
        place = behind_byte(place, byte);
    }
    place
}

/// The place behind the byte.
fn behind_byte(place: Place, byte: u8) -> Place
    requires line_fits { place.line + 1 < 2 ^ 32 }
    requires column_fits { place.column + 1 < 2 ^ 32 }
    requires offset_fits { place.offset + 1 < 2 ^ 32 }
    ensures { result ≡ behind_byte place byte }
{
    if byte == b'\n' {
        Place {
            line: place.line + 1,
            column: 1,
            offset: place.offset + 1,
        }
    } else {
        along(place, 1)
    }
}

/// The bytes of a run at the front, and whether all of them are simple.
fn front_run(bytes: &[u8]) -> (&[u8], bool)
    ensures run { result.0.now ≡ take_while is_run_byte bytes.now }
    ensures simple { IsTrue result.1 → IsTrue (list_all is_simple_byte result.0.now) }
{
    let simple = simple_len(bytes);
    let len = run_len(bytes, simple);
    (&bytes[..len], len == simple)
}

/// How many simple bytes stand at the front. Most runs are short; what a long one has behind its first bytes is looked at in
/// blocks.
fn simple_len(bytes: &[u8]) -> usize
    ensures { result ≡ prefix_len is_simple_byte bytes.now }
{
    let near = simple_before(bytes, 0, bytes.len().min(NEAR_LEN));
    if near < NEAR_LEN {
        return near;
    }
    simple_before(bytes, behind_blocks(bytes, near), bytes.len())
}

/// The place behind the simple bytes that stand before the limit, where those before the known place are simple.
fn simple_before(bytes: &[u8], known: usize, limit: usize) -> usize
    requires passed { IsPassed bytes.now known }
    requires in_order { known ≤ limit }
    requires within { limit ≤ length bytes.now }
    ensures passed { IsPassed bytes.now result }
    ensures within { result ≤ limit }
    ensures stop { result < limit → result ≡ prefix_len is_simple_byte bytes.now }
{
    let mut len = known;
    while len < limit && is_simple_byte(bytes[len]) {
        len += 1;
    }
    len
}

/// The place behind the blocks of simple bytes that follow one another from the known place on.
fn behind_blocks(bytes: &[u8], known: usize) -> usize
    requires { IsPassed bytes.now known }
    ensures { IsPassed bytes.now result }
{
    let mut len = known;
    while bytes.len() - len >= BLOCK_LEN && are_simple(&bytes[len..len + BLOCK_LEN]) {
        len += BLOCK_LEN;
    }
    len
}

/// Whether each byte is simple. No byte ends the loop, so that many are looked at at once.
fn are_simple(bytes: &[u8]) -> bool
    ensures { result ≡ list_all is_simple_byte bytes.now }
{
    let mut all = true;
    for byte in bytes {
        all = is_simple_byte(*byte) & all;
    }
    all
}

/// How many bytes of a run stand at the front, so many of which are known.
fn run_len(bytes: &[u8], known: usize) -> usize
    requires all_of_run { prefix_len is_run_byte bytes.now ≡ known + prefix_len is_run_byte (drop known bytes.now) }
    requires within { known ≤ length bytes.now }
    ensures { result ≡ prefix_len is_run_byte bytes.now }
{
    let mut len = known;
    while len < bytes.len() && is_run_byte(bytes[len]) {
        len += 1;
    }
    len
}

/// Whether the byte may stand in a token, and is no colon.
fn is_simple_byte(byte: u8) -> bool
    ensures { result ≡ is_simple_byte byte }
{
    byte.is_ascii_graphic() && byte != b'\\' && byte != b':'
}

fn is_run_byte(byte: u8) -> bool
    ensures { result ≡ is_run_byte byte }
{
    !is_white(byte) && byte != b'\\'
}

/// Space, tab, line feed and carriage return.
fn is_white(byte: u8) -> bool
    ensures { result ≡ is_white byte }
{
    matches!(byte, b' ' | b'\t' | b'\n' | b'\r')
}
