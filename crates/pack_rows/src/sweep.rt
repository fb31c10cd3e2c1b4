// A sweep over all bytes of the rows: how many of them may stand in no text. Type bytes and most length bytes may not, so
// that the bytes of texts all may where no more are counted than stand outside of texts.
ghost use Rattle.std.specs.Prelude.{◌≡◌, ◌≤◌, length};
ghost use Rattle.pack_rows.specs.Odds.{odd, odds};

// 1 for a byte that may stand in no text, 0 for another.
fn odd_byte(b: u8) -> u8
    ensures { (result ≡ odd b) × (result ≤ 1) }
{
    u8::from((b < 32) | (126 < b) | b.is_ascii_lowercase())
}

// How many bytes of a short part may stand in no text. The count is a byte, so that many bytes are taken at once.
fn odds_in(s: &[u8]) -> u8
    requires { length s.now ≤ 240 }
    ensures { (result ≡ odds s.now) × (result ≤ length s.now) }
{
    let mut n = 0;
    for &b in s {
        n += odd_byte(b);
    }
    n
}

// How many bytes may stand in no text.
pub fn odds_of(s: &[u8]) -> usize
    ensures { result ≡ odds s.now }
{
    let (parts, rest) = s.as_chunks::<240>();
    let mut n = odds_in(rest) as usize;
    for part in parts {
        n += odds_in(part) as usize;
    }
    n
}
