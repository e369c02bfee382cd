//! The front of a text that is whole.

ghost use Rattle.std.specs.Prelude.{◌≡◌, ◌<◌, ◌≤◌, length, take, drop};
ghost use Rattle.whole_blocks.specs.Blocks.{whole_part, ends_block};

// Whether a block ends with the two octets at the place: both are line feeds.
fn ends_block(text: &[u8], place: usize) -> bool
    requires { place < length text.now }
    ensures exact { result ≡ ends_block (drop place text.now) }
{
    match text.split_at(place).1 {
        [b'\n', b'\n', ..] => true,
        _ => false,
    }
}

/// How many octets at the front of the text are whole blocks: those up to the last empty line, with its end. What stands
/// behind them is torn. It is looked for from the end, so a short torn end takes a short time.
#[tactic(auto, unfolding(crate::specs::Blocks::whole_part))]
pub fn whole_length(text: &[u8]) -> usize
    ensures exact { take result text.now ≡ whole_part text.now }
    ensures within { result ≤ length text.now }
{
    let mut from = text.len();
    while from > 0 {
        from -= 1;
        if ends_block(text, from) {
            return from + 2;
        }
    }
    0
}
