// A text taken apart at a byte.
ghost use Rattle.std.specs.Prelude.{◌≡◌, ◌<◌, ◌==◌, [], ◌∷◌, length, MatchOption, IfSome};
ghost use Rattle.std.specs.List.{position};
ghost use Rattle.bench_input.specs.Bytes.{parts};

/// The byte that ends a line.
pub const LINE_FEED: u8 = b'\n';

/// The byte between two fields of a line.
pub const SPACE: u8 = b' ';

// The text before the first mark and the one behind it, if there is a mark.
#[tactic(auto, using(crate::proofs::ByteLaws::parted, crate::proofs::ByteLaws::unparted))]
pub(crate) fn split_once(text: &[u8], mark: u8) -> Option<(&[u8], &[u8])>
    ensures parts { MatchOption result (parts mark text.now ≡ text.now ∷ [])
        (λ halves. parts mark text.now ≡ halves.0.now ∷ parts mark halves.1.now) }
    ensures shorter { IfSome result (λ halves. length halves.1.now < length text.now) }
{
    let at = place_of(text, mark)?;
    Some((&text[..at], &text[at + 1..]))
}

// The place of the first mark, if there is one.
fn place_of(text: &[u8], mark: u8) -> Option<usize>
    ensures { result ≡ position (λ byte. byte == mark) text.now }
{
    text.iter().position(|byte| *byte == mark)
}
