// Records of so many words each, one behind the other in flat words.
ghost use Rattle.std.specs.Prelude.{◌≡◌, ℕ, List};
ghost use Rattle.words.specs.Flat.{IsRecord, record_in, with_record};

// A record of so many words.
pub trait Record<const WIDTH: usize>: Copy {
    ghost words: { Self → List ℕ };

    ghost first: { List ℕ → Self };

    fn words(self) -> [u16; WIDTH]
        ensures { result ≡ words self };

    // The record that stands first in some words, with zeros where words are missing.
    fn first(from: &[u16]) -> Self
        ensures { result ≡ first from.now };

    ghost laws: { IsRecord WIDTH words first };
}

// The record with a number. Past the end of the words there are zeros.
#[tactic(auto, unfolding(crate::specs::Flat::record_in))]
pub fn read<const WIDTH: usize, R: Record<WIDTH>>(words: &[u16], number: u16) -> R
    ensures { result ≡ record_in WIDTH R.first words.now number }
{
    let at = WIDTH * (number as usize);
    R::first(&words[at.min(words.len())..])
}

#[tactic(auto, unfolding(crate::specs::Flat::with_record))]
pub fn write<const WIDTH: usize, R: Record<WIDTH>>(words: &mut [u16], number: u16, value: R)
    ensures { words.new ≡ with_record words.old number (R.words value) }
{
    crate::write(words, WIDTH * (number as usize), &value.words());
}
