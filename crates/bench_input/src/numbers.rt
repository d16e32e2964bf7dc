// Decimal numbers read.
ghost use Rattle.std.specs.Prelude.{◌≡◌};
ghost use Rattle.bench_input.specs.Numbers.{digits_value, number_of};

/// The byte of the digit 0; those of the others follow it.
pub const DIGIT_ZERO: u8 = b'0';

#[tactic(auto, unfolding(crate::specs::Numbers::number_of))]
pub(crate) fn number_of(text: &[u8]) -> Option<u16>
    ensures { result ≡ number_of text.now }
{
    match text {
        [] | [DIGIT_ZERO, _, ..] => None,
        _ => digits_value(text),
    }
}

// What a text of digits is worth. A further digit makes no value smaller, so a value too large ends the reading.
#[tactic(auto, using(crate::proofs::NumberLaws::too_large), unfolding(crate::specs::Numbers::digits_value))]
fn digits_value(text: &[u8]) -> Option<u16>
    ensures { result ≡ digits_value text.now }
{
    let mut value: u16 = 0;
    for byte in text {
        if !byte.is_ascii_digit() {
            return None;
        }
        value = value
            .checked_mul(10)?
            .checked_add(u16::from(*byte - DIGIT_ZERO))?;
    }
    Some(value)
}
