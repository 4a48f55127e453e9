//! Numbers in a text.
ghost use Rattle.std.specs.Prelude.{◌≡◌, ◌+◌, ◌-◌, ◌*◌, MatchOption, true};
ghost use Rattle.std.specs.Char.{is_ascii_digit};
ghost use Rattle.klsm_rows.specs.Number.{number_of, EndsNumber};

/// The number that a field spells, with one or more of the digits 0 to 9 and nothing else, where it
/// is below 2^64.
pub fn number_in(field: &[u8]) -> Option<u64>
    ensures { result ≡ number_of field.now }
{
    if field.is_empty() {
        return None;
    }
    let mut number = 0;
    for byte in field {
        number = with_digit(number, *byte)?;
    }
    Some(number)
}

// The number that the digits of another spell with one more behind them. `None` where this is no
// digit, or the number does not fit.
#[inline]
fn with_digit(number: u64, digit: u8) -> Option<u64>
    ensures { MatchOption result (EndsNumber number digit)
        (λ longer. (is_ascii_digit digit ≡ true) × (longer ≡ number * 10 + (digit - 48))) }
{
    if !digit.is_ascii_digit() {
        return None;
    }
    number.checked_mul(10)?.checked_add(u64::from(digit - b'0'))
}
