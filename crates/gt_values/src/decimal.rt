ghost use Rattle.gt_values.specs.Decimal.{number_in};
ghost use Rattle.std.specs.Fmt.{decimal};
ghost use Rattle.std.specs.Prelude.{◌≡◌, ◌≤◌, IfSome, IsNone, ℕ};
ghost use Rattle.std.specs.Str.{bytes_eq};

use itoa::Buffer;

/// The number that the text writes in decimal digits, without a sign or a needless zero, if it is at most `most`.
pub fn read_decimal(text: &str, most: u64) -> Option<u64>
    ensures value { result ≡ number_in most text.now }
    ensures some { IfSome result (λ number. (text.now ≡ decimal number) × (number ≤ most)) }
    ensures none { IsNone result → (number : ℕ) → number ≤ most → text.now ≡ decimal number → ⊥ }
{
    let Ok(number) = text.parse::<u64>() else {
        return None;
    };
    if number > most {
        return None;
    }
    if is_printed(number, text) {
        Some(number)
    } else {
        None
    }
}

// Whether the text is how the number is printed.
fn is_printed(number: u64, text: &str) -> bool
    ensures { result ≡ bytes_eq (decimal number) text.now }
{
    Buffer::new().format(number) == text
}
