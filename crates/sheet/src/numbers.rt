//! The fields of a line, and the numbers that they write.

ghost use Rattle.std.specs.Prelude.{◌≡◌, ◌<◌, ◌≤◌, ◌∷◌, ◌++◌, length, decimal, slice_index, pos, neg_ℤ, ◌⊎◌, MatchBool, MatchOption, ◌≢◌};
ghost use Rattle.std.specs.Fmt.{signed_decimal};
ghost use Rattle.std.specs.Str.Parse.{AllDigits, digits_value};
ghost use Rattle.sheet.specs.Fields.{Lacks, Says, Six, SixSigned, UpTo};

// The most digits of a number in a sheet.
const DIGITS: usize = 6;

// The bytes before the first separator, and those after it; none where there is no separator.
pub fn cut(bytes: &[u8], separator: u8) -> Option<(&[u8], &[u8])>
    ensures parts { MatchOption result (Lacks separator bytes.now) (λ p. Lacks separator p.0.now × (bytes.now ≡ p.0.now ++ separator ∷ p.1.now)) }
{
    let at = bytes.iter().position(|b| *b == separator)?;
    Some((&bytes[..at], &bytes[at + 1..]))
}

// Whether the bytes begin with a sign that `parse` would take, or with a needless zero.
fn is_adorned(bytes: &[u8]) -> bool
    ensures adorned { MatchBool result ((slice_index bytes.now 0 ≡ 43) ⊎ ((slice_index bytes.now 0 ≡ 48) × (1 < length bytes.now))) ((slice_index bytes.now 0 ≢ 43) × (slice_index bytes.now 0 ≡ 48 → length bytes.now ≤ 1)) }
{
    matches!(bytes, [b'+', ..] | [b'0', _, ..])
}

// The number, of at most `greatest`, that the bytes write in digits without a needless zero in front; none where they write no such number.
pub fn number(bytes: &[u8], greatest: usize) -> Option<usize>
    ensures number { Says (UpTo greatest) decimal bytes.now result }
{
    if is_adorned(bytes) {
        return None;
    }
    let text = str::from_utf8(bytes).ok()?;
    let n = text.parse::<usize>().ok()?;
    (n <= greatest).then_some(n)
}

// The number that at most six digits write.
fn digits(bytes: &[u8]) -> Option<usize>
    requires few { length bytes.now ≤ 6 }
    ensures digits { MatchOption result (AllDigits 10 bytes.now → ⊥)
        (λ n. AllDigits 10 bytes.now × (n ≡ digits_value 10 bytes.now)) }
{
    let mut n = 0;
    for byte in bytes {
        n = n * 10 + char::from(*byte).to_digit(10)? as usize;
    }
    Some(n)
}

// A count, the place of a crossing, or a mark: a number of one to six digits. `number` would read it too, and takes more than twice as long
// for so few digits.
pub(crate) fn six_digits(bytes: &[u8]) -> Option<usize>
    ensures number { Says Six decimal bytes.now result }
{
    if bytes.is_empty() || bytes.len() > DIGITS || is_adorned(bytes) {
        return None;
    }
    digits(bytes)
}

// A coordinate: a number, or a minus and a number above 0.
pub(crate) fn coordinate(bytes: &[u8]) -> Option<i32>
    ensures coordinate { Says SixSigned signed_decimal bytes.now result }
{
    match bytes {
        [b'-', digits @ ..] => negated(six_digits(digits)?),
        _ => Some(six_digits(bytes)? as i32),
    }
}

// The number with a minus, which is below 0; none for 0.
fn negated(n: usize) -> Option<i32>
    requires six { Six n }
    ensures negated { MatchOption result (n ≡ 0) (λ z. (0 < n) × (z ≡ neg_ℤ (pos n))) }
{
    (n > 0).then_some(-(n as i32))
}

// Whether the field is n, written in at most six digits.
pub(crate) fn is_number(bytes: &[u8], n: usize) -> bool
    ensures same { MatchBool result (Six n × (bytes.now ≡ decimal n)) (Six n → bytes.now ≢ decimal n) }
{
    six_digits(bytes) == Some(n)
}
