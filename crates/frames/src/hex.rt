// Lower-case hexadecimal text, two digits a byte. (The kit's `hex` reads upper-case digits too, which no frame has.)
ghost use Rattle.std.specs.Prelude.{◌≡◌, ℕ, ◌<◌, ◌≤◌, List, length, MatchOption, ◌≢◌};
ghost use Rattle.wire.specs.Bytes.{hex_digit, hexed, Bytes};
ghost use Rattle.wire.specs.Frame.{longest_frame};

use arrayvec::ArrayVec;

// No frame has more bytes.
const LONGEST: usize = 25;

// The value of one digit.
fn digit_value(digit: u8) -> Option<u8>
    ensures { MatchOption result ((n : ℕ) → n < 16 → hex_digit n ≢ digit) (λ v. (v < 16) × (hex_digit v ≡ digit)) }
{
    match digit {
        b'0'..=b'9' => Some(digit - b'0'),
        b'a'..=b'f' => Some(digit - b'a' + 10),
        _ => None,
    }
}

// The bytes that a line of text writes, if it writes any, and no more than a frame can have.
pub(crate) fn unhex(line: &[u8]) -> Option<ArrayVec<u8, LONGEST>>
    ensures { MatchOption result ((bs : List ℕ) → Bytes bs → length bs ≤ longest_frame → hexed bs ≢ line.now) (λ b. Bytes b.items × (hexed b.items ≡ line.now)) }
{
    // a line that is too long is refused before any of it is read
    if line.len() > 2 * LONGEST {
        return None;
    }
    let (pairs, []) = line.as_chunks::<2>() else {
        return None;
    };
    let mut bytes = ArrayVec::new();
    for [high, low] in pairs {
        let byte = digit_value(*high)? * 16 + digit_value(*low)?;
        bytes.try_push(byte).ok()?;
    }
    Some(bytes)
}
