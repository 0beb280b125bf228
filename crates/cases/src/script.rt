// The words of a case. A word is known by its first letter, or is a comma; up to three numbers follow it, decimal, or
// hexadecimal after an x; one that is not there is 0. Each module that obeys words says at its top which.
ghost use Rattle.std.specs.Prelude.{◌≤◌, ◌<◌, length, IfSome};

#[derive(Clone, Copy)]
pub(crate) struct Word {
    // The first letter.
    pub(crate) letter: u8,
    pub(crate) a: u32,
    pub(crate) b: u32,
    pub(crate) c: u32,
}

// No word of a module begins with this letter.
#[derive(Clone, Copy)]
pub(crate) struct UnknownLetter;

// What stands from the first byte on that is not passed over.
fn past<F: Fn(u8) -> bool>(text: &[u8], over: F) -> &[u8]
    requires { F.IsAlwaysCallable over }
    ensures { length result.now ≤ length text.now }
{
    match text.iter().position(|byte| !over(*byte)) {
        Some(at) => &text[at..],
        None => &[],
    }
}

// What a digit says, decimal, or hexadecimal in capitals.
fn digit(byte: u8, base: u32) -> Option<u32>
    ensures { IfSome result (λ d. d < 16) }
{
    match byte {
        b'0'..=b'9' => Some(u32::from(byte - b'0')),
        b'A'..=b'F' if base == 16 => Some(u32::from(byte - b'A') + 10),
        _ => None,
    }
}

// The number that a text starts with, behind spaces, and what stands behind it; of one that is too long the low part.
fn number(text: &[u8]) -> (u32, &[u8])
    ensures { length result.1.now ≤ length text.now }
{
    let (base, mut rest) = match past(text, |byte| byte == b' ') {
        [b'x', digits @ ..] => (16, digits),
        digits => (10, digits),
    };
    let mut value: u32 = 0;
    while let Some((first, behind)) = rest.split_first() {
        let Some(more) = digit(*first, base) else {
            return (value, rest);
        };
        value = value.wrapping_mul(base).wrapping_add(more);
        rest = behind;
    }
    (value, rest)
}

// The first word of a text, and what stands behind it.
pub(crate) fn next_word(text: &[u8]) -> Option<(Word, &[u8])>
    ensures { IfSome result (λ found. length found.1.now < length text.now) }
{
    let (letter, behind) = past(text, |byte| byte == b' ').split_first()?;
    let (a, behind) = number(past(behind, |byte| byte.is_ascii_lowercase()));
    let (b, behind) = number(behind);
    let (c, behind) = number(behind);
    let letter = *letter;
    Some((Word { letter, a, b, c }, behind))
}
