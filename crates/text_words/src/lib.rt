#![tactic(auto)]
// Words and numbers in a line: a slice of bytes, with the places in it as numbers.
ghost use Rattle.std.specs.Prelude.{◌≡◌, ℕ, Option, ◌≤◌, ◌<◌, length};
ghost use Rattle.text_words.specs.Words.{is, other, First, Trimmed, passed_over, digit_of, step, reading, decimal, number_of};

// Why a word is no number.
#[derive(Clone, Copy, Debug, PartialEq, Eq)]
pub enum NumberError {
    TooLarge,
    NotANumber,
}

// The first place from i on, before z, that holds b; z where there is none.
pub fn next_byte(s: &[u8], i: usize, z: usize, b: u8) -> usize
    requires { (i ≤ z) × (z ≤ length s.now) }
    ensures { First (is b) s.now i z result }
{
    s[i..z].iter().position(|x| *x == b).map_or(z, |k| i + k)
}

// The first space from i on: the end of the word that starts at i.
pub fn word_end(s: &[u8], i: usize) -> usize
    requires { i ≤ length s.now }
    ensures { First (is 32) s.now i (length s.now) result }
{
    next_byte(s, i, s.len(), b' ')
}

// The first place from i on that holds no space.
pub fn skip_spaces(s: &[u8], i: usize) -> usize
    requires { i ≤ length s.now }
    ensures { First (other 32) s.now i (length s.now) result }
{
    s[i..]
        .iter()
        .position(|x| *x != b' ')
        .map_or(s.len(), |k| i + k)
}

// The length of s without the spaces at its end.
pub fn trim_end(s: &[u8]) -> usize
    ensures { Trimmed s.now result }
{
    s.iter().rposition(|x| *x != b' ').map_or(0, |k| k + 1)
}

// A line that gets no answer.
pub fn is_blank_or_remark(s: &[u8]) -> bool
    ensures { result ≡ passed_over s.now }
{
    let i = skip_spaces(s, 0);
    i == s.len() || s[i] == b'#'
}

// The value of a digit of either case; 16 for a byte that is none, which `digit_of` says for any base.
#[tactic(auto, unfolding(crate::specs::Words::digit_of))]
pub fn digit(b: u8) -> u64
    ensures { result ≡ digit_of b }
{
    match b {
        b'0'..=b'9' => u64::from(b - b'0'),
        b'A'..=b'F' => u64::from(b - b'A' + 10),
        b'a'..=b'f' => u64::from(b - b'a' + 10),
        _ => 16,
    }
}

// A number with the byte b after it.
fn push(n: Result<u64, NumberError>, base: u64, b: u8) -> Result<u64, NumberError>
    requires { 0 < base }
    ensures { (o : Option ℕ) → n ≡ number_of o → result ≡ number_of (step base o b) }
{
    let d = digit(b);
    if base <= d {
        return Err(NumberError::NotANumber);
    }
    n?.checked_mul(base)
        .and_then(|v| v.checked_add(d))
        .ok_or(NumberError::TooLarge)
}

// A number with the bytes s after it, all digits.
pub fn read_digits(n: Result<u64, NumberError>, base: u64, s: &[u8]) -> Result<u64, NumberError>
    requires { 0 < base }
    ensures { (o : Option ℕ) → n ≡ number_of o → result ≡ number_of (reading base o s.now) }
{
    let mut m = n;
    for b in s {
        m = push(m, base, *b);
    }
    m
}

// The number that a word writes.
pub fn read_number(w: &[u8]) -> Result<u64, NumberError>
    ensures { result ≡ number_of (decimal w.now) }
{
    if w.is_empty() {
        return Err(NumberError::NotANumber);
    }
    read_digits(Ok(0), 10, w)
}
