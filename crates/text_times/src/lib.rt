#![tactic(auto)]
// A time as a line writes it, and as the state prints it.
ghost use Rattle.std.specs.Prelude.{◌≡◌, ◌+◌, ◌-◌, ◌^◌, ◌<◌, ◌≤◌, ◌++◌, length, from_bits};
ghost use Rattle.std.specs.Float.{binary64};
ghost use Rattle.std.specs.Float.Ieee.{round};
ghost use Rattle.text_print.specs.Print.{Put};
ghost use Rattle.text_times.specs.Times.{of_digits, of_decimal, of_pattern, of_word, time_of, size_of, hex_text, text_of, time_text};

// m over 10^k: both are floats exactly, so the quotient alone rounds.
fn ratio(neg: bool, m: u64, k: usize) -> f64
    requires { (m < 10 ^ 15) × (k ≤ 15) }
    ensures { result ≡ round binary64 neg m (10 ^ k) }
{
    let x = m as f64;
    let y = 10u64.pow(k as u32) as f64;
    if neg { -x / y } else { x / y }
}

// The digits before the point, and those after it.
fn read_digits(neg: bool, whole: &[u8], part: &[u8]) -> Option<f64>
    requires { 0 < length whole.now }
    ensures { result ≡ of_digits neg (whole.now ++ part.now) (length part.now) }
{
    if 15 < whole.len() + part.len() {
        return None;
    }
    let n = text_words::read_digits(Ok(0), 10, whole);
    let m = text_words::read_digits(n, 10, part).ok()?;
    Some(ratio(neg, m, part.len()))
}

fn read_decimal(neg: bool, w: &[u8]) -> Option<f64>
    ensures { result ≡ of_decimal neg w.now }
{
    let p = text_words::next_byte(w, 0, w.len(), b'.');
    if p == 0 || p + 1 == w.len() {
        return None;
    }
    if p == w.len() {
        return read_digits(neg, w, &[]);
    }
    read_digits(neg, &w[..p], &w[p + 1..])
}

// The value of a bit pattern: no NaN has one of its own.
fn of_bits(b: u64) -> f64
    ensures { result ≡ from_bits binary64 b }
{
    if 0x7ff0_0000_0000_0000 < b % 0x8000_0000_0000_0000 {
        return f64::NAN;
    }
    f64::from_bits(b)
}

fn read_pattern(w: &[u8]) -> Option<f64>
    ensures { result ≡ of_pattern w.now }
{
    if w.len() != 16 {
        return None;
    }
    let b = text_words::read_digits(Ok(0), 16, w).ok()?;
    Some(of_bits(b))
}

fn read_word(w: &[u8]) -> Option<f64>
    ensures { result ≡ of_word w.now }
{
    match w {
        [] => None,
        [b'x', pattern @ ..] => read_pattern(pattern),
        [b'-', decimal @ ..] => read_decimal(true, decimal),
        _ => read_decimal(false, w),
    }
}

// The time that a word writes.
pub fn read_time(w: &[u8]) -> Option<f64>
    ensures { result ≡ time_of w.now }
{
    if w == b"inf".as_slice() {
        return Some(f64::INFINITY);
    }
    if w == b"-inf".as_slice() {
        return Some(f64::NEG_INFINITY);
    }
    if w == b"nan".as_slice() {
        return Some(f64::NAN);
    }
    read_word(w)
}

// A whole number below 2^53 in size; none for any other value.
fn whole_size(x: f64) -> Option<u64>
    ensures { result ≡ size_of x }
{
    let y = x.abs();
    if y < 9007199254740992.0 {
        let n = std::num::truncating_f64_to_u64(y);
        return (std::num::nearest_u64_to_f64(n) == y).then_some(n);
    }
    None
}

fn put_pattern(out: &mut [u8], at: usize, b: u64) -> usize
    requires { at + 17 ≤ length out.old }
    ensures { Put at (hex_text b) out.old out.new result }
{
    let next = text_print::put_byte(out, at, b'x');
    text_print::put_hex(out, next, b)
}

fn put_size(out: &mut [u8], at: usize, neg: bool, size: Option<u64>, b: u64) -> usize
    requires { at + 21 ≤ length out.old }
    ensures { Put at (text_of neg size b) out.old out.new result }
{
    let Some(n) = size else {
        return put_pattern(out, at, b);
    };
    if !neg {
        return text_print::put_number(out, at, n);
    }
    if n == 0 {
        return put_pattern(out, at, b);
    }
    let next = text_print::put_byte(out, at, b'-');
    text_print::put_number(out, next, n)
}

// A time as the state prints it.
pub fn time_text(x: f64, out: &mut [u8], at: usize) -> usize
    requires { at + 21 ≤ length out.old }
    ensures { Put at (time_text x) out.old out.new result }
{
    if x.is_nan() {
        return put_pattern(out, at, 0x7ff8_0000_0000_0000);
    }
    put_size(out, at, x.is_sign_negative(), whole_size(x), x.to_bits())
}
