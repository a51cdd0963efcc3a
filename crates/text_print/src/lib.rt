#![tactic(auto)]
// Bytes and numbers written into a buffer that the caller lends. Each function answers the place past what it wrote.
ghost use Rattle.std.specs.Prelude.{◌+◌, ◌≤◌, ◌<◌, [], ◌∷◌, length};
ghost use Rattle.text_print.specs.Print.{Put, PutNumber, PutHex};

pub fn put_byte(out: &mut [u8], at: usize, b: u8) -> usize
    requires { at < length out.old }
    ensures { Put at (b ∷ []) out.old out.new result }
{
    out[at] = b;
    at + 1
}

pub fn put_bytes(out: &mut [u8], at: usize, w: &[u8]) -> usize
    requires { at + length w.now ≤ length out.old }
    ensures { Put at w.now out.old out.new result }
{
    let end = at + w.len();
    out[at..end].copy_from_slice(w);
    end
}

// The decimal digits of n, with no zero in front: at most 20.
pub fn put_number(out: &mut [u8], at: usize, n: u64) -> usize
    requires { at + 20 ≤ length out.old }
    ensures { PutNumber at n out.old out.new result }
{
    let mut text = [0u8; 20];
    let k = io::decimal(n, &mut text);
    put_bytes(out, at, &text[..k])
}

// The 16 hex digits of n, in lower case.
pub fn put_hex(out: &mut [u8], at: usize, n: u64) -> usize
    requires { at + 16 ≤ length out.old }
    ensures { PutHex at n out.old out.new result }
{
    let mut text = [0u8; 16];
    let k = io::hex(n, 16, &mut text);
    put_bytes(out, at, &text[..k])
}
