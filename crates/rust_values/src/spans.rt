// The spans of a touch that three lent lists name, one list for each number of a span: as many as the shortest has.
ghost use Rattle.std.specs.Prelude.{◌≡◌, leb, length, take};
ghost use Rattle.rust_values.specs.Spans.{spans_of, too_many};

use model::Span;

// How many there are.
pub fn count(on: &[usize], from: &[usize], upto: &[usize]) -> usize
    ensures { result ≡ length (spans_of on.now from.now upto.now) }
{
    on.len().min(from.len()).min(upto.len())
}

// The refusal of more than 64, where the state is sound.
pub fn too_many(stores: usize, s: usize) -> u8
    ensures { result ≡ too_many (leb stores s) }
{
    if stores <= s { 2 } else { 3 }
}

// The first 64 of them, in front of an array.
pub fn first_64(on: &[usize], from: &[usize], upto: &[usize]) -> [Span; 64]
    ensures { let spans = spans_of on.now from.now upto.now in
        take (length spans) result ≡ take 64 spans }
{
    let mut spans = [Span {
        node: 0,
        start: 0,
        end: 0,
    }; 64];
    let n = count(on, from, upto).min(64);
    for i in 0..n {
        spans[i] = Span {
            node: on[i],
            start: from[i],
            end: upto[i],
        };
    }
    spans
}
