// The report of docs/REPORT.md's example, written into a part of a buffer.
use super::{put_lookups, put_refused, put_report, put_store};
use model::Book;

const STORE_0: &[u8] =
    b"store 0 cap=4 pol=refresh in=6 room=2 age=1 back=0 removed=1 held=2 bytes=300 dead=200\n";

const REPORT: &[u8] =
    b"store 0 cap=4 pol=refresh in=6 room=2 age=1 back=0 removed=1 held=2 bytes=300 dead=200
store 1 cap=0 pol=fifo in=0 room=0 age=0 back=5 removed=0 held=0 bytes=500 dead=0
lookups 1 blocks 4 bytes 400
refused 4 1
unreadable 1
";

const LOOKUPS: &[u8] = b"lookups 1 blocks 4 bytes 400\n";

const REFUSED: &[u8] = b"refused 4 1\nunreadable 1\n";

// Its sums: of store 0 and 1, then of lookups.
fn sums() -> [u64; 59] {
    let mut sums = [0u64; 59];
    sums[0] = 6;
    sums[8] = 2;
    sums[16] = 1;
    sums[25] = 5;
    sums[32] = 1;
    sums[40] = 300;
    sums[41] = 500;
    sums[48] = 200;
    sums[56] = 1;
    sums[57] = 4;
    sums[58] = 400;
    sums
}

// Store 0's own numbers: room for 4 blocks, of which 2 are held.
fn store_0() -> Book {
    Book {
        capacity: 4,
        policy: 1,
        records: 1,
        held: 2,
        stamp: 0,
        version: 0,
        entries: 0,
        pinned: 0,
    }
}

#[test]
fn lines_at_a_place(rt: HostRuntime) {
    let mut room = [7u8; 5000];
    let a = put_store(&mut room[..], 20, &sums(), 0, store_0());
    assert!(rt; &room[20..a] == STORE_0);
    let b = put_lookups(&mut room[..], a, &sums());
    assert!(rt; &room[a..b] == LOOKUPS);
    let c = put_refused(&mut room[..], b, &[0, 0, 0, 0, 1], 1);
    assert!(rt; &room[b..c] == REFUSED);
    assert!(rt; &room[..20] == [7; 20].as_slice());
    assert!(rt; room[c] == 7);
}

#[test]
fn a_report_in_front(rt: HostRuntime) {
    let mut books = [0u64; 69];
    books[2] = 2;
    books[5] = 4;
    books[6] = 1;
    books[8] = 2;
    let mut counts = [0u64; 256];
    counts[0] = 1;
    counts[4] = 1;
    let mut room = [7u8; 40000];
    let end = put_report(&mut room[..33000], &books, &sums(), &counts);
    assert!(rt; &room[..end] == REPORT);
    assert!(rt; room[end] == 7);
}
