// A trial is written as a line: its name, the call, the number that came back, and whether a place of the state or of the answer lists changed.
use crate::call;
use text_lines::{Lists, Op};
use trial_read::Counter;
use trial_world::short::Short;
use trial_world::trial::Trial;
use trial_world::world::World;

fn say(text: &str) {
    io::write_all(1, text.as_bytes());
}

fn call_name(op: Op) -> &'static str {
    match op {
        Op::SetUp(..) => "set_up",
        Op::Insert(_) => "insert",
        Op::Resolve(_) => "resolve",
        Op::Lookup(..) => "lookup",
        Op::Bring(..) => "store_insert",
        Op::Touch(..) => "store_used",
        Op::Remove(..) => "store_remove",
        Op::Expire(..) => "store_expire",
        Op::Pin(..) => "pin_source",
        Op::Unpin(..) => "unpin_source",
        _ => "unreadable",
    }
}

fn counter_name(counter: Counter) -> &'static str {
    match counter {
        Counter::Held => "store_held_blocks",
        Counter::Capacity => "store_capacity_blocks",
        Counter::Pinned => "store_pinned_blocks",
        Counter::Available => "store_available_for_stage",
        Counter::Version => "source_version",
        Counter::Stalls => "pin_stalls",
    }
}

// The line of a trial that began with the state before.
fn say_trial(name: &[u8], call: &str, number: u64, before: &World, t: &Trial) {
    io::write_all(1, name);
    say(" ");
    say(call);
    say(" ");
    io::print_decimal(1, number);
    say(if t.left_all(before) {
        " same\n"
    } else {
        " changed\n"
    });
}

// Makes the operation of a line, and gives it back with the number that came of it.
fn called(t: &mut Trial, flags: Option<usize>, line: &[u8]) -> (Op, u64) {
    let mut lists = Lists::new();
    lists.refreshes = [true; 9];
    let op = text_lines::read(line, &mut lists);
    let number = call::call(
        t,
        flags,
        op,
        &lists.numbers,
        &lists.spans,
        &lists.tiers,
        &lists.capacity,
        &lists.refreshes,
    );
    (op, number)
}

// The state that the operation of a line leaves.
pub fn made(world: World, line: &[u8]) -> World {
    let mut t = Trial::new(world, Short::default());
    called(&mut t, None, line);
    t.world
}

// The operation of a line, tried.
pub fn tried(name: &[u8], before: &World, short: Short, flags: Option<usize>, line: &[u8]) {
    let mut t = Trial::new(*before, short);
    let (op, number) = called(&mut t, flags, line);
    say_trial(name, call_name(op), number, before, &t);
}

fn count(name: &[u8], counter: Counter, before: &World, s: usize) {
    let t = Trial::new(*before, Short::default());
    let number = trial_read::count(&t, counter, s);
    say_trial(name, counter_name(counter), number, before, &t);
}

// The five counters of a store.
pub fn counters(name: &[u8], before: &World, s: usize) {
    for counter in [
        Counter::Held,
        Counter::Capacity,
        Counter::Pinned,
        Counter::Available,
        Counter::Version,
    ] {
        count(name, counter, before, s);
    }
}

// Every call but set-up, with arguments that the script's first state accepts.
pub fn each(name: &[u8], before: &World) {
    for line in [
        "resolve 11 12 13 24",
        "lookup 0,1 : 11 12 13 24",
        "insert 11 12 99",
        "bring 0 5 0 2 50 3",
        "touch 0 60 1 1 0 3 4 1 2",
        "expire 0 100 65",
        "remove 1 3 0 2",
        "pin 0 5 0 2",
        "unpin 0 1 0 2",
    ] {
        tried(name, before, Short::default(), None, line.as_bytes());
    }
    counters(name, before, 0);
    count(name, Counter::Stalls, before, 0);
}
