// One line of the script: it changes the state that is tried, or tries calls on it.
//
// `put NAME PLACE NUMBER` changes one number, `make LINE` makes a call of the replay form; `clear` gives blank pools, `save` keeps the state and `back` takes
// it up again; `short POOL LIST` lends that pool and that answer list one short, 0 for none; `flags N` gives set-up so many flags, 10 as many as stores;
// `try NAME LINE` tries a call, `count NAME STORE` a store's counters, `each NAME` every call but set-up.
use crate::tries;
use text_lines::Line;
use trial_world::name::Name;
use trial_world::short::{Pool, Short};
use trial_world::world::World;

#[derive(Drop)]
pub struct Scene {
    world: World,
    saved: World,
    short: Short,
    // as many as stores, where it says none
    flags: Option<usize>,
}

// A line that says nothing of the above is told, so that no trial is passed over.
fn unreadable() {
    io::write_all(1, b"unreadable\n");
}

impl Scene {
    pub fn new() -> Scene {
        Scene {
            world: World::blank(),
            saved: World::blank(),
            short: Short::default(),
            flags: None,
        }
    }

    // A whole line without its end; empty ones and remarks are passed over.
    pub fn act(&mut self, text: &[u8]) {
        if text_words::is_blank_or_remark(text) {
            return;
        }
        let mut line = Line { rest: text };
        match line.word() {
            b"put" => self.put(line),
            b"make" => self.world = tries::made(self.world, line.rest),
            b"clear" => self.world = World::blank(),
            b"save" => self.saved = self.world,
            b"back" => self.world = self.saved,
            b"short" => self.lend_short(line),
            b"flags" => {
                let n = line.number().unwrap_or(0);
                self.flags = (n < 10).then_some(n as usize);
            }
            b"try" => self.try_call(line),
            b"each" => tries::each(line.word(), &self.world),
            b"count" => self.try_count(line),
            _ => unreadable(),
        }
    }

    fn put(&mut self, mut line: Line) {
        let name = Name::read(line.word());
        let i = line.number().unwrap_or(0) as usize;
        if let Some(Name::Column(Pool::Touched)) = name {
            match line.time() {
                Some(time) => self.world.put_time(i, time),
                None => unreadable(),
            }
            return;
        }
        match (name, line.number()) {
            (Some(name), Some(n)) => self.world.put(name, i, n),
            _ => unreadable(),
        }
    }

    fn lend_short(&mut self, mut line: Line) {
        let pool = line.number().unwrap_or(0);
        let list = line.number().unwrap_or(0);
        self.short = Short::numbered(pool, list);
    }

    // ---- the lines that try, with the trial's name in front

    fn try_call(&self, mut line: Line) {
        let name = line.word();
        tries::tried(name, &self.world, self.short, self.flags, line.rest);
    }

    fn try_count(&self, mut line: Line) {
        let name = line.word();
        let store = line.number().unwrap_or(0);
        tries::counters(name, &self.world, store as usize);
    }
}
