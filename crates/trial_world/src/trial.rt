// What a trial works on: a copy of the state, and answer lists that hold what no call answers.
use crate::lists::Lists;
use crate::short::Short;
use crate::world::World;

#[derive(Clone, Copy)]
pub struct Trial {
    pub world: World,
    pub lists: Lists,
    pub short: Short,
}

impl Trial {
    pub fn new(world: World, short: Short) -> Trial {
        Trial {
            world,
            lists: Lists::blank(),
            short,
        }
    }

    // Whether no place of the state that it began with, and none of the answer lists, changed.
    pub fn left_all(&self, before: &World) -> bool {
        self.world.same(before) && self.lists == Lists::blank()
    }
}
