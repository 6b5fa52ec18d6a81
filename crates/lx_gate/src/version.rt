//! What is published: the slots of all universes, the commands that led to them, their number, and the moment.
ghost use Rattle.std.specs.Prelude.{◌≡◌, length};

use crate::history::Batch;
use crate::{Origin, Prefix};
use left_right::Absorb;
use lx_base::SLOTS;
use std::alloc::AllocError;

/// The slots of all universes after a list of commands. The moment is in hundredths of a second.
#[derive(Drop)]
pub struct Version<G: Origin> {
    pub slots: [u8; SLOTS],
    pub list: Prefix<G>,
    pub count: u64,
    pub moment: u32,
}

/// The slots of all universes after the commit, the list of commands that led to them, and the moment.
#[derive(Drop)]
pub struct Commit<G: Origin> {
    pub slots: [u8; SLOTS],
    pub list: Prefix<G>,
    pub moment: u32,
}

impl<G: Origin> Absorb<Commit<G>> for Version<G> {
    type State = ([u8; SLOTS], Batch, u64, u32);

    ghost state = { λ v. (v.slots, v.list, v.count, v.moment) };

    ghost applied = { λ _ c. (c.slots, c.list, length c.list, c.moment) };

    ghost never_fails = { Unit {0} };

    fn absorb_first(&mut self, commit: &Commit<G>, _other: &Version<G>) -> Result<(), AllocError> {
        self.slots = commit.slots;
        self.list = commit.list.again();
        self.count = commit.list.len();
        self.moment = commit.moment;
        Ok(())
    }
}
