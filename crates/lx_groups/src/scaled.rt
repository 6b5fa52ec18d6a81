//! An iterator over the members of a group, scaled.

ghost use Rattle.std.specs.Prelude.{◌≡◌, length};
ghost use Rattle.lx_groups.specs.Left.{members_left};

use lx_base::{Level, scale};
use lx_show::Member;

/// The members of a group that are left, sorted by channel, each at its level in proportion. It takes no
/// memory.
#[derive(Clone, Copy, Debug, Drop)]
pub struct Members<'a> {
    pub(crate) rest: &'a [Member],
    pub(crate) level: Level,
}

impl<'a> Members<'a> {
    /// How many members are left.
    pub fn len(&self) -> usize
        ensures { result ≡ length (members_left self.now) }
    {
        self.rest.len()
    }
}

impl<'a> Iterator for Members<'a> {
    type Item = Member;

    ghost use Rattle.std.specs.Iterator.{item_count, YieldsFirst};
    ghost use Rattle.lx_groups.specs.Left.{members_left};

    ghost next_gives = { YieldsFirst members_left };

    ghost remaining = { item_count members_left };

    fn next(&mut self) -> Option<Member> {
        let (first, rest) = self.rest.split_first()?;
        self.rest = rest;
        Some(Member {
            chan: first.chan,
            level: scale(first.level, self.level),
        })
    }
}
