//! The faders of the submasters, and what they give.

ghost use Rattle.std.specs.Prelude.{◌≡◌, ◌-◌, ℕ, length, replicate, slice_set, IfOk};
ghost use Rattle.lx_io.specs.Causes.{HasCause};
ghost use Rattle.lx_base.specs.declared.TheConstants.{SUBS};
ghost use Rattle.lx_spec.specs.Show.{Show as ShowData};
ghost use Rattle.lx_spec.specs.Output.{contribution, fader};
ghost use Rattle.lx_mixer.specs.Table.{IsTable};
ghost use Rattle.lx_subs.specs.Faders.{StandsForSubs};

use crate::contributions::fill;
use lx_base::{Level, SUBS, SubNo};
use lx_io::{Heap, SystemHeap, filled};
use lx_show::Show;
use std::alloc::{AllocError, Global};
use std::marker::Model;

/// A fader for each submaster number, and the level that the submasters give each channel at their
/// faders: the greatest, as consoles have it, of the channel's levels in them, each in proportion to the
/// submaster's fader.
#[derive(Drop)]
pub struct SubRack {
    faders: Vec<Level>,
    contributions: Vec<Level>,
}

impl Model for SubRack {
    ghost use Rattle.std.specs.Prelude.{◌≡◌, length};
    ghost use Rattle.lx_base.specs.declared.TheConstants.{SUBS};
    ghost use Rattle.lx_subs.specs.Faders.{Faders};

    ghost Value = { Faders };

    ghost view = { λ r. record { faders = r.faders.items; contributions = r.contributions.items } };

    ghost invariant = { λ r. length r.faders.items ≡ SUBS };
}

impl SubRack {
    /// A rack for the show, with every fader at 0. It takes all the memory that it needs; an error comes
    /// where it runs out.
    pub fn open(alloc: Global, show: &Show) -> Result<SubRack, AllocError>
        ensures stands { IfOk result (StandsForSubs show.now) }
        ensures faders { IfOk result (λ rack. rack.faders ≡ replicate SUBS 0) }
    {
        SubRack::open_in(&mut SystemHeap::new(alloc), show)
    }

    /// The same, by a heap. An error comes where the heap refuses memory.
    pub fn open_in<H: Heap>(heap: &mut H, show: &Show) -> Result<SubRack, AllocError>
        ensures stands { IfOk result (StandsForSubs show.now) }
        ensures faders { IfOk result (λ rack. rack.faders ≡ replicate SUBS 0) }
        ensures cause { HasCause (H.refusals heap.old) (H.refusals heap.new) result }
    {
        let mut rack = SubRack {
            faders: filled(heap, 0, SUBS as usize)?,
            contributions: filled(heap, 0, show.channels() as usize)?,
        };
        rack.changed(show);
        Ok(rack)
    }

    /// Sets the submaster's fader. The rack stands for the show's submasters before and after.
    pub fn set_fader(&mut self, show: &Show, sub: SubNo, level: Level)
        requires { StandsForSubs show.now self.old }
        ensures stands { StandsForSubs show.now self.new }
        ensures faders { self.new.faders ≡ slice_set self.old.faders (sub - 1) level }
    {
        self.faders[sub.get() as usize - 1] = level;
        self.changed(show);
    }

    /// The submasters are now the show's, whose channel count is that of before. The faders stay.
    pub fn changed(&mut self, show: &Show)
        requires { length self.old.contributions ≡ show.now.channels }
        ensures stands { StandsForSubs show.now self.new }
        ensures faders { self.new.faders ≡ self.old.faders }
    {
        fill(show, &self.faders, &mut self.contributions);
    }

    /// The fader of the submaster, 0 to 255.
    pub fn fader(&self, sub: SubNo) -> Level
        ensures { result ≡ fader self.now.faders sub }
    {
        self.faders[sub.get() as usize - 1]
    }

    /// What the submasters give each channel: that of channel c at place c - 1.
    pub fn contribution(&self) -> &[Level]
        ensures contributions { result.now ≡ self.now.contributions }
        ensures table { (show : ShowData) → StandsForSubs show self.now
            → IsTable show.channels (contribution show self.now.faders) result.now }
    {
        self.contributions.as_slice()
    }
}
