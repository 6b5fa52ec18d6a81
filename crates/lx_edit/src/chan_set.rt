//! A set of channels.

ghost use Rattle.std.specs.Prelude.{◌≡◌, ◌≤◌, ◌<◌, ℕ, ◌==◌, ◌||◌, true, false, None, IfSome};
ghost use Rattle.lx_base.specs.declared.TheConstants.{CHANNELS};

use lx_base::{CHANNELS, Chan};

/// Sixty-four channels in a word.
const WORDS: usize = CHANNELS as usize / 64;

/// As many columns take as long as a whole sheet.
const LARGE: u32 = 48;

/// A set of channels from 1 to `CHANNELS`, as one bit each. It takes no memory.
#[derive(Clone, Copy, PartialEq, Eq, Debug)]
pub struct ChanSet {
    words: [u64; WORDS],
}

impl ChanSet {
    ghost use Rattle.lx_edit.specs.ChanSet.{has_chan};

    /// No channel.
    pub fn empty() -> ChanSet
        ensures { (x : ℕ) → has_chan result x ≡ false }
    {
        ChanSet { words: [0; WORDS] }
    }

    /// Each channel.
    pub fn all() -> ChanSet
        ensures { (x : ℕ) → 1 ≤ x → x ≤ CHANNELS → has_chan result x ≡ true }
    {
        ChanSet {
            words: [u64::MAX; WORDS],
        }
    }

    /// The channel is in the set.
    pub fn contains(&self, c: Chan) -> bool
        ensures { result ≡ has_chan self.now c }
    {
        self.next_above(c.get() - 1, c.get()).is_some()
    }

    /// Adds the channel.
    pub fn insert(&mut self, c: Chan)
        ensures { (x : ℕ) → has_chan self.new x ≡ (x == c || has_chan self.old x) }
    {
        let place = c.get() - 1;
        let at = (place / 64) as usize;
        self.words[at] |= 1 << (place % 64);
    }

    /// The least channel of the set above the one number, up to the other.
    pub fn next_above(&self, k: u32, last: u32) -> Option<Chan>
        requires last { last ≤ CHANNELS }
        ensures found { IfSome result (λ c. (k < c) × (c ≤ last) × (has_chan self.now c ≡ true)) }
        ensures first { IfSome result (λ c. (x : ℕ) → k < x → x < c → has_chan self.now x ≡ false) }
        ensures none { result ≡ None → (x : ℕ) → k < x → x ≤ last → has_chan self.now x ≡ false }
    {
        let mut place = k;
        while place < last {
            let rest = self.words[(place / 64) as usize] >> (place % 64);
            if rest != 0 {
                let c = Chan::at((place + rest.trailing_zeros()) as usize);
                if c.get() > last {
                    return None;
                }
                return Some(c);
            }
            place = place / 64 * 64 + 64;
        }
        None
    }

    /// It is no gain to go through a sheet column by column for this many channels.
    pub(crate) fn is_large(&self) -> bool {
        let mut count = 0;
        for word in self.words.iter() {
            count += word.count_ones();
        }
        count > LARGE
    }
}
