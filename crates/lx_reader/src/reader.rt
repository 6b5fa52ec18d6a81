//! What the lines so far say, and what is known of the next one.

ghost use Rattle.std.specs.Prelude.{◌≡◌, ◌==◌, ◌<◌, ◌+◌, if◌then◌else◌};
ghost use Rattle.lx_reader.specs.LineOutcome.{new_reader};

use lx_base::{Chan, PartNo};
use lx_show::Show;
use lx_spec::Section;

/// A show that is being read.
#[derive(Drop)]
pub(crate) struct Reader {
    /// What the lines since the last CLEAR ALL say. Its channels go up to the greatest that is named there.
    pub(crate) show: Show,
    /// What SET CHANNELS says there.
    pub(crate) channels_set: Option<Chan>,
    /// How many lines were skipped.
    pub(crate) skipped: u32,
    /// The number of the first of them, or 0.
    pub(crate) first_skipped: u32,
    /// An IDENT line was read.
    pub(crate) identified: bool,
    /// Where the next line stands.
    pub(crate) section: Section,
    /// The open part: 1 outside of cues.
    pub(crate) part: PartNo,
    /// ENDDATA was read.
    pub(crate) ended: bool,
}

impl Reader {
    /// Nothing was read yet.
    pub(crate) fn new(show: Show) -> Reader
        ensures { result ≡ new_reader show }
    {
        Reader {
            show,
            channels_set: None,
            skipped: 0,
            first_skipped: 0,
            identified: false,
            section: Section::NoRecord,
            part: PartNo::BASE,
            ended: false,
        }
    }

    /// Line i is skipped.
    pub(crate) fn skip(&mut self, i: u32)
        requires { self.old.skipped < i }
        ensures { self.new ≡ record self.old {
          skipped = self.old.skipped + 1;
          first_skipped = if self.old.skipped == 0 then i else self.old.first_skipped;
        } }
    {
        if self.skipped == 0 {
            self.first_skipped = i;
        }
        self.skipped += 1;
    }

    /// A section begins.
    pub(crate) fn enter(&mut self, section: Section)
        ensures { self.new ≡ record self.old { section = section; part = 1 } }
    {
        self.section = section;
        self.part = PartNo::BASE;
    }
}
