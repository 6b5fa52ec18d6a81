//! The numbers of which `make` makes its input. The rule is our own.

ghost use Rattle.std.specs.Prelude.{◌≡◌, ◌<◌, ◌/◌, ◌%◌};
ghost use Rattle.lx_desk.specs.Generator.{after_draw, after_setting, after_cue, after_turn, setting_from, drawn_cue, turn_from};

const FACTOR: u64 = 1_103_515_245;

const SUMMAND: u64 = 12_345;

const MODULUS: u64 = 2_147_483_648;

/// What is cut off of each number: its lowest bits repeat soon.
const LOW: u32 = 65_536;

/// A channel and its level in percent.
#[derive(Clone, Copy)]
pub(crate) struct Setting {
    pub(crate) channel: u32,
    pub(crate) percent: u32,
}

/// A cue: its time in seconds, and its channels with their levels.
#[derive(Clone, Copy)]
pub(crate) struct DrawnCue {
    pub(crate) up: u32,
    pub(crate) settings: [Setting; 4],
}

/// A turn of the script: the ticks after its key, and the level that it sets.
#[derive(Clone, Copy)]
pub(crate) struct DrawnTurn {
    pub(crate) ticks: u32,
    pub(crate) setting: Setting,
}

/// Numbers that are drawn one after another, each made of the one before.
#[derive(Drop)]
pub(crate) struct Draws {
    number: u32,
}

impl Draws {
    /// The draws that begin from a number.
    pub(crate) fn new(seed: u32) -> Draws
        ensures { result.number ≡ seed }
    {
        Draws { number: seed }
    }

    /// A cue, by nine draws.
    pub(crate) fn cue(&mut self) -> DrawnCue
        ensures cue { result ≡ drawn_cue self.old.number }
        ensures next { self.new.number ≡ after_cue self.old.number }
    {
        let up = self.draw(10);
        let settings = [
            self.setting(),
            self.setting(),
            self.setting(),
            self.setting(),
        ];
        DrawnCue { up, settings }
    }

    /// A turn of the script, by three draws.
    pub(crate) fn turn(&mut self) -> DrawnTurn
        ensures turn { result ≡ turn_from self.old.number }
        ensures next { self.new.number ≡ after_turn self.old.number }
    {
        let ticks = 1 + self.draw(100);
        let setting = self.setting();
        DrawnTurn { ticks, setting }
    }

    /// A channel from 1 to 512 and a level from 0 to 100 percent, by two draws.
    fn setting(&mut self) -> Setting
        ensures setting { result ≡ setting_from self.old.number }
        ensures next { self.new.number ≡ after_setting self.old.number }
    {
        let channel = 1 + self.draw(512);
        let percent = self.draw(101);
        Setting { channel, percent }
    }

    /// A number below `end`.
    fn draw(&mut self, end: u32) -> u32
        requires { 0 < end }
        ensures number { result ≡ self.new.number / 65536 % end }
        ensures below { result < end }
        ensures next { self.new.number ≡ after_draw self.old.number }
    {
        self.number = ((FACTOR * u64::from(self.number) + SUMMAND) % MODULUS) as u32;
        self.number / LOW % end
    }
}
