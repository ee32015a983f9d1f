// The watch over the frames.
ghost use Rattle.std.specs.Prelude.{◌≡◌};
ghost use Rattle.fieldbus.specs.Watches.{watch_set, heard_from, silent, ran_out};

// The longest delay, in cycles.
const LONGEST_DELAY: u16 = 60_000;

// The watch: the delay, which is how many cycles without a frame it lets pass, and the silence, which is how many of
// them have passed.
#[derive(Clone, Copy, Debug, PartialEq, Eq)]
pub struct Watch {
    pub delay: u16,
    pub silence: u16,
}

impl Watch {
    // A watch with its delay brought into 1 to 60,000 cycles.
    pub fn new(delay: u16) -> Watch
        ensures { result ≡ watch_set delay }
    {
        Watch {
            delay: delay.clamp(1, LONGEST_DELAY),
            silence: 0,
        }
    }

    // A frame has come, or a stay in Operational begins.
    pub fn restart(&mut self)
        ensures { self.new ≡ heard_from self.old }
    {
        self.silence = 0;
    }

    // One more cycle without a frame; tells whether the watch runs out.
    pub fn count_silence(&mut self) -> bool
        ensures counts { self.new ≡ silent self.old }
        ensures tells { result ≡ ran_out (silent self.old) }
    {
        if self.silence < self.delay {
            self.silence += 1;
        }
        self.silence >= self.delay
    }
}
