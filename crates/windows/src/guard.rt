// Drives below a guard.
ghost use Rattle.std.specs.Prelude.{◌≡◌};
ghost use Rattle.windows.specs.Guards.{KeepsOut, RefusalAbove, Deepens, RefusesExactly, RefusesAlone, PassesOn, guarded, guarded_lawful};

use drives::drive::{Drive, RECORD_LENGTH};
use drives::held::Held;
use drives::target::{Refusal, Target};

// What stands above a drive: it may keep targets out, and says how a refusal from below is seen. The position is what
// the drive holds, the target what a caller gives: they meet only in questions.
pub trait Guard {
    ghost keeps_out: { Self → KeepsOut };

    ghost above: { Self → RefusalAbove };

    ghost deepens: { Self → Deepens };

    // Whether the target is kept out at a held position.
    fn keep_out(&self, position: i32, target: Target) -> bool
        ensures { result ≡ keeps_out self.now position target };

    // The refusal above a drive that refuses as `below` says.
    fn refusal_above(
        &self,
        position: i32,
        target: Target,
        below: Option<Refusal>,
    ) -> Option<Refusal>
        ensures { result ≡ above self.now position target below };

    // A refusal from below of what is not kept out.
    fn deepened(&self, refusal: Refusal) -> Refusal
        ensures { result ≡ deepens self.now refusal };

    ghost refuses_exactly: { (g : Self) → RefusesExactly (keeps_out g) (above g) };

    ghost refuses_alone: { (g : Self) → RefusesAlone (keeps_out g) (above g) };

    ghost passes_on: { (g : Self) → PassesOn (keeps_out g) (above g) (deepens g) };
}

// A drive below a guard, and itself a drive. What the guard lets pass goes down to the drive below.
#[derive(Drop)]
pub struct Guarded<G, D> {
    guard: G,
    below: D,
}

impl<G: Guard, D: Drive> Guarded<G, D> {
    pub fn over(guard: G, below: D) -> Guarded<G, D>
        ensures { result ≡ record { guard = guard; below = below } }
    {
        Guarded { guard, below }
    }
}

impl<G: Guard, D: Drive> Drive for Guarded<G, D> {
    ghost meaning = { λ d. guarded (G.Guard.keeps_out d.guard) (G.Guard.above d.guard) (D.Drive.meaning d.below) };

    ghost lawful = { λ d. guarded_lawful _ _ (G.Guard.refuses_exactly d.guard) _ (D.Drive.lawful d.below) };

    fn energise(&mut self) {
        self.below.energise();
    }

    fn de_energise(&mut self) {
        self.below.de_energise();
    }

    fn hold(&mut self) {
        self.below.hold();
    }

    fn sample(&mut self, record: &[u8; RECORD_LENGTH]) {
        self.below.sample(record);
    }

    // Each guard is asked once on the way down: what it keeps out is refused whatever the drive below says.
    fn take(&mut self, target: Target) -> Result<(), Refusal> {
        let position = self.below.held().position;
        if let Some(refusal) = self.guard.refusal_above(position, target, None) {
            return Err(refusal);
        }
        self.below
            .take(target)
            .map_err(|refusal| self.guard.deepened(refusal))
    }

    fn held(&self) -> Held {
        self.below.held()
    }

    fn knows(&self, mode: i8) -> bool {
        self.below.knows(mode)
    }

    fn admits(&self, target: Target) -> bool {
        !self.guard.keep_out(self.below.held().position, target) && self.below.admits(target)
    }

    fn refusal(&self, target: Target) -> Option<Refusal> {
        let position = self.below.held().position;
        let below = self.below.refusal(target);
        self.guard.refusal_above(position, target, below)
    }

    fn reading(&self, record: &[u8; RECORD_LENGTH]) -> (u16, i32, i32) {
        self.below.reading(record)
    }
}
