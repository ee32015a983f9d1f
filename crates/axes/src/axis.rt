// One axis. The drive that it operates comes as a bank and a number: a struct that lends one drive would wrap seven
// operations of `Bank`, and no `dyn` of a type parameter can be made. Whether operation was enabled as a cycle began is
// no part of the record, and goes beside it.
ghost use Rattle.std.specs.Prelude.{◌≡◌, ℕ, Some};
ghost use Rattle.profile.specs.declared.state.State.TheVariants.{FaultReactionActive};
ghost use Rattle.banks.specs.Lists.{drive_at, changed};
ghost use Rattle.axes.specs.Moves.{command_move, own_move, loss_move, resets, follow_move, is_enabled};
ghost use Rattle.axes.specs.Steps.{axis_at_start, line_loss, in_state, moved, after_move, noted, acted, acted_drive, heeded, heeded_drive, line_move, cycle_move, stop_cause, stay_begun, named_target, refusal_of, given, Cycles, LineLost, axis_under, drive_under};
ghost use Rattle.axes.specs.Seen.{statusword_of, inputs_of};

use banks::bank::Bank;
use drives::drive::{NO_MODE, POSITION_MODE, RECORD_LENGTH, VELOCITY_MODE};
use drives::held::Held;
use drives::target::{Refusal, Target};
use fieldbus::frame::Part;
use fieldbus::layout::Layout;
use profile::command::{Command, reset_bit};
use profile::image::Inputs;
use profile::state::State;
use profile::statusword::{Flags, statusword};

// The error of an axis that was stopped because the line was lost.
const LINE_LOSS: u16 = 0x8100;

// What the line brings an axis in a cycle. That it brings nothing is a case beside the others, and no absence of one.
#[derive(Clone, Copy, Debug, PartialEq, Eq)]
pub enum Line {
    // a frame that is acted on, with the axis's part of it
    Acts(Part),
    // the watch runs out
    RunsOut,
    // neither
    Quiet,
}

// The record of an axis.
#[derive(Clone, Copy, Debug, PartialEq, Eq)]
pub struct Axis {
    pub state: State,
    pub wanted: i8,
    pub displayed: i8,
    // 0 for none: a number, as the row of the return image shows it
    pub error: u16,
    pub layout: Layout,
    // bit 7 of the latest frame acted on in this stay in Operational; set as the stay begins
    pub bit7: bool,
    // what the latest frame acted on carried
    pub latest: Part,
    // the refusal of a target in the latest frame acted on
    pub refusal: Option<Refusal>,
    pub key_out: bool,
}

// What a move does to the drive: the state entered, if any, decides.
#[tactic(auto, using(crate::proofs::Changes::unchanged))]
fn enter<B: Bank>(bank: &mut B, number: u8, from: State, entered: Option<State>)
    ensures { B.meanings bank.new ≡ changed (after_move from entered) (B.meanings bank.old) number }
{
    let Some(next) = entered else {
        return;
    };
    match (from, next) {
        (State::Ready, State::SwitchedOn) => bank.energise_at(number),
        (_, State::SwitchedOn | State::QuickStopActive | State::FaultReactionActive) => {
            bank.hold_at(number)
        }
        (_, State::SwitchOnDisabled | State::Ready | State::Fault) => bank.de_energise_at(number),
        (_, State::NotReady | State::OperationEnabled) => {}
    }
}

// Gives the drive a target, and tells its refusal. The drive holds where there is no target, and where it refuses.
fn give<B: Bank>(bank: &mut B, number: u8, target: Option<Target>) -> Option<Refusal>
    ensures driven { B.meanings bank.new ≡ changed (given target) (B.meanings bank.old) number }
    ensures tells { result ≡ refusal_of target (drive_at (B.meanings bank.old) number) }
{
    let Some(target) = target else {
        bank.hold_at(number);
        return None;
    };
    let refusal = bank.take_at(number, target).err()?;
    bank.hold_at(number);
    Some(refusal)
}

impl Axis {
    // An axis as a cabinet is made with it.
    pub fn new() -> Axis
        ensures { result ≡ axis_at_start }
    {
        Axis {
            state: State::NotReady,
            wanted: NO_MODE,
            displayed: NO_MODE,
            error: 0,
            layout: Layout::Full,
            bit7: false,
            latest: Part::nothing(),
            refusal: None,
            key_out: false,
        }
    }

    fn is_enabled(&self) -> bool
        ensures { result ≡ is_enabled self.now.state }
    {
        self.state == State::OperationEnabled
    }

    // Gives the state entered as a move, so that an arm of a match over the moves is one call.
    fn go_to(&mut self, next: State) -> Option<State>
        ensures entered { result ≡ Some next }
        ensures goes { self.new ≡ in_state next self.old.error self.old }
    {
        self.state = next;
        Some(next)
    }

    fn stop(&mut self, cause: u16) -> Option<State>
        ensures entered { result ≡ Some FaultReactionActive }
        ensures stops { self.new ≡ in_state FaultReactionActive cause self.old }
    {
        self.error = cause;
        self.go_to(State::FaultReactionActive)
    }

    // Follows a command: the state and the command together decide the move. Gives the state entered, none where the
    // axis stays. No command stops an axis, so its promise holds whatever the cause of a stop would be.
    pub fn follow(&mut self, command: Command) -> Option<State>
        ensures decides { result ≡ command_move self.old.key_out self.old.state command }
        ensures moves { (cause : ℕ) → self.new ≡ moved cause result self.old }
    {
        let next = match (self.state, command) {
            (State::SwitchOnDisabled, Command::Shutdown) if !self.key_out => State::Ready,
            (State::Ready, Command::SwitchOn | Command::EnableOperation) => State::SwitchedOn,
            (State::SwitchedOn | State::OperationEnabled, Command::Shutdown) => State::Ready,
            (State::SwitchedOn, Command::EnableOperation) => State::OperationEnabled,
            (State::OperationEnabled, Command::SwitchOn) => State::SwitchedOn,
            (State::OperationEnabled, Command::QuickStop) => State::QuickStopActive,
            (
                State::Ready | State::SwitchedOn | State::OperationEnabled | State::QuickStopActive,
                Command::DisableVoltage,
            ) => State::SwitchOnDisabled,
            _ => return None,
        };
        self.go_to(next)
    }

    // The move that the axis makes on its own account: trouble stops it, and what has begun goes on.
    fn supervise(&mut self, trouble: u16) -> Option<State>
        ensures decides { result ≡ own_move trouble self.old.state }
        ensures moves { self.new ≡ moved (stop_cause trouble) result self.old }
    {
        match self.state {
            State::FaultReactionActive => self.go_to(State::Fault),
            State::Fault => None,
            _ if trouble != 0 => self.stop(trouble),
            State::NotReady => self.go_to(State::SwitchOnDisabled),
            _ => None,
        }
    }

    // The move on the loss of the line.
    fn break_off(&mut self) -> Option<State>
        ensures decides { result ≡ loss_move self.old.state }
        ensures moves { self.new ≡ moved line_loss result self.old }
    {
        match self.state {
            State::SwitchedOn | State::OperationEnabled | State::QuickStopActive => {
                self.stop(LINE_LOSS)
            }
            State::Ready => self.go_to(State::SwitchOnDisabled),
            _ => None,
        }
    }

    // Whether a controlword resets the fault: bit 7 rises, and there is no trouble.
    fn resets(&self, controlword: u16, trouble: u16) -> bool
        ensures { result ≡ resets controlword trouble self.now }
    {
        self.state == State::Fault && reset_bit(controlword) && !self.bit7 && trouble == 0
    }

    // The move under a controlword: a fault is reset, else the command is followed.
    fn obey(&mut self, controlword: u16, trouble: u16) -> Option<State>
        ensures decides { result ≡ follow_move controlword trouble self.old }
        ensures moves { (cause : ℕ) → self.new ≡ moved cause result self.old }
    {
        if self.resets(controlword, trouble) {
            self.error = 0;
            return self.go_to(State::SwitchOnDisabled);
        }
        self.follow(Command::of(controlword))
    }

    // Takes note of a part that is acted on. A known mode is displayed unless operation was enabled as the cycle began.
    fn note<B: Bank>(&mut self, part: Part, was_enabled: bool, bank: &B, number: u8)
        ensures { self.new ≡ noted part was_enabled (drive_at (B.meanings bank.now) number) self.old }
    {
        if let Some(mode) = part.mode {
            self.wanted = mode;
        }
        if !was_enabled && bank.knows_at(number, self.wanted) {
            self.displayed = self.wanted;
        }
        self.bit7 = reset_bit(part.controlword);
        self.latest = part;
        self.refusal = None;
    }

    // The target that a part names: the value that the displayed mode goes by, where the part carries it.
    fn named(&self, part: Part) -> Option<Target>
        ensures { result ≡ named_target part self.now.displayed }
    {
        let value = match self.displayed {
            POSITION_MODE => part.position,
            VELOCITY_MODE => part.velocity,
            _ => None,
        };
        value.map(|value| Target {
            mode: self.displayed,
            value,
        })
    }

    // Acts on a part once the axis has moved: in Operation enabled the drive is given the target that the part names.
    #[tactic(auto, using(crate::proofs::Changes::unchanged), unfolding(crate::specs::Steps::acted, crate::specs::Steps::acted_drive))]
    fn act_on<B: Bank>(&mut self, part: Part, was_enabled: bool, bank: &mut B, number: u8)
        ensures noted { self.new ≡ acted part was_enabled (drive_at (B.meanings bank.old) number) self.old }
        ensures driven { B.meanings bank.new ≡ changed (acted_drive part was_enabled self.old) (B.meanings bank.old) number }
    {
        self.note(part, was_enabled, bank, number);
        if self.is_enabled() {
            self.refusal = give(bank, number, self.named(part));
        }
    }

    // What is left of a cycle, whether the axis has moved or not: a part that the line brings is acted on.
    #[tactic(auto, using(crate::proofs::Changes::unchanged))]
    fn heed<B: Bank>(&mut self, line: Line, was_enabled: bool, bank: &mut B, number: u8)
        ensures noted { self.new ≡ heeded line was_enabled (drive_at (B.meanings bank.old) number) self.old }
        ensures driven { B.meanings bank.new ≡ changed (heeded_drive line was_enabled self.old) (B.meanings bank.old) number }
    {
        match line {
            Line::Acts(part) => self.act_on(part, was_enabled, bank, number),
            Line::RunsOut | Line::Quiet => {}
        }
    }

    // The move that the line brings, for an axis without a move of its own.
    fn obey_line(&mut self, line: Line, trouble: u16) -> Option<State>
        ensures decides { result ≡ line_move line trouble self.old }
        ensures moves { own_move trouble self.old.state ≡ None → self.new ≡ moved (stop_cause trouble) result self.old }
    {
        match line {
            Line::Acts(part) => self.obey(part.controlword, trouble),
            Line::RunsOut => self.break_off(),
            Line::Quiet => None,
        }
    }

    // The one move of a cycle: the axis's own, or else the one that the line brings.
    #[tactic(auto, unfolding(crate::specs::Steps::cycle_move))]
    fn make_move(&mut self, line: Line, trouble: u16) -> Option<State>
        ensures decides { result ≡ cycle_move line trouble self.old }
        ensures moves { self.new ≡ moved (stop_cause trouble) result self.old }
    {
        // No `or_else`: where it leaves its closure uncalled, it says nothing of the axis that the closure borrows.
        match self.supervise(trouble) {
            None => self.obey_line(line, trouble),
            made => made,
        }
    }

    // An accepted cycle, with the field record of the drive and what the line brings.
    pub fn cycle<B: Bank>(
        &mut self,
        bank: &mut B,
        number: u8,
        record: &[u8; RECORD_LENGTH],
        line: Line,
    )
        ensures axis_steps { self.new ≡ axis_under (Cycles line «record».now) self.old (drive_at (B.meanings bank.old) number) }
        ensures drive_steps { B.meanings bank.new ≡ changed (drive_under (Cycles line «record».now) self.old) (B.meanings bank.old) number }
    {
        let from = self.state;
        let was_enabled = self.is_enabled();
        bank.sample_at(number, record);
        let trouble = bank.held_at(number).trouble;
        let entered = self.make_move(line, trouble);
        enter(bank, number, from, entered);
        self.heed(line, was_enabled, bank, number);
    }

    // The loss of the line outside a cycle: AL has left Operational by a request.
    #[tactic(auto, unfolding(crate::specs::Steps::axis_under, crate::specs::Steps::drive_under))]
    pub fn lose_line<B: Bank>(&mut self, bank: &mut B, number: u8)
        ensures axis_steps { self.new ≡ axis_under LineLost self.old (drive_at (B.meanings bank.old) number) }
        ensures drive_steps { B.meanings bank.new ≡ changed (drive_under LineLost self.old) (B.meanings bank.old) number }
    {
        let from = self.state;
        let entered = self.break_off();
        enter(bank, number, from, entered);
    }

    // A stay in Operational begins. Bit 7 counts as set, so that one held since before is no edge.
    pub fn begin_stay(&mut self)
        ensures { self.new ≡ stay_begun self.old }
    {
        self.bit7 = true;
    }

    // The statusword over what the drive holds, with AL in Operational or not.
    pub fn statusword(&self, held: Held, operational: bool) -> u16
        ensures { result ≡ statusword_of operational self.now held }
    {
        statusword(
            self.state,
            Flags {
                powered: held.powered,
                mode_pending: self.wanted != self.displayed,
                operational,
                refused: self.refusal.is_some(),
                carrying: held.carried.is_some(),
                key_out: self.key_out,
            },
        )
    }

    // What the return image tells of the axis.
    pub fn inputs(&self, held: Held, operational: bool) -> Inputs
        ensures { result ≡ inputs_of operational self.now held }
    {
        Inputs {
            statusword: self.statusword(held, operational),
            position: held.position,
            velocity: held.velocity,
            displayed: self.displayed,
            error: self.error,
        }
    }
}
