// The lines that show how a cabinet stands, each without its newline.
ghost use Rattle.std.specs.Prelude.{◌≡◌, Some};
ghost use Rattle.cabinet_log.specs.CabinetTexts.{al_text, axis_text, profile_text, refusal_number, state_text};

use cabinet::cabinet::ShownAxis;
use drive_log::drive::ShownHeld;
use drive_log::word::ShownWord;
use drives::target::Refusal;
use fieldbus::al::Al;
use profile::state::State;
use std::fmt;

// AL, and the cycles without a frame that were counted last.
#[derive(Clone, Copy)]
pub struct AlLine {
    pub al: Al,
    pub silence: u16,
}

impl fmt::Display for AlLine {
    ghost output = { λ l. Some (al_text l.al l.silence) };

    fn fmt<W: fmt::Write>(&self, f: &mut fmt::Formatter<W>) -> fmt::Result {
        let status = ShownWord(self.al.status());
        let code = ShownWord(self.al.code());
        let silence = self.silence;
        write!(f, "  al={status} code={code} silence={silence}")
    }
}

// The name of a state. A Display would need a wrapper round this same match, which is no plainer.
fn state_name(state: State) -> &'static str
    ensures { result.now ≡ state_text state }
{
    match state {
        State::NotReady => "not-ready",
        State::SwitchOnDisabled => "switch-on-disabled",
        State::Ready => "ready",
        State::SwitchedOn => "switched-on",
        State::OperationEnabled => "operation-enabled",
        State::QuickStopActive => "quick-stop-active",
        State::FaultReactionActive => "fault-reaction-active",
        State::Fault => "fault",
    }
}

// A refusal as a number, 0 for none.
fn refusal_number(refusal: Option<Refusal>) -> u16
    ensures { result ≡ refusal_number refusal }
{
    refusal.map_or(0, Refusal::code)
}

// What the drive profile has of an axis: the state, statusword and controlword, the modes, the error.
#[derive(Clone, Copy)]
struct ShownProfile(ShownAxis);

impl fmt::Display for ShownProfile {
    ghost output = { λ p. Some (profile_text p.0) };

    fn fmt<W: fmt::Write>(&self, f: &mut fmt::Formatter<W>) -> fmt::Result {
        let state = state_name(self.0.state);
        let status = ShownWord(self.0.statusword);
        let control = ShownWord(self.0.controlword);
        let displayed = self.0.displayed;
        let wanted = self.0.wanted;
        let error = ShownWord(self.0.error);
        write!(
            f,
            "state={state} status={status} control={control} shown={displayed} wanted={wanted} error={error}"
        )
    }
}

// An axis, by its number.
#[derive(Clone, Copy)]
pub struct AxisLine {
    pub number: u8,
    pub axis: ShownAxis,
}

impl fmt::Display for AxisLine {
    ghost output = { λ l. Some (axis_text l.number l.axis) };

    fn fmt<W: fmt::Write>(&self, f: &mut fmt::Formatter<W>) -> fmt::Result {
        let number = self.number;
        let profile = ShownProfile(self.axis);
        let held = ShownHeld(self.axis.held);
        let refusal = ShownWord(refusal_number(self.axis.refusal));
        let key = if self.axis.key_out { "out" } else { "in" };
        write!(
            f,
            "  axis {number} {profile} {held} refusal={refusal} key={key}"
        )
    }
}
