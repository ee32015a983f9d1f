// The statusword.
ghost use Rattle.std.specs.Prelude.{◌≡◌, cond};
ghost use Rattle.profile.specs.Status.{status_of};

use crate::state::State;

// What a statusword shows beside the state.
#[derive(Clone, Copy, Debug, PartialEq, Eq)]
pub struct Flags {
    // the drive has power
    pub powered: bool,
    // the wanted mode is unlike the displayed one
    pub mode_pending: bool,
    // AL is in Operational
    pub operational: bool,
    // a target was refused in the latest frame acted on
    pub refused: bool,
    // the drive carries a target
    pub carrying: bool,
    // a key for the axis is out
    pub key_out: bool,
}

// The weight of a flag's bit where it is set. `u16::from(flag) << bit` is no plainer: the weights are the specification's.
fn weight_if(set: bool, weight: u16) -> u16
    ensures { result ≡ cond set weight 0 }
{
    if set { weight } else { 0 }
}

// The state's pattern, and bits 4, 7, 9, 11, 12 and 14 for the flags.
#[tactic(auto, unfolding(crate::specs::Status::status_of))]
pub fn statusword(state: State, flags: Flags) -> u16
    ensures { result ≡ status_of state flags }
{
    state.pattern()
        | weight_if(flags.powered, 0x0010)
        | weight_if(flags.mode_pending, 0x0080)
        | weight_if(flags.operational, 0x0200)
        | weight_if(flags.refused, 0x0800)
        | weight_if(flags.carrying, 0x1000)
        | weight_if(flags.key_out, 0x4000)
}
