// One step of an axis, and of every axis.
ghost use Rattle.std.specs.Prelude.{◌≡◌, ◌<◌};
ghost use Rattle.cabinet.specs.Cabinets.{standing, stepped, OneStep};
ghost use Rattle.cabinet.specs.Events.{brought};

use crate::cabinet::Cabinet;
use axes::axis::Line;
use banks::bank::Bank;
use drives::drive::RECORD_LENGTH;

// What a call brings an axis. An enum and no closure: a contract names it, as an event of the rules.
#[derive(Clone, Copy)]
pub enum AxisEvent<'a> {
    // an accepted cycle, with what the line brings and the field record
    Cycles(Line, &'a [u8; RECORD_LENGTH]),
    // a stay in Operational begins
    StayBegins,
    // the line is lost outside a cycle
    LineLost,
}

impl<B: Bank> Cabinet<B> {
    // One axis steps: its record is lent to the step, beside the bank.
    // Inlined: a caller that brings one event needs that arm alone.
    #[inline(always)]
    #[tactic(auto, unfolding(axes::specs::Steps::axis_under, axes::specs::Steps::drive_under))]
    pub(crate) fn step(&mut self, number: u8, event: AxisEvent<'_>)
        requires { number < 8 }
        ensures { OneStep number (brought event.entry) (standing B.meanings self.old) (standing B.meanings self.new) }
    {
        let axis = &mut self.table.axes[usize::from(number)];
        match event {
            AxisEvent::Cycles(line, record) => axis.cycle(&mut self.bank, number, record, line),
            AxisEvent::StayBegins => axis.begin_stay(),
            AxisEvent::LineLost => axis.lose_line(&mut self.bank, number),
        }
    }

    // Every axis steps under the same event, one after the other.
    pub(crate) fn step_each(&mut self, event: AxisEvent<'_>)
        ensures { standing B.meanings self.new ≡ stepped (λ i. brought event.entry) (standing B.meanings self.old) }
    {
        for number in 0..self.axis_count() {
            self.step(number, event);
        }
    }
}
