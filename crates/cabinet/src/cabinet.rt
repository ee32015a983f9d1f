// The cabinet, its making, and the questions to it.
ghost use Rattle.std.specs.Prelude.{◌≡◌, length};
ghost use Rattle.banks.specs.Lists.{drive_at};
ghost use Rattle.cabinet.specs.Cabinets.{standing, made, axis_count, operational};
ghost use Rattle.cabinet.specs.Shows.{shown_at};

use crate::table::{MOST_AXES, Table};
use banks::bank::{Bank, de_energise_all};
use drives::held::Held;
use drives::target::Refusal;
use fieldbus::al::{Al, AlState};
use fieldbus::watch::Watch;
use profile::state::State;

// A cabinet over a bank of drives. Axis i is drive i of the bank; a larger bank has its first 8 drives as axes, and the
// others are left alone once the cabinet is made. Contracts read it by its standing, not by a model: a model's value is
// data, and what a drive means holds functions.
#[derive(Drop)]
pub struct Cabinet<B> {
    pub(crate) number: u32,
    pub(crate) al: Al,
    pub(crate) watch: Watch,
    pub(crate) table: Table,
    pub(crate) bank: B,
}

// What a cabinet shows of an axis: the state and the modes, the controlword of the latest frame acted on and the refusal
// of its target, the error, the key, and what the drive holds. The record's layout and bit 7 are not shown.
#[derive(Clone, Copy, Debug, PartialEq, Eq)]
pub struct ShownAxis {
    pub state: State,
    pub statusword: u16,
    pub controlword: u16,
    pub displayed: i8,
    pub wanted: i8,
    pub error: u16,
    pub refusal: Option<Refusal>,
    pub key_out: bool,
    pub held: Held,
}

impl<B: Bank> Cabinet<B> {
    // Makes a cabinet with its number and its delay, which is brought into 1 to 60,000 cycles. Every drive of the bank
    // loses its power.
    pub fn new(mut bank: B, number: u32, delay: u16) -> Cabinet<B>
        ensures { standing B.meanings result ≡ made number delay (B.meanings bank) }
    {
        de_energise_all(&mut bank);
        Cabinet {
            number,
            al: Al::start(),
            watch: Watch::new(delay),
            table: Table::new(),
            bank,
        }
    }

    // AL: its status and its code.
    pub fn al(&self) -> Al
        ensures { result ≡ self.now.al }
    {
        self.al
    }

    // The delay in cycles.
    pub fn delay(&self) -> u16
        ensures { result ≡ self.now.watch.delay }
    {
        self.watch.delay
    }

    // The cycles without a frame that were counted last.
    pub fn silence(&self) -> u16
        ensures { result ≡ self.now.watch.silence }
    {
        self.watch.silence
    }

    // How many drives the bank has.
    pub fn drive_count(&self) -> u8
        ensures { result ≡ length (B.meanings self.now.bank) }
    {
        self.bank.count()
    }

    // How many axes there are.
    pub fn axis_count(&self) -> u8
        ensures { result ≡ axis_count (B.meanings self.now.bank) }
    {
        self.drive_count().min(MOST_AXES as u8)
    }

    // What a drive of the bank holds, with an axis or without.
    pub fn held(&self, drive: u8) -> Held
        ensures { result ≡ (drive_at (B.meanings self.now.bank) drive).held }
    {
        self.bank.held_at(drive)
    }

    // Whether AL is in Operational.
    pub fn is_operational(&self) -> bool
        ensures { result ≡ operational self.now.al }
    {
        matches!(self.al.state, AlState::Op)
    }

    // What is shown of an axis, none beyond the axes.
    pub fn axis(&self, number: u8) -> Option<ShownAxis>
        ensures { result ≡ shown_at (standing B.meanings self.now) number }
    {
        if number >= self.axis_count() {
            return None;
        }
        let axis = &self.table.axes[usize::from(number)];
        let held = self.bank.held_at(number);
        Some(ShownAxis {
            state: axis.state,
            statusword: axis.statusword(held, self.is_operational()),
            controlword: axis.latest.controlword,
            displayed: axis.displayed,
            wanted: axis.wanted,
            error: axis.error,
            refusal: axis.refusal,
            key_out: axis.key_out,
            held,
        })
    }
}
