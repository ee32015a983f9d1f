// Drives and banks that a program puts together at run time.
#![tactic(auto)]

pub mod make;

use drives::made::MadeDrive;
use make::AnyMake;
use rows::row::Row;
use stacks::stack::Stack;

// A drive of any make under any number of windows.
pub type ConfiguredDrive = Stack<MadeDrive<AnyMake>>;

// A bank of any number of such drives.
pub type ConfiguredBank = Row<ConfiguredDrive>;
