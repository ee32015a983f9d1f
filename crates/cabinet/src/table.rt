// The table of the axis records.
ghost use Rattle.std.specs.Prelude.{◌≡◌, ◌≤◌};
ghost use Rattle.cabinet.specs.Cabinets.{starting_table, parts_before};

use axes::axis::Axis;

// How many axes a cabinet has at most.
pub const MOST_AXES: usize = 8;

// The records of the axes. The table has room for 8; a cabinet with fewer axes uses the first of them. A plain array:
// nothing in a cabinet allocates, and the bank says how many axes there are.
#[derive(Clone, Copy)]
pub struct Table {
    pub axes: [Axis; MOST_AXES],
}

impl Table {
    pub(crate) fn new() -> Table
        ensures { result.axes ≡ starting_table }
    {
        Table {
            axes: [Axis::new(); MOST_AXES],
        }
    }

    // The bytes of a frame for the first axes: the sum of their parts.
    pub(crate) fn frame_length(&self, count: usize) -> usize
        requires { count ≤ 8 }
        ensures { result ≡ parts_before self.now.axes count }
    {
        let mut length = 0;
        for axis in &self.axes[..count] {
            length += axis.layout.length();
        }
        length
    }
}
