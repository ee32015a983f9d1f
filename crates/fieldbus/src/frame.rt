// Frames, read axis by axis.
ghost use Rattle.std.specs.Prelude.{◌≡◌};
ghost use Rattle.fieldbus.specs.Frames.{nothing_carried, next_part, after_part};

use crate::layout::Layout;

// What a frame carries for one axis.
#[derive(Clone, Copy, Debug, Default, PartialEq, Eq)]
pub struct Part {
    pub controlword: u16,
    pub position: Option<i32>,
    pub velocity: Option<i32>,
    pub mode: Option<i8>,
}

impl Part {
    // Before any frame: controlword 0, and nothing else.
    pub fn nothing() -> Part
        ensures { result ≡ nothing_carried }
    {
        Part::default()
    }
}

// What the bytes of a part carry, none where they end before the part does.
fn read_part(layout: Layout, bytes: &[u8]) -> Option<Part>
    ensures { result ≡ next_part layout bytes.now }
{
    match (layout, bytes) {
        (Layout::Full, &[c0, c1, p0, p1, p2, p3, v0, v1, v2, v3, mode, ..]) => Some(Part {
            controlword: u16::from_le_bytes([c0, c1]),
            position: Some(i32::from_le_bytes([p0, p1, p2, p3])),
            velocity: Some(i32::from_le_bytes([v0, v1, v2, v3])),
            mode: Some(mode.cast_signed()),
        }),
        (Layout::Position, &[c0, c1, p0, p1, p2, p3, ..]) => Some(Part {
            controlword: u16::from_le_bytes([c0, c1]),
            position: Some(i32::from_le_bytes([p0, p1, p2, p3])),
            ..Part::nothing()
        }),
        (Layout::Velocity, &[c0, c1, v0, v1, v2, v3, ..]) => Some(Part {
            controlword: u16::from_le_bytes([c0, c1]),
            velocity: Some(i32::from_le_bytes([v0, v1, v2, v3])),
            ..Part::nothing()
        }),
        _ => None,
    }
}

// Steps through a frame from axis to axis. It borrows the frame and copies none of it.
#[derive(Clone, Copy)]
pub struct FrameReader<'a> {
    rest: &'a [u8],
}

impl<'a> FrameReader<'a> {
    pub fn new(frame: &'a [u8]) -> FrameReader<'a>
        ensures { result.rest.now ≡ frame.now }
    {
        FrameReader { rest: frame }
    }

    // The part of the next axis, which has this layout. None where the frame ends before it, and then there is no step.
    pub fn part(&mut self, layout: Layout) -> Option<Part>
        ensures reads { result ≡ next_part layout self.old.rest.now }
        ensures steps { self.new.rest.now ≡ after_part layout self.old.rest.now }
    {
        let part = read_part(layout, self.rest)?;
        self.rest = &self.rest[layout.length()..];
        Some(part)
    }
}
