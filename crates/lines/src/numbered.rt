// A line by its number.

// The bytes of a line without its newline, and its number in the scenario.
#[derive(Clone, Copy)]
pub struct NumberedLine<'a> {
    pub number: u64,
    pub text: &'a [u8],
}
