// The words that directives of the cabinet part begin with.
ghost use Rattle.std.specs.Prelude.{◌≡◌};
ghost use Rattle.calls.specs.Calls.{keyword_of};

// A call, by its name alone: what it is given is read after it.
#[derive(Clone, Copy)]
pub enum CallName {
    Request,
    Cycle,
}

#[derive(Clone, Copy)]
pub enum Keyword {
    Cabinet,
    Call(CallName),
}

pub(crate) fn read_keyword(name: &[u8]) -> Option<Keyword>
    ensures { result ≡ keyword_of name.now }
{
    match name {
        b"cabinet" => Some(Keyword::Cabinet),
        b"al" => Some(Keyword::Call(CallName::Request)),
        b"cycle" => Some(Keyword::Call(CallName::Cycle)),
        _ => None,
    }
}
