// The words that directives begin with.
ghost use Rattle.std.specs.Prelude.{◌≡◌};
ghost use Rattle.scenario.specs.Directives.{keyword_of};

// An operation on a drive, by its name alone: what it is given is read after it.
#[derive(Clone, Copy)]
pub enum Verb {
    Energise,
    DeEnergise,
    Hold,
    Sample,
    Take,
}

#[derive(Clone, Copy)]
pub enum Keyword {
    Drive,
    Operation(Verb),
}

pub(crate) fn read_keyword(name: &[u8]) -> Option<Keyword>
    ensures { result ≡ keyword_of name.now }
{
    match name {
        b"drive" => Some(Keyword::Drive),
        b"energise" => Some(Keyword::Operation(Verb::Energise)),
        b"deenergise" => Some(Keyword::Operation(Verb::DeEnergise)),
        b"hold" => Some(Keyword::Operation(Verb::Hold)),
        b"sample" => Some(Keyword::Operation(Verb::Sample)),
        b"take" => Some(Keyword::Operation(Verb::Take)),
        _ => None,
    }
}
