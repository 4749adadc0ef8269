ghost use Rattle.std.specs.Prelude.{◌≡◌};
ghost use Rattle.script_text.specs.Rows.{script_kind_of, fields_in};

/// What the first field of a row names.
#[derive(Clone, Copy, Debug, PartialEq, Eq)]
pub(crate) enum Kind {
    Pair,
    Ask,
    Request,
    Grant,
    Take,
    Tell,
    Publish,
    Hear,
    Crash,
    End,
}

impl Kind {
    pub(crate) fn of(name: &[u8]) -> Option<Kind>
        ensures { result ≡ script_kind_of name.now }
    {
        if name == b"pair".as_slice() {
            Some(Kind::Pair)
        } else if name == b"ask".as_slice() {
            Some(Kind::Ask)
        } else if name == b"request".as_slice() {
            Some(Kind::Request)
        } else if name == b"grant".as_slice() {
            Some(Kind::Grant)
        } else if name == b"take".as_slice() {
            Some(Kind::Take)
        } else if name == b"tell".as_slice() {
            Some(Kind::Tell)
        } else if name == b"publish".as_slice() {
            Some(Kind::Publish)
        } else if name == b"hear".as_slice() {
            Some(Kind::Hear)
        } else if name == b"crash".as_slice() {
            Some(Kind::Crash)
        } else if name == b"end".as_slice() {
            Some(Kind::End)
        } else {
            None
        }
    }

    /// How many fields a row of the kind has, with the one that names it.
    pub(crate) fn fields(self) -> usize
        ensures { result ≡ fields_in self }
    {
        match self {
            Kind::End => 1,
            Kind::Request | Kind::Grant | Kind::Publish | Kind::Crash => 2,
            Kind::Take | Kind::Tell | Kind::Hear => 3,
            Kind::Pair | Kind::Ask => 4,
        }
    }
}
