// The kinds of rows.
ghost use Rattle.std.specs.Prelude.{◌≡◌};
ghost use Rattle.trace_text.specs.Rows.{kind_of, may_have};

/// What the first field of a row names.
#[derive(Clone, Copy, Debug, PartialEq, Eq)]
pub enum Kind {
    Net,
    Ask,
    Lose,
    Twice,
    Hold,
    Boot,
    Raw,
    Put,
    End,
}

impl Kind {
    pub fn of(name: &[u8]) -> Option<Kind>
        ensures { result ≡ kind_of name.now }
    {
        if name == b"net".as_slice() {
            Some(Kind::Net)
        } else if name == b"ask".as_slice() {
            Some(Kind::Ask)
        } else if name == b"lose".as_slice() {
            Some(Kind::Lose)
        } else if name == b"twice".as_slice() {
            Some(Kind::Twice)
        } else if name == b"hold".as_slice() {
            Some(Kind::Hold)
        } else if name == b"boot".as_slice() {
            Some(Kind::Boot)
        } else if name == b"raw".as_slice() {
            Some(Kind::Raw)
        } else if name == b"put".as_slice() {
            Some(Kind::Put)
        } else if name == b"end".as_slice() {
            Some(Kind::End)
        } else {
            None
        }
    }

    /// Whether a row of the kind may have so many fields, with the one that names it. A boot may leave out its version.
    pub fn may_have(self, fields: usize) -> bool
        ensures { result ≡ may_have self fields }
    {
        match self {
            Kind::End => fields == 2,
            Kind::Raw | Kind::Put => fields == 3,
            Kind::Boot => fields == 3 || fields == 4,
            Kind::Net | Kind::Lose | Kind::Twice => fields == 4,
            Kind::Ask | Kind::Hold => fields == 5,
        }
    }
}
