ghost use Rattle.std.specs.Prelude.{◌≡◌};
ghost use Rattle.dw_nest.specs.Places.{other_place};
ghost use Rattle.dw_nest.specs.Search.{need_of_and, need_of_or};

/// Where a part of a tree stands: negative below an odd number of Nots, else positive. At a
/// positive place the keys are looked for at which its value is not No, at a negative place those
/// at which it is not Yes.
#[derive(Clone, Copy, Debug)]
pub enum Place {
    Positive,
    Negative,
}

/// How many of a node's children have to pass at a key so that the node does.
#[derive(Clone, Copy, Debug)]
pub(crate) enum Need {
    All,
    Any,
}

impl Place {
    pub(crate) fn below_not(self) -> Place
        ensures { result ≡ other_place self }
    {
        match self {
            Place::Positive => Place::Negative,
            Place::Negative => Place::Positive,
        }
    }

    pub(crate) fn need_of_and(self) -> Need
        ensures { result ≡ need_of_and self }
    {
        match self {
            Place::Positive => Need::All,
            Place::Negative => Need::Any,
        }
    }

    pub(crate) fn need_of_or(self) -> Need
        ensures { result ≡ need_of_or self }
    {
        match self {
            Place::Positive => Need::Any,
            Place::Negative => Need::All,
        }
    }
}
