// The kinds of cases.
use cubes::Method;

#[derive(Clone, Copy)]
pub(crate) enum Kind {
    Lookup,
    Layout,
    Node,
    Weight,
    Weights,
    Blend(Method),
    Constant,
    Clut,
    Slab,
    Units,
    Skipping,
    Write,
    Read,
}

impl Kind {
    // The kind of a number in the list.
    pub(crate) fn of(number: usize) -> Option<Kind> {
        match number {
            1 => Some(Kind::Lookup),
            2 => Some(Kind::Layout),
            3 => Some(Kind::Node),
            4 => Some(Kind::Weight),
            5 => Some(Kind::Weights),
            6 => Some(Kind::Blend(Method::Pyramidal)),
            7 => Some(Kind::Blend(Method::Prismatic)),
            8 => Some(Kind::Blend(Method::Trilinear)),
            9 => Some(Kind::Constant),
            10 => Some(Kind::Clut),
            11 => Some(Kind::Slab),
            12 => Some(Kind::Units),
            13 => Some(Kind::Skipping),
            14 => Some(Kind::Write),
            15 => Some(Kind::Read),
            _ => None,
        }
    }
}
