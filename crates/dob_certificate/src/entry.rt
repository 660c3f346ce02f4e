// A class with a number of plies, as a certificate lists it.

/// In place of a number of plies of a class that is never lost.
pub const EVER: u16 = 65_535;

/// A class by its number, and a number of plies: the class is lost within these, or it isn't, as its list says.
#[derive(Clone, Copy)]
pub struct Entry {
    pub class: u32,
    pub plies: u16,
}
