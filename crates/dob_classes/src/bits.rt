// Boards that show positions, made with no list of cells.

pub(crate) mod bit_placing;
pub(crate) mod image_places;
