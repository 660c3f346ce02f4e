// Layers: what stands on a square, in the order in which a key lists the squares.

/// What stands on a square. Hens are counted with the chicks.
#[derive(Clone, Copy)]
pub enum Layer {
    OwnLion,
    EnemyLion,
    Chicks,
    Elephants,
    Giraffes,
    Empty,
}
