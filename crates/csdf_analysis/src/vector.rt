//! How often the actors fire in a period.

/// How often each actor fires in one period, in file order (Lee and Messerschmitt 1987).
#[derive(Debug, Drop)]
pub struct Vector {
    /// How many cycles of all its phases each actor makes.
    pub r: Vec<u32>,
    /// How many firings that are: the actor's phases times its cycles.
    pub q: Vec<u32>,
}
