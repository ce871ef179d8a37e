/// The profile of the language in which a text is written.
#[derive(Clone, Copy)]
pub enum Profile {
    /// The language without loops, in which a text begins with `main`.
    One,
    /// The language with loops and numbers, in which a text begins with `revs 2`.
    Two,
}
