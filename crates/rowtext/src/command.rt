/// What the words after a program's name ask for.
#[derive(Clone, Copy, Debug)]
pub enum Command {
    /// The call doesn't know the words.
    Unknown,
    /// An answer to all the bytes of the input.
    WithInput,
    /// An answer that needs no input. Nothing is read.
    WithoutInput,
}
