/// What a value is to its keyword in the header of a dump text.
#[derive(Clone, Copy, Debug, PartialEq, Eq)]
pub enum Judged {
    Fits,
    Bad,
    /// What it asks for isn't supported.
    LeftOut,
}
