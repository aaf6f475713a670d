/// The types of internal pages of trees.
#[derive(Clone, Copy, Debug, PartialEq, Eq)]
pub enum InnerType {
    /// Pages of type 3 with keys, over leaves of pairs or of sorted data.
    Keyed,
    /// Pages of type 4, which count records.
    Numbered,
}
