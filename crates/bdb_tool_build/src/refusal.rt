/// Why nothing is built, with the line that says so.
#[derive(Drop)]
pub enum Refusal {
    /// The line of the text's first fault, or of the first load error of its sections.
    Faulty(String),
    /// The line that the image would have more bytes than the limit.
    TooLarge(String),
    /// Memory ran out.
    Memory,
}
