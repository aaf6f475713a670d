/// Why a text wasn't written whole.
#[derive(Clone, Copy, Debug, PartialEq, Eq)]
pub enum Cut {
    WriteFault,
    Memory,
}
