use lp_standard::Fixity;

/// A constant as it is shown: its number in the program, its name, which of the hidden constants of this name it is, from 1, and 0 where it is not
/// hidden, and its fixity and number where it is an operator.
#[derive(Drop)]
pub struct Entry {
    pub number: u32,
    pub name: Vec<u8>,
    pub hidden: u16,
    pub fixity: Option<(Fixity, u8)>,
}

/// The constants of a program that are not standard, each once.
#[derive(Drop)]
pub struct Glossary {
    pub entries: Vec<Entry>,
}
