// Files as they were loaded.
ghost use Rattle.std.specs.Prelude.{◌≡◌, ◌≤◌, ◌<◌, ◌^◌, Option, IfSome, MatchOption, length, string_bytes, true};
ghost use Rattle.lp_base.specs.declared.limits.TheConstants.{MAX_MODULES};
ghost use Rattle.lp_base.specs.Held.{Held};
ghost use Rattle.lp_build.specs.Named.{IsFileAt, IsFileNamed};
ghost use Rattle.lp_build.specs.Told.{IsTold, AreLoaded};

use lp_lexer::Token;
use lp_syntax::References;

/// The files of a set of modules, in load order. After a refusal the name of the file at fault stands behind them.
#[derive(Drop)]
pub struct Sources {
    pub(crate) files: Vec<File>,
    pub(crate) refused: Option<String>,
}

// Which of the two texts of a module a file is.
#[derive(Clone, Copy, PartialEq, Eq)]
pub(crate) enum Part {
    Signature,
    Module,
}

// A file: its name, with `.sig` or `.mod`, the name of its module, and what was read.
#[derive(Drop)]
pub(crate) struct File {
    pub name: String,
    pub module: String,
    pub part: Part,
    pub text: Text,
}

// What was read of a file, its tokens, and what it says of other files and of operators.
#[derive(Drop)]
pub(crate) struct Text {
    pub bytes: Vec<u8>,
    pub tokens: Vec<Token>,
    pub references: References,
}

// A place as a number of 32 bits; no list of files or names is longer.
pub(crate) fn as_number(place: usize) -> u32
    ensures below { result ≤ place }
    ensures same { place < 2 ^ 32 → result ≡ place }
{
    place.min(u32::MAX as usize) as u32
}

// Whether a file has this name.
fn is_named(file: &File, name: &str) -> bool
    ensures { result ≡ true → string_bytes file.now.name ≡ name.now }
{
    file.name.as_str() == name
}

impl Sources {
    /// The name of a loaded file, with its ending, and its bytes.
    pub fn file(&self, number: u32) -> Option<(&str, &[u8])>
        ensures told { (told : Option Held) → AreLoaded told self.now → IfSome result (λ file. IsTold told file.0.now file.1.now) }
        ensures found { MatchOption result (length self.now.files.items ≤ number) (λ file. IsFileAt self.now.files.items number file.0.now file.1.now) }
    {
        match self.files.get(number as usize) {
            Some(found) => Some((found.name.as_str(), found.text.bytes.as_slice())),
            None => None,
        }
    }

    /// The number of the file of this name, with its ending.
    pub fn number_of(&self, name: &str) -> Option<u32>
        ensures { length self.now.files.items ≤ MAX_MODULES → IfSome result (λ number. IsFileNamed self.now.files.items number name.now) }
    {
        for at in 0..self.files.len() {
            let file = &self.files[at];
            if is_named(file, name) {
                return Some(as_number(at));
            }
        }
        None
    }

    /// The name of the file at fault, with its ending, after a refusal of loading.
    pub fn fault_name(&self) -> &str
        ensures { IfSome self.now.refused (λ name. result.now ≡ string_bytes name) }
    {
        match &self.refused {
            Some(name) => name.as_str(),
            None => "",
        }
    }
}
