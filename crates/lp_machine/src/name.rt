// The names of goals, as a note tells them.

use crate::search::Search;
use itoa::Buffer;
use lp_base::{Compare, Memory};
use lp_impl::Head;
use lp_standard::{Constant, FIRST_CONSTANT};
use lp_watch::{Crowd, Note, Watch};

fn order_constant(order: Compare) -> Constant {
    match order {
        Compare::Less => Constant::Less,
        Compare::Greater => Constant::Greater,
        Compare::AtMost => Constant::AtMost,
        Compare::AtLeast => Constant::AtLeast,
    }
}

// Puts a sign and a number in the place of another name.
fn put_level(name: &mut Vec<u8>, level: u64) -> Result<(), Memory> {
    let mut buffer = Buffer::new();
    name.clear();
    name.push(b'#')?;
    name.extend_from_slice(buffer.format(level).as_bytes())?;
    Ok(())
}

/// Tells that a goal is taken whose head has no name.
pub(crate) fn tell_variable<W: Watch>(crowd: &mut Crowd<'_, W>) -> Result<(), Memory> {
    crowd.tell(Note::Goal(b"_"))
}

/// Tells that a goal is taken whose head is a constant of the language.
pub(crate) fn tell_standard<W: Watch>(
    crowd: &mut Crowd<'_, W>,
    constant: Constant,
) -> Result<(), Memory> {
    crowd.tell(Note::Goal(constant.name()))
}

/// Tells that a goal is taken that compares integers.
pub(crate) fn tell_order<W: Watch>(crowd: &mut Crowd<'_, W>, order: Compare) -> Result<(), Memory> {
    tell_standard(crowd, order_constant(order))
}

impl<'i> Search<'i> {
    fn tell_constant<W: Watch>(&self, crowd: &mut Crowd<'_, W>, number: u32) -> Result<(), Memory> {
        if let Some(constant) = Constant::from_number(number) {
            return tell_standard(crowd, constant);
        }
        let place = number.saturating_sub(FIRST_CONSTANT) as usize;
        let hidden = self.layout.hidden_name(place);
        if !hidden.is_empty() {
            return crowd.tell(Note::Goal(hidden));
        }
        match self.program.image.constants.get(place) {
            Some(constant) => crowd.tell(Note::Goal(constant.name.as_slice())),
            None => tell_variable(crowd),
        }
    }

    /// Tells that an atom is taken.
    pub(crate) fn tell_head<W: Watch>(
        &mut self,
        crowd: &mut Crowd<'_, W>,
        head: Head,
    ) -> Result<(), Memory> {
        match head {
            Head::Const(number) => self.tell_constant(crowd, number),
            Head::Eigen(level) => {
                put_level(&mut self.name, level)?;
                crowd.tell(Note::Goal(self.name.as_slice()))
            }
        }
    }
}
