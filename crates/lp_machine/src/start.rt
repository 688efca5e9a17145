// The start of a search.
ghost use Rattle.std.specs.Prelude.{◌≡◌, length, IfOk};
ghost use Rattle.lp_code.specs.Length.{AllFit};

use crate::frame::Work;
use crate::heap::Heap;
use crate::layout::{Layout, layout_of};
use crate::outcome::Counts;
use crate::plan::Plan;
use crate::program::Program;
use crate::search::{Protected, Search};
use lp_base::Memory;
use lp_code::{Code, Instr};
use lp_store::CellId;
use lp_verify::Verified;
use std::alloc::Global;

// Makes the variables of the query, whose instructions stand before NECK.
fn make_variables(state: &mut Search<'_>) -> Result<(), Memory> {
    let code = state.work.code;
    for instr in code {
        if let Instr::Neck = instr {
            return Ok(());
        }
        let _built = state.build(instr)?;
        state.work.place = state.work.place.saturating_add(1);
    }
    Ok(())
}

// The first registers.
fn first_registers(state: &Search<'_>, count: u32) -> Result<Vec<CellId>, Memory>
    ensures { IfOk result (λ made. length made.items ≡ count) }
{
    let mut variables = Vec::new(state.alloc);
    for number in 0..count {
        let at = u16::try_from(number).unwrap_or(u16::MAX);
        variables.push(state.term_in(at))?;
    }
    Ok(variables)
}

// A search before its query, which takes no memory.
fn new_search<'i>(
    alloc: Global,
    program: Program<'i>,
    layout: Layout<'i>,
    steps: u64,
) -> Search<'i> {
    Search {
        alloc,
        program,
        layout,
        heap: Heap::new(alloc),
        frames: Vec::new(alloc),
        protected: Protected {
            frames: 0,
            registers: 0,
        },
        negations: Vec::new(alloc),
        work: Work::behind_all(None, 0, 0),
        counts: Counts {
            limit: steps,
            steps: 0,
            row: 0,
            lost: false,
        },
        name: Vec::new(alloc),
    }
}

/// A search of the query, in at most as many steps, before its first goal; and the cells of the query's variables, in order.
pub(crate) fn begin<'i>(
    alloc: Global,
    image: &'i Verified,
    plan: &'i Plan,
    query: &'i Code,
    variables: u32,
    steps: u64,
) -> Result<(Search<'i>, Vec<CellId>), Memory>
    requires image { AllFit image.now.image.code.records.items }
    requires query { AllFit query.now.records.items }
    ensures variables { IfOk result (λ begun. length begun.1.items ≡ variables) }
{
    let of = image.image();
    let program = Program {
        image: of,
        clauses: of.code.records.as_slice(),
        query: query.records.as_slice(),
    };
    let layout = layout_of(alloc, plan, of, program.clause_count(), query)?;
    let mut state = new_search(alloc, program, layout, steps);
    state.begin_query()?;
    make_variables(&mut state)?;
    let made = first_registers(&state, variables)?;
    Ok((state, made))
}
