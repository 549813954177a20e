//! The lowering of a function's body.
ghost use Rattle.std.specs.Prelude.{◌≡◌, take, IfOk, OnOk};
ghost use Rattle.c_lower_stmt.specs.Bodies.{IsBody, function_in};
ghost use Rattle.c_worlds.specs.Programs.{HasNames};
ghost use Rattle.lowered_forms.specs.Lows.{ended};
ghost use Rattle.lowered_statements.specs.FunctionBodies.{lowered_in};
ghost use Rattle.lowered_statements.specs.Returns.{end_by};
ghost use Rattle.statement_steps.specs.Functions.{function_of};
ghost use Rattle.statement_steps.specs.Progresses.{Does, Goes};

use crate::statements::statement;
use c_meaning::CoreFunction;
use c_types::TypeId;
use c_worlds::Program;
use lcc_base::Memory;
use lowering_acts::Site;
use lowering_steps::{OpenBlock, State};
use statement_steps::{
    Exits, FunctionSite, Labels, Layout, Progress, first_word, give_nothing, lay_out, result_of,
    store_parameters,
};
use std::alloc::Global;

/// The body of the function of this number, whose tables are named from this name on. `Memory` comes where an allocation is refused, where
/// a block or the frame is full or no label is left, and where no checked unit has the function.
pub fn lower_body(
    alloc: Global,
    program: &Program,
    number: u32,
    tables: u32,
    f: &CoreFunction,
) -> Result<Progress, Memory>
    requires { HasNames program.now }
    ensures { IfOk result (λ p. IsBody program.now number tables f.now p) }
{
    let labels = Labels::of(alloc, &f.body)?;
    let Layout { places, frame } = lay_out(alloc, program.core.types(), f)?;
    let function = FunctionSite {
        site: Site {
            program: Program {
                core: program.core,
                order: program.order,
                names: program.names,
            },
            parameters: f.parameters,
            places: places.as_slice(),
        },
        locals: f.locals.as_slice(),
        result: result_of(program.core.types(), f.of),
        gives_zero: number == program.core.main(),
        labels: &labels,
        tables,
    };
    let mut into = Progress {
        state: State {
            done: Vec::new(alloc),
            block: OpenBlock::new(alloc),
            frame,
            labels: labels.count()?,
        },
        tables: Vec::new(alloc),
    };
    fill(&function, f, &mut into)?;
    Ok(into)
}

// A function's body behind what is there: narrow parameters are stored, then come the statements, and the end, at which main gives 0.
fn fill(site: &FunctionSite, f: &CoreFunction, into: &mut Progress) -> Result<(), Memory>
    requires { HasNames site.now.site.program }
    ensures { OnOk result (Does (λ b. lowered_in (function_of site.now) (function_in site.now.site.program f.now) b) into.old into.new) }
{
    let first = first_word(site.site.program.core.types(), f);
    store_parameters(site, first, parameters(f), &mut into.state.block)?;
    let nowhere = Exits {
        breaks: 0,
        continues: 0,
    };
    statement(site, nowhere, &f.body, into)?;
    finish(site.gives_zero, &mut into.state)
}

// The end of a body, at which main gives 0.
fn finish(zero: bool, into: &mut State) -> Result<(), Memory>
    ensures { OnOk result (Goes (λ l. ended (end_by zero l)) into.old into.new) }
{
    if zero {
        give_nothing(true, &mut into.block)?;
        into.end()
    } else {
        into.end()
    }
}

// The types of a function's parameters.
fn parameters(f: &CoreFunction) -> &[TypeId]
    ensures { result.now ≡ take f.now.parameters f.now.locals }
{
    let locals = f.locals.as_slice();
    let count = locals.len().min(f.parameters as usize);
    &locals[..count]
}
