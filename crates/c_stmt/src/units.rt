//! The reader of units.
ghost use Rattle.std.specs.Prelude.{◌≡◌, ◌≤◌, None, Some, length, IfOk, IfErr};
ghost use Rattle.c_ast.specs.UnitViews.{unit_of as unit_tree};
ghost use Rattle.c_lexer.specs.SourceUnits.{DenotesUnit};
ghost use Rattle.c_readings.specs.Readers.{readers};
ghost use Rattle.c_readings.specs.UnitReaders as reader;
ghost use Rattle.c_expr.specs.State.{ahead};
ghost use Rattle.c_decl.specs.Going.{Goes, Breaks, Fails};
ghost use Rattle.c_stmt.specs.Seen.{unit_seen};
ghost use Rattle.c_stmt.specs.Units.{Refuses};

use crate::exact::exact;
use crate::externals::external_at;
use crate::nodes::unit_of;
use c_ast::{Unit, marks_run};
use c_decl::{first, keep, line_at, refuse};
use c_expr::{Parser, SyntaxFault};
use c_lexer::{one_lexing, one_list, placed_tokens};
use c_readings::units_are_exact;
use lcc_base::Items;
use std::alloc::Global;

/// The unit that a source denotes. Lex comes exactly where the source can't be cut into tokens, NoParse
/// exactly where it is cut and denotes no unit of a height of at most 500, with the line of the token by
/// which nothing goes on, at the end that of the last token, and 1 where there is none; and Memory where
/// an allocation is refused. Source: C89 3.7.
pub fn unit(alloc: Global, source: &[u8]) -> Result<Unit, SyntaxFault>
    requires { length source.now ≤ 16777216 }
    ensures ok { IfOk result (λ u. DenotesUnit source.now (unit_tree u)) }
    ensures err { IfErr result (λ e. Refuses source.now e) }
{
    marks_run();
    one_list();
    one_lexing();
    placed_tokens();
    units_are_exact();
    let mut parser = Parser::new(alloc, source)?;
    unit_at(&mut parser, 500)
}

/// External declarations up to the end, at least one, if the unit is no higher than the limit.
#[tactic(auto, unfolding(c_readings::specs::UnitReaders::unit))]
fn unit_at(p: &mut Parser, limit: u32) -> Result<Unit, SyntaxFault>
    requires sound { p.old.fault ≡ None }
    requires limit { limit ≤ 500 }
    ensures ok { IfOk result (λ u. reader.unit readers limit (ahead p.old) ≡ Some (unit_seen u, ahead p.new)) }
    ensures none { IfErr result (λ e. Fails e (reader.unit readers limit (ahead p.old))) }
    ensures going { IfOk result (λ u. Goes 1 p.old p.new) }
    ensures broken { IfErr result (λ e. Breaks p.old p.new e) }
{
    if limit == 0 {
        return Err(refuse(p));
    }
    let line = line_at(p);
    let mut externals = Items::new(p.alloc());
    let mut is_first = true;
    while first(p).is_some() {
        let external = external_at(p, limit - 1, is_first)?;
        keep(p, &mut externals, external)?;
        is_first = false;
    }
    if is_first {
        return Err(refuse(p));
    }
    Ok(unit_of(line, exact(externals)))
}
