// Names, columns and literals.

ghost use Rattle.std.specs.Prelude.{◌≡◌, OnOk};
ghost use Rattle.sql_print.specs.Said as say;
ghost use Rattle.sql_print.specs.Spelling.{writes};
ghost use Rattle.sql_print.specs.Page.{state};

use crate::page::Page;
use sp_value::{Memory, Op};
use sql_grammar::{Constant, Literal, Name, Operand, Ref};
use sql_lex::Kind;

pub fn name(page: &mut Page, name: &Name) -> Result<(), Memory>
    ensures { OnOk result (state page.new ≡ writes (state page.old) (say.said_name name.now)) }
{
    page.name(&name.text)
}

/// `as` and a name, where there is one.
#[tactic(auto, using(crate::proofs::Writing::writes_append))]
pub fn alias(page: &mut Page, alias: &Option<Name>) -> Result<(), Memory>
    ensures { OnOk result (state page.new ≡ writes (state page.old) (say.said_alias alias.now)) }
{
    match alias {
        None => Ok(()),
        Some(found) => {
            page.word(Kind::As)?;
            name(page, found)
        }
    }
}

#[tactic(auto, using(crate::proofs::Writing::writes_append))]
pub fn column(page: &mut Page, of: &Ref) -> Result<(), Memory>
    ensures { OnOk result (state page.new ≡ writes (state page.old) (say.said_ref of.now)) }
{
    match &of.source {
        None => name(page, &of.column),
        Some(source) => {
            name(page, source)?;
            page.word(Kind::Dot)?;
            name(page, &of.column)
        }
    }
}

fn constant(page: &mut Page, constant: &Constant) -> Result<(), Memory>
    ensures { OnOk result (state page.new ≡ writes (state page.old) (say.said_constant constant.now)) }
{
    match constant {
        Constant::Null => page.word(Kind::Null),
        Constant::Bool(b) => page.word(if *b { Kind::True } else { Kind::False }),
        Constant::Int(n) => page.integer(*n),
        Constant::Text(text) => page.text(text),
    }
}

pub fn literal(page: &mut Page, literal: &Literal) -> Result<(), Memory>
    ensures { OnOk result (state page.new ≡ writes (state page.old) (say.said_literal literal.now)) }
{
    constant(page, &literal.constant)
}

pub fn operand(page: &mut Page, operand: &Operand) -> Result<(), Memory>
    ensures { OnOk result (state page.new ≡ writes (state page.old) (say.said_operand operand.now)) }
{
    match operand {
        Operand::Ref(of) => column(page, of),
        Operand::Literal(found) => literal(page, found),
    }
}

pub fn op_kind(op: Op) -> Kind
    ensures { result ≡ say.op_kind op }
{
    match op {
        Op::Eq => Kind::Equal,
        Op::Ne => Kind::NotEqual,
        Op::Lt => Kind::Less,
        Op::Le => Kind::AtMost,
        Op::Gt => Kind::Greater,
        Op::Ge => Kind::AtLeast,
    }
}
