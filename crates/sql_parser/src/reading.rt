// The statement that a text is.

ghost use Rattle.std.specs.Prelude.{◌≡◌, IfOk, IfErr, length};
ghost use Rattle.sql_lex.specs.Lex.{tokens};
ghost use Rattle.sql_grammar.specs.Grammar.{StatementPhrase};
ghost use Rattle.sql_grammar.specs.Theorem.{depth};
ghost use Rattle.sql_grammar.specs.declared.ast.Statement.{Statement};
ghost use Rattle.sql_parser.specs.Answer.{place_of, IsFaultOf, IsUnlessMemory};

use crate::fault::SqlFault;
use sql_grammar::{Statement, Stop, parse as parse_tokens};
use sql_lex::{Token, lex};
use std::alloc::Global;

fn place(rest: &[Token], end: u64) -> u64
    ensures { result ≡ place_of rest.now end }
{
    match rest {
        [] => end,
        [first, ..] => first.place,
    }
}

/// The statement that a text is, or the first place where it is none.
pub fn parse(alloc: Global, text: &str) -> Result<Statement, SqlFault>
    // What is read is what the grammar says of the text.
    ensures found { IfOk result (λ s. StatementPhrase depth (tokens text.now) s) }
    // A statement of the grammar is read.
    ensures only { (s : Statement) → StatementPhrase depth (tokens text.now) s → IsUnlessMemory result s }
    // A fault is the first one.
    ensures refused { IfErr result (λ e. IsFaultOf text.now e) }
{
    let tokens = lex(alloc, text)?;
    match parse_tokens(alloc, tokens.as_slice()) {
        Ok(statement) => Ok(statement),
        Err(Stop::Memory) => Err(SqlFault::Memory),
        Err(Stop::Fault { deep, rest }) => {
            let place = place(rest, text.len() as u64);
            if deep {
                Err(SqlFault::TooDeep { place })
            } else {
                Err(SqlFault::Syntax { place })
            }
        }
    }
}
