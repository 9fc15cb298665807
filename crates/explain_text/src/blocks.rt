// The blocks of an input whose statements are explained.

ghost use Rattle.std.specs.Prelude.{◌≡◌, ◌++◌, IfOk, OnOk};
ghost use Rattle.answer_text.specs.declared.answer.ErrorLine.TheVariants as error;
ghost use Rattle.sql_bind.specs.Known.{declaration_of};
ghost use Rattle.explain_text.specs.Explained.{AreSound};
ghost use Rattle.explain_text.specs.Blocks.{sql_block, bind_block, refused_block, IsTextBlock, IsBlock, AreBlocks, block_text, blocks_text};

use crate::explaining::explain;
use crate::fault::ExplainFault;
use answer_text::{ErrorLine, error_line, error_text, push_all};
use input_lines::Line;
use sp_value::{Memory, Text};
use sql_bind::{BindFault, Catalog};
use sql_parser::SqlFault;
use std::alloc::Global;

/// What a line of the input is answered by: the lines of a statement's plan, `cache cleared`, an error, or want of memory.
#[derive(Drop)]
pub enum Block {
    Lines(Vec<u8>),
    Cleared,
    Refused(ErrorLine),
    Memory,
}

fn sql_block(fault: SqlFault) -> Block
    ensures { result ≡ sql_block fault }
{
    match fault {
        SqlFault::Syntax { place } => Block::Refused(ErrorLine::Syntax { place }),
        SqlFault::TooDeep { place } => Block::Refused(ErrorLine::TooDeep { place }),
        SqlFault::Memory => Block::Memory,
    }
}

fn bind_block(fault: BindFault) -> Block
    ensures { result ≡ bind_block fault }
{
    match fault {
        BindFault::UnknownConnection { place } => {
            Block::Refused(ErrorLine::UnknownConnection { place })
        }
        BindFault::UnknownTable { place } => Block::Refused(ErrorLine::UnknownTable { place }),
        BindFault::UnknownColumn { place } => Block::Refused(ErrorLine::UnknownColumn { place }),
        BindFault::Ambiguous { place } => Block::Refused(ErrorLine::Ambiguous { place }),
        BindFault::TypeMismatch { place } => Block::Refused(ErrorLine::TypeMismatch { place }),
        BindFault::TooManyTables { place } => Block::Refused(ErrorLine::TooManyTables { place }),
        BindFault::Memory => Block::Memory,
    }
}

fn refused_block(fault: ExplainFault) -> Block
    ensures { result ≡ refused_block fault }
{
    match fault {
        ExplainFault::Sql(fault) => sql_block(fault),
        ExplainFault::Bind(fault) => bind_block(fault),
        ExplainFault::MissingKeys { source, columns } => {
            Block::Refused(ErrorLine::MissingKeys { source, columns })
        }
        ExplainFault::Memory => Block::Memory,
    }
}

#[tactic(auto, using(crate::proofs::MoreBlocks::refused_text))]
fn text_block(alloc: Global, text: &Text, catalog: &Catalog) -> Block
    requires { AreSound (declaration_of catalog.now) }
    ensures { IsTextBlock catalog.now.settings (declaration_of catalog.now) text.now result }
{
    match explain(alloc, text, catalog) {
        Ok(lines) => Block::Lines(lines),
        Err(fault) => refused_block(fault),
    }
}

fn block_of(alloc: Global, line: &Line, catalog: &Catalog) -> Block
    requires { AreSound (declaration_of catalog.now) }
    ensures { IsBlock catalog.now.settings (declaration_of catalog.now) line.now result }
{
    match line {
        Line::Statement { text, .. } => text_block(alloc, text, catalog),
        Line::ClearCache { .. } => Block::Cleared,
        Line::BadForm => Block::Refused(ErrorLine::LineForm),
    }
}

/// The block of each line of an input, in their order. Sessions are passed over.
#[tactic(auto, using(crate::proofs::MoreBlocks::blocks_more))]
pub fn explain_lines(alloc: Global, lines: &[Line], catalog: &Catalog) -> Result<Vec<Block>, Memory>
    requires sound { AreSound (declaration_of catalog.now) }
    ensures { IfOk result (λ blocks. AreBlocks catalog.now.settings (declaration_of catalog.now) lines.now blocks.items) }
{
    let mut blocks = Vec::new(alloc);
    for line in lines {
        let block = block_of(alloc, line, catalog);
        let Ok(()) = blocks.push(block) else {
            return Err(Memory);
        };
    }
    Ok(blocks)
}

fn push_block(alloc: Global, text: &mut Vec<u8>, block: &Block) -> Result<(), Memory>
    ensures { OnOk result (text.new.items ≡ text.old.items ++ block_text block.now) }
{
    match block {
        Block::Lines(lines) => push_all(text, lines.as_slice()),
        Block::Cleared => push_all(text, b"cache cleared\n"),
        Block::Refused(error) => {
            let line = error_text(alloc, error)?;
            push_all(text, &line)
        }
        Block::Memory => {
            let line = error_line(alloc, "memory")?;
            push_all(text, &line)
        }
    }
}

/// The texts of blocks, with an empty line between two of them.
pub fn blocks_text(alloc: Global, blocks: &[Block]) -> Result<Vec<u8>, Memory>
    ensures { IfOk result (λ text. text.items ≡ blocks_text blocks.now) }
{
    let mut text = Vec::new(alloc);
    let mut rest = blocks;
    'more: while let [block, others @ ..] = rest {
        push_block(alloc, &mut text, block)?;
        if !others.is_empty() {
            push_all(&mut text, b"\n")?;
        }
        rest = others;
    }
    Ok(text)
}
