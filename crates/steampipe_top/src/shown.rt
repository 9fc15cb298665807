// Answers as they are shown: each field is moved over.

ghost use Rattle.std.specs.Prelude.{◌≡◌};
ghost use Rattle.steampipe_top.specs.Shown.{shown_sql, shown_bind, declaration_fault, shown_declaration, shown_fault, scan_failure, shown_failure, shown_end, shown_answer, shown_block};

use answer_text::{DeclarationFault, ErrorLine, ShownEnd};
use decl_words::DeclFault;
use run_lines::Block;
use sp_model::Cause;
use sp_value::Text;
use sql_bind::BindFault;
use sql_parser::SqlFault;
use statement_run::{Answer, AnswerEnd, BlockFault};

/// A block as it is shown.
#[derive(Drop)]
pub(crate) struct ShownBlock {
    pub(crate) session: u32,
    pub(crate) answer: answer_text::Answer,
}

fn shown_sql(fault: SqlFault) -> ShownEnd
    ensures { result ≡ shown_sql fault }
{
    match fault {
        SqlFault::Syntax { place } => ShownEnd::Error(ErrorLine::Syntax { place }),
        SqlFault::TooDeep { place } => ShownEnd::Error(ErrorLine::TooDeep { place }),
        SqlFault::Memory => ShownEnd::Memory,
    }
}

fn shown_bind(fault: BindFault) -> ShownEnd
    ensures { result ≡ shown_bind fault }
{
    match fault {
        BindFault::UnknownConnection { place } => {
            ShownEnd::Error(ErrorLine::UnknownConnection { place })
        }
        BindFault::UnknownTable { place } => ShownEnd::Error(ErrorLine::UnknownTable { place }),
        BindFault::UnknownColumn { place } => ShownEnd::Error(ErrorLine::UnknownColumn { place }),
        BindFault::Ambiguous { place } => ShownEnd::Error(ErrorLine::Ambiguous { place }),
        BindFault::TypeMismatch { place } => ShownEnd::Error(ErrorLine::TypeMismatch { place }),
        BindFault::TooManyTables { place } => ShownEnd::Error(ErrorLine::TooManyTables { place }),
        BindFault::Memory => ShownEnd::Memory,
    }
}

/// Why a declaration is refused, and in which table; nothing for want of memory.
pub(crate) fn declaration_fault(fault: DeclFault) -> Option<(DeclarationFault, u64)>
    ensures { result ≡ declaration_fault fault }
{
    match fault {
        DeclFault::Shape { table } => Some((DeclarationFault::Shape, table)),
        DeclFault::DuplicateName { table } => Some((DeclarationFault::DuplicateName, table)),
        DeclFault::UnknownFunction { table } => Some((DeclarationFault::UnknownFunction, table)),
        DeclFault::Cycle { table, functions } => {
            Some((DeclarationFault::Cycle { functions }, table))
        }
        DeclFault::SubsetKeyIsHydrated { table } => {
            Some((DeclarationFault::SubsetKeyIsHydrated, table))
        }
        DeclFault::NoAccess { table } => Some((DeclarationFault::NoAccess, table)),
        DeclFault::Limit { table } => Some((DeclarationFault::Limit, table)),
        DeclFault::Memory => None,
    }
}

fn shown_declaration(connection: Text, fault: DeclFault) -> ShownEnd
    ensures { result ≡ shown_declaration connection fault }
{
    match declaration_fault(fault) {
        Some((fault, table)) => ShownEnd::Error(ErrorLine::BadDeclaration {
            connection,
            fault,
            table,
        }),
        None => ShownEnd::Memory,
    }
}

fn shown_fault(fault: BlockFault) -> ShownEnd
    ensures { result ≡ shown_fault fault }
{
    match fault {
        BlockFault::LineForm => ShownEnd::Error(ErrorLine::LineForm),
        BlockFault::NotYet => ShownEnd::Error(ErrorLine::NotYet),
        BlockFault::Sql(fault) => shown_sql(fault),
        BlockFault::Bind(fault) => shown_bind(fault),
        BlockFault::BadDeclaration { connection, fault } => shown_declaration(connection, fault),
        BlockFault::DeclarationsDiffer { connection } => {
            ShownEnd::Error(ErrorLine::DeclarationsDiffer { connection })
        }
        BlockFault::MissingKeys { source, columns } => {
            ShownEnd::Error(ErrorLine::MissingKeys { source, columns })
        }
    }
}

fn scan_failure(scan: u64, row: u64, cause: Cause) -> ErrorLine
    ensures { result ≡ scan_failure scan row cause }
{
    match cause {
        Cause::BadVersion(text) => ErrorLine::VersionFailed { scan, text },
        cause => ErrorLine::ScanFailed { scan, row, cause },
    }
}

fn shown_failure(scan: u64, row: u64, column: Option<Text>, cause: Cause) -> ErrorLine
    ensures { result ≡ shown_failure scan row column cause }
{
    match column {
        None => scan_failure(scan, row, cause),
        Some(column) => ErrorLine::ColumnFailed {
            scan,
            row,
            column,
            cause,
        },
    }
}

fn shown_end(end: AnswerEnd) -> ShownEnd
    ensures { result ≡ shown_end end }
{
    match end {
        AnswerEnd::Rows(rows) => ShownEnd::Rows(rows),
        AnswerEnd::Refused(fault) => shown_fault(fault),
        AnswerEnd::ScanFailed {
            scan,
            row,
            column,
            cause,
        } => ShownEnd::Error(shown_failure(scan, row, column, cause)),
        AnswerEnd::RestartsSpent { connection, losses } => {
            ShownEnd::Error(ErrorLine::RestartsSpent { connection, losses })
        }
        AnswerEnd::Memory => ShownEnd::Memory,
    }
}

fn shown_answer(answer: Answer) -> answer_text::Answer
    ensures { result ≡ shown_answer answer }
{
    let Answer {
        end,
        names,
        kinds,
        notes,
        began,
    } = answer;
    answer_text::Answer {
        end: shown_end(end),
        names,
        kinds,
        notes,
        began,
    }
}

/// A block as it is shown, without a copy.
pub(crate) fn shown_block(block: Block) -> ShownBlock
    ensures { result ≡ shown_block block }
{
    let Block { session, answer } = block;
    ShownBlock {
        session,
        answer: shown_answer(answer),
    }
}
