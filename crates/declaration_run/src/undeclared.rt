use decl_words::DeclFault;
use sp_value::{Memory, Text};

/// Why a statement has no declaration of a connection: it is refused; it differs from that of another one which an aggregator stands for,
/// too; the connection's restarts are spent; or memory is wanting.
#[derive(Drop)]
pub enum Undeclared {
    Refused { connection: Text, fault: DeclFault },
    Differs { connection: Text },
    RestartsSpent { connection: Text, losses: u32 },
    Memory,
}
