//! What a domain declares: the second and the third phase of reading, from the parts of a domain to its tables.
#![tactic(auto)]

pub mod action_row;
pub mod actions;
pub mod declaration;
pub mod declarations;
pub mod declaring;
pub mod functions;
pub mod head;
pub mod kinds;
pub mod laws;
pub mod parameters;
pub mod rows;
pub mod symbols;
pub mod table;
pub mod tables;
pub mod types;

pub use action_row::ActionRow;
pub use declaration::{ActionDeclaration, Declaration};
pub use declarations::{Declarations, read_declarations};
pub use declaring::declare;
pub use functions::FunctionTable;
pub use table::{ActionTable, SymbolTable};
pub use tables::DeclaredDomain;
