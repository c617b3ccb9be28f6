//! Extension M of RV64I: multiplication and division.
//!
//! The model is the table of its 13 rows, and for each row a function of two values over whole numbers: a product, the high half of
//! one, a quotient or a remainder. The rows stand in `rv_decode` beside the 52 of RV64I; which of the two a name is of is said there.
//! What one instruction of all 65 rows does is `execution_by` of `rv_execute` over one table of both.
//!
//! | Module | What it has |
//! |---|---|
//! | `table` | `rv64m`, the table of the 13 rows |
//! | `words` | `decode_m` and `encode_m`: from a word and back to it; `Rv64im`, the table of all 65 rows as a type |
//! | `arithmetic` | products, quotients and remainders of 64 bits |
//! | `effects` | `multiply`: what each row makes of two values, a line a row |
//! | `execute` | `execute_m`: one instruction of all 65 rows |
//! | `instructions` | `Instructions`: the table of RV64I or that of both, by a constant |
#![tactic(auto)]

mod arithmetic;
mod effects;
mod execute;
mod instructions;
mod table;
#[cfg(test)]
mod tests;
mod words;

pub use effects::multiply;
pub use execute::execute_m;
pub use instructions::Instructions;
pub use table::rv64m;
pub use words::{Rv64im, decode_m, encode_m};
