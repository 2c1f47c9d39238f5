//! Tests of the lexer and of the readers of types, expressions, statements and programs, as rows of a text and what is told of it.
#![tactic(auto)]

#[cfg(test)]
mod expression_rows;
#[cfg(test)]
mod expression_tests;
#[cfg(test)]
mod rows;
#[cfg(test)]
mod statement_rows;
#[cfg(test)]
mod statement_tests;
#[cfg(test)]
mod telling;
#[cfg(test)]
mod tests;
#[cfg(test)]
mod token_rows;
#[cfg(test)]
mod token_tests;
#[cfg(test)]
mod type_rows;
#[cfg(test)]
mod type_tests;
