//! Worked cases of parity and of decoding: the field, registers, columns, sums that are folded, parity in pieces and at
//! each start, and the words of made discs.
#![tactic(auto)]

#[cfg(test)]
mod column_rows;
#[cfg(test)]
mod columns;
#[cfg(test)]
mod field;
#[cfg(test)]
mod field_rows;
#[cfg(test)]
mod images;
#[cfg(test)]
mod parity;
#[cfg(test)]
mod registers;
#[cfg(test)]
mod slides;
#[cfg(test)]
mod trials;
