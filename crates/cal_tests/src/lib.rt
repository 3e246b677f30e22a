//! Tests of what Calyx's crates give and the whole program doesn't show: canonical texts of designs with control, and what designs weigh.
//!
//!     designs      whole designs, printed
//!     printed      each construct, printed
//!     deep_guard   a guard with 1,953 `!`, printed
//!     weights      weights, and words of memories
//!
//! What the program does show, text by text, stands in the lists of `filc_cases`: tokens, grammar, nesting, and each of C1 to C12.
#![tactic(auto)]

#[cfg(test)]
mod case;
#[cfg(test)]
mod deep_guard;
#[cfg(test)]
mod designs;
#[cfg(test)]
mod printed;
#[cfg(test)]
mod weights;
