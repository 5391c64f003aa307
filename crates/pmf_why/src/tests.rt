//! Tests of the texts.

mod patched;
mod whole;
