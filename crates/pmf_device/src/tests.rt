//! Tests of what is written part by part.

mod pages;
