//! Rows of IL: operators and conversions, the text of programs both ways, and how programs run over objects in
//! memory. They call only what each crate has public.
#![tactic(auto)]

#[cfg(test)]
mod operators;
#[cfg(test)]
mod runs;
#[cfg(test)]
mod texts;
