//! Rows of the front end: texts with their tokens, texts with the trees or the faults that scanner and parser make
//! of them, names entered into the symbol table, and programs that link. They call only what each crate has public.
#![tactic(auto)]

#[cfg(test)]
mod linking;
#[cfg(test)]
mod shown;
#[cfg(test)]
mod symbols;
#[cfg(test)]
mod tokens;
#[cfg(test)]
mod trees;
