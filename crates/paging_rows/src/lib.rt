//! Rows of what paging stands on: the event table, compact forms, numbers of one to five bytes, records on a
//! disk, and the objects in memory. They call only what each crate has public.
#![tactic(auto)]

#[cfg(test)]
mod compact;
#[cfg(test)]
mod events;
#[cfg(test)]
mod loads;
#[cfg(test)]
mod marks;
#[cfg(test)]
mod numbers;
#[cfg(test)]
mod objects;
#[cfg(test)]
mod owns;
#[cfg(test)]
mod pairs;
#[cfg(test)]
mod records;
#[cfg(test)]
mod script;
