//! Tests of the tools over devices in memory, and of what a program of compilers is made of: a module for each.
#![tactic(auto)]

#[cfg(test)]
mod images;
#[cfg(test)]
mod inspector;
#[cfg(test)]
mod members;
#[cfg(test)]
mod retooler;
#[cfg(test)]
mod stubs;
#[cfg(test)]
mod words;
